//! The choices of a branch, in place.
ghost use Rattle.std.specs.Prelude.{◌≡◌, ◌+◌, ◌<◌, ◌≤◌, ◌-◌, [], ◌∷◌, ◌++◌, length, slice_get, Some, set, map, take, reverse};
ghost use Rattle.tp_machine.specs.Limits.{most_act_holds};
ghost use Rattle.tp_schedule.specs.Limits.{most_acts};
ghost use Rattle.tp_bound_check.specs.Branches.{IsRaw, choice_by, newest_in, with_one};
ghost use Rattle.tp_constraints.specs.Suffixes.{place_first};

use std::marker::Model;
use tp_machine::ActId;

/// The most choices of a branch: a plan has no more actions.
const MOST_ACTS: usize = 64;

/// An action with the places of its first holds.
#[derive(Clone, Copy)]
pub(crate) struct Raw {
    act: ActId,
    places: [u32; 4],
    count: u32,
}

/// At most 64 choices, the oldest first.
#[derive(Drop)]
pub(crate) struct Choices {
    raw: [Raw; MOST_ACTS],
    len: u32,
}

impl Model for Choices {
    ghost use Rattle.std.specs.Prelude.{List, length, map, take, All, ◌≤◌, ◌≡◌};
    ghost use Rattle.tp_schedule.specs.Choices.{Choice};
    ghost use Rattle.tp_schedule.specs.Limits.{most_acts};
    ghost use Rattle.tp_bound_check.specs.Branches.{choice_by, IsRaw};

    ghost Value = { List Choice };

    ghost view = { λ c. map choice_by (take c.len c.raw) };

    ghost invariant = { λ c. (c.len ≤ most_acts) × (length c.raw ≡ most_acts)
        × All IsRaw (take c.len c.raw) };
}

impl Choices {
    ghost use Rattle.tp_schedule.specs.Choices.{Choice};

    pub(crate) fn new() -> Choices
        ensures { result ≡ [] }
    {
        let none = Raw {
            act: ActId(0),
            places: [0; 4],
            count: 0,
        };
        Choices {
            raw: [none; MOST_ACTS],
            len: 0,
        }
    }

    pub(crate) fn copy(&self) -> Choices
        ensures { result ≡ self.now }
    {
        Choices {
            raw: self.raw,
            len: self.len,
        }
    }

    pub(crate) fn len(&self) -> u32
        ensures len { result ≡ length self.now }
        ensures within { length self.now ≤ most_acts }
    {
        self.len
    }

    /// The action of the choice at a place.
    pub(crate) fn act(&self, at: u32) -> ActId
        requires { at < length self.now }
        ensures { (c : Choice) → slice_get self.now at ≡ Some c → result ≡ c.act }
    {
        self.raw[at as usize].act
    }

    /// The places of the choice.
    pub(crate) fn places(&self, at: u32) -> &[u32]
        requires { at < length self.now }
        ensures places { (c : Choice) → slice_get self.now at ≡ Some c
            → result.now ≡ c.places }
        ensures few { length result.now ≤ most_act_holds }
    {
        let raw = &self.raw[at as usize];
        &raw.places[..raw.count as usize]
    }

    /// One choice more.
    pub(crate) fn add(&mut self, act: ActId)
        requires { length self.old < most_acts }
        ensures { self.new ≡ self.old ++ record { act = act; places = [] } ∷ [] }
    {
        self.raw[self.len as usize] = Raw {
            act,
            places: [0; 4],
            count: 0,
        };
        self.len += 1;
    }

    /// One place more for the choice.
    pub(crate) fn place(&mut self, at: u32, place: u32)
        requires known { at < length self.old }
        requires room { (c : Choice) → slice_get self.old at ≡ Some c
            → length c.places < most_act_holds }
        ensures { (c : Choice) → slice_get self.old at ≡ Some c → self.new ≡ set self.old at
            (with_one place c) }
    {
        let raw = more(self.raw[at as usize], place);
        self.raw[at as usize] = raw;
    }

    /// One place more for the newest choice.
    pub(crate) fn place_newest(&mut self, place: u32)
        requires some { 0 < length self.old }
        requires room { (c : Choice) → newest_in (reverse self.old) ≡ Some c
            → length c.places < most_act_holds }
        ensures choices { reverse self.new ≡ place_first place (reverse self.old) }
        ensures len { length self.new ≡ length self.old }
    {
        self.place(self.len() - 1, place);
    }
}

fn more(raw: Raw, place: u32) -> Raw
    requires few { raw.count < most_act_holds }
    requires four { length raw.places ≡ 4 }
    ensures choice { choice_by result ≡ with_one place (choice_by raw) }
    ensures raw { IsRaw result }
{
    let mut places = raw.places;
    places[raw.count as usize] = place;
    Raw {
        act: raw.act,
        places,
        count: raw.count + 1,
    }
}
