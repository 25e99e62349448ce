//! A branch of a bound tree, as the check carries it.
ghost use Rattle.std.specs.Prelude.{◌≡◌, ℕ, ◌+◌, ◌<◌, ◌≤◌, ◌-◌, [], ◌∷◌, ◌++◌, length, slice_get, Some, reverse, Option};
ghost use Rattle.tp_machine.specs.Limits.{most_act_holds};
ghost use Rattle.tp_constraints.specs.Suffixes.{room_of, with_action, with_goal, with_place, with_stop};
ghost use Rattle.tp_schedule.specs.Choices.{Choice};
ghost use Rattle.tp_schedule.specs.Limits.{most_acts};
ghost use Rattle.tp_bound_laws.specs.Chains.{choice_act};
ghost use Rattle.tp_bound_check.specs.Branches.{newest_in};

use crate::choices::Choices;
use std::marker::Model;
use tp_base::Tick;
use tp_machine::{ActId, State};
use tp_schedule::Points;

/// A branch: choices and rooms, the oldest first, and the state before them.
#[derive(Drop)]
pub(crate) struct Branch {
    depth: u32,
    first: State,
    choices: Choices,
    rooms: Points,
    stopped: bool,
}

impl Model for Branch {
    ghost use Rattle.std.specs.Prelude.{length, ◌+◌, ◌≡◌};
    ghost use Rattle.tp_bound_laws.specs.Places as places;
    ghost use Rattle.tp_bound_check.specs.Branches.{branch_by};

    ghost Value = { places.Branch };

    ghost view = { λ b. branch_by b.depth b.first b.choices b.rooms b.stopped };

    ghost invariant = { λ b. length b.rooms ≡ length b.choices + 1 };
}

impl Branch {
    /// A goal with so much room.
    pub(crate) fn goal(first: State, room: Tick) -> Branch
        ensures { result ≡ record { depth = 0; first = first; x = with_goal room } }
    {
        let mut rooms = Points::new();
        rooms.push(room);
        Branch {
            depth: 0,
            first,
            choices: Choices::new(),
            rooms,
            stopped: false,
        }
    }

    pub(crate) fn copy(&self) -> Branch
        ensures { result ≡ self.now }
    {
        Branch {
            depth: self.depth,
            first: self.first,
            choices: self.choices.copy(),
            rooms: self.rooms.copy(),
            stopped: self.stopped,
        }
    }

    pub(crate) fn depth(&self) -> u32
        ensures { result ≡ self.now.depth }
    {
        self.depth
    }

    pub(crate) fn first(&self) -> State
        ensures { result ≡ self.now.first }
    {
        self.first
    }

    pub(crate) fn is_stopped(&self) -> bool
        ensures { result ≡ self.now.x.stopped }
    {
        self.stopped
    }

    /// How many choices it has.
    pub(crate) fn count(&self) -> u32
        ensures count { result ≡ length self.now.x.choices }
        ensures within { length self.now.x.choices ≤ most_acts }
    {
        self.choices.len()
    }

    /// The room of an own point.
    pub(crate) fn room(&self, at: u32) -> Tick
        ensures { result ≡ room_of self.now.x.rooms at }
    {
        if at < self.rooms.len() {
            self.rooms.get(at)
        } else {
            0
        }
    }

    /// The action that runs to an own point.
    pub(crate) fn act(&self, at: u32) -> Option<ActId>
        ensures { result ≡ choice_act (slice_get (reverse self.now.x.choices) at) }
    {
        if at < self.choices.len() {
            Some(self.choices.act(at))
        } else {
            None
        }
    }

    /// The places of a choice, by its number from the end.
    pub(crate) fn places(&self, at: u32) -> &[u32]
        requires { at < length self.now.x.choices }
        ensures { (c : Choice) → slice_get (reverse self.now.x.choices) at
            ≡ Some c → result.now ≡
            c.places }
    {
        self.choices.places(at)
    }

    /// This branch, cut or grown to another depth.
    pub(crate) fn deeper(&self, depth: u32) -> Branch
        ensures { result ≡ record { depth = depth; first = self.now.first; x = self.now.x } }
    {
        let mut branch = self.copy();
        branch.depth = depth;
        branch
    }

    pub(crate) fn stop(&self, depth: u32) -> Branch
        ensures { result ≡ record {
          depth = depth;
          first = self.now.first;
          x = with_stop self.now.x;
        } }
    {
        let mut branch = self.copy();
        branch.depth = depth;
        branch.stopped = true;
        branch
    }

    /// One action more, from this state.
    pub(crate) fn act_before(&self, depth: u32, act: ActId, first: State, room: Tick) -> Branch
        requires { length self.now.x.choices < most_acts }
        ensures { result ≡ record {
          depth = depth;
          first = first;
          x = with_action act room
              self.now.x;
        } }
    {
        let mut choices = self.choices.copy();
        let mut rooms = self.rooms.copy();
        choices.add(act);
        rooms.push(room);
        Branch {
            depth,
            first,
            choices,
            rooms,
            stopped: self.stopped,
        }
    }

    /// One place more for the newest choice.
    pub(crate) fn place(&self, depth: u32, place: u32) -> Branch
        requires some { 0 < length self.now.x.choices }
        requires room { (c : Choice) → newest_in self.now.x.choices ≡ Some c
            → length c.places < most_act_holds }
        ensures { result ≡ record {
          depth = depth;
          first = self.now.first;
          x = with_place place
              self.now.x;
        } }
    {
        let mut choices = self.choices.copy();
        choices.place_newest(place);
        Branch {
            depth,
            first: self.first,
            choices,
            rooms: self.rooms.copy(),
            stopped: self.stopped,
        }
    }
}
