//! How many holds of its resource stand before each hold.
ghost use Rattle.std.specs.Prelude.{◌≡◌, ◌≢◌, ℕ, ◌<◌, get_or};
ghost use Rattle.tp_schedule.specs.Limits.{most_plan_holds};
ghost use Rattle.tp_bound_check.specs.Ranks as specs;

use std::marker::Model;

/// The most holds of a branch: a plan has no more.
const MOST_HOLDS: usize = 256;

/// For each hold of a branch that has a place, how many kept holds of its resource are before it:
/// four for each choice, the oldest first. A rank stays as the branch grows, so one list serves all
/// branches of the way to a node. For a hold with several places, how many are before the first and
/// before the last of them.
#[derive(Drop)]
pub(crate) struct Ranks {
    before: [u32; MOST_HOLDS],
    lo: u32,
    hi: u32,
}

impl Model for Ranks {
    ghost use Rattle.std.specs.Prelude.{◌≡◌, length};
    ghost use Rattle.tp_schedule.specs.Limits.{most_plan_holds};
    ghost use Rattle.tp_bound_check.specs.Ranks as specs;

    ghost Value = { specs.Ranks };

    ghost view = { λ r. record { before = r.before; lo = r.lo; hi = r.hi } };

    ghost invariant = { λ r. length r.before ≡ most_plan_holds };
}

impl Ranks {
    pub(crate) fn new() -> Ranks {
        Ranks {
            before: [0; MOST_HOLDS],
            lo: 0,
            hi: 0,
        }
    }

    /// The rank of the hold of this number.
    pub(crate) fn before(&self, at: u32) -> u32
        requires { at < most_plan_holds }
        ensures { result ≡ get_or self.now.before at 0 }
    {
        self.before[at as usize]
    }

    pub(crate) fn lo(&self) -> u32
        ensures { result ≡ self.now.lo }
    {
        self.lo
    }

    pub(crate) fn hi(&self) -> u32
        ensures { result ≡ self.now.hi }
    {
        self.hi
    }

    /// The hold of this number has a place with this rank.
    pub(crate) fn put(&mut self, at: u32, rank: u32)
        requires { at < most_plan_holds }
        ensures here { get_or self.new.before at 0 ≡ rank }
        ensures others { (i : ℕ) → i ≢ at → get_or self.new.before i 0
            ≡ get_or self.old.before i 0 }
    {
        self.before[at as usize] = rank;
    }

    /// A hold has several places.
    pub(crate) fn span(&mut self, lo: u32, hi: u32)
        ensures { self.new ≡ record { before = self.old.before; lo = lo; hi = hi } }
    {
        self.lo = lo;
        self.hi = hi;
    }
}
