//! The trays whose lines are passed over.
ghost use Rattle.std.specs.Prelude.{◌≡◌, ◌<◌, ◌||◌, ◌==◌, false};
ghost use Rattle.tp_machine.specs.Limits.{most_locations};
ghost use Rattle.tp_machine.specs.declared.parts.LocId.{LocId};
ghost use Rattle.tp_jobs.specs.NextTry.{is_blocked};

use std::marker::Model;
use tp_machine::LocId;

/// A set of locations: the trays whose lines are passed over.
#[derive(Drop)]
pub struct Blocked {
    marks: [bool; 256],
}

// Clauses see a mark for each location.
impl Model for Blocked {
    ghost use Rattle.std.specs.Prelude.{◌≡◌, List, Bool, length};
    ghost use Rattle.tp_machine.specs.Limits.{most_locations};

    ghost Value = { List Bool };

    ghost view = { λ b. b.marks };

    ghost invariant = { λ b. length b.marks ≡ most_locations };
}

impl Blocked {
    /// No location.
    pub fn none() -> Blocked
        ensures { (loc : LocId) → is_blocked result loc ≡ false }
    {
        Blocked {
            marks: [false; 256],
        }
    }

    /// This location too.
    pub fn add(&mut self, loc: LocId)
        requires { loc.0 < most_locations }
        ensures { (location : LocId)
            → is_blocked self.new location
            ≡ ((location.0 == loc.0) || is_blocked self.old location) }
    {
        self.marks[usize::from(loc.0)] = true;
    }

    pub(crate) fn contains(&self, loc: LocId) -> bool
        ensures { result ≡ is_blocked self.now loc }
    {
        match self.marks.get(usize::from(loc.0)) {
            Some(mark) => *mark,
            None => false,
        }
    }
}
