//! Where the route of an asked copy begins.

ghost use Rattle.std.specs.Prelude.{◌≡◌};

use crate::parts::Origin;

impl Origin {
    ghost use Rattle.tp_schedule.specs.Answers.{kept_from};

    /// How many actions the copy keeps: none of a new copy.
    pub fn kept(self) -> u32
        ensures { result ≡ kept_from self }
    {
        match self {
            Origin::Feeder => 0,
            Origin::Front { kept, .. } => kept,
        }
    }
}
