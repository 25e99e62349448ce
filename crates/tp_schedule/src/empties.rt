//! Sets of locations.

ghost use Rattle.std.specs.Prelude.{◌≡◌, ◌<◌, ◌==◌, ◌||◌};
ghost use Rattle.tp_machine.specs.Limits.{most_locations};
ghost use Rattle.tp_machine.specs.declared.parts.LocId.{LocId};
ghost use Rattle.tp_schedule.specs.LocationSets.{word_with};

use crate::parts::Empties;
use tp_machine::LocId;

/// The word of this number with the location's bit, if it stands there.
fn word_with(loc: LocId, number: u16, word: u64) -> u64
    ensures { result ≡ word_with loc number word }
{
    if loc.0 / 64 == number {
        word | 1 << (loc.0 % 64)
    } else {
        word
    }
}

impl Empties {
    ghost use Rattle.tp_schedule.specs.LocationSets.{has, nowhere, with};

    /// No location.
    pub fn none() -> Empties
        ensures { result ≡ nowhere }
    {
        Empties {
            w0: 0,
            w1: 0,
            w2: 0,
            w3: 0,
        }
    }

    /// Whether the location is in the set.
    pub fn has(&self, loc: LocId) -> bool
        requires { loc.0 < most_locations }
        ensures { result ≡ has self.now loc }
    {
        let words = [self.w0, self.w1, self.w2, self.w3];
        (words[usize::from(loc.0 / 64)] >> (loc.0 % 64)) & 1 == 1
    }

    /// This set and one location more.
    pub fn with(self, loc: LocId) -> Empties
        requires { loc.0 < most_locations }
        ensures is { result ≡ with self loc }
        ensures members { (other : LocId) → has result other ≡ (has self other
            || (other.0 == loc.0)) }
    {
        Empties {
            w0: word_with(loc, 0, self.w0),
            w1: word_with(loc, 1, self.w1),
            w2: word_with(loc, 2, self.w2),
            w3: word_with(loc, 3, self.w3),
        }
    }
}
