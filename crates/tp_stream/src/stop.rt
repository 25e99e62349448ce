//! Why lines are not answered.

ghost use Rattle.std.specs.Prelude.{◌≡◌};
ghost use Rattle.tp_stream.specs.declared.stop.Stop.{Stop};

use std::alloc::{AllocError, AllocFailed};

/// Why a line was not answered.
#[derive(Clone, Copy, Debug, PartialEq, Eq)]
pub enum Refusal {
    Memory,
    /// The one that answers refuses the line, and knows why.
    Refused,
}

/// Why not all lines were answered.
#[derive(Clone, Copy, Debug, PartialEq, Eq)]
pub enum Stop {
    Memory,
    Refused,
    Source,
    Sink,
    /// The line of this number, counted from 1, is too long.
    Line(u64),
    /// There is one line more than may be.
    Lines,
}

impl From<AllocError> for Stop {
    ghost from_gives = { λ _ e. e ≡ Stop.Memory };

    fn from(_: AllocError) -> Self {
        Stop::Memory
    }
}

impl<T: Drop> From<AllocFailed<T>> for Stop {
    ghost from_gives = { λ _ e. e ≡ Stop.Memory };

    fn from(_: AllocFailed<T>) -> Self {
        Stop::Memory
    }
}
