//! Why a line could not be read.

ghost use Rattle.std.specs.Prelude.{◌≡◌};
ghost use Rattle.tp_script.specs.declared.fault.LineFault.TheVariants.{Memory};

use std::alloc::{AllocError, AllocFailed};

/// Why a line has no event.
#[derive(Clone, Copy, PartialEq, Eq, Debug)]
pub enum LineFault {
    Memory,
    /// The line is off the grammar.
    Syntax,
}

impl From<AllocError> for LineFault {
    ghost from_gives = { λ _ e. e ≡ Memory };

    fn from(_error: AllocError) -> LineFault {
        LineFault::Memory
    }
}

impl<T: Drop> From<AllocFailed<T>> for LineFault {
    ghost from_gives = { λ _ e. e ≡ Memory };

    fn from(_error: AllocFailed<T>) -> LineFault {
        LineFault::Memory
    }
}

impl From<tp_base::Memory> for LineFault {
    ghost from_gives = { λ _ e. e ≡ Memory };

    fn from(_error: tp_base::Memory) -> LineFault {
        LineFault::Memory
    }
}
