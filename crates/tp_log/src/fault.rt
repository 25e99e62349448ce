//! Why a text is no log.
ghost use Rattle.std.specs.Prelude.{◌≡◌};
ghost use Rattle.tp_log.specs.declared.fault.LogFault.TheVariants.{Memory};

use std::alloc::AllocFailed;

/// Why a text is no log.
#[derive(Clone, Copy, PartialEq, Eq, Debug)]
pub enum LogFault {
    Memory,
    /// The first line that is off the grammar, counted from 1.
    Bad(u64),
}

impl<T: Drop> From<AllocFailed<T>> for LogFault {
    ghost from_gives = { λ _ e. e ≡ Memory };

    fn from(_error: AllocFailed<T>) -> LogFault {
        LogFault::Memory
    }
}

impl From<tp_base::Memory> for LogFault {
    ghost from_gives = { λ _ e. e ≡ Memory };

    fn from(_error: tp_base::Memory) -> LogFault {
        LogFault::Memory
    }
}
