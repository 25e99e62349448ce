//! Why a job is not accepted.

ghost use Rattle.std.specs.Prelude.{◌≡◌};
ghost use Rattle.tp_jobs.specs.declared.fault.JobFault.TheVariants.{Memory};

use std::alloc::{AllocError, AllocFailed};
use tp_base::Name;

/// Why a job is not accepted: want of memory, no tray of this name, no feeder of this media, an
/// earlier job of this name, or more copies than may wait.
#[derive(Clone, Copy, PartialEq, Eq, Debug)]
pub enum JobFault {
    Memory,
    UnknownTray(Name),
    UnknownMedia(Name),
    TwiceNamed(Name),
    /// So many copies wait already, and the job asks for so many more.
    TooManyWaiting { waiting: u32, asked: u64 },
}

impl From<AllocError> for JobFault {
    ghost from_gives = { λ _ e. e ≡ Memory };

    fn from(_error: AllocError) -> JobFault {
        JobFault::Memory
    }
}

impl<T: Drop> From<AllocFailed<T>> for JobFault {
    ghost from_gives = { λ _ e. e ≡ Memory };

    fn from(_error: AllocFailed<T>) -> JobFault {
        JobFault::Memory
    }
}

impl From<tp_base::Memory> for JobFault {
    ghost from_gives = { λ _ e. e ≡ Memory };

    fn from(_error: tp_base::Memory) -> JobFault {
        JobFault::Memory
    }
}
