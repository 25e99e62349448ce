//! Why the clock is not moved.

ghost use Rattle.std.specs.Prelude.{◌≡◌};
ghost use Rattle.tp_release.specs.declared.fault.AdvanceFault.TheVariants.{Memory};

use tp_base::Tick;

/// Why the clock is not moved: want of memory, a moment before the one that it is, or one behind the clock's last.
#[derive(Clone, Copy, PartialEq, Eq, Debug)]
pub enum AdvanceFault {
    Memory,
    /// The moment that it is.
    ClockBack { now: Tick },
    ClockEnd,
}

impl From<tp_base::Memory> for AdvanceFault {
    ghost from_gives = { λ _ e. e ≡ Memory };

    fn from(_error: tp_base::Memory) -> AdvanceFault {
        AdvanceFault::Memory
    }
}
