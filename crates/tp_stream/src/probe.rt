//! What a probe tells.

use tp_base::Tick;

/// What an ask for the first sheet of a job would give.
#[derive(Clone, Copy, PartialEq, Eq, Debug)]
pub enum Probe {
    /// The sheet would be planned, and end at this tick.
    Ends(Tick),
    /// There would be no plan.
    Never,
    /// The budget would be spent. No plan ends before this tick.
    Spent(Tick),
    /// 256 copies are live.
    Full,
    /// A copy of the job's line waits.
    Waits,
    /// The event is no job, or would be refused.
    Refused,
}
