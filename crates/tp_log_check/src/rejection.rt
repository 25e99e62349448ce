//! Why a log is not accepted.

use crate::Flaw;

/// Why a log is not accepted.
#[derive(Clone, Copy, Debug, PartialEq, Eq)]
pub enum Rejection {
    Memory,
    Source,
    /// The line of this number, counted from 1, has more than 4,194,304 bytes without its LF.
    Line(u64),
    /// The log has more than 10^18 bytes, or more than 1,000,000 lines of events.
    Log,
    /// It is no lawful log with bounds. The flaw is never `Memory`.
    Flaw(Flaw),
}
