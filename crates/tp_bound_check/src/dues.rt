//! What is due.

use crate::branch::Branch;
use tp_machine::HoldRule;

/// What is wrong with a node.
#[derive(Clone, Copy)]
pub(crate) enum NodeFault {
    Uncovered,
    NoSuchHop(u32),
    Weak { reach: i64, cap: i64 },
    NotDead,
}

/// A part of what is due: goals from one on, places from one on for a branch's next hold, or the
/// stop of a branch and the actions before it from one on.
#[derive(Drop)]
pub(crate) enum Frame {
    Nothing,
    Goals(usize),
    Held {
        branch: Branch,
        rule: HoldRule,
        lo: u64,
    },
    Acts {
        branch: Branch,
        with_stop: bool,
        at: Option<u16>,
    },
}
