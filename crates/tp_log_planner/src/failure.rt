//! Why the items of an event tell no right answer.
ghost use Rattle.std.specs.Prelude.{◌≡◌};
ghost use Rattle.tp_log_planner.specs.Reasons.{reason_of};

use tp_base::Tick;
use tp_bound_laws::TreeFlaw;

#[derive(Clone, Copy, PartialEq, Eq, Debug)]
pub enum Reason {
    /// Another item is due here, or none, or one more.
    Due,
    /// A rule compares these two numbers, and they break it: ticks, or how many actions a plan has and may have.
    Illegal { first: i64, second: i64 },
    /// A point stands at `given`, and could stand at `least`.
    NotLeast { given: Tick, least: Tick },
    /// The tree does not show what is claimed. This is never `TreeFlaw::Memory`.
    Tree(TreeFlaw),
}

/// Why a record is wrong by itself.
#[derive(Clone, Copy)]
pub(crate) enum Wrong {
    Due,
    Illegal { first: i64, second: i64 },
}

/// The reason of a record that is wrong by itself.
pub(crate) fn reason_of(wrong: Wrong) -> Reason
    ensures { result ≡ reason_of wrong }
{
    match wrong {
        Wrong::Due => Reason::Due,
        Wrong::Illegal { first, second } => Reason::Illegal { first, second },
    }
}

/// The number of an item, counted from 0, and why it is wrong. It is the number of all items where another one is due behind
/// them.
#[derive(Clone, Copy, PartialEq, Eq, Debug)]
pub struct WrongItem {
    pub item: usize,
    pub reason: Reason,
}

/// What is wrong, and how many items there are from the wrong one on.
#[derive(Clone, Copy)]
pub(crate) struct FoundReason {
    pub(crate) left: usize,
    pub(crate) reason: Reason,
}

/// Why there is no answer.
#[derive(Clone, Copy)]
pub(crate) enum Failure {
    Memory,
    Stop(FoundReason),
}

impl From<tp_base::Memory> for Failure {
    fn from(_memory: tp_base::Memory) -> Failure {
        Failure::Memory
    }
}
