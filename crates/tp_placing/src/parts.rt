//! What a board was made for, and what it changed.
use tp_base::{PointId, Tick};
use tp_machine::{ActId, HoldRule};

/// The numbers of the machine that a board was made for.
#[derive(Clone, Copy, PartialEq, Eq, Debug)]
pub struct MadeFor {
    pub locations: u32,
    pub resources: u32,
    pub window: Tick,
}

/// A hold that stands in the orders: its rule, and the points where its action starts and ends.
#[derive(Clone, Copy)]
pub struct Held {
    pub rule: HoldRule,
    pub start: PointId,
    pub end: PointId,
}

/// When a hold of a loaded schedule begins, in ticks, and the hold's number.
#[derive(Clone, Copy)]
pub(crate) struct Begin {
    pub(crate) tick: i64,
    pub(crate) hold: u32,
}

/// What is done to a board that was loaded.
#[derive(Clone, Copy)]
pub enum Change {
    /// A goal is opened, to be reached with so much room.
    Goal { room: u32 },
    /// An action is opened before the others, with so much room before it.
    Action { act: ActId, room: u32 },
    /// The next hold of the newest action is placed.
    Place { place: u32 },
    /// The list is stopped.
    Stop,
}

/// A change, and what stands after it: the newest action, if there is one, and the first own point.
#[derive(Clone, Copy)]
pub(crate) struct Step {
    pub(crate) change: Change,
    pub(crate) newest: Option<ActId>,
    pub(crate) first: PointId,
}

/// How many steps and holds there were at a mark.
#[derive(Clone, Copy)]
pub(crate) struct BoardMark {
    pub(crate) steps: u32,
    pub(crate) held: u32,
}
