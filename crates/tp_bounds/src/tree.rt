//! Bound trees as values: a row for each room, and nodes.
use crate::hops::{Hops, TreePoint};
use crate::lists::{Nodes, TreeRows};
use tp_base::Name;
use tp_machine::Face;

/// A state by the name of its location.
#[derive(Clone, Copy, PartialEq, Eq, Debug)]
pub struct NamedState {
    pub place: Name,
    pub up: Face,
    pub front_done: bool,
    pub back_done: bool,
}

/// A lower bound of the room of a state, in ticks: no allowed actions that lead to it from a start
/// state take less.
#[derive(Clone, Copy, PartialEq, Eq, Debug)]
pub struct TreeRow {
    pub state: NamedState,
    pub room: u32,
}

/// What a node adds to its parent: nothing yet but a goal, an action before the others, a place or
/// a range of places for the next hold of that action, or the stop at the front's end.
#[derive(Clone, Copy, PartialEq, Eq, Debug)]
pub enum Head {
    Goal { state: NamedState },
    Act { name: Name },
    At { resource: Name, lo: u32, hi: u32 },
    Stop,
}

/// Why no alternative goes through a node: none goes through a child of it, its state can't be
/// reached, a chain comes too late at its last point, or a loop would have to take time.
#[derive(Drop)]
pub enum Close {
    Split,
    Dead,
    Chain { first: TreePoint, hops: Hops },
    Loop { first: TreePoint, hops: Hops },
}

#[derive(Drop)]
pub struct Node {
    pub depth: u32,
    pub head: Head,
    pub close: Close,
}

/// Room rows, and nodes that stand parent first.
pub struct BoundTree {
    pub rows: TreeRows,
    pub nodes: Nodes,
}

// What becomes of its parts is proved here, once for all who let go of one.
impl Drop for BoundTree {
    fn drop(self) {
        let BoundTree { rows: _, nodes: _ } = self;
    }
}
