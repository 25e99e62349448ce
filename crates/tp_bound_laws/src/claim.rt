//! What a bound tree is to show, and what may be wrong with one.
use tp_base::Tick;

/// What a tree is to show: that no alternative ends before the tick, or that there is none.
#[derive(Clone, Copy, PartialEq, Eq, Debug)]
pub enum Claim {
    Earliest(Tick),
    Never,
}

/// What is wrong with a tree, or that memory ran out. Rows, nodes and hops count from 0.
#[derive(Clone, Copy, PartialEq, Eq, Debug)]
pub enum TreeFlaw {
    Memory,
    /// The row isn't of a location's state, an earlier row has its state, or a step from it leads to
    /// no row as small as is asked. Where a start state has no row of 0, the number of rows.
    RoomRow { row: u64 },
    /// The node isn't the one that is due, or is split and may not be. Where a node is still due, the
    /// number of nodes.
    Uncovered { node: u64 },
    /// The hop isn't allowed there, or is the last of a loop that doesn't come back. An unknown first
    /// point counts as hop 0.
    NoSuchHop { node: u64, hop: u32 },
    /// A chain comes no later than its last point may, or a loop takes no time. In ticks.
    Weak { node: u64, reach: i64, cap: i64 },
    /// The node's state can be reached, or it is no goal and no action.
    NotDead { node: u64 },
}
