//! Points and edges of a network, and what a refusal shows.

/// The number of a point, counted from 0 in the order in which points were added.
#[derive(Clone, Copy, PartialEq, Eq, Debug)]
pub struct PointId(pub u32);

/// A difference constraint: the time of `to` is at least the time of `from` plus `weight` ticks.
#[derive(Clone, Copy, PartialEq, Eq, Debug)]
pub struct Edge {
    pub from: PointId,
    pub to: PointId,
    /// In ticks, from -1,000,000 to 1,000,000.
    pub weight: i64,
    /// Whatever the owner of the edge wants to find again in a proof.
    pub tag: u32,
}

/// Why a change was refused.
#[derive(Clone, Copy)]
pub enum Proof<'a> {
    /// Edges one after another. The lower bound of the first point plus the weights is above the upper bound of the last.
    Chain { first: PointId, edges: &'a [Edge] },
    /// Edges that lead back to the point where they began, with a positive sum of weights.
    Circle { edges: &'a [Edge] },
}
