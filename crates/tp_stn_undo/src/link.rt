//! Edges, linked by where they begin.
use tp_base::Edge;

/// An edge, and the number of the one before it that begins at the same point, counted from 1, or 0.
#[derive(Clone, Copy)]
pub(crate) struct Link {
    pub(crate) edge: Edge,
    pub(crate) older: u32,
}
