//! Points, and what they were.
use tp_base::PointId;

/// What changes of a point: its lower bound, its time in the least solution, and the number of the edge that it was
/// raised along last, counted from 1; or 0, where its time is its lower bound.
#[derive(Clone, Copy)]
pub(crate) struct PointState {
    pub(crate) low: u32,
    pub(crate) time: u32,
    pub(crate) cause: u32,
}

/// What a point was before it changed.
#[derive(Clone, Copy)]
pub(crate) struct SavedState {
    pub(crate) point: PointId,
    pub(crate) state: PointState,
}
