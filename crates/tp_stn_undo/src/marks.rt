//! What is known of a mark.

/// How many points and edges there were at a mark, and how many points had been saved.
#[derive(Clone, Copy)]
pub(crate) struct LiveMark {
    pub(crate) points: u32,
    pub(crate) edges: u32,
    pub(crate) saved: usize,
}
