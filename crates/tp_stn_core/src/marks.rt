//! The marks of the plain network.

/// How many points and edges there were at a mark, and how many lower bounds had been saved.
#[derive(Clone, Copy)]
pub(crate) struct PlainMark {
    pub(crate) points: u32,
    pub(crate) edges: u32,
    pub(crate) saved: usize,
}
