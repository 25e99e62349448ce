//! How much input is taken.

/// The most bytes of a line, without its LF, and the most lines.
#[derive(Clone, Copy, Debug, PartialEq, Eq)]
pub struct Limits {
    pub bytes: usize,
    pub lines: u64,
}
