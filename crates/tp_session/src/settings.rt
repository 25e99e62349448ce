//! How a session is set.

/// What is set of a session.
#[derive(Clone, Copy, Debug, PartialEq, Eq)]
pub struct Settings {
    /// How many lists of choices an ask may store, 1 to 200,000; None for the machine's number.
    pub budget: Option<u32>,
    /// Whether each plan and each none is followed by a tree that proves it.
    pub bounds: bool,
}
