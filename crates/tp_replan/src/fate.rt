//! What befalls a copy when a module goes out.

/// What befalls a copy that has a plan: nothing; it is lost; its plan goes and it waits again; its plan is cut, and it keeps its
/// goal; its plan is cut, and it is to be purged; the same, and its next copy waits; it is gone.
#[derive(Clone, Copy, PartialEq, Eq)]
pub(crate) enum Fate {
    Stays,
    Lost,
    Withdrawn,
    Cut,
    Purged,
    Replaced,
    Dropped,
}
