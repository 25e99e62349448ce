//! Where an own hold stands among the kept ones.
use crate::points::Slot;

/// An own hold among the kept ones of its resource: so many are before it, and those from `hi` on
/// stand behind it.
#[derive(Clone, Copy)]
pub(crate) struct Stance {
    pub(crate) slot: Slot,
    pub(crate) lo: u32,
    pub(crate) hi: u32,
}
