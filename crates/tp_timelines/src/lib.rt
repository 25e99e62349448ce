//! The order of the holds on each resource, that can be taken back to a mark.
#![tactic(auto)]

mod inserts;
mod timelines;

pub use timelines::Timelines;
