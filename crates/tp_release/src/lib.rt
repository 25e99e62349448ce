//! The clock moves: its records, which actions are released, and which plans go.
#![tactic(auto)]

mod clock_advance;
mod dated;
mod fault;
mod plan_records;
mod released_acts;

pub use clock_advance::advance;
pub use fault::AdvanceFault;
pub use tp_event_rules::Tell;
