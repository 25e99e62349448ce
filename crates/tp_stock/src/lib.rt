//! The free stock of feeders: what plans took is counted, and what is forgotten is taken off the refills.
#![tactic(auto)]

mod laws;
mod refills;
mod stock;
mod taken;

pub use laws::{forgetting_keeps_empties, forgetting_keeps_stock};
pub use refills::Refills;
pub use stock::{empty_feeders, feeder_at, feeder_named, free_stock};
pub use taken::{Taken, count_taken};
