//! The rules of a snapshot that speak of the standing that it tells, beyond the form of each part, each decided exactly.
#![tactic(auto)]

mod copies;
mod courses;
mod order;
mod plans;
mod rules;
mod schedule;
mod waiting_rules;

pub use order::are_in_order;
pub use rules::first_broken;
pub use waiting_rules::keeps_waiting;
