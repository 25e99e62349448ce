//! The records of answers to asks and of points that moved, and the names that records use.
#![tactic(auto)]

mod answer_records;
mod labels;
mod times;

pub use answer_records::{tell_all_moves, tell_alone, tell_full, tell_reply};
pub use labels::{action_name, end_name, goal_name, label, location_name};
pub use times::Times;
