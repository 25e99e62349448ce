//! A planner that takes its answers from a log: the records and trees of one event.
#![tactic(auto)]

mod action_names;
mod alone;
mod asides;
mod failure;
mod faults;
mod points;
mod settled_times;
mod told;
mod told_answer;
mod told_moves;
mod told_plan;
mod trees;

pub use failure::{Reason, WrongItem};
pub use told::Told;
