//! Accepted logs: why entries whose turns are taken over the answers that a log tells, with their trees, make a lawful log.
#![tactic(auto)]

mod laws;

pub use laws::{
    accepted_logs_are_lawful, accepted_turns_come_back, bound_runs_are_accepted,
    lawful_turns_are_accepted, told_turns_are_whole,
};
