//! Lawful runs: what a run of the program is, its text, and why the records of live parts are those of the whole.
#![tactic(auto)]

mod laws;

pub use laws::{
    answered_events_are_lawful, answered_events_go_on, answered_lines_are_lawful,
    answered_scripts_are_lawful, bound_runs_have_short_lines, live_turns_are_whole,
    right_planners_turn_rightly, runs_keep_promises, shown_trees_have_lines,
    stopped_scripts_are_lawful, turns_have_lines,
};
