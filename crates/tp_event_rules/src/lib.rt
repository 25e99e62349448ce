//! What one event does to a session: its records and the next state.
#![tactic(auto)]

mod laws;
mod live_state;
mod tell;

pub use laws::{
    clock_keeps_state, coming_back_keeps_state, loop_goes_on, new_job_keeps_state,
    outages_keep_planning, refused_events_change_nothing, stocks_are_never_overdrawn,
    turns_keep_planning, turns_keep_state,
};
pub use live_state::{LiveState, Remembered};
pub use tell::Tell;
