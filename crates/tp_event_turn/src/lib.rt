//! The turn of one event on the live part of a session, over any planner.
#![tactic(auto)]

mod ask_phase;
mod clock_turn;
mod event_turn;
mod job_order;
mod job_turn;
mod laws;
mod live_part;
mod module_check;
mod module_turn;
mod out_fault;
mod refill_order;
mod refill_turn;
mod refusal_records;

pub use ask_phase::MOST_LIVE;
pub use event_turn::take_event;
pub use laws::{empty_state_can_begin, turns_keep_stock};
pub use live_part::{
    live_answers_hold, live_asks_hold, live_part_moves_alike, live_turns_hold, whole_answers_hold,
    whole_turns_hold,
};
pub use module_check::check_module;
pub use out_fault::OutFault;
