//! A module goes out: what befalls the copies that are planned.
#![tactic(auto)]

mod copy_labels;
mod displaced;
mod early_release;
mod fall_backs;
mod fate;
mod fate_effects;
mod fate_records;
mod fate_rules;
mod job_break;
mod loose_ask;
mod loose_loop;
mod lost_copies;
mod module_out;
mod moments;
mod outage;
mod outage_turn;
mod remaining_plans;
mod unplanned_copy;

pub use outage::Outage;
pub use outage_turn::{go_out, handle_out};
