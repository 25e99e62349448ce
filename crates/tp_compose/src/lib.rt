//! Machines composed of the parts of a rack.
#![tactic(auto)]

mod end_rules;
mod flat_table;
mod laws;
mod rack_machine;
mod type_rules;

pub use laws::walks_are_routes;
pub use rack_machine::{RackFault, compose};
