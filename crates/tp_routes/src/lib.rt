//! How little time a sheet needs to reach a state.
#![tactic(auto)]

mod index;
mod laws;
mod relaxation;
mod rooms;
mod start_states;
mod state_number;
mod state_queue;

pub use index::{ActEnd, ActionIndex, MOST_ACTIONS};
pub use laws::room_law;
pub use rooms::Rooms;
pub use state_number::{number_of, state_at};
