//! Where a session stands as plain values: which standings are sound, which state one tells, and why a session can go on from it.
#![tactic(auto)]

mod laws;
mod live_standing;
mod restored_state;
mod stock_rows;

pub use laws::sound_standings_go_on;
pub use live_standing::standing_of;
pub use restored_state::{schedule_of, state_of};
