//! A session: it takes events in turn and appends the text of each, and why it stands where it is sound to go on from.
#![tactic(auto)]

mod job_probe;
mod laws;
mod session;
mod session_turn;
mod settings;
mod standing_laws;
mod stock;
mod turn_text;

pub use laws::{engines_answer_alone, sessions_are_lawful, sessions_go_on, sessions_stand_soundly};
pub use session::{Session, SessionOver};
pub use settings::Settings;
pub use standing_laws::{empty_state_is_sound, kept_states_stand_soundly, turns_keep_sound};
pub use tp_stream::Probe;
