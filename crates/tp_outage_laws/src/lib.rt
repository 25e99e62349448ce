//! What a module that goes out keeps: jobs, lines and sheets of whole states, and all that a live state keeps.
#![tactic(auto)]

mod laws;

pub use laws::{outages_keep_live, outages_keep_state};
