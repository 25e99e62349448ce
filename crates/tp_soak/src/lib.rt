//! The case of a number, made, answered by a session, and counted from its log.
#![tactic(auto)]

mod actions;
mod case;
mod case_names;
mod case_run;
mod draws;
mod machine;
mod made_engine;
mod record_counts;
mod resources;
mod script;
mod summary;

pub use case::{Case, soak_case};
pub use case_run::soak;
pub use record_counts::RecordCounts;
