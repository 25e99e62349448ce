//! Saved sessions: a machine and where its session stands as one line of JSON, written and read.
#![tactic(auto)]

mod copies;
mod course;
mod fault;
mod job_names;
mod jobs;
mod json_lookup;
mod json_values;
mod laws;
mod moments;
mod plans;
mod sides;
mod snapshot_reader;
mod snapshot_writer;
mod standing_reader;
mod standing_rules;
mod waiting_copies;

pub use fault::SnapFault;
pub use laws::{snapshots_are_read_back, standings_are_read_back};
pub use snapshot_reader::{Opened, read_snapshot};
pub use snapshot_writer::write_snapshot;
