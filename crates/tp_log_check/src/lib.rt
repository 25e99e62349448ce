//! Logs checked entry by entry, from a source to the line of counts: each record is the one that is due, and each plan and each none is proved by its tree.
#![tactic(auto)]

mod checked;
mod checker;
mod counts;
mod event_check;
mod first_difference;
mod flaw;
mod flaw_lines;
mod judgement;
mod line_counts;
mod log_source;
mod next_entry;
mod pending;
mod quiet;
mod record_equality;
mod rejection;
mod summary;

pub use checker::LogChecker;
pub use counts::Counts;
pub use flaw::Flaw;
pub use log_source::check_log;
pub use pending::Pending;
pub use record_equality::same_record;
pub use rejection::Rejection;
pub use summary::summary_line;
