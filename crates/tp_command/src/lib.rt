//! The words of the command line.
#![tactic(auto)]

mod request;
mod request_reader;
mod word_matches;

pub use request::{Mode, Request, WordsFault};
pub use request_reader::{read_request, read_seed};
