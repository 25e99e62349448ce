//! The program `verify` over its outside: a log checked on the machine of a text, with no search and no network below it.
#![tactic(auto)]

mod check;
mod machine;
mod order;
mod verify;
mod verify_status;

pub use order::{lawful_logs_are_verified, logs_in_order_are_verified, runs_are_verified};
pub use verify::verify_main;
pub use verify_status::{LongInput, VerifyStatus};
