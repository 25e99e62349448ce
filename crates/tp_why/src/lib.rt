//! What is wrong with a text, and where.
#![tactic(auto)]

mod machine_answer;
mod sentence;
mod top;
mod why_status;

pub use machine_answer::tell_machine;
pub use top::{WhyMode, why_main};
pub use why_status::WhyStatus;
