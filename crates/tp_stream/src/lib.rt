//! Input read line by line, each line answered by whoever answers events, and its answer written before the next line is handled.
#![tactic(auto)]

mod input_loop;
mod limits;
mod pieces;
mod probe;
mod script;
mod stop;
mod taker;
mod teller;

pub use input_loop::stream;
pub use limits::Limits;
pub use probe::Probe;
pub use script::{SCRIPT_LIMITS, answer_script};
pub use stop::{Refusal, Stop};
pub use taker::LineTaker;
pub use teller::Teller;
