//! The lines of a log, printed and read, and whole logs.
#![tactic(auto)]

mod cause_word;
mod causes;
mod fault;
mod fields;
mod gathered;
mod heading;
mod item;
mod laws;
mod line;
mod log_line;
mod log_reader;
mod plans;
mod record_laws;
mod record_printer;
mod record_reader;

pub use fault::LogFault;
pub use item::Item;
pub use laws::{one_log, one_log_line};
pub use line::print_echo;
pub use log_line::{LogLine, read_log_line};
pub use log_reader::read_log;
pub use record_laws::record_law;
pub use record_printer::{print_record, print_record_by};
