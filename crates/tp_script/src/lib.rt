//! The lines of a script, read and printed.
#![tactic(auto)]

mod echo;
mod event;
mod event_printer;
mod event_reader;
mod fault;
mod group;
mod laws;
mod letters;
mod verb;

pub use echo::read_printed;
pub use event::{Event, Group};
pub use event_printer::print_event;
pub use event_reader::read_line;
pub use fault::LineFault;
pub use laws::{one_reading, one_text, printed_is_read, reading_is_grammar};
pub use letters::{face_letter, read_face};
