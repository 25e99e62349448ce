//! The event of a line, and the machine that the line names.

use tp_script::Event;

/// The event of a line of a farm's script.
#[derive(Drop)]
pub struct Addressed {
    pub event: Event,
    /// The machine that the line names, counted from 1; machine 1 where it names none.
    pub number: u32,
}
