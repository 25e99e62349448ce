//! What a search is for.

use tp_machine::Machine;
use tp_routes::Rooms;
use tp_schedule::Ask;

/// An ask on a machine, with the rooms of the states for this ask.
#[derive(Clone, Copy)]
pub(crate) struct Problem<'a> {
    pub(crate) rooms: &'a Rooms,
    pub(crate) machine: &'a Machine,
    pub(crate) ask: &'a Ask,
}
