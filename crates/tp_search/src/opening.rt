//! A list that is being opened.
use tp_base::Tick;
use tp_machine::State;

/// The list that is being opened: its node, if it is stored, its goal state and its bound; how many lists were stored
/// before; and the bound at which no dive is tried, if there is one.
#[derive(Clone, Copy)]
pub(crate) struct Opening {
    pub(crate) parent: Option<u32>,
    pub(crate) goal: State,
    pub(crate) bound: Tick,
    pub(crate) stored: u32,
    pub(crate) barred: Option<Tick>,
}
