//! One choice, as the pool stores it.
use tp_base::Tick;
use tp_machine::{ActId, State};

/// An action with the places of its holds, as many of them as it has holds, or, without an action, the stop of a list.
/// `goal` is the goal state of the list.
#[derive(Clone, Copy, PartialEq, Eq, Debug)]
pub struct Choice {
    pub act: Option<ActId>,
    pub goal: State,
    pub places: [u32; 4],
}

/// A list of choices: its parent's with one choice more, or the choice alone.
#[derive(Clone, Copy)]
pub(crate) struct ListNode {
    pub(crate) parent: Option<u32>,
    /// How many choices the list has.
    pub(crate) depth: u32,
    pub(crate) choice: Choice,
    pub(crate) bound: Tick,
}
