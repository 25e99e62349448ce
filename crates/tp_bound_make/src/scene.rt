//! What a tree is made for, and what a board carries on the way.

ghost use Rattle.std.specs.Prelude.{◌≡◌, ◌<◌, length, IfSome};
ghost use Rattle.tp_machine.specs.declared.parts.ActId.{ActId};
ghost use Rattle.tp_bound_make.specs.TreeProgress.{hold_of};

use std::alloc::Global;
use tp_base::Tick;
use tp_machine::{ActId, HoldRule, Machine, State};
use tp_routes::Rooms;
use tp_schedule::Ask;

/// Why there is no tree: memory ran out, or some alternative ends by the limit.
#[derive(Clone, Copy, PartialEq, Eq)]
pub enum NotShown {
    Memory,
    Early,
}

/// An ask on a machine with the rooms of its states, and the last tick that is too early.
#[derive(Clone, Copy)]
pub(crate) struct ShowScene<'a> {
    pub(crate) alloc: Global,
    pub(crate) rooms: &'a Rooms,
    pub(crate) machine: &'a Machine,
    pub(crate) ask: &'a Ask,
    pub(crate) limit: Tick,
}

/// What the board carries: the depth of its node, the state that the choices begin in, how many
/// they are, and the newest with the number of its places.
#[derive(Clone, Copy)]
pub(crate) struct ShowBranch {
    pub(crate) depth: u32,
    pub(crate) first: State,
    pub(crate) count: u32,
    pub(crate) newest: Option<ActId>,
    pub(crate) places: u32,
}

impl ShowBranch {
    /// The hold of the newest choice that has no place yet, if there is one.
    pub(crate) fn next_hold(self, machine: &Machine) -> Option<HoldRule>
        requires { IfSome self.newest (λ (act : ActId). act.0 < length machine.now.actions) }
        ensures { result ≡ hold_of machine.now self }
    {
        let Some(act) = self.newest else {
            return None;
        };
        let holds = &machine.actions.get(u32::from(act.0)).holds;
        if self.places < holds.len() {
            Some(*holds.get(self.places))
        } else {
            None
        }
    }
}
