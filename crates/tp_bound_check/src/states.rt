//! States by their names in a tree.
ghost use Rattle.std.specs.Prelude.{◌≡◌};
ghost use Rattle.tp_bound_laws.specs.Rows.{is_same_face, is_same_state, is_state, state_of};

use crate::table::state_of;
use tp_bounds::NamedState;
use tp_machine::{Face, Machine, State};

fn is_same_face(up: Face, other: Face) -> bool
    ensures { result ≡ is_same_face up other }
{
    match up {
        Face::Front => match other {
            Face::Front => true,
            Face::Back => false,
        },
        Face::Back => match other {
            Face::Front => false,
            Face::Back => true,
        },
    }
}

pub(crate) fn is_same_state(one: State, other: State) -> bool
    ensures { result ≡ is_same_state one other }
{
    one.loc.0 == other.loc.0
        && is_same_face(one.up, other.up)
        && one.front_done == other.front_done
        && one.back_done == other.back_done
}

pub(crate) fn is_named(machine: &Machine, state: State, named: &NamedState) -> bool
    ensures { result ≡ is_state state (state_of machine.now named.now) }
{
    match state_of(machine, named) {
        Some(other) => is_same_state(state, other),
        None => false,
    }
}
