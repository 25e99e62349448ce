//! The goal states of an ask.
ghost use Rattle.std.specs.Prelude.{◌≡◌, ◌↔◌, Contains, IsTrue};
ghost use Rattle.tp_schedule.specs.Routes.{IsGoalState, finished, is_wanted};

use crate::parts::{Ask, Goal};
use tp_machine::{LocId, Machine, Sheet, State, Want};

fn is_wanted(want: Want) -> bool
    ensures { result ≡ is_wanted want }
{
    match want {
        Want::Blank => false,
        Want::Mono | Want::Colour => true,
    }
}

/// The finished sheet at its tray.
pub fn finished(want: &Sheet, tray: LocId) -> State
    ensures { result ≡ finished want.now tray }
{
    State {
        loc: tray,
        up: want.face,
        front_done: is_wanted(want.front),
        back_done: is_wanted(want.back),
    }
}

fn is_among(locs: &[LocId], loc: LocId) -> bool
    ensures { IsTrue result ↔ Contains locs.now loc }
{
    locs.contains(&loc)
}

/// Whether the state is a goal state of the ask.
pub fn is_goal(machine: &Machine, ask: &Ask, state: State) -> bool
    ensures { IsTrue result ↔ IsGoalState machine.now ask.entry.now.want
        ask.entry.now.goal state }
{
    match ask.goal {
        Goal::Tray(tray) => state == finished(&ask.want, tray),
        Goal::Purge => is_among(machine.purges.as_slice(), state.loc),
    }
}
