//! The goal states of an ask, in the order of a tree.
ghost use Rattle.std.specs.Prelude.{◌≡◌, ◌++◌, ◌∷◌, [], filter, IfOk, OnOk, if◌then◌else◌};
ghost use Rattle.tp_schedule.specs.Routes.{is_wanted};
ghost use Rattle.tp_schedule.specs.declared.parts.Goal.TheVariants.{Purge};
ghost use Rattle.tp_bound_laws.specs.Places.{goal_states, is_done_wanted, is_purge, states_at};

use std::alloc::Global;
use tp_base::Memory;
use tp_machine::{Face, LocId, Machine, Sheet, State, Want, machine_law};
use tp_schedule::{Ask, Goal, finished};

fn is_wanted(want: Want) -> bool
    ensures { result ≡ is_wanted want }
{
    match want {
        Want::Blank => false,
        Want::Mono | Want::Colour => true,
    }
}

/// Whether each side that is done is wanted.
fn is_done_wanted(sheet: &Sheet, state: State) -> bool
    ensures { result ≡ is_done_wanted sheet.now state }
{
    (!state.front_done || is_wanted(sheet.front)) && (!state.back_done || is_wanted(sheet.back))
}

fn is_purge(machine: &Machine, loc: LocId) -> bool
    ensures { result ≡ is_purge machine.now loc }
{
    machine
        .purges
        .as_slice()
        .iter()
        .any(|purge| purge.0 == loc.0)
}

fn state(loc: LocId, up: Face, front_done: bool, back_done: bool) -> State
    ensures { result ≡ record {
      loc = loc;
      up = up;
      front_done = front_done;
      back_done = back_done;
    } }
{
    State {
        loc,
        up,
        front_done,
        back_done,
    }
}

/// The states at a location.
fn states_at(loc: LocId) -> [State; 8]
    ensures { result ≡ states_at loc }
{
    [
        state(loc, Face::Front, false, false),
        state(loc, Face::Front, false, true),
        state(loc, Face::Front, true, false),
        state(loc, Face::Front, true, true),
        state(loc, Face::Back, false, false),
        state(loc, Face::Back, false, true),
        state(loc, Face::Back, true, false),
        state(loc, Face::Back, true, true),
    ]
}

fn put_state(states: &mut Vec<State>, sheet: &Sheet, state: State) -> Result<(), Memory>
    ensures { OnOk result (states.new.items ≡ states.old.items ++ filter (is_done_wanted
        sheet.entry.now) (state ∷ [])) }
{
    if is_done_wanted(sheet, state) {
        states.push(state)?;
    }
    Ok(())
}

/// The states among these whose done sides are wanted.
fn put_states(states: &mut Vec<State>, sheet: &Sheet, some: &[State]) -> Result<(), Memory>
    ensures { OnOk result (states.new.items ≡ states.old.items ++ filter (is_done_wanted
        sheet.entry.now) some.entry.now) }
{
    'states: for at in 0..some.len() {
        put_state(states, sheet, some[at])?;
    }
    Ok(())
}

fn put_purge(
    states: &mut Vec<State>,
    machine: &Machine,
    sheet: &Sheet,
    loc: LocId,
) -> Result<(), Memory>
    ensures { OnOk result (states.new.items ≡ states.old.items ++ (if is_purge machine.entry.now
        loc then filter (is_done_wanted sheet.entry.now) (states_at loc) else [])) }
{
    if is_purge(machine, loc) {
        put_states(states, sheet, states_at(loc).as_slice())?;
    }
    Ok(())
}

fn purge_states(alloc: Global, machine: &Machine, sheet: &Sheet) -> Result<Vec<State>, Memory>
    ensures { IfOk result (λ states. states.items ≡ goal_states machine.now sheet.now Purge) }
{
    machine_law(machine);
    let mut states = Vec::new(alloc);
    'locations: for at in 0..machine.locations.len() as u16 {
        put_purge(&mut states, machine, sheet, LocId(at))?;
    }
    Ok(states)
}

/// The goal states of an ask, in the order of a tree: for a tray the finished state there; for a purge those at the purge trays whose
/// done sides are wanted.
pub fn goal_states(alloc: Global, machine: &Machine, ask: &Ask) -> Result<Vec<State>, Memory>
    ensures { IfOk result (λ states. states.items
        ≡ goal_states machine.now ask.entry.now.want ask.entry.now.goal) }
{
    match ask.goal {
        Goal::Tray(tray) => {
            let mut states = Vec::new(alloc);
            states.push(finished(&ask.want, tray))?;
            Ok(states)
        }
        Goal::Purge => purge_states(alloc, machine, &ask.want),
    }
}
