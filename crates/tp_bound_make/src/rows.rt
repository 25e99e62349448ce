//! The room rows of an ask.
ghost use Rattle.std.specs.Prelude.{◌≡◌, ◌+◌, ◌*◌, ◌<◌, ◌++◌, IfOk, OnOk, length};
ghost use Rattle.tp_routes.specs.Tables.{AreRooms, IsKnownOrigin, IsMadeFor, sum_at};
ghost use Rattle.tp_schedule.specs.declared.parts.Ask.{Ask};
ghost use Rattle.tp_bound_make.specs.RoomRows.{HasRooms, named, row_by, rows_below};
ghost use Rattle.tp_bound_laws.specs.Rows.{AreRoomRows};

use std::alloc::Global;
use tp_base::Memory;
use tp_bounds::{NamedState, TreeRow, TreeRows};
use tp_machine::{Machine, State, machine_law};
use tp_routes::{Rooms, state_at};

/// A state by the name of its location.
pub(crate) fn named(machine: &Machine, state: State) -> NamedState
    requires { state.loc.0 < length machine.now.locations }
    ensures { result ≡ named machine.now state }
{
    NamedState {
        place: machine.locations.get(state.loc.0),
        up: state.up,
        front_done: state.front_done,
        back_done: state.back_done,
    }
}

/// Adds the row of the state of this number, if the state has room.
fn put_row(rows: &mut TreeRows, rooms: &Rooms, machine: &Machine, number: u32) -> Result<(), Memory>
    requires made { IsMadeFor rooms.now machine.now }
    requires known { number < length machine.now.locations * 8 }
    ensures { OnOk result
        (rows.new ≡ rows.old ++ row_by machine.now number (sum_at rooms.now.sums number)) }
{
    machine_law(machine);
    let state = state_at(number);
    match rooms.room(state) {
        Some(room) => rows.push(TreeRow {
            state: named(machine, state),
            room,
        }),
        None => Ok(()),
    }
}

/// A row for each state that has room, by the numbers of the states.
pub(crate) fn rows_of(alloc: Global, rooms: &Rooms, machine: &Machine) -> Result<TreeRows, Memory>
    requires made { IsMadeFor rooms.now machine.now }
    ensures order { IfOk result (λ rows. rows
        ≡ rows_below machine.now rooms.now.sums (length machine.now.locations * 8)) }
    ensures rows { IfOk result (HasRooms machine.now rooms.now.sums) }
    ensures are { IfOk result (λ rows. (ask : Ask) → IsKnownOrigin machine.now ask.origin
        → AreRooms machine.now ask rooms.now.sums → AreRoomRows machine.now ask rows) }
{
    machine_law(machine);
    let mut rows = TreeRows::new(alloc);
    'numbers: for number in 0..machine.locations.len() * 8 {
        put_row(&mut rows, rooms, machine, number)?;
    }
    Ok(rows)
}
