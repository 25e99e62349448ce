//! Rooms on the machines of the rows: how soon a sheet can be where it is.
ghost use Rattle.std.specs.Prelude.{◌≡◌, ◌<◌, IfOk, length};
ghost use Rattle.tp_routes.specs.Tables.{IsMadeFor};

use crate::by_hand::name_of;
use rows_machine::machines::{LOOP, machine_of};
use std::alloc::Global;
use std::process::Abort;
use std::test::Fail;
use tp_base::Name;
use tp_machine::{Face, LocId, Machine, Outs, Sheet, State, Want};
use tp_routes::{Rooms, room_law};
use tp_schedule::{Ask, Empties, Goal, Origin, SheetId};

pub(crate) fn rooms_for(alloc: Global, machine: &Machine) -> Result<Rooms, Fail>
    ensures { IfOk result (λ rooms. IsMadeFor rooms machine.now) }
{
    match Rooms::new(alloc, machine) {
        Ok(rooms) => Ok(rooms),
        Err(_) => Err(Fail::from("memory")),
    }
}

/// The ask for a sheet with mono on its front, this on its back, and plain media.
fn ask_for(name: Name, media: Name, back: Want, origin: Origin, outs: u64) -> Ask
    ensures { result.origin ≡ origin }
{
    Ask {
        sheet: SheetId {
            job: 0,
            number: 1,
            copy: 1,
        },
        name,
        want: Sheet {
            media,
            front: Want::Mono,
            back,
            face: Face::Front,
        },
        goal: Goal::Tray(LocId(3)),
        origin,
        outs: Outs(outs),
        empty: Empties::none(),
        now: 0,
    }
}

/// The rooms for a new copy.
fn fill_new(rooms: &mut Rooms, machine: &Machine, back: Want, outs: u64) -> Result<(), Fail>
    requires { IsMadeFor rooms.old machine.now }
    ensures { IsMadeFor rooms.new machine.now }
{
    let (name, media) = (name_of(b"j1")?, name_of(b"plain")?);
    let ask = ask_for(name, media, back, Origin::Feeder, outs);
    rooms.fill(machine, &ask);
    Ok(())
}

/// The rooms for a copy whose front ends at location b with its front done.
fn fill_in_flight(rooms: &mut Rooms, machine: &Machine) -> Result<(), Fail>
    requires made { IsMadeFor rooms.old machine.now }
    requires known { 2 < length machine.now.locations }
    ensures { IsMadeFor rooms.new machine.now }
{
    let (name, media) = (name_of(b"j1")?, name_of(b"plain")?);
    let state = state_at(2, true, false);
    let origin = Origin::Front {
        state,
        end: 11,
        kept: 2,
    };
    let ask = ask_for(name, media, Want::Blank, origin, 0);
    rooms.fill(machine, &ask);
    Ok(())
}

/// The state at a location, front up, with these sides done.
pub(crate) fn state_at(loc: u16, front_done: bool, back_done: bool) -> State
    ensures { result.loc.0 ≡ loc }
{
    State {
        loc: LocId(loc),
        up: Face::Front,
        front_done,
        back_done,
    }
}

fn room_of(rooms: &Rooms, machine: &Machine, state: State) -> Result<Option<u32>, Fail>
    requires { IsMadeFor rooms.now machine.now }
{
    if u32::from(state.loc.0) >= machine.locations.len() {
        return Err(Fail::from("no such location"));
    }
    Ok(rooms.room(state))
}

/// The rooms of a new copy's states from location to location, where these modules are out.
fn look_at(
    rt: &impl Abort,
    rooms: &mut Rooms,
    machine: &Machine,
    outs: u64,
    wanted: [Option<u32>; 5],
) -> Result<(), Fail>
    requires { IsMadeFor rooms.old machine.now }
    ensures { IsMadeFor rooms.new machine.now }
{
    fill_new(rooms, machine, Want::Blank, outs)?;
    for (loc, room) in [0u16, 1, 2, 3, 4].into_iter().zip(wanted) {
        let given = room_of(rooms, machine, state_at(loc, loc > 1, false))?;
        assert_eq!(rt; given, room, "location {loc} with {outs} out");
    }
    Ok(())
}

/// The rooms of new copies, with all modules and without an engine or the way out.
pub(crate) fn new_copies(rt: &impl Abort, rooms: &mut Rooms, machine: &Machine) -> Result<(), Fail>
    requires { IsMadeFor rooms.old machine.now }
    ensures { IsMadeFor rooms.new machine.now }
{
    room_law();
    let all = [Some(0), Some(2), Some(8), Some(11), Some(11)];
    look_at(rt, rooms, machine, 0, all)?;
    let without_engine = [Some(0), Some(2), Some(11), Some(14), Some(14)];
    look_at(rt, rooms, machine, 1 << 2, without_engine)?;
    let without_out = [Some(0), Some(2), Some(8), None, Some(11)];
    look_at(rt, rooms, machine, 1 << 3, without_out)
}

pub(crate) fn copy_in_flight(
    rt: &impl Abort,
    rooms: &mut Rooms,
    machine: &Machine,
) -> Result<(), Fail>
    requires { IsMadeFor rooms.old machine.now }
    ensures { IsMadeFor rooms.new machine.now }
{
    if machine.locations.len() < 5 {
        return Err(Fail::from("a location is lost"));
    }
    fill_in_flight(rooms, machine)?;
    for (loc, room) in [(1, None), (2, Some(0)), (3, Some(3))] {
        let given = room_of(rooms, machine, state_at(loc, loc > 1, false))?;
        assert_eq!(rt; given, room, "location {loc}");
    }
    Ok(())
}

/// The room of the state with both sides done, for a new copy that wants both.
fn room_of_both(rooms: &mut Rooms, machine: &Machine) -> Result<Option<u32>, Fail>
    requires { IsMadeFor rooms.old machine.now }
{
    fill_new(rooms, machine, Want::Mono, 0)?;
    room_of(rooms, machine, state_at(2, true, true))
}

fn new_room_of_both(alloc: Global, machine: &Machine) -> Result<Option<u32>, Fail> {
    let mut rooms = rooms_for(alloc, machine)?;
    let room = room_of_both(&mut rooms, machine);
    drop(rooms);
    room
}

fn room_on_loop(alloc: Global) -> Result<Option<u32>, Fail> {
    let machine = machine_of(alloc, LOOP.as_bytes())?;
    let room = new_room_of_both(alloc, &machine);
    drop(machine);
    room
}

#[test]
fn both_sides(rt: HostRuntime) -> Result<(), Fail> {
    let given = room_on_loop(rt.alloc())?;
    // Feed, print, print and out: room looks at durations alone, not at the resource that both
    // prints hold.
    assert!(rt; given == Some(9));
    Ok(())
}
