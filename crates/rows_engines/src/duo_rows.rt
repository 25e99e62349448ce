//! All rows on the machine DUO, over one machine, one board and one table of rooms.
ghost use Rattle.std.specs.Prelude.{◌≡◌, ◌≤◌, OnOk};
ghost use Rattle.tp_placing.specs.LoadedBoard.{IsMadeFor};
ghost use Rattle.tp_routes.specs.Tables.{IsMadeFor as IsTableFor};

use crate::board_rows::bounds;
use crate::by_hand::board_for;
use crate::flying_rows::way_out_behind_a_front;
use crate::planned_rows::{
    choices_of_the_second, place_before_the_first_is_late, places_from_the_end, plans_in_turn,
};
use crate::reason_rows::{late_end_is_a_chain, late_place_is_a_circle};
use crate::rooms_rows::{copy_in_flight, new_copies, rooms_for};
use crate::search_rows::{
    earliest_in_turn, modules_out, nodes_for_the_first, nodes_for_the_second,
};
use rows_machine::machines::{DUO, machine_of};
use std::alloc::Global;
use std::process::Abort;
use std::test::Fail;
use tp_base::Network;
use tp_machine::Machine;
use tp_placing::Board;
use tp_routes::Rooms;

/// The rows that ask a search.
fn look_at_searches<N: Network>(
    rt: &impl Abort,
    alloc: Global,
    board: &mut Board<N>,
    machine: &Machine,
) -> Result<(), Fail>
    requires made { IsMadeFor board.old.made_for machine.now }
    ensures { OnOk result (IsMadeFor board.new.made_for machine.now) }
{
    earliest_in_turn(rt, alloc, board, machine)?;
    modules_out(rt, alloc, board, machine)?;
    nodes_for_the_first(rt, alloc, board, machine)?;
    nodes_for_the_second(rt, alloc, board, machine)
}

/// The rows that lay ways behind what is planned.
fn look_at_plans<N: Network>(
    rt: &impl Abort,
    alloc: Global,
    board: &mut Board<N>,
    rooms: &mut Rooms,
    machine: &Machine,
) -> Result<(), Fail>
    requires made { IsMadeFor board.old.made_for machine.now }
    requires table { IsTableFor rooms.old machine.now }
{
    plans_in_turn(rt, alloc, board, rooms, machine)?;
    choices_of_the_second(rt, alloc, board, rooms, machine)?;
    place_before_the_first_is_late(rt, alloc, board, rooms, machine)?;
    places_from_the_end(rt, alloc, board, rooms, machine)?;
    way_out_behind_a_front(rt, alloc, board, rooms, machine)?;
    late_place_is_a_circle(rt, alloc, board, rooms, machine)?;
    late_end_is_a_chain(rt, alloc, board, rooms, machine)
}

fn look_at_all<N: Network>(
    rt: &impl Abort,
    alloc: Global,
    board: &mut Board<N>,
    rooms: &mut Rooms,
    machine: &Machine,
) -> Result<(), Fail>
    requires made { IsMadeFor board.old.made_for machine.now }
    requires marks { N.reading.max_marks board.old.net ≡ 330 }
    requires table { IsTableFor rooms.old machine.now }
{
    new_copies(rt, rooms, machine)?;
    copy_in_flight(rt, rooms, machine)?;
    bounds(rt, alloc, board, machine)?;
    look_at_searches(rt, alloc, board, machine)?;
    look_at_plans(rt, alloc, board, rooms, machine)
}

// What a function lets go of at its end is proved anew for each of its ways out. So each of these lends what it owns to the next, and
// then gives it to `drop`, which is proved once.
fn look_with_rooms<N: Network>(
    rt: &impl Abort,
    alloc: Global,
    board: &mut Board<N>,
    machine: &Machine,
) -> Result<(), Fail>
    requires made { IsMadeFor board.old.made_for machine.now }
    requires marks { N.reading.max_marks board.old.net ≡ 330 }
{
    let mut rooms = rooms_for(alloc, machine)?;
    let looked = look_at_all(rt, alloc, board, &mut rooms, machine);
    drop(rooms);
    looked
}

fn look_with_board(rt: &impl Abort, alloc: Global, machine: &Machine) -> Result<(), Fail> {
    let mut board = board_for(alloc, machine)?;
    let looked = look_with_rooms(rt, alloc, &mut board, machine);
    drop(board);
    looked
}

#[test]
fn rows_on_duo(rt: HostRuntime) -> Result<(), Fail> {
    let machine = machine_of(rt.alloc(), DUO.as_bytes())?;
    let looked = look_with_board(&rt, rt.alloc(), &machine);
    drop(machine);
    looked
}
