//! Ways that are laid on a board as they were worked by hand, and written into the schedule.
ghost use Rattle.std.specs.Prelude.{◌≡◌, ◌+◌, ◌<◌, ◌≤◌, [], length, IsTrue, IsSomeAnd, IfOk, OnOk};
ghost use Rattle.tp_placing.specs.Boards.{past_of, suffix_of};
ghost use Rattle.tp_placing.specs.Calls.{CanGoOn, IsSameLoad};
ghost use Rattle.tp_placing.specs.LoadedBoard.{IsMadeFor, Stands};
ghost use Rattle.tp_placing.specs.Commits.{IsHeldFrom};
ghost use Rattle.tp_routes.specs.Tables.{AreRooms, IsKnownOrigin, IsMadeFor as IsTableFor};
ghost use Rattle.tp_schedule.specs.Answers.{kept_of};
ghost use Rattle.tp_schedule.specs.PlannerAnswers.{CanAsk, CanPlanOn, IsOpenGoal};
ghost use Rattle.tp_schedule.specs.Routes.{IsRoom};
ghost use Rattle.tp_schedule.specs.declared.parts.Origin.TheVariants.{Feeder};
ghost use Rattle.rows_engines.specs.LaidWays.{IsLaid, IsPut, IsStepTo};
ghost use Rattle.rows_engines.specs.NamedReasons.{IsTold};

use std::test::Fail;
use tp_base::{Late, Network, Tick, Undo};
use tp_machine::{ActId, Machine, State, allowed, regress};
use tp_placing::{Board, Refused, marks_keep_boards};
use tp_routes::Rooms;
use tp_schedule::{Ask, Goal, Schedule, finished, is_plan_live, is_start};

/// Whether the state has this room.
fn is_room(rooms: &Rooms, machine: &Machine, ask: &Ask, state: State, room: u32) -> bool
    requires table { IsTableFor rooms.now machine.now }
    requires rooms { AreRooms machine.now ask.now rooms.now.sums }
    ensures { IsTrue result → IsRoom machine.now ask.entry.now state room }
{
    if u32::from(state.loc.0) >= machine.locations.len() {
        return false;
    }
    match rooms.room(state) {
        Some(found) => found == room,
        None => false,
    }
}

/// Whether a new copy may be asked for, on a schedule with one live plan or none.
pub(crate) fn is_askable(machine: &Machine, schedule: &Schedule, ask: &Ask) -> bool
    requires plan_on { CanPlanOn machine.now ask.now.now schedule.now.plans }
    requires new { ask.now.origin ≡ Feeder }
    requires goal { IsOpenGoal machine.now [] ask.now ask.now.goal }
    ensures { IsTrue result → CanAsk machine.now schedule.now.plans ask.entry.now }
{
    if let Some(_) = schedule.find(ask.sheet) {
        return false;
    }
    if schedule.len() > 1 {
        return false;
    }
    if schedule.len() == 0 {
        return true;
    }
    is_plan_live(machine, ask.now, schedule.plan_at(0))
}

/// Loads the schedule for a copy, and opens its goal, which has this room.
pub(crate) fn begin<N: Network>(
    board: &mut Board<N>,
    rooms: &mut Rooms,
    machine: &Machine,
    schedule: &Schedule,
    ask: &Ask,
    room: u32,
) -> Result<State, Fail>
    requires made { IsMadeFor board.old.made_for machine.now }
    requires table { IsTableFor rooms.old machine.now }
    requires can_ask { CanAsk machine.now schedule.now.plans ask.now }
    requires origin { IsKnownOrigin machine.now ask.now.origin }
    ensures made { OnOk result (IsMadeFor board.new.made_for machine.now) }
    ensures table { OnOk result (IsTableFor rooms.new machine.now) }
    ensures rooms { OnOk result (AreRooms machine.now ask.entry.now rooms.new.sums) }
    ensures laid { IfOk result
        (λ goal. IsLaid N.reading board.new machine.now ask.entry.now goal 0) }
    ensures held { OnOk result
        (IsHeldFrom machine.now schedule.now.plans ask.entry.now board.new.plans) }
{
    let Goal::Tray(tray) = ask.goal else {
        return Err(Fail::from("the goal is no tray"));
    };
    rooms.fill(machine, ask);
    let goal = finished(&ask.want, tray);
    if !is_room(rooms, machine, ask, goal, room) {
        return Err(Fail::from("the goal has another room"));
    }
    board.load(machine, schedule, ask);
    match board.open_goal(room) {
        Ok(()) => Ok(goal),
        Err(Late) => Err(Fail::from("the goal is refused")),
    }
}

/// The state from which an allowed action leads to this one, if it has this room.
fn state_before(
    rooms: &Rooms,
    machine: &Machine,
    ask: &Ask,
    state: State,
    act: ActId,
    room: u32,
) -> Result<State, Fail>
    requires known { act.0 < length machine.now.actions }
    requires table { IsTableFor rooms.now machine.now }
    requires rooms { AreRooms machine.now ask.now rooms.now.sums }
    ensures { IfOk result (IsStepTo machine.now ask.entry.now act room state) }
{
    let Some(before) = regress(machine.actions.get(act.0 as u32), &ask.want, state) else {
        return Err(Fail::from("the action leads elsewhere"));
    };
    if !allowed(machine, ask.outs, act) || !is_room(rooms, machine, ask, before, room) {
        return Err(Fail::from("the state has another room"));
    }
    Ok(before)
}

/// Opens an action of one hold, and gives the hold its place.
fn put<N: Network>(
    board: &mut Board<N>,
    machine: &Machine,
    act: ActId,
    room: u32,
    place: u32,
) -> Result<(), Fail>
    requires stands { Stands N.reading board.old machine.now }
    requires known { act.0 < length machine.now.actions }
    requires ready { IsSomeAnd board.old.ask
        (λ ask. IsSomeAnd (suffix_of board.old) (CanGoOn ask)) }
    ensures put { OnOk result
        (IsSomeAnd (suffix_of board.old)
        (IsPut machine.now board.old.plans act room place (suffix_of board.new))) }
    ensures stands { Stands N.reading board.new machine.now }
    ensures same { IsSameLoad board.old board.new }
    ensures past { past_of N.reading board.new ≡ past_of N.reading board.old }
{
    let holds = &machine.actions.get(act.0 as u32).holds;
    if holds.len() != 1 {
        return Err(Fail::from("the action has not one hold"));
    }
    let resource = holds.get(0).resource;
    if u32::from(resource.0) >= machine.resources.len() || place > board.places(resource) {
        return Err(Fail::from("there is no such place"));
    }
    match board.open_action(machine, act, room) {
        Ok(()) => {}
        Err(Late) => return Err(Fail::from("the action is refused")),
    }
    match board.place(machine, 0, place) {
        Ok(()) => Ok(()),
        Err(Late) => Err(Fail::from("the place is refused")),
    }
}

/// A way that is laid: the state at which it begins, and how many choices it has.
#[derive(Clone, Copy)]
pub(crate) struct LaidWay {
    pub(crate) first: State,
    pub(crate) many: u32,
}

/// Lays one choice more before those of the way: an action, its room and the place of its hold. Gives the state at which
/// the way then begins.
fn lay_next<N: Network>(
    board: &mut Board<N>,
    rooms: &Rooms,
    machine: &Machine,
    ask: &Ask,
    way: LaidWay,
    choice: (ActId, u32, u32),
) -> Result<State, Fail>
    requires table { IsTableFor rooms.now machine.now }
    requires rooms { AreRooms machine.now ask.now rooms.now.sums }
    requires kept { kept_of ask.now ≤ 10 }
    requires laid { IsLaid N.reading board.old machine.now ask.now way.first way.many }
    requires few { way.many ≤ 50 }
    ensures laid { IfOk result
        (λ before. IsLaid N.reading board.new machine.now ask.entry.now before
        (way.many + 1)) }
    ensures same { IsSameLoad board.old board.new }
    ensures past { past_of N.reading board.new ≡ past_of N.reading board.old }
{
    let (act, room, place) = choice;
    if u32::from(act.0) >= machine.actions.len() {
        return Err(Fail::from("the action is lost"));
    }
    let before = state_before(rooms, machine, ask, way.first, act, room)?;
    put(board, machine, act, room, place)?;
    Ok(before)
}

/// The bound of the end with one choice more, which is taken back.
pub(crate) fn bound_with<N: Network>(
    board: &mut Board<N>,
    rooms: &Rooms,
    machine: &Machine,
    ask: &Ask,
    way: LaidWay,
    choice: (ActId, u32, u32),
) -> Result<Tick, Fail>
    requires table { IsTableFor rooms.now machine.now }
    requires rooms { AreRooms machine.now ask.now rooms.now.sums }
    requires kept { kept_of ask.now ≤ 10 }
    requires laid { IsLaid N.reading board.old machine.now ask.now way.first way.many }
    requires few { way.many ≤ 50 }
    ensures { OnOk result
        (IsLaid N.reading board.new machine.now ask.entry.now way.first way.many) }
{
    marks_keep_boards::<N>();
    if board.spare_marks() == 0 {
        return Err(Fail::from("no mark is left"));
    }
    let mark = board.mark();
    lay_next(board, rooms, machine, ask, way, choice)?;
    let bound = board.end_bound();
    board.undo_to(mark);
    Ok(bound)
}

/// The bounds of the end before an action is opened, once it is, and once its hold can't come first in its resource's order,
/// and how long that order is then. The board tells the reason.
pub(crate) fn bounds_where_late<N: Network>(
    board: &mut Board<N>,
    machine: &Machine,
    ask: &Ask,
    state: State,
    act: ActId,
    room: u32,
) -> Result<([Tick; 3], u32), Fail>
    requires kept { kept_of ask.now ≤ 10 }
    requires laid { IsLaid N.reading board.old machine.now ask.now state 0 }
    ensures stands { OnOk result (Stands N.reading board.new machine.now) }
    ensures told { OnOk result (IsTold N.refutes board.new) }
{
    if u32::from(act.0) >= machine.actions.len() {
        return Err(Fail::from("the action is lost"));
    }
    let holds = &machine.actions.get(act.0 as u32).holds;
    if holds.len() == 0 {
        return Err(Fail::from("the hold is lost"));
    }
    let resource = holds.get(0).resource;
    if u32::from(resource.0) >= machine.resources.len() {
        return Err(Fail::from("the resource is lost"));
    }
    let before = board.end_bound();
    match board.open_action(machine, act, room) {
        Ok(()) => {}
        Err(Late) => return Err(Fail::from("the action is refused")),
    }
    let opened = board.end_bound();
    match board.place(machine, 0, 0) {
        Ok(()) => return Err(Fail::from("the place is taken")),
        Err(Late) => {}
    }
    let bounds = [before, opened, board.end_bound()];
    Ok((bounds, board.places(resource)))
}

/// What becomes of the hold of an action at a place, once the action is opened: None where it stands there.
pub(crate) fn tried_at<N: Network>(
    board: &mut Board<N>,
    machine: &Machine,
    ask: &Ask,
    state: State,
    choice: (ActId, u32, u32),
) -> Result<Option<Refused>, Fail>
    requires kept { kept_of ask.now ≤ 10 }
    requires laid { IsLaid N.reading board.old machine.now ask.now state 0 }
    ensures { IsSameLoad board.old board.new }
{
    let (act, room, place) = choice;
    if u32::from(act.0) >= machine.actions.len() {
        return Err(Fail::from("the action is lost"));
    }
    let holds = &machine.actions.get(act.0 as u32).holds;
    if holds.len() != 1 {
        return Err(Fail::from("the action has not one hold"));
    }
    let resource = holds.get(0).resource;
    if u32::from(resource.0) >= machine.resources.len() || place > board.places(resource) {
        return Err(Fail::from("there is no such place"));
    }
    match board.open_action(machine, act, room) {
        Ok(()) => {}
        Err(Late) => return Err(Fail::from("the action is refused")),
    }
    match board.try_place(machine, 0, place) {
        Ok(()) => Ok(None),
        Err(refused) => Ok(Some(refused)),
    }
}

/// Lays a way, given with its last choice first, from the goal on.
pub(crate) fn lay<N: Network>(
    board: &mut Board<N>,
    rooms: &Rooms,
    machine: &Machine,
    ask: &Ask,
    goal: State,
    way: &[(ActId, u32, u32)],
) -> Result<State, Fail>
    requires table { IsTableFor rooms.now machine.now }
    requires rooms { AreRooms machine.now ask.now rooms.now.sums }
    requires kept { kept_of ask.now ≤ 10 }
    requires laid { IsLaid N.reading board.old machine.now ask.now goal 0 }
    requires few { length way.now ≤ 50 }
    ensures laid { IfOk result
        (λ first. IsLaid N.reading board.new machine.now ask.entry.now first
        (length way.now)) }
    ensures same { OnOk result (IsSameLoad board.old board.new) }
{
    let mut first = goal;
    'choices: for at in 0..way.len() {
        let many = at as u32;
        first = lay_next(board, rooms, machine, ask, LaidWay { first, many }, way[at])?;
    }
    Ok(first)
}

/// Lays a way from start to goal for a new copy, and commits it. The goal has room 11.
pub(crate) fn follow<N: Network>(
    board: &mut Board<N>,
    rooms: &mut Rooms,
    machine: &Machine,
    schedule: &mut Schedule,
    ask: &Ask,
    way: &[(ActId, u32, u32)],
) -> Result<(), Fail>
    requires made { IsMadeFor board.old.made_for machine.now }
    requires table { IsTableFor rooms.old machine.now }
    requires plan_on { CanPlanOn machine.now ask.now.now schedule.old.plans }
    requires new { ask.now.origin ≡ Feeder }
    requires goal { IsOpenGoal machine.now [] ask.now ask.now.goal }
    requires few { length way.now ≤ 50 }
    ensures made { OnOk result (IsMadeFor board.new.made_for machine.now) }
    ensures table { OnOk result (IsTableFor rooms.new machine.now) }
    ensures plan_on { OnOk result (CanPlanOn machine.now ask.entry.now.now schedule.new.plans) }
{
    if !is_askable(machine, schedule, ask) {
        return Err(Fail::from("the ask doesn't fit the schedule"));
    }
    match schedule.reserve() {
        Ok(()) => {}
        Err(_) => return Err(Fail::from("memory")),
    }
    let goal = begin(board, rooms, machine, schedule, ask, 11)?;
    let first = lay(board, rooms, machine, ask, goal, way)?;
    if way.is_empty() || !is_start(machine, ask, first) {
        return Err(Fail::from("the way doesn't begin at a start"));
    }
    board.commit(machine, schedule);
    Ok(())
}
