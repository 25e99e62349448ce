//! Schedules of the rows, looked at tick by tick, and changed plan by plan.
ghost use Rattle.std.specs.Prelude.{◌≡◌, ◌+◌, ◌<◌, ◌≤◌, false, [], ◌∷◌, length, IfOk};
ghost use Rattle.tp_schedule.specs.Plans.{IsFormed, is_same_copy};

use crate::machines::{DUO, LOOP, TAIL, machine_of};
use std::alloc::Global;
use std::process::Abort;
use std::test::Fail;
use tp_base::{Name, Tick};
use tp_machine::{ActId, Face, LocId, Machine, Outs, ResId, Sheet, State, Want};
use tp_schedule::{
    Acts, Ask, Empties, Goal, Kind, Origin, Plan, Points, Schedule, SheetId, finished, is_earlier,
    is_goal, is_start, new_sheet,
};

fn name_of(text: &[u8]) -> Result<Name, Fail> {
    match Name::read(text) {
        Some(name) => Ok(name),
        None => Err(Fail::from("a name of the rows is refused")),
    }
}

/// Sheets of plain media that want mono on these sides.
pub(crate) fn sheet_of(front: Want, back: Want) -> Result<Sheet, Fail> {
    Ok(Sheet {
        media: name_of(b"plain")?,
        front,
        back,
        face: Face::Front,
    })
}

fn acts_of(numbers: &[u16]) -> Acts
    requires { length numbers.now ≤ 64 }
    ensures { length result ≡ length numbers.now }
{
    let mut acts = Acts::new();
    for number in numbers {
        acts.push(ActId(*number));
    }
    acts
}

fn points_of(ticks: &[Tick]) -> Points
    requires { length ticks.now ≤ 65 }
    ensures { length result ≡ length ticks.now }
{
    let mut points = Points::new();
    for tick in ticks {
        points.push(*tick);
    }
    points
}

/// The whole plan of a copy of the first job, to the tray of this number.
pub(crate) fn plan_of(
    sheet: SheetId,
    want: Sheet,
    tray: u16,
    acts: &[u16],
    points: &[Tick],
) -> Result<Plan, Fail>
    requires some { 0 < length acts.now }
    requires few { length acts.now ≤ 64 }
    requires one_more { length points.now ≡ length acts.now + 1 }
    ensures sheet { IfOk result (λ plan. plan.sheet ≡ sheet) }
    ensures formed { IfOk result IsFormed }
    ensures points { IfOk result (λ plan. length plan.points ≡ length points.now) }
{
    Ok(Plan {
        sheet,
        name: name_of(b"j1")?,
        want,
        goal: Goal::Tray(LocId(tray)),
        kind: Kind::Whole,
        acts: acts_of(acts),
        points: points_of(points),
        released: 0,
    })
}

pub(crate) const FIRST: SheetId = SheetId {
    job: 0,
    number: 1,
    copy: 1,
};

pub(crate) const SECOND: SheetId = SheetId {
    job: 0,
    number: 2,
    copy: 1,
};

/// A schedule of one plan.
fn one(alloc: Global, plan: Plan) -> Result<Schedule, Fail>
    requires formed { IsFormed plan }
    ensures plans { IfOk result (λ schedule. schedule.plans ≡ plan ∷ []) }
{
    let mut schedule = Schedule::new(alloc);
    schedule.reserve()?;
    schedule.put(plan);
    Ok(schedule)
}

/// A schedule of two plans of different copies.
fn both(alloc: Global, first: Plan, second: Plan) -> Result<Schedule, Fail>
    requires first { IsFormed first }
    requires second { IsFormed second }
    requires differ { is_same_copy second.sheet first.sheet ≡ false }
{
    let mut schedule = one(alloc, second)?;
    schedule.reserve()?;
    schedule.put(first);
    Ok(schedule)
}

/// Two sheets on DUO, the first printed by print2 and the second as told.
pub(crate) fn pair_on_duo(alloc: Global, acts: &[u16], points: &[Tick]) -> Result<Schedule, Fail>
    requires acts { length acts.now ≡ 3 }
    requires points { length points.now ≡ 4 }
{
    let want = sheet_of(Want::Mono, Want::Blank)?;
    let first = plan_of(FIRST, want, 3, &[0, 2, 3], &[5, 7, 13, 16])?;
    both(alloc, first, plan_of(SECOND, want, 3, acts, points)?)
}

/// Two sheets on TAIL, the first fed from 3 to 5 and the second as told.
fn pair_on_tail(alloc: Global, points: &[Tick]) -> Result<Schedule, Fail>
    requires points { length points.now ≡ 3 }
{
    let want = sheet_of(Want::Blank, Want::Blank)?;
    let first = plan_of(FIRST, want, 2, &[0, 1], &[3, 5, 8])?;
    both(alloc, first, plan_of(SECOND, want, 2, &[0, 1], points)?)
}

/// Whether each of so many resources has one holder at most at each of so many ticks.
fn is_legal_till(schedule: &Schedule, machine: &Machine, resources: u16, ticks: Tick) -> bool {
    for resource in 0..resources {
        for at in 0..ticks {
            if !schedule.legal_at(machine, ResId(resource), at) {
                return false;
            }
        }
    }
    true
}

/// How many plans are live at two moments.
fn live_at(schedule: &Schedule, machine: &Machine, one: Tick, other: Tick) -> (u32, u32) {
    (schedule.live(machine, one), schedule.live(machine, other))
}

fn two_sheets_on_duo(rt: &impl Abort, alloc: Global, duo: &Machine) -> Result<(), Fail> {
    let schedule = pair_on_duo(alloc, &[0, 1, 3], &[3, 5, 14, 17])?;
    assert!(rt; schedule.find(SECOND) == Some(1));
    assert!(rt; is_legal_till(&schedule, duo, 4, 21));
    assert!(rt; live_at(&schedule, duo, 15, 16) == (2, 1));
    Ok(())
}

fn both_prints_on_one_engine(rt: &impl Abort, alloc: Global, duo: &Machine) -> Result<(), Fail> {
    let clash = pair_on_duo(alloc, &[0, 2, 3], &[3, 5, 11, 17])?;
    assert!(rt; clash.legal_at(duo, ResId(1), 6));
    assert!(rt; !clash.legal_at(duo, ResId(1), 7));
    assert!(rt; clash.legal_at(duo, ResId(1), 11));
    Ok(())
}

fn an_empty_schedule_has_an_empty_order(
    rt: &impl Abort,
    alloc: Global,
    duo: &Machine,
) -> Result<(), Fail> {
    let schedule = Schedule::new(alloc);
    let order = schedule.order_of(alloc, duo, ResId(0))?;
    assert!(rt; order.len() == 0);
    Ok(())
}

fn a_new_copy_goes_from_a_feeder_to_its_tray(rt: &impl Abort, duo: &Machine) -> Result<(), Fail> {
    let feeder = new_sheet(LocId(0));
    let ask = Ask {
        sheet: FIRST,
        name: name_of(b"j1")?,
        want: sheet_of(Want::Mono, Want::Blank)?,
        goal: Goal::Tray(LocId(3)),
        origin: Origin::Feeder,
        outs: Outs(0),
        empty: Empties::none(),
        now: 0,
    };
    let elsewhere = State {
        loc: LocId(1),
        ..feeder
    };
    assert!(rt; is_start(duo, &ask, feeder));
    assert!(rt; !is_start(duo, &ask, elsewhere));
    let without_sheets = Ask {
        empty: Empties::none().with(LocId(0)),
        ..ask
    };
    assert!(rt; !is_start(duo, &without_sheets, feeder));
    let printed = State {
        loc: LocId(3),
        up: Face::Front,
        front_done: true,
        back_done: false,
    };
    assert!(rt; finished(&ask.want, LocId(3)) == printed);
    assert!(rt; is_goal(duo, &ask, printed) && !is_goal(duo, &ask, feeder));
    assert!(rt; is_earlier(FIRST, SECOND) && !is_earlier(SECOND, FIRST));
    Ok(())
}

fn look_at_duo(rt: &impl Abort, alloc: Global, duo: &Machine) -> Result<(), Fail> {
    two_sheets_on_duo(rt, alloc, duo)?;
    both_prints_on_one_engine(rt, alloc, duo)?;
    an_empty_schedule_has_an_empty_order(rt, alloc, duo)?;
    a_new_copy_goes_from_a_feeder_to_its_tray(rt, duo)
}

// What a function lets go of at its end is proved anew for each of its ways out. So a machine is lent to a function that may fail, and
// then given to `drop`, which is proved once.
#[test]
fn schedules_on_duo(rt: HostRuntime) -> Result<(), Fail> {
    let duo = machine_of(rt.alloc(), DUO.as_bytes())?;
    let looked = look_at_duo(&rt, rt.alloc(), &duo);
    drop(duo);
    looked
}

#[test]
fn sets_of_locations(rt: HostRuntime) -> Result<(), Fail> {
    let some = Empties::none()
        .with(LocId(63))
        .with(LocId(64))
        .with(LocId(255));
    for loc in 0..256 {
        let is_in = loc == 63 || loc == 64 || loc == 255;
        assert!(rt; some.has(LocId(loc)) == is_in);
    }
    Ok(())
}

fn the_resource_is_held_at_9(rt: &impl Abort, alloc: Global, tail: &Machine) -> Result<(), Fail> {
    let early = pair_on_tail(alloc, &[9, 11, 14])?;
    assert!(rt; !early.legal_at(tail, ResId(0), 9));
    assert!(rt; early.legal_at(tail, ResId(0), 10));
    Ok(())
}

fn the_resource_is_free_at_10(rt: &impl Abort, alloc: Global, tail: &Machine) -> Result<(), Fail> {
    let schedule = pair_on_tail(alloc, &[10, 12, 15])?;
    assert!(rt; is_legal_till(&schedule, tail, 2, 21));
    assert!(rt; live_at(&schedule, tail, 9, 10) == (2, 1));
    assert!(rt; live_at(&schedule, tail, 16, 17) == (1, 0));
    Ok(())
}

fn look_at_tail(rt: &impl Abort, alloc: Global, tail: &Machine) -> Result<(), Fail> {
    the_resource_is_held_at_9(rt, alloc, tail)?;
    the_resource_is_free_at_10(rt, alloc, tail)
}

#[test]
fn schedules_on_tail(rt: HostRuntime) -> Result<(), Fail> {
    let tail = machine_of(rt.alloc(), TAIL.as_bytes())?;
    let looked = look_at_tail(&rt, rt.alloc(), &tail);
    drop(tail);
    looked
}

fn a_state_is_passed_twice(rt: &impl Abort, alloc: Global, machine: &Machine) -> Result<(), Fail> {
    let want = sheet_of(Want::Mono, Want::Mono)?;
    let plan = plan_of(FIRST, want, 2, &[0, 1, 2, 1, 3], &[3, 5, 7, 11, 13, 16])?;
    let schedule = one(alloc, plan)?;
    assert!(rt; is_legal_till(&schedule, machine, 3, 21));
    Ok(())
}

#[test]
fn schedule_on_loop(rt: HostRuntime) -> Result<(), Fail> {
    let machine = machine_of(rt.alloc(), LOOP.as_bytes())?;
    let looked = a_state_is_passed_twice(&rt, rt.alloc(), &machine);
    drop(machine);
    looked
}

#[test]
fn a_plan_is_cut_and_goes(rt: HostRuntime) -> Result<(), Fail> {
    let alloc = rt.alloc();
    let want = sheet_of(Want::Mono, Want::Blank)?;
    let mut schedule = one(alloc, plan_of(FIRST, want, 3, &[0, 2, 3], &[3, 5, 11, 14])?)?;
    schedule.cut(FIRST, 2);
    let front = schedule.plan_at(0);
    assert!(rt; front.kind == Kind::Front && front.released == 2);
    assert!(rt; front.acts.as_slice() == [ActId(0), ActId(2)].as_slice());
    assert!(rt; front.points.as_slice() == [3, 5, 11].as_slice());
    schedule.withdraw(FIRST);
    assert!(rt; schedule.len() == 0);
    Ok(())
}

#[test]
fn a_plan_is_changed(rt: HostRuntime) -> Result<(), Fail> {
    let alloc = rt.alloc();
    let want = sheet_of(Want::Mono, Want::Blank)?;
    let mut schedule = one(alloc, plan_of(FIRST, want, 3, &[0, 2, 3], &[3, 5, 11, 14])?)?;
    schedule.set_points(FIRST, &points_of(&[5, 7, 13, 16]));
    let kept = schedule.copy(alloc)?;
    schedule.freeze(FIRST, 1);
    assert!(rt; schedule.plan_at(0).released == 1);
    schedule.replace(plan_of(FIRST, want, 3, &[0, 1, 3], &[3, 5, 14, 17])?);
    assert!(rt; schedule.plan_at(0).points.get(3) == 17);
    assert!(rt; schedule.plan_at(0).acts.get(1).0 == 1);
    assert!(rt; kept.plan_at(0).points.get(3) == 16);
    Ok(())
}
