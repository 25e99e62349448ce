//! Trees of worked rows on DUO, checked against what is claimed of an ask.
ghost use Rattle.std.specs.Prelude.{◌≡◌, ◌+◌, ◌≤◌, ◌<◌, length, IfOk};
ghost use Rattle.tp_schedule.specs.Plans.{IsFormed};

use crate::texts::read;
use rows_machine::machines::{self, DUO};
use std::alloc::Global;
use std::test::Fail;
use tp_base::{Name, Tick};
use tp_bound_check::{Claim, TreeFlaw, check_bound};
use tp_machine::{ActId, Face, LocId, Machine, Outs, Sheet, Want};
use tp_schedule::{Acts, Ask, Empties, Goal, Kind, Origin, Plan, Points, Schedule, SheetId};

pub(crate) const TRAY: LocId = LocId(3);

/// Module OUT, so that the tray can't be reached.
pub(crate) const OUT: Outs = Outs(8);

pub(crate) fn machine_of(alloc: Global, text: &str) -> Result<Machine, Fail> {
    machines::machine_of(alloc, text.as_bytes())
}

fn name_of(text: &[u8]) -> Result<Name, Fail> {
    match Name::read(text) {
        Some(name) => Ok(name),
        None => Err(Fail::from("a name of the rows is refused")),
    }
}

/// A copy of the first job.
fn copy_of(number: u32) -> SheetId {
    SheetId {
        job: 0,
        number,
        copy: 1,
    }
}

/// Mono on the front of a plain sheet.
fn mono() -> Result<Sheet, Fail> {
    Ok(Sheet {
        media: name_of(b"plain")?,
        front: Want::Mono,
        back: Want::Blank,
        face: Face::Front,
    })
}

/// By `feed`, `print2` and `out`.
fn first_acts() -> Acts
    ensures { length result ≡ 3 }
{
    let mut acts = Acts::new();
    acts.push(ActId(0));
    acts.push(ActId(2));
    acts.push(ActId(3));
    acts
}

fn first_points() -> Points
    ensures { length result ≡ 4 }
{
    let mut points = Points::new();
    points.push(3);
    points.push(5);
    points.push(11);
    points.push(14);
    points
}

/// The first sheet's plan.
pub(crate) fn first_plan() -> Result<Plan, Fail>
    ensures { IfOk result IsFormed }
{
    Ok(Plan {
        sheet: copy_of(1),
        name: name_of(b"j1")?,
        want: mono()?,
        goal: Goal::Tray(TRAY),
        kind: Kind::Whole,
        acts: first_acts(),
        points: first_points(),
        released: 0,
    })
}

pub(crate) fn schedule_of(alloc: Global, plan: Plan) -> Result<Schedule, Fail>
    requires { IsFormed plan }
{
    let mut schedule = Schedule::new(alloc);
    schedule.reserve()?;
    schedule.put(plan);
    Ok(schedule)
}

/// A sheet asked at 0.
pub(crate) fn ask_of(number: u32, outs: Outs) -> Result<Ask, Fail> {
    Ok(Ask {
        sheet: copy_of(number),
        name: name_of(b"j1")?,
        want: mono()?,
        goal: Goal::Tray(TRAY),
        origin: Origin::Feeder,
        outs,
        empty: Empties::none(),
        now: 0,
    })
}

/// What is wrong with the tree of a text.
fn flaw_of(
    alloc: Global,
    machine: &Machine,
    schedule: &Schedule,
    ask: &Ask,
    claim: Claim,
    text: &[u8],
) -> Result<Option<TreeFlaw>, Fail> {
    let tree = read(alloc, text).ok().ok_or("no tree")?;
    match check_bound(alloc, machine, schedule, ask, claim, &tree) {
        Ok(()) => Ok(None),
        Err(flaw) => Ok(Some(flaw)),
    }
}

/// A claim, a tree, and its first flaw.
type CheckRow = (Claim, &'static [u8], Option<TreeFlaw>);

fn are_told_on(
    alloc: Global,
    machine: &Machine,
    schedule: &Schedule,
    ask: &Ask,
    rows: &[CheckRow],
) -> Result<(), Fail> {
    for (claim, text, wanted) in rows {
        let flaw = flaw_of(alloc, machine, schedule, ask, *claim, *text)?;
        if flaw != *wanted {
            return Err(Fail::from("another flaw than the row's"));
        }
    }
    Ok(())
}

// What a function lets go of at its end is proved anew for each of its ways out. So what is large is lent to a function that may
// fail, and then given to `drop`, which is proved once.
fn are_told(alloc: Global, schedule: &Schedule, ask: &Ask, rows: &[CheckRow]) -> Result<(), Fail> {
    let machine = machine_of(alloc, DUO)?;
    let told = are_told_on(alloc, &machine, schedule, ask, rows);
    drop(machine);
    told
}

#[test]
fn first_sheet(rt: HostRuntime) -> Result<(), Fail> {
    let rows: [CheckRow; 10] = [
        // A first sheet ends at 14.
        (
            Claim::Earliest(14),
            b"b room f:F00 0\n\
              b room a:F00 2\n\
              b room b:F10 8\n\
              b room t:F10 11\n\
              b room p:F10 11\n\
              b 0 goal t:F10 chain *0\n",
            None,
        ),
        // A tick more is too much.
        (
            Claim::Earliest(15),
            b"b room f:F00 0\n\
              b room a:F00 2\n\
              b room b:F10 8\n\
              b room t:F10 11\n\
              b room p:F10 11\n\
              b 0 goal t:F10 chain *0\n",
            Some(TreeFlaw::Weak {
                node: 0,
                reach: 14,
                cap: 14,
            }),
        ),
        // The way from a to b takes 6 ticks alone.
        (
            Claim::Earliest(14),
            b"b room f:F00 0\n\
              b room a:F00 2\n\
              b room b:F10 9\n\
              b room t:F10 11\n\
              b room p:F10 11\n\
              b 0 goal t:F10 chain *0\n",
            Some(TreeFlaw::RoomRow { row: 1 }),
        ),
        // A state has two rows.
        (
            Claim::Earliest(14),
            b"b room f:F00 0\n\
              b room a:F00 2\n\
              b room b:F10 8\n\
              b room t:F10 11\n\
              b room p:F10 11\n\
              b room b:F10 8\n\
              b 0 goal t:F10 chain *0\n",
            Some(TreeFlaw::RoomRow { row: 5 }),
        ),
        // The start has no row.
        (
            Claim::Earliest(14),
            b"b room a:F00 2\n\
              b room b:F10 8\n\
              b room t:F10 11\n\
              b room p:F10 11\n\
              b 0 goal t:F10 chain *0\n",
            Some(TreeFlaw::RoomRow { row: 4 }),
        ),
        // The tray can be reached.
        (
            Claim::Earliest(14),
            b"b room f:F00 0\n\
              b room a:F00 2\n\
              b room b:F10 8\n\
              b room t:F10 11\n\
              b room p:F10 11\n\
              b 0 goal t:F10 dead\n",
            Some(TreeFlaw::NotDead { node: 0 }),
        ),
        // Another goal.
        (
            Claim::Earliest(14),
            b"b room f:F00 0\n\
              b room a:F00 2\n\
              b room b:F10 8\n\
              b room t:F10 11\n\
              b room p:F10 11\n\
              b 0 goal p:F10 chain *0\n",
            Some(TreeFlaw::Uncovered { node: 0 }),
        ),
        // A node too many.
        (
            Claim::Earliest(14),
            b"b room f:F00 0\n\
              b room a:F00 2\n\
              b room b:F10 8\n\
              b room t:F10 11\n\
              b room p:F10 11\n\
              b 0 goal t:F10 chain *0\n\
              b 0 goal t:F10 chain *0\n",
            Some(TreeFlaw::Uncovered { node: 1 }),
        ),
        // A point that no choice has yet.
        (
            Claim::Earliest(14),
            b"b room f:F00 0\n\
              b room a:F00 2\n\
              b room b:F10 8\n\
              b room t:F10 11\n\
              b room p:F10 11\n\
              b 0 goal t:F10 chain *1\n",
            Some(TreeFlaw::NoSuchHop { node: 0, hop: 0 }),
        ),
        // There and back takes no time.
        (
            Claim::Earliest(14),
            b"b room f:F00 0\n\
              b room a:F00 2\n\
              b room b:F10 8\n\
              b room t:F10 11\n\
              b room p:F10 11\n\
              b 0 goal t:F10 split\n\
              b 1 act out loop *1 d:*0 d:*1\n",
            Some(TreeFlaw::Weak {
                node: 1,
                reach: -27,
                cap: 0,
            }),
        ),
    ];
    let ask = ask_of(1, Outs(0))?;
    let schedule = Schedule::new(rt.alloc());
    are_told(rt.alloc(), &schedule, &ask, &rows)
}

#[test]
fn second_sheet(rt: HostRuntime) -> Result<(), Fail> {
    let rows: [CheckRow; 6] = [
        // The second sheet ends at 17.
        (
            Claim::Earliest(17),
            b"b room f:F00 0\n\
              b room a:F00 2\n\
              b room b:F10 8\n\
              b room t:F10 11\n\
              b room p:F10 11\n\
              b 0 goal t:F10 split\n\
              b 1 act out split\n\
              b 2 at rt 0 0 loop *0 rt:*/1>j1.1.1/3 l:*0\n\
              b 2 at rt 1 1 split\n\
              b 3 act print1 chain *2 d:*1 d:*0\n\
              b 3 act print2 split\n\
              b 4 at r2 0 0 chain *2 d:*1 r2:*/2>j1.1.1/2 d:j1.1.1@2 d:j1.1.1@3 l:*0\n\
              b 4 at r2 1 1 chain j1.1.1@0 d:j1.1.1@1 d:j1.1.1@2 r2:j1.1.1/2>*/2 d:*1 d:*0\n",
            None,
        ),
        // A tick more is too much.
        (
            Claim::Earliest(18),
            b"b room f:F00 0\n\
              b room a:F00 2\n\
              b room b:F10 8\n\
              b room t:F10 11\n\
              b room p:F10 11\n\
              b 0 goal t:F10 split\n\
              b 1 act out split\n\
              b 2 at rt 0 0 loop *0 rt:*/1>j1.1.1/3 l:*0\n\
              b 2 at rt 1 1 split\n\
              b 3 act print1 chain *2 d:*1 d:*0\n\
              b 3 act print2 split\n\
              b 4 at r2 0 0 chain *2 d:*1 r2:*/2>j1.1.1/2 d:j1.1.1@2 d:j1.1.1@3 l:*0\n\
              b 4 at r2 1 1 chain j1.1.1@0 d:j1.1.1@1 d:j1.1.1@2 r2:j1.1.1/2>*/2 d:*1 d:*0\n",
            Some(TreeFlaw::Weak {
                node: 4,
                reach: 17,
                cap: 17,
            }),
        ),
        // A hop less.
        (
            Claim::Earliest(17),
            b"b room f:F00 0\n\
              b room a:F00 2\n\
              b room b:F10 8\n\
              b room t:F10 11\n\
              b room p:F10 11\n\
              b 0 goal t:F10 split\n\
              b 1 act out split\n\
              b 2 at rt 0 0 loop *0 rt:*/1>j1.1.1/3 l:*0\n\
              b 2 at rt 1 1 split\n\
              b 3 act print1 chain *2 d:*1\n\
              b 3 act print2 split\n\
              b 4 at r2 0 0 chain *2 d:*1 r2:*/2>j1.1.1/2 d:j1.1.1@2 d:j1.1.1@3 l:*0\n\
              b 4 at r2 1 1 chain j1.1.1@0 d:j1.1.1@1 d:j1.1.1@2 r2:j1.1.1/2>*/2 d:*1 d:*0\n",
            Some(TreeFlaw::Weak {
                node: 4,
                reach: 14,
                cap: 200,
            }),
        ),
        // A way less.
        (
            Claim::Earliest(17),
            b"b room f:F00 0\n\
              b room a:F00 2\n\
              b room b:F10 8\n\
              b room t:F10 11\n\
              b room p:F10 11\n\
              b 0 goal t:F10 split\n\
              b 1 act out split\n\
              b 2 at rt 0 0 loop *0 rt:*/1>j1.1.1/3 l:*0\n\
              b 2 at rt 1 1 split\n\
              b 3 act print2 split\n\
              b 4 at r2 0 0 chain *2 d:*1 r2:*/2>j1.1.1/2 d:j1.1.1@2 d:j1.1.1@3 l:*0\n\
              b 4 at r2 1 1 chain j1.1.1@0 d:j1.1.1@1 d:j1.1.1@2 r2:j1.1.1/2>*/2 d:*1 d:*0\n",
            Some(TreeFlaw::Uncovered { node: 4 }),
        ),
        // A hold behind its own place.
        (
            Claim::Earliest(17),
            b"b room f:F00 0\n\
              b room a:F00 2\n\
              b room b:F10 8\n\
              b room t:F10 11\n\
              b room p:F10 11\n\
              b 0 goal t:F10 split\n\
              b 1 act out split\n\
              b 2 at rt 0 0 loop *0 rt:j1.1.1/3>*/1 l:*0\n\
              b 2 at rt 1 1 split\n\
              b 3 act print1 chain *2 d:*1 d:*0\n\
              b 3 act print2 split\n\
              b 4 at r2 0 0 chain *2 d:*1 r2:*/2>j1.1.1/2 d:j1.1.1@2 d:j1.1.1@3 l:*0\n\
              b 4 at r2 1 1 chain j1.1.1@0 d:j1.1.1@1 d:j1.1.1@2 r2:j1.1.1/2>*/2 d:*1 d:*0\n",
            Some(TreeFlaw::NoSuchHop { node: 2, hop: 0 }),
        ),
        // A loop that does not come back.
        (
            Claim::Earliest(17),
            b"b room f:F00 0\n\
              b room a:F00 2\n\
              b room b:F10 8\n\
              b room t:F10 11\n\
              b room p:F10 11\n\
              b 0 goal t:F10 split\n\
              b 1 act out split\n\
              b 2 at rt 0 0 loop *0 rt:*/1>j1.1.1/3\n\
              b 2 at rt 1 1 split\n\
              b 3 act print1 chain *2 d:*1 d:*0\n\
              b 3 act print2 split\n\
              b 4 at r2 0 0 chain *2 d:*1 r2:*/2>j1.1.1/2 d:j1.1.1@2 d:j1.1.1@3 l:*0\n\
              b 4 at r2 1 1 chain j1.1.1@0 d:j1.1.1@1 d:j1.1.1@2 r2:j1.1.1/2>*/2 d:*1 d:*0\n",
            Some(TreeFlaw::NoSuchHop { node: 2, hop: 0 }),
        ),
    ];
    let ask = ask_of(2, Outs(0))?;
    let schedule = schedule_of(rt.alloc(), first_plan()?)?;
    are_told(rt.alloc(), &schedule, &ask, &rows)
}

#[test]
fn tray_out_of_reach(rt: HostRuntime) -> Result<(), Fail> {
    let rows: [CheckRow; 2] = [
        // No sheet comes to the tray.
        (
            Claim::Never,
            b"b room f:F00 0\n\
              b room a:F00 2\n\
              b room b:F10 8\n\
              b room p:F10 11\n\
              b 0 goal t:F10 dead\n",
            None,
        ),
        // No allowed action leads to it.
        (
            Claim::Never,
            b"b room f:F00 0\n\
              b room a:F00 2\n\
              b room b:F10 8\n\
              b room p:F10 11\n\
              b 0 goal t:F10 split\n",
            None,
        ),
    ];
    let ask = ask_of(1, OUT)?;
    let schedule = Schedule::new(rt.alloc());
    are_told(rt.alloc(), &schedule, &ask, &rows)
}

fn look_without_sheets(alloc: Global, schedule: &Schedule) -> Result<(), Fail> {
    let text = b"b 0 goal t:F10 dead\n";
    let ask = ask_of(1, Outs(0))?;
    let without_sheets = Ask {
        empty: Empties::none().with(LocId(0)),
        ..ask
    };
    let dead: [CheckRow; 1] = [(Claim::Never, text, None)];
    are_told(alloc, schedule, &without_sheets, &dead)?;
    // Where the feeder isn't empty, it needs a row.
    let lacking: [CheckRow; 1] = [(Claim::Never, text, Some(TreeFlaw::RoomRow { row: 0 }))];
    are_told(alloc, schedule, &ask, &lacking)
}

#[test]
fn feeder_without_sheets(rt: HostRuntime) -> Result<(), Fail> {
    let schedule = Schedule::new(rt.alloc());
    look_without_sheets(rt.alloc(), &schedule)
}
