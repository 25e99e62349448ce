//! Trees of worked rows on DUO, each changed in one place in every way of a kind: how many are accepted, and which flaws
//! the others have. The counts are those of a second checker, written from the same rules in another language.
ghost use Rattle.std.specs.Prelude.{◌<◌, ◌≤◌, length, IfOk};
ghost use Rattle.tp_schedule.specs.Plans.{IsFormed};

use crate::checks::{OUT, TRAY, ask_of, first_plan, machine_of, schedule_of};
use crate::texts::read;
use rows_machine::machines::DUO;
use std::alloc::Global;
use std::test::Fail;
use tp_bound_check::{Claim, TreeFlaw, check_bound};
use tp_bounds::TreeFault;
use tp_machine::{ActId, Face, LocId, Machine, Outs, State};
use tp_schedule::{Acts, Ask, Goal, Kind, Origin, Plan, Points, Schedule};

/// What is changed: a digit to the next one or the one before, where 0 follows 9; a word left out, or exchanged with the
/// one before it on its line; a line left out, or written twice.
#[derive(Clone, Copy)]
enum TextChange {
    Raised,
    Lowered,
    LeftOut,
    Exchanged,
    LineLeftOut,
    LineTwice,
}

/// How many trees are accepted, off the grammar, and of each flaw.
#[derive(Clone, Copy, PartialEq, Eq)]
struct FlawCounts {
    bound: u32,
    unread: u32,
    room_row: u32,
    uncovered: u32,
    no_such_hop: u32,
    weak: u32,
    not_dead: u32,
}

/// A tree with what it is checked against.
#[derive(Clone, Copy)]
struct CheckedTree<'a> {
    machine: &'a Machine,
    schedule: &'a Schedule,
    ask: &'a Ask,
    claim: Claim,
    text: &'a [u8],
}

/// The text with other bytes from one place to another.
fn with(alloc: Global, text: &[u8], from: usize, to: usize, bytes: &[u8]) -> Result<Vec<u8>, Fail> {
    let mut out = Vec::new(alloc);
    out.extend_from_slice(text.get(..from).unwrap_or(&[]))?;
    out.extend_from_slice(bytes)?;
    out.extend_from_slice(text.get(to..).unwrap_or(&[]))?;
    Ok(out)
}

/// Where the word ends that begins here.
fn word_end(text: &[u8], from: usize) -> usize {
    for at in from..text.len() {
        if text[at] == b' ' || text[at] == b'\n' {
            return at;
        }
    }
    text.len()
}

/// Where the line behind begins.
fn line_end(text: &[u8], from: usize) -> usize {
    for at in from..text.len() {
        if text[at] == b'\n' {
            return at + 1;
        }
    }
    text.len()
}

/// Where the word begins that ends here.
fn word_start(text: &[u8], to: usize) -> usize {
    let mut start = 0;
    for at in 0..to {
        if text.get(at) == Some(&b' ') || text.get(at) == Some(&b'\n') {
            start = at + 1;
        }
    }
    start
}

fn is_line_start(text: &[u8], at: usize) -> bool
    requires { at < length text.now }
{
    at == 0 || text[at - 1] == b'\n'
}

fn digit(alloc: Global, text: &[u8], at: usize, more: u8) -> Result<Option<Vec<u8>>, Fail>
    requires within { at < length text.now }
    requires digit { more ≤ 9 }
{
    let byte = text[at];
    if !byte.is_ascii_digit() {
        return Ok(None);
    }
    let changed = b'0' + (byte % 16 + more) % 10;
    Ok(Some(with(alloc, text, at, at + 1, &[changed])?))
}

/// The word behind a space at this place, left out.
fn left_out(alloc: Global, text: &[u8], at: usize) -> Result<Option<Vec<u8>>, Fail>
    requires { at < length text.now }
{
    if text[at] != b' ' {
        return Ok(None);
    }
    let end = word_end(text, at + 1);
    Ok(Some(with(alloc, text, at, end, &[])?))
}

/// The words on both sides of a space at this place, exchanged.
fn exchanged(alloc: Global, text: &[u8], at: usize) -> Result<Option<Vec<u8>>, Fail>
    requires { at < length text.now }
{
    if text[at] != b' ' {
        return Ok(None);
    }
    let start = word_start(text, at);
    let end = word_end(text, at + 1);
    let mut words = Vec::new(alloc);
    words.extend_from_slice(text.get(at + 1..end).unwrap_or(&[]))?;
    words.push(b' ')?;
    words.extend_from_slice(text.get(start..at).unwrap_or(&[]))?;
    Ok(Some(with(alloc, text, start, end, words.as_slice())?))
}

/// The line that begins at this place, so many times.
fn line(alloc: Global, text: &[u8], at: usize, twice: bool) -> Result<Option<Vec<u8>>, Fail>
    requires { at < length text.now }
{
    if !is_line_start(text, at) {
        return Ok(None);
    }
    let end = line_end(text, at);
    if twice {
        let line = text.get(at..end).unwrap_or(&[]);
        Ok(Some(with(alloc, text, at, at, line)?))
    } else {
        Ok(Some(with(alloc, text, at, end, &[])?))
    }
}

/// The text changed at this place, if there is something to change.
fn changed(
    alloc: Global,
    text: &[u8],
    change: TextChange,
    at: usize,
) -> Result<Option<Vec<u8>>, Fail>
    requires { at < length text.now }
{
    match change {
        TextChange::Raised => digit(alloc, text, at, 1),
        TextChange::Lowered => digit(alloc, text, at, 9),
        TextChange::LeftOut => left_out(alloc, text, at),
        TextChange::Exchanged => exchanged(alloc, text, at),
        TextChange::LineLeftOut => line(alloc, text, at, false),
        TextChange::LineTwice => line(alloc, text, at, true),
    }
}

/// The counts with a text more.
fn counted(
    alloc: Global,
    case: &CheckedTree,
    text: &[u8],
    counts: FlawCounts,
) -> Result<FlawCounts, Fail> {
    let tree = match read(alloc, text) {
        Ok(tree) => tree,
        Err(TreeFault::Bad(_)) => {
            return Ok(FlawCounts {
                unread: counts.unread.saturating_add(1),
                ..counts
            });
        }
        Err(TreeFault::Memory) => return Err(Fail::from("no memory")),
    };
    let told = check_bound(
        alloc,
        case.machine,
        case.schedule,
        case.ask,
        case.claim,
        &tree,
    );
    drop(tree);
    let mut new = counts;
    match told {
        Ok(()) => new.bound = new.bound.saturating_add(1),
        Err(TreeFlaw::RoomRow { .. }) => new.room_row = new.room_row.saturating_add(1),
        Err(TreeFlaw::Uncovered { .. }) => new.uncovered = new.uncovered.saturating_add(1),
        Err(TreeFlaw::NoSuchHop { .. }) => new.no_such_hop = new.no_such_hop.saturating_add(1),
        Err(TreeFlaw::Weak { .. }) => new.weak = new.weak.saturating_add(1),
        Err(TreeFlaw::NotDead { .. }) => new.not_dead = new.not_dead.saturating_add(1),
        Err(TreeFlaw::Memory) => return Err(Fail::from("no memory")),
    }
    Ok(new)
}

/// What becomes of the tree by every change of the kind.
fn counts_of(alloc: Global, case: &CheckedTree, change: TextChange) -> Result<FlawCounts, Fail> {
    let mut counts = row([0; 7]);
    for at in 0..case.text.len() {
        if let Some(text) = changed(alloc, case.text, change, at)? {
            counts = counted(alloc, case, text.as_slice(), counts)?;
        }
    }
    Ok(counts)
}

/// Counts in the order of their fields.
fn row(counts: [u32; 7]) -> FlawCounts {
    let [
        bound,
        unread,
        room_row,
        uncovered,
        no_such_hop,
        weak,
        not_dead,
    ] = counts;
    FlawCounts {
        bound,
        unread,
        room_row,
        uncovered,
        no_such_hop,
        weak,
        not_dead,
    }
}

/// A kind of change, and what becomes of the tree by all changes of the kind.
type ChangeRow = (TextChange, [u32; 7]);

fn count_rows(alloc: Global, case: &CheckedTree, rows: &[ChangeRow]) -> Result<(), Fail> {
    let unchanged = counted(alloc, case, case.text, row([0; 7]))?;
    if unchanged != row([1, 0, 0, 0, 0, 0, 0]) {
        return Err(Fail::from("a tree that is not accepted"));
    }
    for (change, counts) in rows {
        if counts_of(alloc, case, *change)? != row(*counts) {
            return Err(Fail::from("other counts than the row's"));
        }
    }
    Ok(())
}

/// The tree itself is accepted, and its changes are counted as in the rows.
fn are_counted(
    alloc: Global,
    schedule: &Schedule,
    ask: &Ask,
    claim: Claim,
    text: &[u8],
    rows: &[ChangeRow],
) -> Result<(), Fail> {
    let machine = machine_of(alloc, DUO)?;
    let case = CheckedTree {
        machine: &machine,
        schedule,
        ask,
        claim,
        text,
    };
    let counted = count_rows(alloc, &case, rows);
    drop(machine);
    counted
}

/// The first sheet, cut short behind its running feed.
fn front() -> Result<Plan, Fail>
    ensures { IfOk result IsFormed }
{
    let mut acts = Acts::new();
    acts.push(ActId(0));
    let mut points = Points::new();
    points.push(3);
    points.push(5);
    Ok(Plan {
        kind: Kind::Front,
        acts,
        points,
        released: 1,
        ..first_plan()?
    })
}

/// The first sheet asked behind its front.
fn ask_on(goal: Goal) -> Result<Ask, Fail> {
    let state = State {
        loc: LocId(1),
        up: Face::Front,
        front_done: false,
        back_done: false,
    };
    Ok(Ask {
        goal,
        origin: Origin::Front {
            state,
            end: 5,
            kept: 1,
        },
        now: 4,
        ..ask_of(1, Outs(0))?
    })
}

#[test]
fn first_sheet_changed(rt: HostRuntime) -> Result<(), Fail> {
    let text = b"b room f:F00 0\n\
             b room a:F00 2\n\
             b room b:F10 8\n\
             b room t:F10 11\n\
             b room p:F10 11\n\
             b 0 goal t:F10 chain *0\n";
    let rows = [
        (TextChange::Raised, [0, 4, 14, 2, 1, 0, 0]),
        (TextChange::Lowered, [1, 10, 6, 2, 1, 1, 0]),
        (TextChange::LeftOut, [0, 20, 0, 0, 0, 0, 0]),
        (TextChange::Exchanged, [0, 20, 0, 0, 0, 0, 0]),
        (TextChange::LineLeftOut, [0, 0, 5, 1, 0, 0, 0]),
        (TextChange::LineTwice, [0, 0, 5, 1, 0, 0, 0]),
    ];
    let ask = ask_of(1, Outs(0))?;
    let schedule = Schedule::new(rt.alloc());
    are_counted(
        rt.alloc(),
        &schedule,
        &ask,
        Claim::Earliest(14),
        text,
        &rows,
    )
}

#[test]
fn second_sheet_changed(rt: HostRuntime) -> Result<(), Fail> {
    let text = b"b room f:F00 0\n\
             b room a:F00 2\n\
             b room b:F10 8\n\
             b room t:F10 11\n\
             b room p:F10 11\n\
             b 0 goal t:F10 split\n\
             b 1 act out split\n\
             b 2 at rt 0 0 loop *0 rt:*/1>j1.1.1/3 l:*0\n\
             b 2 at rt 1 1 split\n\
             b 3 act print1 chain *2 d:*1 d:*0\n\
             b 3 act print2 split\n\
             b 4 at r2 0 0 chain *2 d:*1 r2:*/2>j1.1.1/2 d:j1.1.1@2 d:j1.1.1@3 l:*0\n\
             b 4 at r2 1 1 chain j1.1.1@0 d:j1.1.1@1 d:j1.1.1@2 r2:j1.1.1/2>*/2 d:*1 d:*0\n";
    let rows = [
        (TextChange::Raised, [0, 4, 14, 19, 49, 0, 0]),
        (TextChange::Lowered, [2, 10, 6, 21, 47, 0, 0]),
        (TextChange::LeftOut, [0, 59, 0, 0, 11, 3, 0]),
        (TextChange::Exchanged, [4, 59, 0, 0, 10, 0, 0]),
        (TextChange::LineLeftOut, [0, 0, 5, 8, 0, 0, 0]),
        (TextChange::LineTwice, [0, 0, 5, 8, 0, 0, 0]),
    ];
    let ask = ask_of(2, Outs(0))?;
    let schedule = schedule_of(rt.alloc(), first_plan()?)?;
    are_counted(
        rt.alloc(),
        &schedule,
        &ask,
        Claim::Earliest(17),
        text,
        &rows,
    )
}

#[test]
fn tray_out_of_reach_changed(rt: HostRuntime) -> Result<(), Fail> {
    let text = b"b room f:F00 0\n\
             b room a:F00 2\n\
             b room b:F10 8\n\
             b room p:F10 11\n\
             b 0 goal t:F10 dead\n";
    let rows = [
        (TextChange::Raised, [0, 3, 11, 2, 0, 0, 0]),
        (TextChange::Lowered, [1, 8, 5, 2, 0, 0, 0]),
        (TextChange::LeftOut, [0, 16, 0, 0, 0, 0, 0]),
        (TextChange::Exchanged, [0, 16, 0, 0, 0, 0, 0]),
        (TextChange::LineLeftOut, [0, 0, 4, 1, 0, 0, 0]),
        (TextChange::LineTwice, [0, 0, 4, 1, 0, 0, 0]),
    ];
    let ask = ask_of(1, OUT)?;
    let schedule = Schedule::new(rt.alloc());
    are_counted(rt.alloc(), &schedule, &ask, Claim::Never, text, &rows)
}

/// The way may stop at the front's end, or go on to a state that can't be reached any more.
#[test]
fn copy_in_flight_changed(rt: HostRuntime) -> Result<(), Fail> {
    let text = b"b room a:F00 0\n\
             b room b:F10 6\n\
             b room t:F10 9\n\
             b room p:F10 9\n\
             b 0 goal t:F10 split\n\
             b 1 act out split\n\
             b 2 at rt 0 0 split\n\
             b 3 act print1 chain *2 d:*1 d:*0\n\
             b 3 act print2 split\n\
             b 4 at r2 0 0 split\n\
             b 5 stop chain *2 d:*1 d:*0\n\
             b 5 act feed dead\n";
    let rows = [
        (TextChange::Raised, [2, 4, 7, 16, 6, 0, 0]),
        (TextChange::Lowered, [2, 6, 5, 16, 6, 0, 0]),
        (TextChange::LeftOut, [0, 49, 0, 0, 2, 2, 0]),
        (TextChange::Exchanged, [2, 49, 0, 0, 2, 0, 0]),
        (TextChange::LineLeftOut, [0, 0, 4, 8, 0, 0, 0]),
        (TextChange::LineTwice, [0, 0, 4, 8, 0, 0, 0]),
    ];
    let ask = ask_on(Goal::Tray(TRAY))?;
    let schedule = schedule_of(rt.alloc(), front()?)?;
    are_counted(
        rt.alloc(),
        &schedule,
        &ask,
        Claim::Earliest(14),
        text,
        &rows,
    )
}

/// Each state at the purge tray whose done sides are wanted is a goal.
#[test]
fn purge_changed(rt: HostRuntime) -> Result<(), Fail> {
    let text = b"b room a:F00 0\n\
             b room b:F10 6\n\
             b room t:F10 9\n\
             b room p:F10 9\n\
             b 0 goal p:F00 dead\n\
             b 0 goal p:F10 chain *0\n\
             b 0 goal p:B00 dead\n\
             b 0 goal p:B10 dead\n";
    let rows = [
        (TextChange::Raised, [1, 5, 7, 10, 1, 1, 0]),
        (TextChange::Lowered, [1, 11, 5, 6, 1, 1, 0]),
        (TextChange::LeftOut, [0, 29, 0, 0, 0, 0, 0]),
        (TextChange::Exchanged, [0, 29, 0, 0, 0, 0, 0]),
        (TextChange::LineLeftOut, [0, 0, 4, 4, 0, 0, 0]),
        (TextChange::LineTwice, [0, 0, 4, 4, 0, 0, 0]),
    ];
    let ask = ask_on(Goal::Purge)?;
    let schedule = schedule_of(rt.alloc(), front()?)?;
    are_counted(
        rt.alloc(),
        &schedule,
        &ask,
        Claim::Earliest(14),
        text,
        &rows,
    )
}
