//! The marks of deliveries.
ghost use Rattle.std.specs.Prelude.{◌≡◌, ◌++◌, flat_map, map, OnOk, IfOk, decimal};
ghost use Rattle.tp_chart.specs.Pictures.{colour_of, diamond_text, fill_of, is_from, mark_start, mark_text, mark_at, marks_in, placeless};

use crate::course::Course;
use crate::frame::AxisFrame;
use crate::marks::{colour_of, put_count, put_end};
use crate::row::Row;
use crate::title::is_purge;
use crate::view::has_row;
use std::alloc::Global;
use tp_base::{Memory, Name, Tick};
use tp_bounds::put_sheet;
use tp_machine::{LocId, Machine, Names};
use tp_schedule::SheetName;
use tp_words::put_word;

/// A mark where a copy was delivered at a tick: its place in pixels, and whether it was delivered to a purge tray.
#[derive(Clone, Copy, Debug, PartialEq, Eq)]
pub struct Mark {
    pub x: usize,
    pub y: usize,
    pub sheet: SheetName,
    pub location: Name,
    pub at: Tick,
    pub is_purge: bool,
}

fn is_from(first: Option<Tick>, at: Tick) -> bool
    ensures { result ≡ is_from first at }
{
    match first {
        Some(first) => first <= at,
        None => true,
    }
}

fn is_of_location(loc: u16, row: &Row) -> bool {
    match row {
        Row::Tray(LocId(at)) => *at == loc,
        Row::Purge(LocId(at)) => *at == loc,
        _ => false,
    }
}

/// The row of the tray or purge tray of this name; the one below all rows, if it is none.
fn tray_row(machine: &Machine, rows: &[Row], name: &Name) -> u64 {
    let below = rows.len() as u64;
    match machine.locations.find(name) {
        Some(loc) => match rows.iter().position(|row| is_of_location(loc, row)) {
            Some(row) => row as u64,
            None => below,
        },
        None => below,
    }
}

/// The place of a mark in the rows, in pixels. The copy's own row has this number.
fn height_of(frame: &AxisFrame, machine: &Machine, rows: &[Row], own: u64, course: &Course) -> u64 {
    let row = if frame.scope.by_copies {
        own
    } else {
        tray_row(machine, rows, &course.location())
    };
    frame.y(row).saturating_add(4)
}

/// Adds the mark of a copy, if it was delivered from the first tick on.
fn add_mark(
    marks: &mut Vec<Mark>,
    frame: &AxisFrame,
    machine: &Machine,
    y: u64,
    course: &Course,
) -> Result<(), Memory>
    ensures { OnOk result (map placeless marks.new.items ≡ map placeless marks.old.items
        ++ mark_at frame.now.scope.first machine.now course.now course.now.done) }
{
    if let Some(at) = course.done()
        && is_from(frame.scope.first, at)
    {
        marks.push(Mark {
            x: frame.x(i64::from(at)) as usize,
            y: y as usize,
            sheet: *course.sheet(),
            location: course.location(),
            at,
            is_purge: is_purge(machine, &course.location()),
        })?;
    }
    Ok(())
}

/// The marks of the copies that have a row, in their order.
pub(crate) fn marks_of(
    alloc: Global,
    frame: &AxisFrame,
    machine: &Machine,
    rows: &[Row],
    courses: &[Course],
) -> Result<Vec<Mark>, Memory>
    ensures { IfOk result (λ marks. map placeless marks.items
        ≡ flat_map (marks_in frame.now.scope.first machine.now) courses.now) }
{
    let mut marks = Vec::new(alloc);
    let mut own: u64 = 0;
    for course in courses {
        if has_row(frame.scope.first, course) {
            let y = height_of(frame, machine, rows, own, course);
            add_mark(&mut marks, frame, machine, y, course)?;
            own = own.saturating_add(1);
        }
    }
    Ok(marks)
}

fn fill_of(mark: &Mark) -> &'static str
    ensures { result.now ≡ fill_of mark.now }
{
    if mark.is_purge { "d" } else { "j" }
}

#[tactic(auto, unfolding(crate::specs::Pictures::diamond_text))]
fn put_diamond(out: &mut Vec<u8>, mark: &Mark) -> Result<(), Memory>
    ensures { OnOk result (out.new.items ≡ out.old.items ++ diamond_text mark.now) }
{
    put_count(out, " edge\" d=\"M", mark.x)?;
    put_count(out, " ", mark.y)?;
    out.extend_from_slice(b"l6 6-6 6-6-6z\"><title>")?;
    Ok(())
}

#[tactic(auto, unfolding(crate::specs::Pictures::mark_start))]
fn put_mark_start(out: &mut Vec<u8>, colour: usize, mark: &Mark) -> Result<(), Memory>
    ensures { OnOk result (out.new.items ≡ out.old.items ++ mark_start colour mark.now) }
{
    out.extend_from_slice(b"<path class=\"")?;
    put_count(out, fill_of(mark), colour)?;
    put_diamond(out, mark)
}

/// Writes a mark in the colour of its job, hollow if it is that of a purge tray.
#[tactic(auto, unfolding(crate::specs::Pictures::mark_text))]
fn put_mark(out: &mut Vec<u8>, jobs: &Names, mark: &Mark) -> Result<(), Memory>
    ensures { OnOk result (out.new.items
        ≡ out.old.items ++ mark_text (colour_of jobs.now) mark.now) }
{
    put_mark_start(out, colour_of(jobs, &mark.sheet.job), mark)?;
    put_sheet(out, &mark.sheet)?;
    out.extend_from_slice(b" in")?;
    put_word(out, mark.location.as_bytes())?;
    put_count(out, " at ", mark.at as usize)?;
    put_end(out)
}

/// Writes the marks in turn.
pub(crate) fn put_marks(out: &mut Vec<u8>, jobs: &Names, marks: &[Mark]) -> Result<(), Memory>
    ensures { OnOk result (out.new.items
        ≡ out.old.items ++ flat_map (mark_text (colour_of jobs.now)) marks.now) }
{
    for mark in marks {
        put_mark(out, jobs, mark)?;
    }
    Ok(())
}
