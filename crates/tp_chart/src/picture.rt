//! A picture as a text.
ghost use Rattle.std.specs.Prelude.{◌≡◌, ◌++◌, [], flat_map, map, IfOk, OnOk};
ghost use Rattle.tp_chart.specs.Bars.{bars_seen};
ghost use Rattle.tp_chart.specs.Pictures.{Draws, GoesOn, marks_in, placeless, titled_text};

use crate::bars::{Bar, bars_of};
use crate::changeovers::put_changeovers;
use crate::course::Course;
use crate::deliveries::{Mark, marks_of, put_marks};
use crate::frame::{AxisFrame, HEAD, ROW, count_rows};
use crate::head_marks::{put_edges, put_ending};
use crate::marks::put_bars;
use crate::row::{Row, rows_of};
use crate::rows::{letters_in, put_rows};
use crate::scene::Scene;
use crate::title::put_title;
use crate::top::{put_millionths, put_size, put_top};
use crate::view::{Scope, has_row};
use std::alloc::{AllocError, Global};
use tp_base::{Memory, Name, Tick};
use tp_machine::{Machine, Names};

/// How many jobs have a colour of their own place.
const JOBS: u32 = 65_536;

fn add_job(jobs: &mut Names, job: &Name) -> Result<(), Memory> {
    if jobs.len() < JOBS {
        let _ = jobs.add(*job)?;
    }
    Ok(())
}

/// The jobs of the courses and the bars that are drawn, in the order of their first ones.
fn jobs_of(alloc: Global, scope: &Scope, scene: &Scene, bars: &[Bar]) -> Result<Names, Memory> {
    let mut jobs = Names::new(alloc);
    for course in scene.courses() {
        if has_row(scope.first, course) {
            add_job(&mut jobs, &course.sheet().job)?;
        }
    }
    for bar in bars {
        add_job(&mut jobs, &bar.sheet.job)?;
    }
    Ok(jobs)
}

fn letters_of_copies(courses: &[Course]) -> usize {
    let mut letters: usize = 10;
    for course in courses {
        letters = letters.max(course.sheet().job.as_bytes().len().saturating_add(7));
    }
    letters
}

fn letters_of_rows(machine: &Machine, rows: &[Row]) -> usize {
    let mut letters: usize = 10;
    for row in rows {
        letters = letters.max(letters_in(machine, row));
    }
    letters
}

/// The beginning of the group of bars, which are drawn in ticks and rows, as far as they lie in the frame.
fn put_group(text: &mut String, frame: &AxisFrame) -> Result<(), AllocError> {
    let left = frame.left;
    let width = frame.across(frame.last);
    let height = frame.rows.saturating_mul(ROW);
    let back = 0i64.saturating_sub(frame.first);
    write!(
        text,
        "<svg x=\"{left}\" y=\"{HEAD}\" width=\"{width}\" height=\"{height}\"><g transform=\"scale("
    )?;
    put_millionths(text, frame.scale)?;
    write!(text, ",{ROW}) translate({back},0)\">\n")
}

/// How a picture is laid out: where its parts stand, its rows, its title, and the jobs that have colours.
#[derive(Drop)]
struct Layout {
    frame: AxisFrame,
    rows: Vec<Row>,
    title: Vec<u8>,
    jobs: Names,
}

fn frame_of(
    scope: &Scope,
    machine: &Machine,
    scene: &Scene,
    rows: &[Row],
    bars: &[Bar],
    title: usize,
) -> AxisFrame
    ensures { result.scope ≡ scope.now }
{
    let letters = if scope.by_copies {
        letters_of_copies(scene.courses())
    } else {
        letters_of_rows(machine, rows)
    };
    let count = count_rows(scope, rows, scene);
    AxisFrame::of(scope, scene, bars, count, letters as u64, title as u64)
}

fn layout_of(
    alloc: Global,
    scope: &Scope,
    machine: &Machine,
    scene: &Scene,
    rows: Vec<Row>,
    bars: &[Bar],
) -> Result<Layout, Memory>
    ensures { IfOk result (λ layout. layout.frame.scope ≡ scope.now) }
{
    let jobs = jobs_of(alloc, scope, scene, bars)?;
    let mut title = Vec::new(alloc);
    put_title(&mut title, scope.first, machine, scene)?;
    let frame = frame_of(scope, machine, scene, &rows, bars, title.len());
    Ok(Layout {
        frame,
        rows,
        title,
        jobs,
    })
}

/// What stands before the title.
fn add_head(out: &mut Vec<u8>, layout: &Layout) -> Result<(), Memory>
    ensures { OnOk result (GoesOn out.old.items out.new.items) }
{
    let mut text = String::new(*out.allocator());
    put_size(&mut text, &layout.frame, &layout.title)?;
    out.extend_from_slice(text.as_bytes())?;
    Ok(())
}

#[tactic(auto, unfolding(crate::specs::Pictures::titled_text))]
fn put_titled(
    out: &mut Vec<u8>,
    first: Option<Tick>,
    machine: &Machine,
    scene: &Scene,
) -> Result<(), Memory>
    ensures { OnOk result (out.new.items
        ≡ out.old.items ++ titled_text first machine.now scene.now) }
{
    out.extend_from_slice(b"<title>")?;
    put_title(out, first, machine, scene)?;
    out.extend_from_slice(b"</title>\n")?;
    Ok(())
}

/// What stands between the title and the bars.
fn top_of(
    alloc: Global,
    layout: &Layout,
    machine: &Machine,
    scene: &Scene,
) -> Result<String, AllocError> {
    let mut text = String::new(alloc);
    put_top(&mut text, &layout.frame, &layout.title, &layout.jobs)?;
    put_rows(&mut text, &layout.frame, machine, &layout.rows, scene)?;
    put_group(&mut text, &layout.frame)?;
    Ok(text)
}

fn add_top(
    out: &mut Vec<u8>,
    layout: &Layout,
    machine: &Machine,
    scene: &Scene,
) -> Result<(), Memory>
    ensures { OnOk result (GoesOn out.old.items out.new.items) }
{
    let top = top_of(*out.allocator(), layout, machine, scene)?;
    out.extend_from_slice(top.as_bytes())?;
    Ok(())
}

/// What stands between the bars and the marks: the end of their group, the lines that part them, and the changeovers.
fn between_of(
    alloc: Global,
    frame: &AxisFrame,
    machine: &Machine,
    bars: &[Bar],
) -> Result<String, AllocError> {
    let mut text = String::new(alloc);
    text.push_str("</g></svg>\n")?;
    put_edges(&mut text, frame, bars)?;
    put_changeovers(alloc, &mut text, frame, machine, bars)?;
    Ok(text)
}

fn add_between(
    out: &mut Vec<u8>,
    frame: &AxisFrame,
    machine: &Machine,
    bars: &[Bar],
) -> Result<(), Memory>
    ensures { OnOk result (GoesOn out.old.items out.new.items) }
{
    let between = between_of(*out.allocator(), frame, machine, bars)?;
    out.extend_from_slice(between.as_bytes())?;
    Ok(())
}

fn add_ending(out: &mut Vec<u8>, frame: &AxisFrame, moment: Tick) -> Result<(), Memory>
    ensures { OnOk result (GoesOn out.old.items out.new.items) }
{
    let mut text = String::new(*out.allocator());
    put_ending(&mut text, frame, moment)?;
    out.extend_from_slice(text.as_bytes())?;
    Ok(())
}

/// Writes the picture in this layout.
fn add_picture(
    out: &mut Vec<u8>,
    layout: &Layout,
    machine: &Machine,
    scene: &Scene,
    bars: &[Bar],
    marks: &[Mark],
) -> Result<(), Memory>
    requires empty { out.old.items ≡ [] }
    requires bars { bars.now ≡ bars_seen layout.now.frame.scope machine.now scene.now }
    requires marks { map placeless marks.now
        ≡ flat_map (marks_in layout.now.frame.scope.first machine.now) scene.now.courses }
    ensures { OnOk result
        (Draws layout.now.frame.scope machine.now scene.now out.new.items) }
{
    add_head(out, layout)?;
    put_titled(out, layout.frame.scope.first, machine, scene)?;
    add_top(out, layout, machine, scene)?;
    put_bars(out, machine, &layout.jobs, bars)?;
    add_between(out, &layout.frame, machine, bars)?;
    put_marks(out, &layout.jobs, marks)?;
    add_ending(out, &layout.frame, scene.moment())?;
    Ok(())
}

/// The picture of a schedule, as SVG.
pub fn draw(
    alloc: Global,
    scope: &Scope,
    machine: &Machine,
    scene: &Scene,
) -> Result<Vec<u8>, Memory>
    ensures { IfOk result (λ text. Draws scope.now machine.now scene.now text.items) }
{
    let rows = rows_of(alloc, scope.first, machine, scene.outages())?;
    let bars = bars_of(alloc, scope, machine, &rows, scene.courses())?;
    let layout = layout_of(alloc, scope, machine, scene, rows, &bars)?;
    let marks = marks_of(alloc, &layout.frame, machine, &layout.rows, scene.courses())?;
    let mut text = Vec::new(alloc);
    add_picture(&mut text, &layout, machine, scene, &bars, &marks)?;
    Ok(text)
}
