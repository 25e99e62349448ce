//! The rows of a picture: their labels, the axis above them, and the times in which modules were out.
use crate::frame::{AxisFrame, HEAD, ROW};
use crate::out_span::{OutKind, OutSpan};
use crate::row::Row;
use crate::scene::Scene;
use crate::text_pieces::{put_copy, put_name};
use crate::view::has_row;
use std::alloc::AllocError;
use tp_base::Name;
use tp_machine::{Machine, Names};
use tp_schedule::SheetName;

/// What a row is named by: a kind and a name, or a copy.
#[derive(Clone, Copy)]
enum RowName<'a> {
    Named(&'static str, &'a Name),
    Copy(&'a SheetName),
}

fn kind_of(row: &Row) -> &'static str {
    match row {
        Row::Tray(_) => "tray ",
        Row::Purge(_) => "purge ",
        _ => "",
    }
}

fn name_at(names: &Names, at: usize) -> Option<Name> {
    match u16::try_from(at) {
        Ok(at) if u32::from(at) < names.len() => Some(names.get(at)),
        _ => None,
    }
}

/// The name of what a row shows.
fn name_of(machine: &Machine, row: &Row) -> Option<Name> {
    match row {
        Row::Resource(at) => Some(machine.resources.as_slice().get(*at)?.name),
        Row::Module(at) => name_at(&machine.modules, *at),
        Row::Tray(loc) => name_at(&machine.locations, usize::from(loc.0)),
        Row::Purge(loc) => name_at(&machine.locations, usize::from(loc.0)),
    }
}

/// How many letters the name of a row has.
pub(crate) fn letters_in(machine: &Machine, row: &Row) -> usize {
    match name_of(machine, row) {
        Some(name) => kind_of(row).len().saturating_add(name.as_bytes().len()),
        None => 0,
    }
}

/// The name of a row at a place.
fn put_label(
    text: &mut String,
    x: u64,
    y: u64,
    anchor: &str,
    name: &RowName<'_>,
) -> Result<(), AllocError> {
    write!(
        text,
        "<text class=\"ink\" x=\"{x}\" y=\"{y}\" text-anchor=\"{anchor}\">"
    )?;
    match name {
        RowName::Named(kind, name) => {
            text.push_str(kind)?;
            put_name(text, name)?;
        }
        RowName::Copy(sheet) => put_copy(text, sheet)?,
    }
    text.push_str("</text>\n")
}

/// The stripe of a row.
fn put_stripe(text: &mut String, frame: &AxisFrame, y: u64) -> Result<(), AllocError> {
    let width = frame.width().saturating_sub(16);
    write!(
        text,
        "<rect class=\"stripe\" x=\"8\" y=\"{y}\" width=\"{width}\" height=\"{ROW}\"/>\n"
    )
}

/// The stripe of a row, and its name at one end or at both.
fn put_row(
    text: &mut String,
    frame: &AxisFrame,
    row: u64,
    name: &RowName<'_>,
) -> Result<(), AllocError> {
    let y = frame.y(row);
    let below = y.saturating_add(14);
    if row % 2 == 0 {
        put_stripe(text, frame, y)?;
    }
    put_label(text, frame.left.saturating_sub(8), below, "end", name)?;
    if frame.is_wide() {
        let beside = frame.right().saturating_add(8);
        put_label(text, beside, below, "start", name)?;
    }
    Ok(())
}

fn put_machine_rows(
    text: &mut String,
    frame: &AxisFrame,
    machine: &Machine,
    rows: &[Row],
) -> Result<(), AllocError> {
    let mut number: u64 = 0;
    for row in rows {
        if let Some(name) = name_of(machine, row) {
            put_row(text, frame, number, &RowName::Named(kind_of(row), &name))?;
        }
        number = number.saturating_add(1);
    }
    Ok(())
}

fn put_copy_rows(text: &mut String, frame: &AxisFrame, scene: &Scene) -> Result<(), AllocError> {
    let mut row: u64 = 0;
    for course in scene.courses() {
        if has_row(frame.scope.first, course) {
            put_row(text, frame, row, &RowName::Copy(course.sheet()))?;
            row = row.saturating_add(1);
        }
    }
    Ok(())
}

/// Whether the row shows the module or a resource of it.
fn is_of_module(machine: &Machine, module: usize, row: &Row) -> bool {
    match row {
        Row::Resource(at) => match machine.resources.as_slice().get(*at) {
            Some(resource) => usize::from(resource.module.0) == module,
            None => false,
        },
        Row::Module(at) => *at == module,
        _ => false,
    }
}

fn class_of(kind: OutKind) -> &'static str {
    match kind {
        OutKind::Jam => "jam",
        OutKind::Off => "off",
        OutKind::Stuck => "stuck",
        OutKind::Saved => "out",
    }
}

/// The title of a band: the module, why it was out, and from when to when.
fn put_band_title(
    text: &mut String,
    machine: &Machine,
    outage: &OutSpan,
) -> Result<(), AllocError> {
    if let Some(name) = name_at(&machine.modules, usize::from(outage.number)) {
        put_name(text, &name)?;
    }
    let kind = class_of(outage.kind);
    let begin = outage.begin;
    match outage.end {
        Some(end) => write!(text, " {kind} {begin} to {end}"),
        None => write!(text, " {kind} from {begin} on"),
    }
}

/// The band of an outage on a row.
fn put_band(
    text: &mut String,
    frame: &AxisFrame,
    machine: &Machine,
    outage: &OutSpan,
    y: u64,
) -> Result<(), AllocError> {
    let end = match outage.end {
        Some(end) => i64::from(end).min(frame.last),
        None => frame.last,
    };
    let begin = i64::from(outage.begin).max(frame.first);
    let x = frame.x(begin);
    let width = frame.x(end).saturating_sub(x);
    let class = class_of(outage.kind);
    if width > 0 {
        write!(
            text,
            "<rect class=\"{class}\" x=\"{x}\" y=\"{y}\" width=\"{width}\" height=\"{ROW}\"><title>"
        )?;
        put_band_title(text, machine, outage)?;
        text.push_str("</title></rect>\n")?;
    }
    Ok(())
}

/// The bands of an outage, on the rows of the module and of its resources.
fn put_outage(
    text: &mut String,
    frame: &AxisFrame,
    machine: &Machine,
    rows: &[Row],
    outage: &OutSpan,
) -> Result<(), AllocError> {
    let mut number: u64 = 0;
    for row in rows {
        if is_of_module(machine, usize::from(outage.number), row) {
            put_band(text, frame, machine, outage, frame.y(number))?;
        }
        number = number.saturating_add(1);
    }
    Ok(())
}

/// A line of the axis with its label above it.
fn put_tick(text: &mut String, frame: &AxisFrame, tick: i64) -> Result<(), AllocError> {
    let x = frame.x(tick);
    let top = HEAD - 4;
    let label = HEAD - 9;
    let bottom = frame.bottom();
    write!(
        text,
        "<path class=\"grid\" d=\"M{x} {top}V{bottom}\"/><text class=\"faint\" x=\"{x}\" y=\"{label}\" text-anchor=\"middle\">{tick}</text>\n"
    )
}

fn put_axis(text: &mut String, frame: &AxisFrame) -> Result<(), AllocError> {
    let step = frame.step.max(1);
    let first = frame.first_step();
    let count = frame.last.saturating_sub(first) / step;
    for number in 0..=count {
        let tick = first.saturating_add(number.saturating_mul(step));
        put_tick(text, frame, tick)?;
    }
    Ok(())
}

pub(crate) fn put_rows(
    text: &mut String,
    frame: &AxisFrame,
    machine: &Machine,
    rows: &[Row],
    scene: &Scene,
) -> Result<(), AllocError> {
    if frame.scope.by_copies {
        put_copy_rows(text, frame, scene)?;
        return put_axis(text, frame);
    }
    put_machine_rows(text, frame, machine, rows)?;
    put_axis(text, frame)?;
    for outage in scene.outages() {
        put_outage(text, frame, machine, rows, outage)?;
    }
    Ok(())
}
