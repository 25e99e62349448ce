//! The changeovers between the holds of a resource.
use crate::bars::Bar;
use crate::frame::AxisFrame;
use crate::text_pieces::put_name;
use std::alloc::{AllocError, Global};
use tp_machine::{Machine, Resource};

/// The resource of a hold, if it has a changeover time.
fn changing<'m>(machine: &'m Machine, bar: &Bar) -> Option<&'m Resource> {
    let at = usize::from(bar.resource?);
    let resource = machine.resources.as_slice().get(at)?;
    if resource.gap > 0 {
        Some(resource)
    } else {
        None
    }
}

/// The outline of the changeover between two holds of a resource, of different modes.
fn put_changeover(
    text: &mut String,
    frame: &AxisFrame,
    resource: &Resource,
    before: &Bar,
    bar: &Bar,
) -> Result<(), AllocError> {
    let end = bar.begin;
    let begin = end.saturating_sub(i64::from(resource.gap)).max(before.end);
    let x = frame.x(begin);
    let width = frame.x(end).saturating_sub(x);
    if begin < end && width > 0 {
        let y = frame.y(bar.row as u64).saturating_add(3);
        write!(
            text,
            "<path class=\"over\" d=\"M{x} {y}h{width}v14h-{width}z\"><title>"
        )?;
        put_name(text, &resource.name)?;
        write!(text, " changes over {begin} to {end}</title></path>\n")?;
    }
    Ok(())
}

fn put_between(
    text: &mut String,
    frame: &AxisFrame,
    machine: &Machine,
    before: &Bar,
    bar: &Bar,
) -> Result<(), AllocError> {
    match changing(machine, bar) {
        Some(resource) if before.row == bar.row && before.mode != bar.mode => {
            put_changeover(text, frame, resource, before, bar)
        }
        _ => Ok(()),
    }
}

/// The bars, row by row, and on each by their begins.
fn by_rows(alloc: Global, bars: &[Bar]) -> Result<Vec<Bar>, AllocError> {
    let mut sorted = Vec::from_slice(alloc, bars)?;
    sorted.sort_unstable_by_key(|bar| (bar.row, bar.begin));
    Ok(sorted)
}

/// The outlines of the changeovers between drawn holds: of the changeover time, up to the second hold.
pub(crate) fn put_changeovers(
    alloc: Global,
    text: &mut String,
    frame: &AxisFrame,
    machine: &Machine,
    bars: &[Bar],
) -> Result<(), AllocError> {
    let sorted = by_rows(alloc, bars)?;
    let mut rest = sorted.as_slice();
    'bars: while let [before, later @ ..] = rest {
        if let [bar, ..] = later {
            put_between(text, frame, machine, before, bar)?;
        }
        rest = later;
    }
    Ok(())
}
