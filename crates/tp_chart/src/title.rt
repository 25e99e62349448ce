//! The title of a picture.
ghost use Rattle.std.specs.Prelude.{◌≡◌, ◌++◌, ◌&&◌, ◌==◌, count_by, flat_map, is_some, not, decimal, OnOk, IfOk};
ghost use Rattle.std.specs.List.{list_any};
ghost use Rattle.tp_chart.specs.Titles.{counts_text, fates_text, from_text, is_among, is_delivered, is_purge, is_purged, kind_text, module_text, moment_text, out_text, state_text, title_text};

use crate::course::Course;
use crate::marks::put_count;
use crate::out_span::{OutKind, OutSpan};
use crate::scene::Scene;
use std::alloc::Global;
use tp_base::{Memory, Name, Tick};
use tp_machine::{LocId, Machine};
use tp_words::put_word;

fn has_tray(trays: &[LocId], at: u16) -> bool
    ensures { result ≡ list_any (λ t. t.0 == at) trays.now }
{
    trays.iter().any(|tray| tray.0 == at)
}

fn is_among(at: Option<u16>, trays: &[LocId]) -> bool
    ensures { result ≡ is_among at trays.now }
{
    match at {
        Some(at) => has_tray(trays, at),
        None => false,
    }
}

/// Whether the location of this name is a purge tray.
pub(crate) fn is_purge(machine: &Machine, name: &Name) -> bool
    ensures { result ≡ is_purge machine.now name.now }
{
    is_among(machine.locations.find(name), machine.purges.as_slice())
}

fn is_delivered(machine: &Machine, course: &Course) -> bool
    ensures { result ≡ is_delivered machine.now course.now }
{
    course.done().is_some() && !is_purge(machine, &course.location())
}

fn is_purged(machine: &Machine, course: &Course) -> bool
    ensures { result ≡ is_purged machine.now course.now }
{
    course.done().is_some() && is_purge(machine, &course.location())
}

fn count_delivered(machine: &Machine, courses: &[Course]) -> usize
    ensures { result ≡ count_by (is_delivered machine.now) courses.now }
{
    courses
        .iter()
        .filter(|course| is_delivered(machine, course))
        .count()
}

fn count_purged(machine: &Machine, courses: &[Course]) -> usize
    ensures { result ≡ count_by (is_purged machine.now) courses.now }
{
    courses
        .iter()
        .filter(|course| is_purged(machine, course))
        .count()
}

fn count_lost(courses: &[Course]) -> usize
    ensures { result ≡ count_by (λ w. w.is_lost) courses.now }
{
    courses.iter().filter(|course| course.is_lost()).count()
}

pub(crate) fn kind_text(kind: OutKind) -> &'static str
    ensures { result.now ≡ kind_text kind }
{
    match kind {
        OutKind::Jam => " jam",
        OutKind::Off => " off",
        OutKind::Stuck => " stuck",
        OutKind::Saved => " out",
    }
}

#[tactic(auto, unfolding(crate::specs::Titles::module_text))]
fn put_module(out: &mut Vec<u8>, machine: &Machine, number: u16) -> Result<(), Memory>
    ensures { OnOk result (out.new.items ≡ out.old.items ++ module_text machine.now number) }
{
    if u32::from(number) < machine.modules.len() {
        put_word(out, machine.modules.get(number).as_bytes())?;
    }
    Ok(())
}

/// Writes the module of an outage that lasts.
#[tactic(auto, unfolding(crate::specs::Titles::out_text))]
fn put_out(out: &mut Vec<u8>, machine: &Machine, outage: &OutSpan) -> Result<(), Memory>
    ensures { OnOk result (out.new.items ≡ out.old.items ++ out_text machine.now outage.now) }
{
    if outage.end.is_none() {
        out.push(b',')?;
        put_module(out, machine, outage.number)?;
        out.extend_from_slice(kind_text(outage.kind).as_bytes())?;
    }
    Ok(())
}

fn put_outs(out: &mut Vec<u8>, machine: &Machine, outages: &[OutSpan]) -> Result<(), Memory>
    ensures { OnOk result (out.new.items
        ≡ out.old.items ++ flat_map (out_text machine.now) outages.now) }
{
    for outage in outages {
        put_out(out, machine, outage)?;
    }
    Ok(())
}

#[tactic(auto, unfolding(crate::specs::Titles::from_text))]
fn put_from(out: &mut Vec<u8>, first: Option<Tick>) -> Result<(), Memory>
    ensures { OnOk result (out.new.items ≡ out.old.items ++ from_text first) }
{
    if let Some(first) = first {
        put_count(out, ", from ", first as usize)?;
        out.extend_from_slice(b" on")?;
    }
    Ok(())
}

/// Writes how many copies were delivered, were purged and were lost, behind how many wait.
#[tactic(auto, unfolding(crate::specs::Titles::fates_text))]
fn put_fates(out: &mut Vec<u8>, delivered: usize, purged: usize, lost: usize) -> Result<(), Memory>
    ensures { OnOk result (out.new.items ≡ out.old.items ++ fates_text delivered purged lost) }
{
    put_count(out, " waiting, ", delivered)?;
    put_count(out, " delivered, ", purged)?;
    put_count(out, " purged, ", lost)?;
    out.extend_from_slice(b" lost")?;
    Ok(())
}

#[tactic(auto, unfolding(crate::specs::Titles::counts_text))]
fn put_counts(out: &mut Vec<u8>, machine: &Machine, scene: &Scene) -> Result<(), Memory>
    ensures { OnOk result (out.new.items ≡ out.old.items ++ counts_text machine.now scene.now) }
{
    let courses = scene.courses();
    put_count(out, ": ", scene.waiting() as usize)?;
    let delivered = count_delivered(machine, courses);
    put_fates(
        out,
        delivered,
        count_purged(machine, courses),
        count_lost(courses),
    )
}

/// Writes the modules that are out, and what became of the sheets.
#[tactic(auto, unfolding(crate::specs::Titles::state_text))]
fn put_state(out: &mut Vec<u8>, machine: &Machine, scene: &Scene) -> Result<(), Memory>
    ensures { OnOk result (out.new.items ≡ out.old.items ++ state_text machine.now scene.now) }
{
    put_outs(out, machine, scene.outages())?;
    put_counts(out, machine, scene)
}

#[tactic(auto, unfolding(crate::specs::Titles::moment_text))]
fn put_moment(out: &mut Vec<u8>, first: Option<Tick>, moment: Tick) -> Result<(), Memory>
    ensures { OnOk result (out.new.items ≡ out.old.items ++ moment_text first moment) }
{
    put_count(out, "The schedule at ", moment as usize)?;
    put_from(out, first)
}

/// Writes the title: the moment, the first tick of a picture that does not show all, the modules that are out, and how many
/// copies wait, were delivered, were purged and were lost.
#[tactic(auto, unfolding(crate::specs::Titles::title_text))]
pub(crate) fn put_title(
    out: &mut Vec<u8>,
    first: Option<Tick>,
    machine: &Machine,
    scene: &Scene,
) -> Result<(), Memory>
    ensures { OnOk result (out.new.items
        ≡ out.old.items ++ title_text first machine.now scene.now) }
{
    put_moment(out, first, scene.moment())?;
    put_state(out, machine, scene)
}
