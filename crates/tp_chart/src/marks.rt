//! The text of a bar.
ghost use Rattle.std.specs.Prelude.{◌≡◌, ◌++◌, flat_map, option_map, OnOk, decimal};
ghost use Rattle.std.specs.Fmt.{signed_decimal};
ghost use Rattle.tp_chart.specs.Pictures.{action_text, bar_text, colour_of, cross_text, end_text, foot_text, held_text, kind_of, name_text, names_text, shape_text, start_text, stripe_text, ticks_text};

use crate::bars::Bar;
use crate::top::COLOURS;
use tp_base::{Memory, Name};
use tp_bounds::put_sheet;
use tp_machine::{Machine, Names, Resource};
use tp_words::put_word;

/// The number of a job's colour.
pub(crate) fn colour_of(jobs: &Names, job: &Name) -> usize
    ensures { result ≡ colour_of jobs.now job.now }
{
    match jobs.find(job) {
        Some(at) => usize::from(at) % COLOURS,
        None => 0,
    }
}

fn kind_of(bar: &Bar) -> &'static str
    ensures { result.now ≡ kind_of bar.now }
{
    if bar.released { "j" } else { "p" }
}

/// Writes a number behind a text.
pub(crate) fn put_count(out: &mut Vec<u8>, lead: &str, count: usize) -> Result<(), Memory>
    ensures { OnOk result (out.new.items ≡ out.old.items ++ (lead.now ++ decimal count)) }
{
    out.extend_from_slice(lead.as_bytes())?;
    let digits = format!(in *out.allocator(); "{count}")?;
    out.extend_from_slice(digits.as_bytes())?;
    Ok(())
}

/// Writes a tick behind a text.
fn put_tick(out: &mut Vec<u8>, lead: &str, tick: i64) -> Result<(), Memory>
    ensures { OnOk result (out.new.items ≡ out.old.items ++ (lead.now ++ signed_decimal tick)) }
{
    out.extend_from_slice(lead.as_bytes())?;
    let digits = format!(in *out.allocator(); "{tick}")?;
    out.extend_from_slice(digits.as_bytes())?;
    Ok(())
}

/// Writes the shape of a bar, in ticks and rows.
#[tactic(auto, unfolding(crate::specs::Pictures::shape_text))]
fn put_shape(out: &mut Vec<u8>, bar: &Bar) -> Result<(), Memory>
    ensures { OnOk result (out.new.items ≡ out.old.items ++ shape_text bar.now) }
{
    put_tick(out, "M", bar.begin)?;
    put_count(out, " ", bar.row)?;
    put_tick(out, ".15H", bar.end)?;
    put_count(out, "V", bar.row)?;
    put_tick(out, ".85H", bar.begin)?;
    out.push(b'z')?;
    Ok(())
}

/// Writes the shape of the stripe in the foot of a bar.
#[tactic(auto, unfolding(crate::specs::Pictures::foot_text))]
fn put_foot(out: &mut Vec<u8>, bar: &Bar) -> Result<(), Memory>
    ensures { OnOk result (out.new.items ≡ out.old.items ++ foot_text bar.now) }
{
    put_tick(out, "M", bar.begin)?;
    put_count(out, " ", bar.row)?;
    put_tick(out, ".7H", bar.end)?;
    put_count(out, "V", bar.row)?;
    put_tick(out, ".85H", bar.begin)?;
    out.push(b'z')?;
    Ok(())
}

#[tactic(auto, unfolding(crate::specs::Pictures::start_text))]
fn put_start(out: &mut Vec<u8>, colour: usize, bar: &Bar) -> Result<(), Memory>
    ensures { OnOk result (out.new.items ≡ out.old.items ++ start_text colour bar.now) }
{
    out.extend_from_slice(b"<path class=\"")?;
    put_count(out, kind_of(bar), colour)?;
    out.extend_from_slice(b"\" d=\"")?;
    put_shape(out, bar)?;
    out.extend_from_slice(b"\"><title>")?;
    Ok(())
}

/// Writes the copy and the action. They need no escape: no byte of a name has a meaning in SVG.
#[tactic(auto, unfolding(crate::specs::Pictures::names_text))]
fn put_names(out: &mut Vec<u8>, bar: &Bar) -> Result<(), Memory>
    ensures { OnOk result (out.new.items ≡ out.old.items ++ names_text bar.now) }
{
    put_sheet(out, &bar.sheet)?;
    put_word(out, bar.act.as_bytes())
}

#[tactic(auto, unfolding(crate::specs::Pictures::end_text))]
pub(crate) fn put_end(out: &mut Vec<u8>) -> Result<(), Memory>
    ensures { OnOk result (out.new.items ≡ out.old.items ++ end_text) }
{
    out.extend_from_slice(b"</title></path>\n")?;
    Ok(())
}

fn put_resource(out: &mut Vec<u8>, resource: Option<&Resource>) -> Result<(), Memory>
    ensures { OnOk result (out.new.items
        ≡ out.old.items ++ name_text (option_map (λ r. r.now) resource.entry)) }
{
    if let Some(resource) = resource {
        out.extend_from_slice(b" holds")?;
        put_word(out, resource.name.as_bytes())?;
    }
    Ok(())
}

/// Writes the resource of a hold.
#[tactic(auto, unfolding(crate::specs::Pictures::held_text))]
fn put_held(out: &mut Vec<u8>, machine: &Machine, resource: Option<u16>) -> Result<(), Memory>
    ensures { OnOk result (out.new.items ≡ out.old.items ++ held_text machine.now resource) }
{
    match resource {
        Some(at) => put_resource(out, machine.resources.as_slice().get(usize::from(at))),
        None => Ok(()),
    }
}

#[tactic(auto, unfolding(crate::specs::Pictures::ticks_text))]
fn put_ticks(out: &mut Vec<u8>, bar: &Bar) -> Result<(), Memory>
    ensures { OnOk result (out.new.items ≡ out.old.items ++ ticks_text bar.now) }
{
    let begin = bar.begin;
    let end = bar.end;
    put_tick(out, " ", begin)?;
    put_tick(out, " to ", end)
}

/// Writes the ticks of the action of a hold.
#[tactic(auto, unfolding(crate::specs::Pictures::action_text))]
fn put_action(out: &mut Vec<u8>, bar: &Bar) -> Result<(), Memory>
    ensures { OnOk result (out.new.items ≡ out.old.items ++ action_text bar.now) }
{
    if bar.resource.is_some() {
        put_count(out, ", action ", bar.start as usize)?;
        put_count(out, " to ", bar.stop as usize)?;
    }
    Ok(())
}

/// Writes the stripe in the foot of a hold that has a mode above 0.
#[tactic(auto, unfolding(crate::specs::Pictures::stripe_text))]
fn put_stripe(out: &mut Vec<u8>, bar: &Bar) -> Result<(), Memory>
    ensures { OnOk result (out.new.items ≡ out.old.items ++ stripe_text bar.now) }
{
    if bar.mode > 0 {
        out.extend_from_slice(b"<path class=\"mode\" d=\"")?;
        put_foot(out, bar)?;
        out.extend_from_slice(b"\"/>\n")?;
    }
    Ok(())
}

/// Writes the cross over a bar of a lost copy.
#[tactic(auto, unfolding(crate::specs::Pictures::cross_text))]
fn put_cross(out: &mut Vec<u8>, bar: &Bar) -> Result<(), Memory>
    ensures { OnOk result (out.new.items ≡ out.old.items ++ cross_text bar.now) }
{
    if bar.is_lost {
        out.extend_from_slice(b"<path class=\"cross\" d=\"")?;
        put_shape(out, bar)?;
        out.extend_from_slice(b"\"/>\n")?;
    }
    Ok(())
}

/// Writes a bar in the colour of its job, with its copy, action, resource and ticks in the title.
#[tactic(auto, unfolding(crate::specs::Pictures::bar_text))]
fn put_bar(out: &mut Vec<u8>, machine: &Machine, jobs: &Names, bar: &Bar) -> Result<(), Memory>
    ensures { OnOk result (out.new.items
        ≡ out.old.items ++ bar_text machine.now (colour_of jobs.now) bar.now) }
{
    put_start(out, colour_of(jobs, &bar.sheet.job), bar)?;
    put_names(out, bar)?;
    put_held(out, machine, bar.resource)?;
    put_ticks(out, bar)?;
    put_action(out, bar)?;
    put_end(out)?;
    put_stripe(out, bar)?;
    put_cross(out, bar)
}

/// Writes the bars in turn.
pub(crate) fn put_bars(
    out: &mut Vec<u8>,
    machine: &Machine,
    jobs: &Names,
    bars: &[Bar],
) -> Result<(), Memory>
    ensures { OnOk result (out.new.items ≡ out.old.items
        ++ flat_map (bar_text machine.now (colour_of jobs.now)) bars.now) }
{
    for bar in bars {
        put_bar(out, machine, jobs, bar)?;
    }
    Ok(())
}
