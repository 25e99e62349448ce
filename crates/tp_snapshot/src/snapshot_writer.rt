//! A snapshot written.
ghost use Rattle.std.specs.Prelude.{◌≡◌, IfOk, IsUtf8, OnOk, codes, true};
ghost use Rattle.serde_json.specs.Data.{put as with_member, string};
ghost use Rattle.serde_json.specs.View.{members_view, view};
ghost use Rattle.tp_words.specs.Parts.{lacks};
ghost use Rattle.tp_session_standing.specs.Sound.{IsSound};
ghost use Rattle.tp_snapshot.specs.Laws.{IsSpelled};
ghost use Rattle.tp_snapshot.specs.Rules.{IsSnapshot};
ghost use Rattle.tp_snapshot.specs.Texts.{HasNames, IsWritten};
ghost use Rattle.tp_snapshot.specs.Written.{job_data, list_data, out_names, plan_data, snapshot_data, stock_data, texts, wait_data, whole_data};

use crate::jobs::jobs_value;
use crate::json_values::text_value;
use crate::moments::{outs_value, stock_value};
use crate::plans::plans_value;
use crate::standing_rules::standing_law;
use crate::waiting_copies::waiting_value;
use serde_json::{Map, Value, put};
use std::alloc::Global;
use tp_base::Memory;
use tp_jobs::Standing;
use tp_machine::{Machine, machine_law};
use tp_machine_text::print_machine;

/// Puts the format, the jobs, the machine's text and the moment into the members of a snapshot.
fn put_first_members(
    alloc: Global,
    members: &mut Map<String, Value>,
    text: &[u8],
    machine: &Machine,
    standing: &Standing,
) -> Result<(), Memory>
    requires utf8 { IsUtf8 text.now }
    requires named { HasNames machine.now standing.now }
    ensures { OnOk result (members_view members.new.entries
        ≡ with_member (codes "now") (whole_data standing.entry.now.now)
        (with_member (codes "machine") (string text.now)
        (with_member (codes "jobs") (list_data (job_data machine.now) standing.entry.now.jobs)
        (with_member (codes "format") (whole_data 1) (members_view members.old.entries))))) }
{
    put(members, alloc, "format", Value::from(1u32))?;
    put(
        members,
        alloc,
        "jobs",
        jobs_value(alloc, machine, standing.jobs.as_slice())?,
    )?;
    put(members, alloc, "machine", text_value(alloc, text)?)?;
    put(members, alloc, "now", Value::from(standing.now))?;
    Ok(())
}

/// Puts the modules that are out, the plans, the stock and the copies that wait into the members of a snapshot.
fn put_last_members(
    alloc: Global,
    members: &mut Map<String, Value>,
    machine: &Machine,
    standing: &Standing,
) -> Result<(), Memory>
    requires { HasNames machine.now standing.now }
    ensures { OnOk result (members_view members.new.entries
        ≡ with_member (codes "waiting")
        (list_data (wait_data standing.entry.now.jobs) standing.entry.now.waiting)
        (with_member (codes "stock") (list_data stock_data standing.entry.now.stock)
        (with_member (codes "plans")
        (list_data (plan_data machine.now) standing.entry.now.plans)
        (with_member (codes "out")
        (texts (out_names standing.entry.now.outs 0 machine.now.modules))
        (members_view members.old.entries))))) }
{
    machine_law(machine);
    put(
        members,
        alloc,
        "out",
        outs_value(alloc, &machine.modules, standing.outs)?,
    )?;
    put(
        members,
        alloc,
        "plans",
        plans_value(alloc, machine, standing.plans.as_slice())?,
    )?;
    put(
        members,
        alloc,
        "stock",
        stock_value(alloc, standing.stock.as_slice())?,
    )?;
    let jobs = standing.jobs.as_slice();
    put(
        members,
        alloc,
        "waiting",
        waiting_value(alloc, jobs, standing.waiting.as_slice())?,
    )?;
    Ok(())
}

/// The value that is written for the machine's text and the standing.
#[tactic(auto, unfolding(crate::specs::Written::snapshot_data))]
fn snapshot_value(
    alloc: Global,
    text: &[u8],
    machine: &Machine,
    standing: &Standing,
) -> Result<Value, Memory>
    requires utf8 { IsUtf8 text.now }
    requires named { HasNames machine.now standing.now }
    ensures { IfOk result (λ value. view value
        ≡ snapshot_data text.now machine.now standing.entry.now) }
{
    let mut members = Map::new(alloc);
    put_first_members(alloc, &mut members, text, machine, standing)?;
    put_last_members(alloc, &mut members, machine, standing)?;
    Ok(Value::Object(members))
}

/// The machine and where its session stands, as one line without its end: a snapshot of both. Takes memory and time in proportion to
/// the line.
pub fn write_snapshot(
    alloc: Global,
    machine: &Machine,
    standing: &Standing,
) -> Result<Vec<u8>, Memory>
    requires { IsSound machine.now standing.now }
    ensures written { IfOk result (λ bytes. IsWritten bytes.items machine.now standing.entry.now) }
    ensures snapshot { IfOk result (λ bytes.
        IsSnapshot bytes.items machine.now standing.entry.now) }
    ensures spelled { IfOk result (λ _. IsSpelled standing.entry.now) }
    ensures one_line { IfOk result (λ bytes. lacks 10 bytes.items ≡ true) }
{
    standing_law(standing);
    let text = print_machine(alloc, machine)?;
    let value = snapshot_value(alloc, text.as_slice(), machine, standing)?;
    Ok(value.to_vec(alloc)?)
}
