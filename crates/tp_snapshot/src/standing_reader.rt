//! The standing that a snapshot's value tells.
ghost use Rattle.std.specs.Prelude.{◌≡◌, ◌<◌, ◌≤◌, ◌^◌, IfErr, IfOk, Some, length};
ghost use Rattle.serde_json.specs.View.{view};
ghost use Rattle.tp_schedule.specs.PlannerAnswers.{last_tick};
ghost use Rattle.tp_jobs.specs.Backlogs.{names_of};
ghost use Rattle.tp_snapshot.specs.Jobs.{DoNamesDiffer, jobs_of};
ghost use Rattle.tp_snapshot.specs.Rules.{BreaksOf, BreaksFrom, KeepsTo, TellsCopies};

use crate::job_names::names_of;
use crate::jobs::read_jobs;
use crate::moments::{read_now, read_outs, read_stock};
use crate::plans::read_plans;
use crate::waiting_copies::read_waiting;
use indexmap::IndexSet;
use serde_json::Value;
use std::alloc::Global;
use tp_base::{Memory, Name, Tick};
use tp_jobs::{JobRow, PlanRows, Standing, WaitRows};
use tp_machine::Machine;
use tp_snapshot_rules::{are_in_order, keeps_waiting};

/// The copies of a snapshot: those with a plan, and those that wait.
#[derive(Drop)]
struct Copies {
    plans: PlanRows,
    waiting: WaitRows,
}

/// The copies that the value tells of these jobs, which have these names, or the number of the first rule from 5 to 6 that it breaks.
fn copies_of(
    alloc: Global,
    machine: &Machine,
    now: Tick,
    jobs: &[JobRow],
    names: &IndexSet<Name>,
    value: &Value,
) -> Result<Result<Copies, u8>, Memory>
    requires names { names.now.keys ≡ names_of jobs.now }
    requires few { length names.now.keys < 2 ^ 32 }
    requires moment { now ≤ last_tick }
    requires differ { DoNamesDiffer jobs.now }
    ensures told { IfOk result (λ read. IfOk read (λ copies.
        TellsCopies machine.now now jobs.now (view value.now) copies.plans copies.waiting)) }
    ensures broken { IfOk result (λ read. IfErr read
        (λ n. BreaksFrom n machine.now now jobs.now (view value.now))) }
{
    let Some(plans) = read_plans(alloc, machine, now, jobs, names, value)? else {
        return Ok(Err(5));
    };
    if !are_in_order(plans.as_slice()) {
        return Ok(Err(5));
    }
    match read_waiting(alloc, names, value)? {
        Some(waiting) => Ok(Ok(Copies { plans, waiting })),
        None => Ok(Err(6)),
    }
}

/// The copies that the value tells of these jobs, or the number of the first rule from 4 to 6 that it breaks.
fn copies_in(
    alloc: Global,
    machine: &Machine,
    now: Tick,
    jobs: &[JobRow],
    value: &Value,
) -> Result<Result<Copies, u8>, Memory>
    requires moment { now ≤ last_tick }
    requires few { length jobs.now < 2 ^ 32 }
    ensures told { IfOk result (λ read. IfOk read (λ copies.
        TellsCopies machine.now now jobs.now (view value.now) copies.plans copies.waiting)) }
    ensures broken { IfOk result (λ read. IfErr read
        (λ n. BreaksFrom n machine.now now jobs.now (view value.now))) }
{
    match names_of(alloc, jobs)? {
        Some(names) => copies_of(alloc, machine, now, jobs, &names, value),
        None => Ok(Err(4)),
    }
}

/// The standing that the value tells of the machine, or the number of the first rule from 3 to 6 that it breaks. Takes memory and
/// time in proportion to the value.
pub(crate) fn standing_in(
    alloc: Global,
    machine: &Machine,
    value: &Value,
) -> Result<Result<Standing, u8>, Memory>
    ensures told { IfOk result (λ read. IfOk read (KeepsTo 6 machine.now (view value.now))) }
    ensures broken { IfOk result (λ read. IfErr read
        (λ n. BreaksOf n machine.now (view value.now))) }
{
    let Some(now) = read_now(value) else {
        return Ok(Err(3));
    };
    let Some(outs) = read_outs(machine, value) else {
        return Ok(Err(3));
    };
    let Some(stock) = read_stock(alloc, machine, value)? else {
        return Ok(Err(3));
    };
    let Some(jobs) = read_jobs(alloc, machine, value)? else {
        return Ok(Err(4));
    };
    let copies = match copies_in(alloc, machine, now, jobs.as_slice(), value)? {
        Ok(copies) => copies,
        Err(rule) => return Ok(Err(rule)),
    };
    let standing = Standing {
        now,
        outs,
        stock,
        jobs,
        waiting: copies.waiting,
        plans: copies.plans,
    };
    if keeps_waiting(machine, &standing) {
        Ok(Ok(standing))
    } else {
        Ok(Err(6))
    }
}
