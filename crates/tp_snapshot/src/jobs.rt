//! The jobs of a snapshot, read and written.
ghost use Rattle.std.specs.Prelude.{◌≡◌, IfOk, OnOk, codes, map, true};
ghost use Rattle.std.specs.List.{list_all};
ghost use Rattle.serde_json.specs.Data.{array, boolean, put as with_member, string};
ghost use Rattle.serde_json.specs.View.{items_of, members_view, view};
ghost use Rattle.tp_machine.specs.Rules.{is_among};
ghost use Rattle.tp_jobs.specs.JobRefusals.{tray_named};
ghost use Rattle.tp_event_rules.specs.Labels.{location_name};
ghost use Rattle.tp_session_standing.specs.Sound.{most_jobs};
ghost use Rattle.tp_snapshot.specs.Jobs.{job_of, jobs_of, tray_in};
ghost use Rattle.tp_snapshot.specs.Values.{few_read, field_of};
ghost use Rattle.tp_snapshot.specs.Written.{has_location, job_data};

use crate::json_lookup::{has_members, name_at, read_name, truth_at, value_at, values_at};
use crate::json_values::name_value;
use serde_json::{Map, Value, put};
use std::alloc::Global;
use tp_base::{Items, Memory, Name};
use tp_event_records::location_name;
use tp_jobs::{JobRow, JobRows};
use tp_machine::{LocId, Machine};

/// The most jobs of a snapshot.
const MOST_JOBS: usize = 1_000_000;

fn is_tray(trays: &[LocId], loc: LocId) -> bool
    ensures { result ≡ is_among trays.now loc }
{
    trays.iter().any(|tray| tray.0 == loc.0)
}

/// The tray of this name.
fn tray_named(machine: &Machine, name: &Name) -> Option<LocId>
    ensures { result ≡ tray_named machine.now name.now }
{
    let loc = LocId(machine.locations.find(name)?);
    if is_tray(machine.trays.as_slice(), loc) {
        Some(loc)
    } else {
        None
    }
}

/// The tray that the value names.
pub(crate) fn read_tray(machine: &Machine, value: &Value) -> Option<LocId>
    ensures { result ≡ tray_in machine.now (view value.now) }
{
    tray_named(machine, &read_name(value)?)
}

fn tray_at(machine: &Machine, value: &Value) -> Option<LocId>
    ensures { result ≡ field_of (codes "tray") (tray_in machine.now) (view value.now) }
{
    read_tray(machine, value_at(value, "tray")?)
}

#[tactic(auto, unfolding(crate::specs::Jobs::job_of, crate::specs::Jobs::job_from))]
fn read_job(machine: &Machine, value: &Value) -> Option<JobRow>
    ensures { result ≡ job_of machine.now (view value.now) }
{
    if !has_members(value, 3) {
        return None;
    }
    let broken = truth_at(value, "broken")?;
    let name = name_at(value, "name")?;
    let tray = tray_at(machine, value)?;
    Some(JobRow { name, tray, broken })
}

/// The jobs of the values, where each is one.
fn jobs_in(alloc: Global, machine: &Machine, values: &[Value]) -> Result<Option<JobRows>, Memory>
    ensures { IfOk result (λ jobs. jobs
        ≡ few_read most_jobs (job_of machine.now) (map view values.now)) }
{
    if values.len() > MOST_JOBS {
        return Ok(None);
    }
    let mut jobs = Items::new(alloc);
    for value in values {
        match read_job(machine, value) {
            Some(job) => jobs.push(job)?,
            None => return Ok(None),
        }
    }
    Ok(Some(jobs))
}

/// The jobs of a snapshot.
pub(crate) fn read_jobs(
    alloc: Global,
    machine: &Machine,
    value: &Value,
) -> Result<Option<JobRows>, Memory>
    ensures { IfOk result (λ jobs. jobs ≡ jobs_of machine.now (view value.now)) }
{
    match values_at(value, "jobs") {
        Some(values) => jobs_in(alloc, machine, values),
        None => Ok(None),
    }
}

/// Puts what a job is into the members of its object.
fn put_job(
    alloc: Global,
    members: &mut Map<String, Value>,
    machine: &Machine,
    job: &JobRow,
) -> Result<(), Memory>
    requires { has_location machine.now job.now ≡ true }
    ensures { OnOk result (members_view members.new.entries
        ≡ with_member (codes "tray") (string (location_name machine.now job.now.tray))
        (with_member (codes "name") (string job.now.name)
        (with_member (codes "broken") (boolean job.now.broken)
        (members_view members.old.entries)))) }
{
    put(members, alloc, "broken", Value::from(job.broken))?;
    put(members, alloc, "name", name_value(alloc, &job.name)?)?;
    put(
        members,
        alloc,
        "tray",
        name_value(alloc, &location_name(machine, job.tray))?,
    )?;
    Ok(())
}

fn job_value(alloc: Global, machine: &Machine, job: &JobRow) -> Result<Value, Memory>
    requires { has_location machine.now job.now ≡ true }
    ensures { IfOk result (λ value. view value ≡ job_data machine.now job.now) }
{
    let mut members = Map::new(alloc);
    put_job(alloc, &mut members, machine, job)?;
    Ok(Value::Object(members))
}

/// An array of the jobs.
pub(crate) fn jobs_value(alloc: Global, machine: &Machine, jobs: &[JobRow]) -> Result<Value, Memory>
    requires { list_all (has_location machine.now) jobs.now ≡ true }
    ensures { IfOk result (λ value. view value
        ≡ array (items_of (map (job_data machine.now) jobs.now))) }
{
    let mut array = Vec::new(alloc);
    let mut rest = jobs;
    'jobs: while let [job, others @ ..] = rest {
        array.push(job_value(alloc, machine, job)?)?;
        rest = others;
    }
    Ok(Value::from(array))
}
