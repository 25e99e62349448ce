//! The copies that wait.
ghost use Rattle.std.specs.Prelude.{◌≡◌, ◌↔◌, ◌≤◌, ◌+◌, IsTrue, count_by, length};
ghost use Rattle.std.specs.List.{list_all, list_any};
ghost use Rattle.std.specs.Str.{bytes_eq};
ghost use Rattle.tp_jobs.specs.JobRefusals.{has_media};
ghost use Rattle.tp_event_rules.specs.StateInvariants.{is_planned_among, is_to_arrive};
ghost use Rattle.tp_snapshot_rules.specs.Rules.{KeepsWaiting};
ghost use Rattle.tp_snapshot_rules.specs.Tests.{can_wait};

use crate::order::are_waiting_in_order;
use crate::plans::{is_job_broken, is_tray_plan, point_at};
use tp_base::{Name, Tick};
use tp_jobs::{Standing, WaitRow};
use tp_machine::{Feeder, Machine};
use tp_schedule::{Plan, SheetId};

/// The most copies that wait or are on their way to a tray.
const MOST_OPEN: usize = 4352;

fn has_media(feeders: &[Feeder], media: &Name) -> bool
    ensures { result ≡ list_any (λ f. bytes_eq media.now f.media) feeders.now }
{
    feeders.iter().any(|feeder| *media == feeder.media)
}

fn is_planned(plans: &[Plan], copy: SheetId) -> bool
    ensures { result ≡ is_planned_among plans.now copy }
{
    plans.iter().any(|plan| plan.sheet == copy)
}

#[tactic(auto, unfolding(crate::specs::Tests::can_wait))]
fn can_wait(machine: &Machine, standing: &Standing, row: &WaitRow) -> bool
    ensures { result ≡ can_wait machine.now standing.entry.now row.now }
{
    let fed = has_media(machine.feeders.as_slice(), &row.want.media);
    let planned = is_planned(standing.plans.as_slice(), row.sheet);
    let broken = is_job_broken(standing.jobs.as_slice(), row.sheet.job);
    fed && !planned && !broken
}

fn can_all_wait(machine: &Machine, standing: &Standing, waiting: &[WaitRow]) -> bool
    ensures { result ≡ list_all (can_wait machine.now standing.entry.now) waiting.now }
{
    waiting.iter().all(|row| can_wait(machine, standing, row))
}

fn is_to_arrive(now: Tick, plan: &Plan) -> bool
    ensures { result ≡ is_to_arrive now plan.now }
{
    is_tray_plan(plan) && now < point_at(plan, plan.acts.len())
}

/// How many plans are whole, go to a tray, and end after the moment.
fn count_to_arrive(now: Tick, plans: &[Plan]) -> usize
    ensures count { result ≡ count_by (is_to_arrive now) plans.now }
    ensures within { result ≤ length plans.now }
{
    let mut count = 0;
    for plan in plans {
        if is_to_arrive(now, plan) {
            count += 1;
        }
    }
    count
}

/// Whether these copies and those that are to arrive are not too many.
fn is_few(waiting: &[WaitRow], arriving: usize) -> bool
    ensures { IsTrue result ↔ (length waiting.now + arriving ≤ 4352) }
{
    waiting.len().saturating_add(arriving) <= MOST_OPEN
}

/// Whether the copies that wait can wait and stand in their order, and not too many are open.
pub fn keeps_waiting(machine: &Machine, standing: &Standing) -> bool
    ensures { IsTrue result ↔ KeepsWaiting machine.now standing.entry.now }
{
    let waiting = standing.waiting.as_slice();
    let arriving = count_to_arrive(standing.now, standing.plans.as_slice());
    if !are_waiting_in_order(waiting) {
        return false;
    }
    if !can_all_wait(machine, standing, waiting) {
        return false;
    }
    is_few(waiting, arriving)
}
