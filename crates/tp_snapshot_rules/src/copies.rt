//! The copies of each sheet, and those of each line.
ghost use Rattle.std.specs.Prelude.{◌≡◌, ◌↔◌, AllPairs, IsTrue};
ghost use Rattle.std.specs.List.{list_all};
ghost use Rattle.tp_jobs.specs.Backlogs.{tray_of};
ghost use Rattle.tp_event_rules.specs.Lines.{is_same_line};
ghost use Rattle.tp_snapshot_rules.specs.Rules.{AreInOrder, KeepsCopies, WaitsBefore};
ghost use Rattle.tp_snapshot_rules.specs.Tests.{is_newest, is_of_other, is_older_than, is_plan_kept, is_single, is_waiting_kept, stands_behind};

use crate::order::are_waiting_apart;
use crate::plans::{is_job_broken, is_same_sheet, is_tray_plan, point_at};
use tp_jobs::{JobRow, Standing, WaitRow};
use tp_schedule::{Plan, SheetId, is_earlier};

/// Whether the plan is no whole plan to its tray of the copy's sheet.
#[tactic(auto, unfolding(crate::specs::Tests::is_of_other))]
fn is_of_other(copy: SheetId, plan: &Plan) -> bool
    ensures { result ≡ is_of_other copy plan.now }
{
    !is_tray_plan(plan) || !is_same_sheet(copy, plan.sheet)
}

/// Whether no whole plan to its tray is of the copy's sheet.
fn are_of_others(copy: SheetId, plans: &[Plan]) -> bool
    ensures { result ≡ list_all (is_of_other copy) plans.now }
{
    plans.iter().all(|plan| is_of_other(copy, plan))
}

/// Whether the plan is no whole plan to its tray of another copy of the sheet.
#[tactic(auto, unfolding(crate::specs::Tests::is_single))]
fn is_single(copy: SheetId, plan: &Plan) -> bool
    ensures { result ≡ is_single copy plan.now }
{
    !is_tray_plan(plan) || !is_same_sheet(copy, plan.sheet) || copy == plan.sheet
}

fn are_single(copy: SheetId, plans: &[Plan]) -> bool
    ensures { result ≡ list_all (is_single copy) plans.now }
{
    plans.iter().all(|plan| is_single(copy, plan))
}

#[tactic(auto, unfolding(crate::specs::Tests::is_older_than))]
fn is_older_than(copy: SheetId, plan: &Plan) -> bool
    ensures { result ≡ is_older_than copy plan.now }
{
    is_tray_plan(plan) || !is_same_sheet(plan.sheet, copy) || plan.sheet.copy < copy.copy
}

/// Whether no plan of the copy's sheet is newer that is no whole plan to its tray.
fn is_newest(plans: &[Plan], copy: SheetId) -> bool
    ensures { result ≡ is_newest plans.now copy }
{
    plans.iter().all(|plan| is_older_than(copy, plan))
}

/// The number of the location of a copy's tray, and 0 for a copy of no job.
fn tray_of(jobs: &[JobRow], copy: SheetId) -> u16
    ensures { result ≡ (tray_of jobs.now copy).0 }
{
    match jobs.get(copy.job as usize) {
        Some(job) => job.tray.0,
        None => 0,
    }
}

fn is_same_line(jobs: &[JobRow], one: SheetId, other: SheetId) -> bool
    ensures { result ≡ is_same_line jobs.now one other }
{
    tray_of(jobs, one) == tray_of(jobs, other)
}

#[tactic(auto, unfolding(crate::specs::Tests::stands_behind))]
fn stands_behind(jobs: &[JobRow], copy: SheetId, plan: &Plan) -> bool
    ensures { result ≡ stands_behind jobs.now copy plan.now }
{
    let line = is_same_line(jobs, copy, plan.sheet);
    !is_tray_plan(plan) || !line || is_earlier(plan.sheet, copy)
}

/// Whether the copy stands behind all whole plans to its tray that are of its line.
fn stands_last(jobs: &[JobRow], copy: SheetId, plans: &[Plan]) -> bool
    ensures { result ≡ list_all (stands_behind jobs.now copy) plans.now }
{
    plans.iter().all(|plan| stands_behind(jobs, copy, plan))
}

#[tactic(auto, unfolding(crate::specs::Tests::is_waiting_kept))]
fn is_waiting_kept(standing: &Standing, row: &WaitRow) -> bool
    ensures { result ≡ is_waiting_kept standing.entry.now row.now }
{
    let plans = standing.plans.as_slice();
    let alone = are_of_others(row.sheet, plans);
    let newest = is_newest(plans, row.sheet);
    let last = stands_last(standing.jobs.as_slice(), row.sheet, plans);
    alone && newest && last
}

fn is_all_waiting_kept(standing: &Standing, waiting: &[WaitRow]) -> bool
    ensures { result ≡ list_all (is_waiting_kept standing.entry.now) waiting.now }
{
    waiting.iter().all(|row| is_waiting_kept(standing, row))
}

#[tactic(auto, unfolding(crate::specs::Tests::is_plan_kept))]
fn is_plan_kept(standing: &Standing, plan: &Plan) -> bool
    ensures { result ≡ is_plan_kept standing.entry.now plan.now }
{
    let plans = standing.plans.as_slice();
    let single = are_single(plan.sheet, plans);
    let newest = is_newest(plans, plan.sheet);
    let broken = is_job_broken(standing.jobs.as_slice(), plan.sheet.job);
    let entered = point_at(plan, plan.acts.len().saturating_sub(1)) <= standing.now;
    !is_tray_plan(plan) || (single && newest && (!broken || entered))
}

fn is_each_plan_kept(standing: &Standing, plans: &[Plan]) -> bool
    ensures { result ≡ list_all (is_plan_kept standing.entry.now) plans.now }
{
    plans.iter().all(|plan| is_plan_kept(standing, plan))
}

/// Whether of each sheet at most one copy is open, which is its newest, whether no copy waits before a planned one of its line, and
/// whether what is planned of broken jobs has entered.
pub(crate) fn keeps_copies(standing: &Standing) -> bool
    requires plans { AreInOrder standing.now.plans }
    requires waiting { AllPairs WaitsBefore standing.now.waiting }
    ensures { IsTrue result ↔ KeepsCopies standing.entry.now }
{
    let waiting = standing.waiting.as_slice();
    if !are_waiting_apart(waiting) {
        return false;
    }
    if !is_all_waiting_kept(standing, waiting) {
        return false;
    }
    is_each_plan_kept(standing, standing.plans.as_slice())
}
