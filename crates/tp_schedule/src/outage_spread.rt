//! Outages that spread: which modes a resource is held in over a stretch of time.
ghost use Rattle.std.specs.Prelude.{◌≡◌, ℕ, ◌↔◌, IsTrue};
ghost use Rattle.tp_schedule.specs.declared.parts.SheetId.{SheetId};
ghost use Rattle.tp_schedule.specs.Holders.{runs_from};
ghost use Rattle.tp_schedule.specs.Legality.{IsSpreadAt};
ghost use Rattle.tp_schedule.specs.OutageSpread.{first_of, is_held_within, is_passed, mode_within, mode_of_run, mode_of_plan};

use crate::holders::holds_of;
use crate::parts::Plan;
use tp_base::Tick;
use tp_machine::{ActId, HoldRule, Machine, ResId, gap_at, mode_of, span};

/// A resource, a tick with so many more behind it, and a mode that is passed over.
#[derive(Clone, Copy)]
pub(crate) struct Stretch {
    pub resource: ResId,
    pub first: Tick,
    pub more: u32,
    pub besides: Option<u8>,
}

/// Whether the hold covers a tick of the stretch, where its action runs from `start` to `end`.
fn is_held_within(stretch: &Stretch, hold: &HoldRule, start: Tick, end: Tick) -> bool
    ensures { result ≡ is_held_within stretch.now start end hold.now }
{
    let (begins, ends) = span(hold, start, end);
    let first = i64::from(stretch.first);
    let last = first + i64::from(stretch.more);
    let reaches = begins < ends && begins <= last && first < ends;
    hold.resource == stretch.resource && reaches
}

fn is_passed(besides: Option<u8>, mode: u8) -> bool
    ensures { result ≡ is_passed besides mode }
{
    match besides {
        None => false,
        Some(other) => other == mode,
    }
}

#[tactic(auto, unfolding(crate::specs::OutageSpread::mode_within))]
fn mode_within(stretch: &Stretch, hold: &HoldRule, start: Tick, end: Tick) -> Option<u8>
    ensures { result ≡ mode_within stretch.now start end hold.now }
{
    let mode = mode_of(hold);
    if is_held_within(stretch, hold, start, end) && !is_passed(stretch.besides, mode) {
        Some(mode)
    } else {
        None
    }
}

fn mode_in(stretch: &Stretch, holds: &[HoldRule], start: Tick, end: Tick) -> Option<u8>
    ensures { result ≡ first_of (mode_within stretch.now start end) holds.now }
{
    if let [hold, others @ ..] = holds {
        match mode_within(stretch, hold, start, end) {
            Some(mode) => Some(mode),
            None => mode_in(stretch, others, start, end),
        }
    } else {
        None
    }
}

fn mode_of_acts(machine: &Machine, stretch: &Stretch, acts: &[ActId], points: &[Tick]) -> Option<u8>
    ensures { (sheet : SheetId) (number : ℕ)
        → first_of (mode_of_run machine.now stretch.now)
        (runs_from sheet number acts.now points.now) ≡ result }
{
    if let [act, later @ ..] = acts
        && let [start, end, ..] = points
    {
        match mode_in(stretch, holds_of(machine, *act), *start, *end) {
            Some(mode) => Some(mode),
            None => mode_of_acts(machine, stretch, later, &points[1..]),
        }
    } else {
        None
    }
}

/// A mode in which the plans hold the resource at a tick of the stretch.
fn mode_of_plans(machine: &Machine, stretch: &Stretch, plans: &[Plan]) -> Option<u8>
    ensures { result ≡ first_of (mode_of_plan machine.now stretch.now) plans.now }
{
    if let [plan, others @ ..] = plans {
        match mode_of_acts(
            machine,
            stretch,
            plan.acts.as_slice(),
            plan.points.as_slice(),
        ) {
            Some(mode) => Some(mode),
            None => mode_of_plans(machine, stretch, others),
        }
    } else {
        None
    }
}

/// Whether the plans hold the resource in no two modes, in the one at the tick and in the other at a tick that differs by
/// at most its gap.
pub(crate) fn is_spread(machine: &Machine, plans: &[Plan], resource: ResId, at: Tick) -> bool
    ensures { IsTrue result ↔ IsSpreadAt machine.now plans.now resource.0 at }
{
    let here = Stretch {
        resource,
        first: at,
        more: 0,
        besides: None,
    };
    let gap = gap_at(machine, resource);
    let first = at.saturating_sub(gap);
    match mode_of_plans(machine, &here, plans) {
        None => true,
        Some(mode) => {
            let around = Stretch {
                resource,
                first,
                more: at - first + gap,
                besides: Some(mode),
            };
            mode_of_plans(machine, &around, plans).is_none()
        }
    }
}
