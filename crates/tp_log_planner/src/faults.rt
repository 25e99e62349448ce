//! Which item is wrong by a fault of the schedule that the items tell, and why.
ghost use Rattle.std.specs.Prelude.{◌≡◌, ◌≤◌, ◌==◌, ℤ, length, find, MatchOption};
ghost use Rattle.tp_machine.specs.ModuleUse.{action_at, begin_of};
ghost use Rattle.tp_schedule.specs.Holders.{holds_of_act};
ghost use Rattle.tp_schedule.specs.Plans.{IsFormed};
ghost use Rattle.tp_schedule_check.specs.declared.fault.Fault.TheVariants.{Clash as OfClash, Order};
ghost use Rattle.tp_log_planner.specs.Breaches.{Begins, BeginsAt, BeginsIn};
ghost use Rattle.tp_log_planner.specs.Reasons.{TellsFault};
ghost use Rattle.tp_log_planner.specs.declared.failure.Reason.TheVariants.{Due as IsDue, Illegal};

use crate::failure::{FoundReason, Reason};
use tp_base::Tick;
use tp_event_records::label;
use tp_log::Item;
use tp_machine::{ActId, HoldRule, Machine, ResId, span};
use tp_schedule::{Hold, Plan, Record, Schedule, SheetId};
use tp_schedule_check::{Clash, Fault, Parting, Unlike, plan_of};

/// What the items tell: a schedule, by these moves; plans that none of them moves stand by the item from which on there are so
/// many items, up to the last move.
#[derive(Clone, Copy)]
pub(crate) struct Read<'a> {
    pub(crate) moves: &'a [Item],
    pub(crate) unmoved: usize,
    pub(crate) after: &'a Schedule,
    pub(crate) now: Tick,
}

/// The place of the move of the plan.
fn move_of(moves: &[Item], plan: &Plan) -> Option<usize> {
    let sheet = label(plan.name, plan.sheet);
    moves.iter().position(|item| match item {
        Item::Note(Record::Move { sheet: moved, .. }) => *moved == sheet,
        _ => false,
    })
}

/// The hold on the resource, if there is one.
fn hold_on(holds: &[HoldRule], resource: ResId) -> Option<HoldRule>
    ensures { result ≡ find (λ rule. rule.resource.0 == resource.0) holds.now }
{
    holds
        .iter()
        .copied()
        .find(|rule| rule.resource.0 == resource.0)
}

fn holds_of(machine: &Machine, act: ActId) -> &[HoldRule]
    ensures { result.now ≡ holds_of_act (action_at machine.now act.0) }
{
    match machine.actions.as_slice().get(usize::from(act.0)) {
        Some(action) => action.holds.as_slice(),
        None => &[],
    }
}

/// At which tick a hold begins, of an action that runs from start to end.
fn begin_between(rule: &HoldRule, start: Tick, end: Tick) -> i64
    ensures { result ≡ begin_of rule.now start end }
{
    let (begin, _) = span(rule, start, end);
    begin
}

/// At which tick the action of this number holds the resource, if it does.
fn begin_by(machine: &Machine, plan: &Plan, number: u32, resource: ResId) -> Option<i64>
    requires formed { IsFormed plan.now }
    requires some { 1 ≤ number }
    requires within { number ≤ length plan.now.acts }
    ensures { MatchOption result
        ((begin : ℤ) → BeginsIn machine.now plan.now number resource begin
        → ⊥) (BeginsIn machine.now plan.now number resource) }
{
    let holds = holds_of(machine, plan.acts.get(number - 1));
    match hold_on(holds, resource) {
        Some(rule) => {
            let start = plan.points.get(number - 1);
            let end = plan.points.get(number);
            Some(begin_between(&rule, start, end))
        }
        None => None,
    }
}

/// At which tick the action that the hold names holds the resource, if it does.
fn begin_of(machine: &Machine, schedule: &Schedule, hold: Hold, resource: ResId) -> Option<i64>
    ensures { MatchOption result ((begin : ℤ)
        → BeginsAt machine.now schedule.now.plans resource hold begin → ⊥)
        (BeginsAt machine.now schedule.now.plans resource hold) }
{
    match plan_of(schedule, hold.sheet) {
        Some(plan) => {
            if hold.act == 0 || hold.act > plan.acts.len() {
                return None;
            }
            begin_by(machine, plan, hold.act, resource)
        }
        None => None,
    }
}

/// At which tick the action that the hold names holds the resource, if there is a hold and it does.
fn begin_in(
    machine: &Machine,
    schedule: &Schedule,
    hold: Option<Hold>,
    resource: ResId,
) -> Option<i64>
    ensures { MatchOption result ((begin : ℤ)
        → Begins machine.now schedule.now.plans resource hold begin → ⊥)
        (Begins machine.now schedule.now.plans resource hold) }
{
    match hold {
        Some(hold) => begin_of(machine, schedule, hold, resource),
        None => None,
    }
}

impl Read<'_> {
    /// How many items there are from the one on that tells where the copy's plan stands, up to the last move.
    fn left_from(&self, sheet: SheetId) -> usize {
        match self.after.find(sheet) {
            Some(at) => match move_of(self.moves, self.after.plan_at(at)) {
                Some(place) => self.moves.len().saturating_sub(place),
                None => self.unmoved,
            },
            None => self.unmoved,
        }
    }

    fn later_of(&self, one: SheetId, other: SheetId) -> usize {
        self.left_from(one).min(self.left_from(other))
    }

    fn stop_at(&self, left: usize, first: i64, second: i64) -> FoundReason
        ensures { result.reason ≡ Illegal first second }
    {
        FoundReason {
            left,
            reason: Reason::Illegal { first, second },
        }
    }

    /// How many items there are from the later one on of the items that tell the two plans.
    fn left_from_parting(&self, parting: &Parting) -> usize {
        match (parting.stood, parting.stands) {
            (Some(stood), Some(stands)) => self.later_of(stood.sheet, stands.sheet),
            _ => self.unmoved,
        }
    }

    /// The begins of two holds that stand in another order than before.
    fn parting(&self, machine: &Machine, parting: &Parting) -> FoundReason
        ensures { TellsFault machine.now self.entry.now.now self.entry.now.after.now.plans
            (Order parting.now) result.reason }
    {
        let first = begin_in(machine, self.after, parting.stood, parting.resource);
        let second = begin_in(machine, self.after, parting.stands, parting.resource);
        match first {
            Some(first) => match second {
                Some(second) => self.stop_at(self.left_from_parting(parting), first, second),
                None => self.due(self.unmoved),
            },
            None => self.due(self.unmoved),
        }
    }

    fn due(&self, left: usize) -> FoundReason
        ensures { result.reason ≡ IsDue }
    {
        FoundReason {
            left,
            reason: Reason::Due,
        }
    }

    fn clash(&self, machine: &Machine, clash: &Clash) -> FoundReason
        ensures { TellsFault machine.now self.entry.now.now self.entry.now.after.now.plans
            (OfClash clash.now) result.reason }
    {
        match clash {
            Clash::NotTimed { sheet } => self.due(self.left_from(*sheet)),
            Clash::Overlap {
                earlier,
                later,
                free,
                begin,
            } => self.stop_at(self.later_of(earlier.sheet, later.sheet), *free, *begin),
            Clash::OutOfLine {
                earlier,
                later,
                end,
                later_end,
            } => self.stop_at(
                self.later_of(*earlier, *later),
                i64::from(*end),
                i64::from(*later_end),
            ),
        }
    }

    /// What is wrong by the fault, and from which item on.
    pub(crate) fn stop_of(&self, machine: &Machine, fault: &Fault) -> FoundReason
        ensures { TellsFault machine.now self.entry.now.now self.entry.now.after.now.plans fault.now
            result.reason }
    {
        match fault {
            Fault::Asked | Fault::Unlike(Unlike::Changed) => self.due(self.unmoved),
            Fault::Unlike(
                Unlike::Moved {
                    sheet,
                    stood,
                    stands,
                    ..
                },
            ) => self.stop_at(
                self.left_from(*sheet),
                i64::from(*stands),
                i64::from(*stood),
            ),
            Fault::Clash(clash) => self.clash(machine, clash),
            Fault::Floor(low) => self.stop_at(
                self.left_from(low.sheet),
                i64::from(low.tick),
                i64::from(self.now) + i64::from(machine.lead),
            ),
            Fault::Horizon(late) => self.stop_at(
                self.left_from(late.sheet),
                i64::from(late.tick),
                i64::from(self.now) + i64::from(machine.window),
            ),
            Fault::Order(parting) => self.parting(machine, parting),
            Fault::Early(early) => FoundReason {
                left: self.left_from(early.sheet),
                reason: Reason::NotLeast {
                    given: early.given,
                    least: early.earlier,
                },
            },
        }
    }
}
