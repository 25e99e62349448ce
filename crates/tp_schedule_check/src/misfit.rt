//! Whether the actions of a plan last within their durations, and where not, how long one lasts.
ghost use Rattle.std.specs.Prelude.{◌≡◌, ◌+◌, ◌⊎◌, ◌<◌, ◌≤◌, ◌-ℤ◌, ◌<ℤ◌, ◌≤ℤ◌, MatchOption, length, pos};
ghost use Rattle.tp_schedule.specs.Limits.{most_acts};
ghost use Rattle.tp_schedule.specs.Plans.{IsFormed};
ghost use Rattle.tp_schedule_check.specs.Misfits.{DoAllFit, DoesFit, IsMisfit};

use crate::early::action_of;
use tp_base::Tick;
use tp_machine::{Action, Machine};
use tp_schedule::Plan;

/// An action of a plan that lasts too short or too long.
#[derive(Clone, Copy, PartialEq, Eq, Debug)]
pub struct Misfit {
    /// The number of the action in its plan, from 1 on.
    pub act: u32,
    /// How many ticks it lasts: below 0 where it ends before it starts.
    pub lasts: i64,
    /// Its least or its most, in ticks, which that breaks.
    pub limit: u32,
}

/// The least or the most that so many ticks break.
fn limit_of(action: &Action, lasts: i64) -> Option<u32>
    ensures { MatchOption result
        ((pos action.now.least ≤ℤ lasts) × (lasts ≤ℤ pos action.now.most))
        (λ limit. ((limit ≡ action.now.least) × (lasts <ℤ pos limit))
        ⊎ ((limit ≡ action.now.most) × (pos limit <ℤ lasts))) }
{
    if lasts < i64::from(action.least) {
        Some(action.least)
    } else if i64::from(action.most) < lasts {
        Some(action.most)
    } else {
        None
    }
}

/// How many ticks there are from the start to the end.
fn lasting(start: Tick, end: Tick) -> i64
    ensures { result ≡ pos end -ℤ pos start }
{
    i64::from(end) - i64::from(start)
}

fn misfit_at(machine: &Machine, plan: &Plan, at: u32) -> Option<Misfit>
    requires formed { IsFormed plan.now }
    requires within { at < length plan.now.acts }
    requires few { at < most_acts }
    ensures { MatchOption result (DoesFit machine.now plan.now at)
        (IsMisfit machine.now plan.now) }
{
    let id = plan.acts.get(at);
    let start = plan.points.get(at);
    let end = plan.points.get(at + 1);
    match action_of(machine, id) {
        Some(action) => {
            let lasts = lasting(start, end);
            match limit_of(action, lasts) {
                Some(limit) => Some(Misfit {
                    act: at + 1,
                    lasts,
                    limit,
                }),
                None => None,
            }
        }
        None => None,
    }
}

/// The first action of the plan that does not last within its durations, or None exactly where each does that the machine
/// knows.
pub fn find_misfit(machine: &Machine, plan: &Plan) -> Option<Misfit>
    requires { IsFormed plan.now }
    ensures { MatchOption result (DoAllFit machine.now plan.now)
        (IsMisfit machine.now plan.now) }
{
    'acts: for at in 0..plan.acts.len() {
        match misfit_at(machine, plan, at) {
            Some(misfit) => return Some(misfit),
            None => {}
        }
    }
    None
}
