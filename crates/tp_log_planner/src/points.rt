//! Points of plans, as records tell them.
ghost use Rattle.std.specs.Prelude.{◌≡◌, ◌+◌, ◌≤◌, ◌++◌, length, option_copied};
ghost use Rattle.tp_schedule.specs.Limits.{most_plan_points};
ghost use Rattle.tp_log_planner.specs.ToldPlans.{points_behind};

use tp_base::Tick;
use tp_schedule::{Plan, Points};

/// Adds points behind others.
fn add_points(ticks: &[Tick], points: &mut Points)
    requires { length points.old + length ticks.now ≤ most_plan_points }
    ensures { points.new ≡ points.old ++ ticks.now }
{
    if let [tick, later @ ..] = ticks {
        points.push(*tick);
        add_points(later, points);
    }
}

/// The ticks as points.
pub(crate) fn points_of(ticks: &[Tick]) -> Points
    requires { length ticks.now ≤ most_plan_points }
    ensures { result ≡ ticks.now }
{
    let mut points = Points::new();
    add_points(ticks, &mut points);
    points
}

/// The points of a copy's plan, of which the record has these: behind those of its front, if it has one.
pub(crate) fn points_behind(front: Option<&Plan>, ticks: &[Tick]) -> Points
    requires some { 1 ≤ length ticks.now }
    requires room { length (points_behind (option_copied front) ticks.now) ≤ most_plan_points }
    ensures { result ≡ points_behind (option_copied front.entry) ticks.now }
{
    match front {
        Some(front) => {
            let mut points = front.points.copy();
            add_points(&ticks[1..], &mut points);
            points
        }
        None => points_of(ticks),
    }
}
