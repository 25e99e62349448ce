//! The ticks of a schedule that is loaded, by the numbers of its points, and when its holds begin.
ghost use Rattle.std.specs.Prelude.{◌≡◌, ◌<◌, ◌≤◌, length, slice_index, true, All};
ghost use Rattle.std.specs.List.{AllWithin};
ghost use Rattle.std.specs.List.Sorted.{IsNonDecreasingBy};
ghost use Rattle.tp_placing.specs.LoadedNet.{HasPoints, firsts_from};
ghost use Rattle.tp_placing.specs.LoadedHolds.{IsHeldWithin, begin_held, ticks_in};

use crate::parts::Held;
use tp_base::{PointId, Tick};
use tp_machine::span;
use tp_schedule::Plan;

/// How many of the points are at most this one.
pub(crate) fn count_to(firsts: &[PointId], point: PointId) -> usize
    requires { IsNonDecreasingBy (λ f. f.0) firsts.now }
    ensures within { result ≤ length firsts.now }
    ensures before { AllWithin (λ f. f.0 ≤ point.0) firsts.now 0 result }
    ensures behind { AllWithin (λ f. point.0 < f.0) firsts.now result (length firsts.now) }
{
    firsts.partition_point(|first| first.0 <= point.0)
}

/// Whether so many of the points, one or more, are at most this one: it lies between its neighbours then.
fn is_count_to(firsts: &[PointId], count: usize, point: PointId) -> bool
    requires { IsNonDecreasingBy (λ f. f.0) firsts.now }
    ensures within { result ≡ true → count ≤ length firsts.now }
    ensures before { result ≡ true → AllWithin (λ f. f.0 ≤ point.0) firsts.now 0 count }
    ensures behind { result ≡ true
        → AllWithin (λ f. point.0 < f.0) firsts.now count (length firsts.now) }
{
    if count == 0 || count > firsts.len() || point.0 < firsts[count - 1].0 {
        return false;
    }
    if count == firsts.len() {
        return true;
    }
    point.0 < firsts[count].0
}

/// How many of the points are at most this one. The guess is tried first: it spares the search if it is the count or one more.
pub(crate) fn count_near(firsts: &[PointId], guess: usize, point: PointId) -> usize
    requires { IsNonDecreasingBy (λ f. f.0) firsts.now }
    ensures within { result ≤ length firsts.now }
    ensures before { AllWithin (λ f. f.0 ≤ point.0) firsts.now 0 result }
    ensures behind { AllWithin (λ f. point.0 < f.0) firsts.now result (length firsts.now) }
{
    if is_count_to(firsts, guess, point) {
        return guess;
    }
    if guess > 0 && is_count_to(firsts, guess - 1, point) {
        return guess - 1;
    }
    count_to(firsts, point)
}

/// The tick of a point, of which the plan is found by its first point: the last of so many plans, or another.
pub(crate) fn tick_at(plans: &[Plan], firsts: &[PointId], guess: usize, point: PointId) -> Tick
    requires formed { All HasPoints plans.now }
    requires firsts { firsts.now ≡ firsts_from 0 plans.now }
    requires within { point.0 < length (ticks_in plans.now) }
    ensures { result ≡ slice_index (ticks_in plans.now) point.0 }
{
    let place = count_near(firsts, guess, point) - 1;
    plans[place].points.get(point.0 - firsts[place].0)
}

/// The tick at which a hold begins, which the last of so many plans has, or another.
pub(crate) fn begin_at(plans: &[Plan], firsts: &[PointId], guess: usize, hold: &Held) -> i64
    requires formed { All HasPoints plans.now }
    requires firsts { firsts.now ≡ firsts_from 0 plans.now }
    requires within { IsHeldWithin (length (ticks_in plans.now)) hold.now }
    ensures { result ≡ begin_held (ticks_in plans.now) hold.now }
{
    let start = tick_at(plans, firsts, guess, hold.start);
    let end = tick_at(plans, firsts, guess, hold.end);
    span(&hold.rule, start, end).0
}
