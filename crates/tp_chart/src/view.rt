//! What of a schedule a picture shows.
ghost use Rattle.std.specs.Prelude.{◌≡◌, fold, max, nat_lt};
ghost use Rattle.std.specs.List.{list_any};
ghost use Rattle.tp_chart.specs.Bars.{first_tick, has_row, latest, scope_of};

use crate::course::Course;
use tp_base::Tick;

/// So many ticks are drawn, if nothing else is asked for.
const MOST_TICKS: Tick = 5_000;

/// How a schedule is looked at: with a row for each copy, or for each resource; from a tick on, or as much as fits; and as it
/// stood at a moment, or at the end of the log.
#[derive(Clone, Copy, Debug, PartialEq, Eq)]
pub struct View {
    pub by_copies: bool,
    pub from: Option<Tick>,
    pub until: Option<Tick>,
}

/// Whether the rows are those of copies, and the first tick of a picture that does not show all.
#[derive(Clone, Copy, Debug, PartialEq, Eq)]
pub struct Scope {
    pub by_copies: bool,
    pub first: Option<Tick>,
}

fn later(last: Tick, points: &[Tick]) -> Tick
    ensures { result ≡ fold max last points.now }
{
    let mut last = last;
    for point in points {
        last = last.max(*point);
    }
    last
}

/// The last point of the courses.
fn latest(courses: &[Course]) -> Tick
    ensures { result ≡ latest courses.now }
{
    let mut last = 0;
    for course in courses {
        last = later(last, course.points());
    }
    last
}

fn first_tick(from: Option<Tick>, courses: &[Course]) -> Option<Tick>
    ensures { result ≡ first_tick from courses.now }
{
    if from.is_some() {
        return from;
    }
    let last = latest(courses);
    if last <= MOST_TICKS {
        None
    } else {
        Some(last - MOST_TICKS)
    }
}

/// What the picture of the courses shows.
pub fn scope_of(view: &View, courses: &[Course]) -> Scope
    ensures { result ≡ scope_of view.now courses.now }
{
    Scope {
        by_copies: view.by_copies,
        first: first_tick(view.from, courses),
    }
}

fn is_behind(first: Tick, points: &[Tick]) -> bool
    ensures { result ≡ list_any (λ p. nat_lt first p) points.now }
{
    points.iter().any(|point| first < *point)
}

/// Whether the copy has a row, where rows are those of copies.
pub(crate) fn has_row(first: Option<Tick>, course: &Course) -> bool
    ensures { result ≡ has_row first course.now }
{
    match first {
        Some(first) => is_behind(first, course.points()),
        None => true,
    }
}
