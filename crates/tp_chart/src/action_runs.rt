//! The actions of a course with their starts and ends.
ghost use Rattle.std.specs.Prelude.{◌≡◌, IfOk};
ghost use Rattle.tp_chart.specs.Bars.{runs_from, runs_of};

use crate::course::Course;
use std::alloc::Global;
use tp_base::{Memory, Name, Tick};

/// An action in time. Its number counts from 1.
#[derive(Clone, Copy, Debug, PartialEq, Eq)]
pub struct Run {
    pub number: usize,
    pub act: Name,
    pub start: Tick,
    pub end: Tick,
}

fn runs_in(alloc: Global, acts: &[Name], points: &[Tick]) -> Result<Vec<Run>, Memory>
    ensures { IfOk result (λ runs. runs.items ≡ runs_from 1 acts.now points.now) }
{
    let mut runs = Vec::new(alloc);
    let mut rest = acts;
    let mut times = points;
    'runs: while let [act, later @ ..] = rest {
        let [start, end, ..] = times else {
            return Ok(runs);
        };
        runs.push(Run {
            number: runs.len() + 1,
            act: *act,
            start: *start,
            end: *end,
        })?;
        rest = later;
        times = &times[1..];
    }
    Ok(runs)
}

pub(crate) fn runs_of(alloc: Global, course: &Course) -> Result<Vec<Run>, Memory>
    ensures { IfOk result (λ runs. runs.items ≡ runs_of course.now) }
{
    runs_in(alloc, course.acts(), course.points())
}
