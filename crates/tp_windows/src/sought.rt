//! What a way is sought for.
ghost use Rattle.std.specs.Prelude.{◌≡◌, ℕ, ◌+◌, ◌≤◌, IsSomeAnd};
ghost use Rattle.tp_schedule.specs.Routes.{IsGoalState};
ghost use Rattle.tp_windows.specs.SoughtWays.{IsAhead, IsBehind};
ghost use Rattle.tp_windows.specs.Spans.{IsIn};
ghost use Rattle.tp_windows.specs.WaitingLabels.{IsDuring};
ghost use Rattle.tp_windows.specs.Ways.{CanBeginFrom};

use crate::front::{Arrival, Stay};
use crate::kept_rows::KeptRows;
use crate::rests::Rests;
use crate::span::Span;
use tp_base::Tick;
use tp_machine::{Machine, State};
use tp_routes::ActionIndex;
use tp_schedule::{Ask, Origin, is_goal};

/// What a way is sought for: a machine and an ask, the rests of its states, its actions by where they start, the kept holds of
/// resources, between which ends of the line, and by which limit, in ticks.
#[derive(Clone, Copy)]
pub(crate) struct Sought<'a> {
    pub(crate) machine: &'a Machine,
    pub(crate) ask: &'a Ask,
    pub(crate) rests: &'a Rests,
    pub(crate) starts: &'a ActionIndex,
    pub(crate) rows: &'a KeptRows,
    pub(crate) after: Option<Tick>,
    pub(crate) before: Option<Tick>,
    pub(crate) limit: Tick,
}

/// The ticks from one to another, if there are any.
fn stay(from: u64, till: Tick) -> Option<Stay>
    ensures { (tick : ℕ) → from ≤ tick → tick ≤ till
        → IsSomeAnd result (λ r. IsDuring r tick) }
{
    if from > till as u64 {
        return None;
    }
    Some(Stay {
        from: from as u32,
        till,
    })
}

/// The first tick at which a new copy may begin.
fn floor(now: Tick, lead: Tick) -> u64
    ensures { result ≡ now + lead + 1 }
{
    now as u64 + lead as u64 + 1
}

/// When a copy may begin in a start state with this rest, if there is such a tick.
pub(crate) fn first_stay(sought: Sought<'_>, rest: Tick) -> Option<Stay>
    ensures { (tick : ℕ)
        → CanBeginFrom sought.entry.machine.now sought.entry.ask.now.now
        sought.entry.ask.now.origin tick
        → tick + rest ≤ sought.entry.limit → IsSomeAnd result (λ r. IsDuring r tick) }
{
    if rest > sought.limit {
        return None;
    }
    let till = sought.limit - rest;
    match sought.ask.origin {
        Origin::Front { end, .. } => {
            if end > till {
                return None;
            }
            Some(Stay {
                from: end,
                till: end,
            })
        }
        Origin::Feeder => stay(floor(sought.ask.now, sought.machine.lead), till),
    }
}

/// The span with ends behind a tick, if there is one.
fn end_behind(span: Span, after: Option<Tick>) -> Option<Span>
    ensures { (start end : ℕ) → IsIn span start end → IsBehind after end
        → IsSomeAnd result (λ r. IsIn r start end) }
{
    match after {
        None => Some(span),
        Some(tick) => {
            if tick >= span.end_till {
                return None;
            }
            Some(Span {
                end_from: span.end_from.max(tick + 1),
                ..span
            })
        }
    }
}

/// The span with ends ahead of a tick, if there is one.
fn end_ahead(span: Span, before: Option<Tick>) -> Option<Span>
    ensures { (start end : ℕ) → IsIn span start end → IsAhead before end
        → IsSomeAnd result (λ r. IsIn r start end) }
{
    match before {
        None => Some(span),
        Some(tick) => {
            if tick == 0 {
                return None;
            }
            Some(Span {
                end_till: span.end_till.min(tick - 1),
                ..span
            })
        }
    }
}

/// The span with ends between those of the line.
fn end_between(span: Span, after: Option<Tick>, before: Option<Tick>) -> Option<Span>
    ensures { (start end : ℕ) → IsIn span start end → IsBehind after end
        → IsAhead before end
        → IsSomeAnd result (λ r. IsIn r start end) }
{
    match end_behind(span, after) {
        Some(later) => end_ahead(later, before),
        None => None,
    }
}

/// When a step from an arrival to a state with this rest may start and end, if it may at all.
pub(crate) fn step_span(sought: Sought<'_>, from: Arrival, next: State, rest: Tick) -> Option<Span>
    ensures { (start end : ℕ) → from.from ≤ start → start ≤ from.till
        → end + rest ≤ sought.entry.limit
        → (IsGoalState sought.entry.machine.now sought.entry.ask.now.want
        sought.entry.ask.now.goal next
        → IsBehind sought.entry.after end × IsAhead sought.entry.before end)
        → IsSomeAnd result (λ r. IsIn r start end) }
{
    if rest > sought.limit {
        return None;
    }
    let span = Span {
        start_from: from.from,
        start_till: from.till,
        end_from: 0,
        end_till: sought.limit - rest,
    };
    if is_goal(sought.machine, sought.ask, next) {
        end_between(span, sought.after, sought.before)
    } else {
        Some(span)
    }
}
