//! Between which ticks an action may start and end.
ghost use Rattle.std.specs.Prelude.{◌≡◌, ℕ, ◌+◌, ◌<◌, ◌≤◌, ◌+ℤ◌, ◌≤ℤ◌, pos, negsuc, IsSomeAnd, None, ◌^◌};
ghost use Rattle.tp_machine.specs.ModuleUse.{begin_of, end_of, tick_of};
ghost use Rattle.tp_machine.specs.declared.parts.Anchor.{Anchor as AnchorValue};
ghost use Rattle.tp_windows.specs.Spans.{IsIn};

use tp_base::Tick;
use tp_machine::{Anchor, HoldRule};

/// The first and the last ticks at which an action may start, and those at which it may end.
#[derive(Clone, Copy, PartialEq, Eq, Debug)]
pub struct Span {
    pub start_from: Tick,
    pub start_till: Tick,
    pub end_from: Tick,
    pub end_till: Tick,
}

/// The greater of a tick and a number that may lie outside the range of ticks, or none where no tick is as great.
fn at_least(tick: Tick, least: i64) -> Option<Tick>
    ensures { (x : ℕ) → tick ≤ x → least ≤ℤ pos x → x < 2 ^ 32
        → IsSomeAnd result (λ r. r ≤ x) }
{
    if least <= i64::from(tick) {
        return Some(tick);
    }
    if least > i64::from(u32::MAX) {
        return None;
    }
    Some(least as u32)
}

/// The less of a tick and a number that may lie outside the range of ticks, or none where no tick is as small.
fn at_most(tick: Tick, most: i64) -> Option<Tick>
    ensures { (x : ℕ) → x ≤ tick → pos x ≤ℤ most → IsSomeAnd result (λ r. x ≤ r) }
{
    if most >= i64::from(tick) {
        return Some(tick);
    }
    if most < 0 {
        return None;
    }
    Some(most as u32)
}

/// The span with a start and an end no sooner.
fn from_on(span: Span, anchor: Anchor, least: i64) -> Option<Span>
    ensures { (start end : ℕ) → IsIn span start end
        → least ≤ℤ pos (tick_of anchor start end)
        → IsSomeAnd result (λ r. IsIn r start end) }
{
    match anchor {
        Anchor::Start => {
            let tick = at_least(span.start_from, least)?;
            Some(Span {
                start_from: tick,
                ..span
            })
        }
        Anchor::End => {
            let tick = at_least(span.end_from, least)?;
            Some(Span {
                end_from: tick,
                ..span
            })
        }
    }
}

/// The span with a start or an end no later.
fn up_to(span: Span, anchor: Anchor, most: i64) -> Option<Span>
    ensures { (start end : ℕ) → IsIn span start end
        → pos (tick_of anchor start end) ≤ℤ most
        → IsSomeAnd result (λ r. IsIn r start end) }
{
    match anchor {
        Anchor::Start => {
            let tick = at_most(span.start_till, most)?;
            Some(Span {
                start_till: tick,
                ..span
            })
        }
        Anchor::End => {
            let tick = at_most(span.end_till, most)?;
            Some(Span {
                end_till: tick,
                ..span
            })
        }
    }
}

/// The span in which the hold begins at this tick or later.
pub fn begins_behind(span: Span, rule: &HoldRule, tick: i64) -> Option<Span>
    requires low { negsuc 1099511627775 ≤ℤ tick }
    requires high { tick ≤ℤ pos 1099511627776 }
    ensures { (start end : ℕ) → IsIn span start end → tick ≤ℤ begin_of rule.now start end
        → IsSomeAnd result (λ r. IsIn r start end) }
{
    from_on(span, rule.begin, tick - i64::from(rule.begin_off))
}

/// The span in which the hold ends by this tick.
pub fn ends_before(span: Span, rule: &HoldRule, tick: i64) -> Option<Span>
    requires low { negsuc 1099511627775 ≤ℤ tick }
    requires high { tick ≤ℤ pos 1099511627776 }
    ensures { (start end : ℕ) → IsIn span start end → end_of rule.now start end ≤ℤ tick
        → IsSomeAnd result (λ r. IsIn r start end) }
{
    up_to(span, rule.end, tick - i64::from(rule.end_off))
}

/// The span in which the action lasts at least so long, by its ends.
fn ends_after(span: Span, least: Tick) -> Option<Span>
    ensures { (start end : ℕ) → IsIn span start end → start + least ≤ end
        → IsSomeAnd result (λ r. IsIn r start end) }
{
    from_on(
        span,
        Anchor::End,
        i64::from(span.start_from) + i64::from(least),
    )
}

/// The span in which the action lasts at least so long, by its starts.
fn starts_before(span: Span, least: Tick) -> Option<Span>
    ensures { (start end : ℕ) → IsIn span start end → start + least ≤ end
        → IsSomeAnd result (λ r. IsIn r start end) }
{
    up_to(
        span,
        Anchor::Start,
        i64::from(span.end_till) - i64::from(least),
    )
}

/// The span in which the action lasts at most so long, by its starts.
fn starts_after(span: Span, most: Tick) -> Option<Span>
    ensures { (start end : ℕ) → IsIn span start end → end ≤ start + most
        → IsSomeAnd result (λ r. IsIn r start end) }
{
    from_on(
        span,
        Anchor::Start,
        i64::from(span.end_from) - i64::from(most),
    )
}

/// The span in which the action lasts at most so long, by its ends.
fn ends_within(span: Span, most: Tick) -> Option<Span>
    ensures { (start end : ℕ) → IsIn span start end → end ≤ start + most
        → IsSomeAnd result (λ r. IsIn r start end) }
{
    up_to(
        span,
        Anchor::End,
        i64::from(span.start_till) + i64::from(most),
    )
}

/// The span in which the action lasts `least` ticks or more.
fn lasts_least(span: Span, least: Tick) -> Option<Span>
    ensures { (start end : ℕ) → IsIn span start end → start + least ≤ end
        → IsSomeAnd result (λ r. IsIn r start end) }
{
    match ends_after(span, least) {
        Some(later) => starts_before(later, least),
        None => None,
    }
}

/// The span in which the action lasts `most` ticks or less.
fn lasts_most(span: Span, most: Tick) -> Option<Span>
    ensures { (start end : ℕ) → IsIn span start end → end ≤ start + most
        → IsSomeAnd result (λ r. IsIn r start end) }
{
    match starts_after(span, most) {
        Some(later) => ends_within(later, most),
        None => None,
    }
}

/// The span in which the action lasts from `least` to `most` ticks.
pub fn lasts(span: Span, least: Tick, most: Tick) -> Option<Span>
    ensures { (start end : ℕ) → IsIn span start end → start + least ≤ end
        → end ≤ start + most
        → IsSomeAnd result (λ r. IsIn r start end) }
{
    match lasts_least(span, least) {
        Some(longer) => lasts_most(longer, most),
        None => None,
    }
}
