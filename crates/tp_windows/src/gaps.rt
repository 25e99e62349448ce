//! The gaps in which the holds of a step may stand, and at which ticks the step ends then.
ghost use Rattle.std.specs.Prelude.{◌≡◌, ℕ, ◌+◌, ◌<◌, ◌≤◌, ◌+ℤ◌, ◌≤ℤ◌, pos, negsuc, length, true, All, IsSomeAnd, IsTrue};
ghost use Rattle.tp_machine.specs.ModuleUse.{begin_of, end_of};
ghost use Rattle.tp_windows.specs.Rows.{AllStandIn, HaveRows, IsEnd, IsNear, StandsInRow};
ghost use Rattle.tp_windows.specs.Spans.{IsIn, IsWithin};

use crate::kept_rows::KeptRows;
use crate::span::{Span, begins_behind, ends_before, lasts};
use tp_base::{PointId, Tick};
use tp_machine::{HoldRule, Machine, gap_at, gap_between, span as hold_ticks};

/// A kept hold: its rule, its least end, its greatest begin and its least begin, in ticks, and the points from which and to which its
/// action runs.
#[derive(Clone, Copy)]
pub struct KeptHold {
    pub rule: HoldRule,
    pub end: i64,
    pub begin: i64,
    pub soonest: i64,
    pub from: PointId,
    pub to: PointId,
}

/// A hold of a step, with the gap of its resource and the kept holds there in their order.
#[derive(Clone, Copy)]
struct Row<'a> {
    rule: HoldRule,
    gap: u32,
    kept: &'a [KeptHold],
}

/// The gaps in which the holds of a step stand, in their order, and how many kept holds they push.
#[derive(Clone, Copy)]
pub(crate) struct Gaps {
    pub(crate) numbers: [u16; 4],
    pub(crate) placed: u8,
    pub(crate) pushes: u32,
}

/// The ticks at which a step may end whose holds stand in these gaps, and the first at which it may start.
#[derive(Clone, Copy)]
pub(crate) struct Ends {
    pub(crate) from: Tick,
    pub(crate) till: Tick,
    pub(crate) start: Tick,
    pub(crate) gaps: Gaps,
}

/// Where and how long an action runs: the machine and its kept holds, and the least and the greatest duration, in ticks.
#[derive(Clone, Copy)]
pub(crate) struct Ground<'a> {
    pub(crate) machine: &'a Machine,
    pub(crate) rows: &'a KeptRows,
    pub(crate) least: Tick,
    pub(crate) most: Tick,
}

/// A tick and a gap.
fn with_gap(tick: i64, gap: u32) -> i64
    requires low { negsuc 17179869183 ≤ℤ tick }
    requires high { tick ≤ℤ pos 17179869184 }
    ensures sum { result ≡ (tick +ℤ pos gap) }
    ensures low { negsuc 17179869183 ≤ℤ result }
    ensures high { result ≤ℤ pos 34359738368 }
{
    tick + gap as i64
}

/// A tick less a gap.
fn less_gap(tick: i64, gap: u32) -> i64
    requires low { negsuc 17179869183 ≤ℤ tick }
    requires high { tick ≤ℤ pos 17179869184 }
    ensures sum { (result +ℤ pos gap) ≡ tick }
    ensures low { negsuc 34359738367 ≤ℤ result }
    ensures high { result ≤ℤ pos 17179869184 }
{
    tick - gap as i64
}

/// The span in which the hold begins behind a kept hold.
fn behind(span: Span, row: Row<'_>, place: usize) -> Option<Span>
    requires there { place < length row.kept.now }
    requires near { All IsNear row.kept.now }
    ensures { (start end g : ℕ) → IsIn span start end → place < g
        → StandsInRow row.entry.gap row.entry.rule row.entry.kept.now start end g
        → IsSomeAnd result (λ r. IsIn r start end) }
{
    let kept = row.kept[place];
    let gap = gap_between(row.gap, &kept.rule, &row.rule);
    begins_behind(span, &row.rule, with_gap(kept.end, gap))
}

/// The span in which the hold ends before a kept hold.
fn before(span: Span, row: Row<'_>, place: usize) -> Option<Span>
    requires there { place < length row.kept.now }
    requires near { All IsNear row.kept.now }
    ensures { (start end g : ℕ) → IsIn span start end → g ≤ place
        → StandsInRow row.entry.gap row.entry.rule row.entry.kept.now start end g
        → IsSomeAnd result (λ r. IsIn r start end) }
{
    let kept = row.kept[place];
    let gap = gap_between(row.gap, &row.rule, &kept.rule);
    ends_before(span, &row.rule, less_gap(kept.begin, gap))
}

/// The span in which the hold is behind the kept hold before a gap, if there is one.
fn from_gap(span: Span, row: Row<'_>, gap: usize) -> Option<Span>
    requires within { gap ≤ length row.kept.now }
    requires near { All IsNear row.kept.now }
    ensures { (start end : ℕ) → IsIn span start end
        → StandsInRow row.entry.gap row.entry.rule row.entry.kept.now start end gap
        → IsSomeAnd result (λ r. IsIn r start end) }
{
    if gap == 0 {
        return Some(span);
    }
    behind(span, row, gap - 1)
}

/// The span in which the hold is before the kept hold behind a gap, if there is one.
fn until_gap(span: Span, row: Row<'_>, gap: usize) -> Option<Span>
    requires within { gap ≤ length row.kept.now }
    requires near { All IsNear row.kept.now }
    ensures { (start end : ℕ) → IsIn span start end
        → StandsInRow row.entry.gap row.entry.rule row.entry.kept.now start end gap
        → IsSomeAnd result (λ r. IsIn r start end) }
{
    if gap == row.kept.len() {
        return Some(span);
    }
    before(span, row, gap)
}

/// The span in which the hold stands in a gap.
fn in_gap(span: Span, row: Row<'_>, gap: usize) -> Option<Span>
    requires within { gap ≤ length row.kept.now }
    requires near { All IsNear row.kept.now }
    ensures { (start end g : ℕ) → g ≡ gap → IsIn span start end
        → StandsInRow row.entry.gap row.entry.rule row.entry.kept.now start end g
        → IsSomeAnd result (λ r. IsIn r start end) }
{
    match from_gap(span, row, gap) {
        Some(later) => until_gap(later, row, gap),
        None => None,
    }
}

/// The earliest tick at which the hold ends.
fn earliest_end(span: Span, rule: &HoldRule) -> i64
    ensures { (start end : ℕ) → IsIn span start end
        → result ≤ℤ end_of rule.now start end }
{
    let (_, end) = hold_ticks(rule, span.start_from, span.end_from);
    end
}

/// The latest tick at which the hold begins.
fn latest_begin(span: Span, rule: &HoldRule) -> i64
    ensures { (start end : ℕ) → IsIn span start end
        → begin_of rule.now start end ≤ℤ result }
{
    let (begin, _) = hold_ticks(rule, span.start_till, span.end_till);
    begin
}

/// Whether the hold can't stand before a kept hold, which begins too early.
fn is_too_early(span: Span, row: Row<'_>, at: usize) -> bool
    requires there { at < length row.kept.now }
    requires near { All IsNear row.kept.now }
    ensures { IsTrue result → (start end g : ℕ) → IsIn span start end
        → StandsInRow row.entry.gap row.entry.rule row.entry.kept.now start end g → at < g }
{
    row.kept[at].begin < earliest_end(span, &row.rule)
}

/// The first gap in which the hold may stand: each hold before it begins too early to be behind.
fn first_gap(span: Span, row: Row<'_>) -> usize
    requires near { All IsNear row.kept.now }
    ensures { (start end g : ℕ) → IsIn span start end
        → StandsInRow row.entry.gap row.entry.rule row.entry.kept.now start end g → result ≤ g }
{
    let mut low = 0;
    let mut high = row.kept.len();
    'halves: while low < high {
        let middle = low + (high - low) / 2;
        if is_too_early(span, row, middle) {
            low = middle + 1;
        } else {
            high = middle;
        }
    }
    low
}

/// Whether the hold can't stand in a gap nor behind it: the kept hold before the gap ends too late.
fn is_past(span: Span, row: Row<'_>, gap: usize) -> bool
    requires within { gap ≤ length row.kept.now }
    requires near { All IsNear row.kept.now }
    ensures { IsTrue result → (start end g : ℕ) → IsIn span start end
        → StandsInRow row.entry.gap row.entry.rule row.entry.kept.now start end g → g < gap }
{
    if gap == 0 {
        return false;
    }
    row.kept[gap - 1].end > latest_begin(span, &row.rule)
}

/// Whether the kept hold behind the gap is pushed beyond its least begin by a hold of an action that lasts so long at least.
fn does_push(span: Span, row: Row<'_>, gap: usize, least: Tick) -> bool {
    let end_from = span.end_from.max(span.start_from.saturating_add(least));
    match row.kept.get(gap) {
        Some(kept) => earliest_end(Span { end_from, ..span }, &row.rule) > kept.soonest,
        None => false,
    }
}

/// The gaps with that of one hold more.
fn with_next(gaps: Gaps, span: Span, row: Row<'_>, gap: usize, least: Tick) -> Gaps {
    let mut more = gaps;
    if more.placed < 4 {
        more.numbers[more.placed as usize] = gap.min(65535) as u16;
        more.placed += 1;
    }
    if does_push(span, row, gap, least) && more.pushes < u32::MAX {
        more.pushes += 1;
    }
    more
}

/// Notes the ends of a span. Answers false where there is no room.
fn offer(ends: &mut Vec<Ends>, span: Span, gaps: Gaps) -> bool
    ensures covered { IsTrue result → (start end : ℕ) → IsIn span start end
        → IsEnd ends.new.items end }
    ensures kept { (end : ℕ) → IsEnd ends.old.items end → IsEnd ends.new.items end }
{
    if ends.len() == ends.capacity() {
        return false;
    }
    ends.push_reserved(Ends {
        from: span.end_from,
        till: span.end_till,
        start: span.start_from,
        gaps,
    });
    true
}

/// Whether no action starts and ends in the span.
fn is_empty(span: Span) -> bool
    ensures { IsTrue result → (start end : ℕ) → IsIn span start end → ⊥ }
{
    span.start_from > span.start_till || span.end_from > span.end_till
}

/// Notes at which ticks an action ends that starts and ends in the span, for each choice of gaps of these holds. Answers false where
/// there is no room.
pub(crate) fn place_holds(
    ground: Ground<'_>,
    holds: &[HoldRule],
    span: Span,
    gaps: Gaps,
    ends: &mut Vec<Ends>,
) -> bool
    requires rows { HaveRows ground.rows.now.rows holds.now }
    ensures covered { IsTrue result → (start end : ℕ) → IsIn span start end
        → IsWithin ground.entry.least ground.entry.most start end
        → AllStandIn ground.entry.machine.now ground.entry.rows.now.rows holds.now start end
        → IsEnd ends.new.items end }
    ensures kept { (end : ℕ) → IsEnd ends.old.items end → IsEnd ends.new.items end }
{
    let Some(span) = lasts(span, ground.least, ground.most) else {
        return true;
    };
    if is_empty(span) {
        return true;
    }
    match holds {
        [] => offer(ends, span, gaps),
        [rule, rest @ ..] => {
            let row = Row {
                rule: *rule,
                gap: gap_at(ground.machine, rule.resource),
                kept: ground.rows.row(rule.resource),
            };
            let mut gap = first_gap(span, row);
            'gaps: while gap <= row.kept.len() {
                if is_past(span, row, gap) {
                    return true;
                }
                match in_gap(span, row, gap) {
                    Some(next) => {
                        let more = with_next(gaps, next, row, gap, ground.least);
                        if !place_holds(ground, rest, next, more, ends) {
                            return false;
                        }
                    }
                    None => {}
                }
                gap += 1;
            }
            true
        }
    }
}
