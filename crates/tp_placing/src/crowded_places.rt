//! How late a hold pushes those behind it: whether the asked copy ends after a limit, wherever up to a place the hold stands.
ghost use Rattle.std.specs.List.Sorted.{IsNonDecreasingBy};
ghost use Rattle.std.specs.Prelude.{◌≡◌, ℕ, ◌+◌, ◌+ℤ◌, ◌<◌, ◌≤◌, ◌≤ℤ◌, ◌<ℤ◌, pos, negsuc, true, All, length, slice_get, IsSomeAnd, Some};
ghost use Rattle.tp_base.specs.Net.{IsSolution};
ghost use Rattle.tp_base.specs.Readings.{IsSameSize};
ghost use Rattle.tp_schedule.specs.Plans.{LastsWithin};
ghost use Rattle.tp_timelines.specs.Orders.{order_on};
ghost use Rattle.tp_placing.specs.Boards.{past_of, suffix_of};
ghost use Rattle.tp_placing.specs.Calls.{CanPlace, IsSameLoad};
ghost use Rattle.tp_placing.specs.PushedHolds.{ArePlanned, IsAmong, IsLong, IsPutBy, LastsAtLeast, begin_by, end_by};
ghost use Rattle.tp_placing.specs.Edges.{held_behind};
ghost use Rattle.tp_placing.specs.LoadedBoard.{Stands};
ghost use Rattle.tp_placing.specs.RefusedPlace.{EndsAfterUpTo, StandsBack};
ghost use Rattle.tp_placing.specs.declared.parts.Held.{Held};

use crate::board::Board;
use crate::edges::anchored;
use crate::kept_ticks::count_to;
use crate::parts::Held;
use tp_base::{Late, Network, PointId, Tick};
use tp_machine::{ActId, Anchor, HoldRule, Machine};
use tp_schedule::Plan;
use tp_timelines::Timelines;

/// No tick is so far away, nor is any sum that is worked out here.
const FAR: i64 = 1099511627776;

/// When a hold begins whose begin is counted from a tick.
fn begin_from(rule: &HoldRule, tick: Tick) -> i64
    ensures sum { result ≡ (pos tick +ℤ rule.now.begin_off) }
    ensures low { negsuc 4294967295 ≤ℤ result }
    ensures high { result ≤ℤ pos 8589934592 }
{
    tick as i64 + rule.begin_off as i64
}

/// When a hold ends whose end is counted from a tick.
fn end_from(rule: &HoldRule, tick: Tick) -> i64
    ensures sum { result ≡ (pos tick +ℤ rule.now.end_off) }
    ensures low { negsuc 4294967295 ≤ℤ result }
    ensures high { result ≤ℤ pos 8589934592 }
{
    tick as i64 + rule.end_off as i64
}

/// When a hold begins in the least solution.
fn begin_now<N: Network>(net: &N, hold: &Held) -> i64
    requires among { IsAmong (length (N.reading.net net.now).lows) hold.now }
    ensures least { (y : ℕ → ℕ) → IsSolution (N.reading.net net.now) y
        → result ≤ℤ begin_by y hold.now }
    ensures low { negsuc 4294967295 ≤ℤ result }
    ensures high { result ≤ℤ pos 8589934592 }
{
    let tick = net.earliest(anchored(hold.rule.begin, hold.start, hold.end));
    begin_from(&hold.rule, tick)
}

/// When a hold ends in the least solution.
fn end_now<N: Network>(net: &N, hold: &Held) -> i64
    requires among { IsAmong (length (N.reading.net net.now).lows) hold.now }
    ensures least { (y : ℕ → ℕ) → IsSolution (N.reading.net net.now) y
        → result ≤ℤ end_by y hold.now }
    ensures low { negsuc 4294967295 ≤ℤ result }
    ensures high { result ≤ℤ pos 8589934592 }
{
    let tick = net.earliest(anchored(hold.rule.end, hold.start, hold.end));
    end_from(&hold.rule, tick)
}

/// What tells how long the holds of an order are: the machine, the holds, and the plans with their first points.
#[derive(Clone, Copy)]
struct Known<'a> {
    machine: &'a Machine,
    held: &'a [Held],
    plans: &'a [Plan],
    firsts: &'a [PointId],
}

/// The action of a plan that starts at a point, if there is one.
fn act_at(plan: &Plan, first: PointId, start: PointId) -> Option<ActId>
    ensures { (act : ActId) → result ≡ Some act
        → (i : ℕ) × (start.0 ≡ first.0 + i) × (slice_get plan.now.acts i ≡ Some act) }
{
    if start.0 < first.0 || start.0 - first.0 >= plan.acts.len() {
        return None;
    }
    Some(plan.acts.get(start.0 - first.0))
}

/// How long an action lasts at least, if the machine has it.
fn least_by(machine: &Machine, act: ActId) -> Option<u32>
    ensures { (least : ℕ) → result ≡ Some least → (start end : ℕ)
        → LastsWithin machine.now act start end → start + least ≤ end }
{
    match machine.actions.as_slice().get(usize::from(act.0)) {
        Some(action) => Some(action.least),
        None => None,
    }
}

/// How long the newest action lasts at least.
fn least_by_newest(machine: &Machine, newest: Option<ActId>) -> Option<u32>
    ensures { (least : ℕ) → result ≡ Some least
        → IsSomeAnd newest (λ act. (start end : ℕ)
        → LastsWithin machine.now act start end → start + least ≤ end) }
{
    match newest {
        Some(act) => least_by(machine, act),
        None => None,
    }
}

/// How long the action of a hold lasts at least, where it is one of a loaded plan and the hold runs from its start to its end.
fn least_of(known: Known<'_>, hold: &Held) -> Option<u32>
    requires in_order { IsNonDecreasingBy (λ f. f.0) known.firsts.now }
    ensures { (y : ℕ → ℕ)
        → ArePlanned known.entry.machine.now known.entry.plans.now known.entry.firsts.now y
        → LastsAtLeast y hold.now result }
{
    if matches!(hold.rule.begin, Anchor::End) || matches!(hold.rule.end, Anchor::Start) {
        return None;
    }
    if hold.end.0 <= hold.start.0 || hold.end.0 - hold.start.0 != 1 {
        return None;
    }
    let count = count_to(known.firsts, hold.start);
    if count == 0 || count > known.plans.len() {
        return None;
    }
    match act_at(&known.plans[count - 1], known.firsts[count - 1], hold.start) {
        Some(act) => least_by(known.machine, act),
        None => None,
    }
}

/// How far a hold ends behind its begin at least, where the point of its end comes at least so many ticks behind that of its
/// begin. No hold is shorter than one tick.
fn between(rule: &HoldRule, ticks: u32) -> i64
    ensures within { (from to : ℕ) → from + ticks ≤ to
        → (pos from +ℤ rule.now.begin_off) <ℤ (pos to +ℤ rule.now.end_off)
        → ((pos from +ℤ rule.now.begin_off) +ℤ result) ≤ℤ (pos to +ℤ rule.now.end_off) }
    ensures low { pos 0 ≤ℤ result }
    ensures high { result ≤ℤ pos 8589934592 }
{
    let length = ticks as i64 + (rule.end_off as i64 - rule.begin_off as i64);
    if length > 8589934592 {
        8589934592
    } else if length > 1 {
        length
    } else {
        1
    }
}

/// How long a hold is at least, where its action lasts at least so long, if that is known.
fn least_length(hold: &Held, least: Option<u32>) -> i64
    ensures least { (y : ℕ → ℕ) → IsLong y hold.now → LastsAtLeast y hold.now least
        → (begin_by y hold.now +ℤ result) ≤ℤ end_by y hold.now }
    ensures low { pos 0 ≤ℤ result }
    ensures high { result ≤ℤ pos 8589934592 }
{
    match hold.rule.begin {
        Anchor::Start => match hold.rule.end {
            Anchor::Start => between(&hold.rule, 0),
            Anchor::End => match least {
                Some(ticks) => between(&hold.rule, ticks),
                None => 1,
            },
        },
        Anchor::End => match hold.rule.end {
            Anchor::Start => 1,
            Anchor::End => between(&hold.rule, 0),
        },
    }
}

/// The least of a tick and another that comes so much, and so much more, behind a third.
fn earlier(till: i64, begin: i64, rest: i64, length: i64) -> i64
    requires begin_low { negsuc 4294967295 ≤ℤ begin }
    requires begin_high { begin ≤ℤ pos 8589934592 }
    requires till_low { negsuc 4294967295 ≤ℤ till }
    requires till_high { till ≤ℤ pos 1099511627776 }
    requires rest_low { pos 0 ≤ℤ rest }
    requires rest_high { rest ≤ℤ pos 1099511627776 }
    requires length_low { pos 0 ≤ℤ length }
    requires length_high { length ≤ℤ pos 8589934592 }
    ensures one { result ≤ℤ till }
    ensures other { result ≤ℤ (begin +ℤ (rest +ℤ length)) }
    ensures low { negsuc 4294967295 ≤ℤ result }
    ensures high { result ≤ℤ pos 1099511627776 }
{
    let moved = begin + (rest + length);
    if moved < till { moved } else { till }
}

/// A length with one more, or one that is far enough.
fn longer(length: i64, more: i64) -> i64
    requires low { pos 0 ≤ℤ length }
    requires high { length ≤ℤ pos 1099511627776 }
    requires more_low { pos 0 ≤ℤ more }
    requires more_high { more ≤ℤ pos 8589934592 }
    ensures sum { result ≤ℤ (length +ℤ more) }
    ensures low { pos 0 ≤ℤ result }
    ensures high { result ≤ℤ pos 1099511627776 }
{
    let sum = length + more;
    if sum < FAR { sum } else { FAR }
}

/// The hold at a place of its order begins no earlier than this where a new one stands there or at any place before. A walk
/// from the place to the front adds up the lengths of the holds between, and stops where the new one is pushed no more.
fn begin_behind<N: Network>(
    net: &N,
    timelines: &Timelines,
    known: Known<'_>,
    new: &Held,
    least: Option<u32>,
    place: u32,
) -> i64
    requires known { new.now.rule.resource.0 < length timelines.now.orders }
    requires there { place < length (order_on timelines.now.orders new.now.rule.resource.0) }
    requires numbers { All (λ id. id < length known.held.now)
        (order_on timelines.now.orders new.now.rule.resource.0) }
    requires among { (k : ℕ) (h : Held)
        → held_behind known.held.now (order_on timelines.now.orders new.now.rule.resource.0) k
        ≡ Some h
        → IsAmong (length (N.reading.net net.now).lows) h }
    requires in_order { IsNonDecreasingBy (λ f. f.0) known.firsts.now }
    requires new { IsAmong (length (N.reading.net net.now).lows) new.now }
    ensures behind { (y : ℕ → ℕ) (earlier : ℕ) → earlier ≤ place
        → IsSolution (N.reading.net net.now) y
        → ArePlanned known.entry.machine.now known.entry.plans.now known.entry.firsts.now y
        → LastsAtLeast y new.now least
        → IsPutBy y known.entry.held.now
        (order_on timelines.now.orders new.now.rule.resource.0) new.now earlier
        → (h : Held) → held_behind known.entry.held.now
        (order_on timelines.now.orders new.now.rule.resource.0) place ≡ Some h
        → result ≤ℤ begin_by y h }
    ensures low { negsuc 4294967295 ≤ℤ result }
    ensures high { result ≤ℤ pos 1099511627776 }
{
    let resource = new.rule.resource;
    let from = begin_now(net, new);
    let length = least_length(new, least);
    let mut till = FAR;
    let mut rest = 0;
    let mut at = place;
    'walk: while at > 0 {
        let before = &known.held[timelines.at(resource, at - 1) as usize];
        let end = end_now(net, before);
        if end <= from {
            break;
        }
        till = earlier(till, end, rest, length);
        rest = longer(rest, least_length(before, least_of(known, before)));
        at -= 1;
    }
    earlier(till, from, rest, length)
}

/// The least tick of the point from which a hold's begin is counted, where the hold begins at a tick or later.
fn low_for(hold: &Held, till: i64) -> u32
    requires low { negsuc 4294967295 ≤ℤ till }
    requires high { till ≤ℤ pos 1099511627776 }
    ensures { (tick : ℕ) → till ≤ℤ (pos tick +ℤ hold.now.rule.begin_off)
        → result ≤ tick }
{
    let low = till - hold.rule.begin_off as i64;
    if low <= 0 {
        0
    } else if low <= 4294967295 {
        low as u32
    } else {
        4294967295
    }
}

/// Raises the point of a hold's begin, so that it begins at a tick or later. Whether another point comes after the limit then, or
/// nothing is left.
fn is_pushed<N: Network>(net: &mut N, hold: &Held, till: i64, last: PointId, limit: Tick) -> bool
    requires among { IsAmong (length (N.reading.net net.old).lows) hold.now }
    requires last { last.0 < length (N.reading.net net.old).lows }
    requires low { negsuc 4294967295 ≤ℤ till }
    requires high { till ≤ℤ pos 1099511627776 }
    ensures late { result ≡ true → (y : ℕ → ℕ) → IsSolution (N.reading.net net.old) y
        → till ≤ℤ begin_by y hold.now → limit < y last.0 }
    ensures past { N.reading.past net.new ≡ N.reading.past net.old }
    ensures same_size { IsSameSize N.reading net.old net.new }
{
    let point = anchored(hold.rule.begin, hold.start, hold.end);
    let low = low_for(hold, till);
    if low <= net.earliest(point) {
        return false;
    }
    match net.raise(point, low) {
        Ok(()) => net.earliest(last) > limit,
        Err(Late) => true,
    }
}

impl<N: Network> Board<N> {
    /// Whether the asked copy ends after the limit with the next hold of the newest action at a place of its order, and at each
    /// place before. Costs a walk over the holds before the place that the new one would push, and changes the network: the
    /// caller takes the board back to a mark. A no may be wrong.
    pub fn is_crowded(&mut self, machine: &Machine, hold: u32, place: u32, limit: Tick) -> bool
        requires stands { Stands N.reading self.old machine.now }
        requires next { IsSomeAnd (suffix_of self.old)
            (λ x. CanPlace machine.now self.old.plans x hold place) }
        ensures crowded { result ≡ true → IsSomeAnd (suffix_of self.old)
            (EndsAfterUpTo machine.now self.old place limit) }
        ensures back { StandsBack N.reading N.untouched self.new machine.now }
        ensures past { past_of N.reading self.new ≡ past_of N.reading self.old }
        ensures loaded { IsSameLoad self.old self.new }
        ensures marks { N.reading.max_marks self.new.net ≡ N.reading.max_marks self.old.net }
    {
        let next = self.next_hold(machine, hold);
        let resource = next.hold.rule.resource;
        self.limit = None;
        if place >= self.timelines.len(resource) {
            return false;
        }
        let behind = self.held[self.timelines.at(resource, place) as usize];
        let known = Known {
            machine,
            held: self.held.as_slice(),
            plans: self.plans.as_slice(),
            firsts: self.firsts.as_slice(),
        };
        let least = least_by_newest(machine, next.newest.newest);
        let till = begin_behind(&self.net, &self.timelines, known, &next.hold, least, place);
        is_pushed(&mut self.net, &behind, till, self.last, limit)
    }
}
