//! Least times of points, raised along edges, and greatest ones, lowered. No solution is lost, however few edges were looked at.
ghost use Rattle.std.specs.Prelude.{◌≡◌, ℕ, ◌+◌, ◌<◌, ◌≤◌, ◌+ℤ◌, ◌≤ℤ◌, ◌^◌, pos, negsuc, length, false, None, All, IsSomeAnd};
ghost use Rattle.tp_base.specs.Grows.{IsKnown, most_weight};
ghost use Rattle.tp_base.specs.Net.{Keeps};
ghost use Rattle.tp_windows.specs.Arrays.{IsBetween};
ghost use Rattle.tp_windows.specs.Links.{AreFalling, AreHeads, edges_of};

use tp_base::{Edge, PointId, Tick};

/// An edge, and the number of the one before it that begins at the same point, counted from 1, or 0.
#[derive(Clone, Copy)]
pub struct Link {
    pub edge: Edge,
    pub older: u32,
}

/// Edges that are linked by one of their points, and for each point the number of the last one, counted from 1, or 0.
#[derive(Clone, Copy)]
pub(crate) struct Links<'a> {
    pub(crate) links: &'a [Link],
    pub(crate) heads: &'a [u32],
}

/// A point and a tick.
#[derive(Clone, Copy)]
pub(crate) struct Moment {
    pub(crate) point: PointId,
    pub(crate) tick: Tick,
}

/// The points whose edges wait to be looked at, the first one first, and at how many points may be looked.
#[derive(Drop)]
pub(crate) struct Spread {
    pub(crate) queue: Vec<PointId>,
    pub(crate) left: u32,
}

/// The least time of an edge's end: that of its beginning with the weight, or the time given where that is greater. None where there is
/// no such tick.
fn later(time: Tick, from: Tick, weight: i64) -> Option<Tick>
    requires least { negsuc 999999 ≤ℤ weight }
    requires most { weight ≤ℤ pos most_weight }
    ensures { (x y : ℕ) → from ≤ x → time ≤ y → (pos x +ℤ weight) ≤ℤ pos y
        → y < 2 ^ 32
        → IsSomeAnd result (λ r. r ≤ y) }
{
    let least = i64::from(from) + weight;
    if least <= i64::from(time) {
        return Some(time);
    }
    if least > i64::from(u32::MAX) {
        return None;
    }
    Some(least as u32)
}

/// Raises the least time of an edge's end to what the edge asks for. Answers whether it was raised, or none where it would be above its
/// greatest time.
fn raise_edge(edge: &Edge, lows: &mut [Tick], highs: &[Tick]) -> Option<bool>
    requires known { IsKnown (length lows.old) edge.now }
    requires highs { length lows.old ≡ length highs.now }
    ensures same { length lows.new ≡ length lows.old }
    ensures between { (y : ℕ → ℕ) → Keeps y edge.now → IsBetween y lows.old highs.now
        → IsBetween y lows.new highs.now }
    ensures refused { result ≡ None → (y : ℕ → ℕ) → Keeps y edge.now
        → IsBetween y lows.old highs.now → ⊥ }
{
    let to = edge.to.0 as usize;
    let old = lows[to];
    let Some(time) = later(old, lows[edge.from.0 as usize], edge.weight) else {
        return None;
    };
    if time > highs[to] {
        return None;
    }
    lows[to] = time;
    Some(time > old)
}

/// Notes a point, unless there is no room: it is not looked at then.
pub(crate) fn note(waiting: &mut Vec<PointId>, point: PointId) {
    if waiting.len() < waiting.capacity() {
        waiting.push_reserved(point);
    }
}

/// Raises the ends of the edge of this number, counted from 1, and of those before it that are linked, and notes which rose. Answers
/// false where one would be above its greatest time.
fn raise_all(
    links: &[Link],
    head: u32,
    lows: &mut [Tick],
    highs: &[Tick],
    waiting: &mut Vec<PointId>,
) -> bool
    requires head { head ≤ length links.now }
    requires falling { AreFalling links.now }
    requires known { All (IsKnown (length lows.old)) (edges_of links.now) }
    requires highs { length lows.old ≡ length highs.now }
    ensures same { length lows.new ≡ length lows.old }
    ensures between { (y : ℕ → ℕ) → All (Keeps y) (edges_of links.now)
        → IsBetween y lows.old highs.now → IsBetween y lows.new highs.now }
    ensures refused { result ≡ false → (y : ℕ → ℕ) → All (Keeps y) (edges_of links.now)
        → IsBetween y lows.old highs.now → ⊥ }
{
    let mut left = head;
    'edges: while left > 0 {
        let link = links[left as usize - 1];
        match raise_edge(&link.edge, lows, highs) {
            None => return false,
            Some(raised) => {
                if raised {
                    note(waiting, link.edge.to);
                }
            }
        }
        left = link.older;
    }
    true
}

/// Raises what the edges of the points ask for that wait, and of those that rise, until none waits or so many were looked
/// at. Answers false where a point would be above its greatest time.
fn spread_up(links: Links<'_>, lows: &mut [Tick], highs: &[Tick], spread: &mut Spread) -> bool
    requires heads { AreHeads links.links.now links.heads.now }
    requires falling { AreFalling links.links.now }
    requires known { All (IsKnown (length lows.old)) (edges_of links.links.now) }
    requires highs { length lows.old ≡ length highs.now }
    ensures same { length lows.new ≡ length lows.old }
    ensures between { (y : ℕ → ℕ) → All (Keeps y) (edges_of links.entry.links.now)
        → IsBetween y lows.old highs.now → IsBetween y lows.new highs.now }
    ensures refused { result ≡ false → (y : ℕ → ℕ)
        → All (Keeps y) (edges_of links.entry.links.now)
        → IsBetween y lows.old highs.now → ⊥ }
{
    let mut next = 0;
    'points: while spread.left > 0 && next < spread.queue.len() {
        let point = spread.queue[next];
        next += 1;
        spread.left -= 1;
        if point.0 as usize >= links.heads.len() {
            return true;
        }
        let head = links.heads[point.0 as usize];
        if !raise_all(links.links, head, lows, highs, &mut spread.queue) {
            return false;
        }
    }
    true
}

/// Raises the least time of a point alone.
fn raise_one(lows: &mut [Tick], highs: &[Tick], point: PointId, tick: Tick)
    requires point { point.0 < length lows.old }
    ensures same { length lows.new ≡ length lows.old }
    ensures between { (y : ℕ → ℕ) → IsBetween y lows.old highs.now → tick ≤ y point.0
        → IsBetween y lows.new highs.now }
{
    lows[point.0 as usize] = tick;
}

/// Raises the least time of a point, and those of the points behind it along edges, until so many points were looked at. Answers
/// false where a point would be above its greatest time: no solution between the times has the point at this tick or later then.
pub(crate) fn raise(
    links: Links<'_>,
    lows: &mut [Tick],
    highs: &[Tick],
    spread: &mut Spread,
    moment: Moment,
) -> bool
    requires point { moment.point.0 < length lows.old }
    requires heads { AreHeads links.links.now links.heads.now }
    requires falling { AreFalling links.links.now }
    requires known { All (IsKnown (length lows.old)) (edges_of links.links.now) }
    requires highs { length lows.old ≡ length highs.now }
    ensures same { length lows.new ≡ length lows.old }
    ensures between { (y : ℕ → ℕ) → All (Keeps y) (edges_of links.entry.links.now)
        → IsBetween y lows.old highs.now → moment.tick ≤ y moment.point.0
        → IsBetween y lows.new highs.now }
    ensures refused { result ≡ false → (y : ℕ → ℕ)
        → All (Keeps y) (edges_of links.entry.links.now)
        → IsBetween y lows.old highs.now → moment.tick ≤ y moment.point.0 → ⊥ }
{
    let at = moment.point.0 as usize;
    if moment.tick <= lows[at] {
        return true;
    }
    if moment.tick > highs[at] {
        return false;
    }
    raise_one(lows, highs, moment.point, moment.tick);
    spread.queue.clear();
    note(&mut spread.queue, moment.point);
    spread_up(links, lows, highs, spread)
}

/// The greatest time of an edge's beginning: that of its end less the weight, or the time given where that is less. None where there is no
/// such tick.
fn sooner(time: Tick, end: Tick, weight: i64) -> Option<Tick>
    requires least { negsuc 999999 ≤ℤ weight }
    requires most { weight ≤ℤ pos most_weight }
    ensures { (x y : ℕ) → x ≤ time → y ≤ end → (pos x +ℤ weight) ≤ℤ pos y
        → IsSomeAnd result (λ r. x ≤ r) }
{
    let latest = i64::from(end) - weight;
    if latest >= i64::from(time) {
        return Some(time);
    }
    if latest < 0 {
        return None;
    }
    Some(latest as u32)
}

/// Lowers the greatest time of an edge's beginning to what the edge leaves it. Answers whether it was lowered, or none where it would be
/// below its least time.
fn lower_edge(edge: &Edge, lows: &[Tick], highs: &mut [Tick]) -> Option<bool>
    requires known { IsKnown (length highs.old) edge.now }
    requires highs { length highs.old ≡ length lows.now }
    ensures same { length highs.new ≡ length highs.old }
    ensures between { (y : ℕ → ℕ) → Keeps y edge.now → IsBetween y lows.now highs.old
        → IsBetween y lows.now highs.new }
    ensures refused { result ≡ None → (y : ℕ → ℕ) → Keeps y edge.now
        → IsBetween y lows.now highs.old → ⊥ }
{
    let from = edge.from.0 as usize;
    let old = highs[from];
    let Some(time) = sooner(old, highs[edge.to.0 as usize], edge.weight) else {
        return None;
    };
    if time < lows[from] {
        return None;
    }
    highs[from] = time;
    Some(time < old)
}

/// Lowers the beginnings of the edge of this number, counted from 1, and of those before it that are linked, and notes which fell. Answers
/// false where one would be below its least time.
fn lower_all(
    links: &[Link],
    head: u32,
    lows: &[Tick],
    highs: &mut [Tick],
    waiting: &mut Vec<PointId>,
) -> bool
    requires head { head ≤ length links.now }
    requires falling { AreFalling links.now }
    requires known { All (IsKnown (length highs.old)) (edges_of links.now) }
    requires highs { length highs.old ≡ length lows.now }
    ensures same { length highs.new ≡ length highs.old }
    ensures between { (y : ℕ → ℕ) → All (Keeps y) (edges_of links.now)
        → IsBetween y lows.now highs.old → IsBetween y lows.now highs.new }
    ensures refused { result ≡ false → (y : ℕ → ℕ) → All (Keeps y) (edges_of links.now)
        → IsBetween y lows.now highs.old → ⊥ }
{
    let mut left = head;
    'edges: while left > 0 {
        let link = links[left as usize - 1];
        match lower_edge(&link.edge, lows, highs) {
            None => return false,
            Some(lowered) => {
                if lowered {
                    note(waiting, link.edge.from);
                }
            }
        }
        left = link.older;
    }
    true
}

/// Lowers what the edges leave that end at the points that wait, and at those that fall, until none waits or so many were looked
/// at. Answers false where a point would be below its least time.
pub(crate) fn spread_down(
    links: Links<'_>,
    lows: &[Tick],
    highs: &mut [Tick],
    spread: &mut Spread,
) -> bool
    requires heads { AreHeads links.links.now links.heads.now }
    requires falling { AreFalling links.links.now }
    requires known { All (IsKnown (length highs.old)) (edges_of links.links.now) }
    requires highs { length highs.old ≡ length lows.now }
    ensures same { length highs.new ≡ length highs.old }
    ensures between { (y : ℕ → ℕ) → All (Keeps y) (edges_of links.entry.links.now)
        → IsBetween y lows.now highs.old → IsBetween y lows.now highs.new }
    ensures refused { result ≡ false → (y : ℕ → ℕ)
        → All (Keeps y) (edges_of links.entry.links.now)
        → IsBetween y lows.now highs.old → ⊥ }
{
    let mut next = 0;
    'points: while spread.left > 0 && next < spread.queue.len() {
        let point = spread.queue[next];
        next += 1;
        spread.left -= 1;
        if point.0 as usize >= links.heads.len() {
            return true;
        }
        let head = links.heads[point.0 as usize];
        if !lower_all(links.links, head, lows, highs, &mut spread.queue) {
            return false;
        }
    }
    true
}

/// Lowers the greatest time of a point alone.
pub(crate) fn lower_one(lows: &[Tick], highs: &mut [Tick], point: PointId, tick: Tick)
    requires point { point.0 < length highs.old }
    ensures same { length highs.new ≡ length highs.old }
    ensures between { (y : ℕ → ℕ) → IsBetween y lows.now highs.old → y point.0 ≤ tick
        → IsBetween y lows.now highs.new }
{
    highs[point.0 as usize] = tick;
}

/// Lowers the greatest time of a point, and those of the points before it along edges, until so many points were looked at. The links are those
/// of the edges that end at a point. Answers false where a point would be below its least time: no solution between the times has the
/// point by this tick then.
pub(crate) fn lower(
    links: Links<'_>,
    lows: &[Tick],
    highs: &mut [Tick],
    spread: &mut Spread,
    moment: Moment,
) -> bool
    requires point { moment.point.0 < length highs.old }
    requires heads { AreHeads links.links.now links.heads.now }
    requires falling { AreFalling links.links.now }
    requires known { All (IsKnown (length highs.old)) (edges_of links.links.now) }
    requires highs { length highs.old ≡ length lows.now }
    ensures same { length highs.new ≡ length highs.old }
    ensures between { (y : ℕ → ℕ) → All (Keeps y) (edges_of links.entry.links.now)
        → IsBetween y lows.now highs.old → y moment.point.0 ≤ moment.tick
        → IsBetween y lows.now highs.new }
    ensures refused { result ≡ false → (y : ℕ → ℕ)
        → All (Keeps y) (edges_of links.entry.links.now)
        → IsBetween y lows.now highs.old → y moment.point.0 ≤ moment.tick → ⊥ }
{
    let at = moment.point.0 as usize;
    if moment.tick >= highs[at] {
        return true;
    }
    if moment.tick < lows[at] {
        return false;
    }
    lower_one(lows, highs, moment.point, moment.tick);
    spread.queue.clear();
    note(&mut spread.queue, moment.point);
    spread_down(links, lows, highs, spread)
}
