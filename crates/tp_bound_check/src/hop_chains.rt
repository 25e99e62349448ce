//! Chains and loops of hops.
ghost use Rattle.std.specs.Prelude.{◌≡◌, ◌+◌, ◌-◌, ◌<◌, ◌≤◌, ◌^◌, length, Some, ℤ, pos, neg_ℤ, ◌≤ℤ◌, ◌+ℤ◌, option_copied, false, position, IfOk, IfErr};
ghost use Rattle.std.specs.Str.{bytes_eq};
ghost use Rattle.tp_bound_check.specs.Founds.{IsTrack, track_of};
ghost use Rattle.tp_bound_check.specs.Points.{IsWeight};
ghost use Rattle.tp_bound_check.specs.Stands.{IsPart, IsSpanOf};
ghost use Rattle.tp_bound_check.specs.Ranks.{IsSoundStand, own_among};
ghost use Rattle.tp_constraints.specs.Gaps.{cap_in, low_in};
ghost use Rattle.tp_constraints.specs.Suffixes.{order_in};
ghost use Rattle.tp_machine.specs.Modes.{gap_at};
ghost use Rattle.tp_schedule.specs.Choices.{start_floor};
ghost use Rattle.tp_schedule.specs.Plans.{is_fixed, point};
ghost use Rattle.tp_bound_laws.specs.Chains.Led.{led, lost};
ghost use Rattle.tp_bound_laws.specs.Chains.{cap, follow, from_here, gap_in, gap_of, hold_gap, low, resource_gap, span_gap, spanned};
ghost use Rattle.tp_bound_laws.specs.Places as places;
ghost use Rattle.tp_bound_laws.specs.Places.{next_rule};

use crate::branch::Branch;
use crate::branch_span::{Span, Stand};
use crate::found::{Cut, Ends, Part, Track};
use crate::hops::{duration_gap, line_gap};
use crate::kept_ranks::Ranks;
use crate::orders::{CheckScene, rule_law};
use crate::points::{Gap, Point, Slot};
use crate::tree_names::{resource_of, spot_of, start_of};
use tp_base::{Name, Tick};
use tp_bounds::{Hop, Hops};
use tp_machine::{Machine, ResId, gap_at, machine_law};
use tp_schedule::{Ask, Kind, Origin, Plan};

/// A point that hops came to, with their sum.
#[derive(Clone, Copy)]
pub(crate) struct Walk {
    pub(crate) at: Point,
    pub(crate) sum: i64,
}

fn go_on(walk: Walk, gap: Gap) -> Walk
    requires least { neg_ℤ (pos (2 ^ 48)) ≤ℤ walk.sum }
    requires most { walk.sum ≤ℤ pos (2 ^ 48) }
    ensures at { result.at ≡ gap.to }
    ensures sum { result.sum ≡ walk.sum +ℤ gap.weight }
    ensures weight { IsWeight gap.weight }
{
    Walk {
        at: gap.to,
        sum: walk.sum + gap.weight,
    }
}

fn is_fixed(plan: &Plan, at: u32) -> bool
    ensures { result ≡ is_fixed plan.now at }
{
    plan.kind == Kind::Front || (0 < plan.released && at <= plan.released)
}

fn low_in(floor: u64, plan: Option<&Plan>, at: u32) -> u64
    requires { floor < 2 ^ 33 - 1 }
    ensures low { result ≡ low_in floor (λ _. false) (option_copied plan.entry) at }
    ensures small { result < 2 ^ 33 }
{
    match plan {
        None => 0,
        Some(plan) => {
            if is_fixed(plan, at) {
                u64::from(point_of(plan, at))
            } else if plan.released <= at && at < plan.acts.len() {
                floor + 1
            } else {
                0
            }
        }
    }
}

fn point_of(plan: &Plan, at: u32) -> Tick
    ensures { result ≡ point plan.now at }
{
    if at < plan.points.len() {
        plan.points.get(at)
    } else {
        0
    }
}

fn cap_in(horizon: u64, plan: Option<&Plan>, at: u32) -> u64
    requires { horizon < 2 ^ 33 }
    ensures cap { result ≡ cap_in horizon (option_copied plan.entry) at }
    ensures small { result < 2 ^ 33 }
{
    match plan {
        None => horizon,
        Some(plan) => {
            if is_fixed(plan, at) {
                u64::from(point_of(plan, at))
            } else {
                horizon
            }
        }
    }
}

fn start_floor(machine: &Machine, ask: &Ask) -> u64
    ensures floor { result ≡ start_floor machine.now ask.entry.now.now ask.entry.now.origin }
    ensures small { result < 2 ^ 33 }
{
    match ask.origin {
        Origin::Feeder => u64::from(ask.now) + u64::from(machine.lead) + 1,
        Origin::Front { end, .. } => u64::from(end),
    }
}

impl<'a> CheckScene<'a> {
    /// The least tick of a point.
    pub(crate) fn low(&self, branch: &Branch, point: Point) -> i64
        ensures low { (stand : places.Stand) → stand.branch ≡ branch.now → result ≡ pos (low
            self.now.rows.machine.now self.now.plans.now self.now.rows.ask.now self.now.limit stand
            point) }
        ensures least { pos 0 ≤ℤ result }
        ensures most { result ≤ℤ pos (2 ^ 34) }
    {
        let machine = self.rows.machine;
        let ask = self.rows.ask;
        let low = match point.copy() {
            Some(copy) => {
                let floor = u64::from(ask.now) + u64::from(machine.lead);
                low_in(floor, self.plans.plan_of(copy), point.at())
            }
            None => start_floor(machine, ask) + u64::from(branch.room(point.at())),
        };
        low as i64
    }

    /// The greatest tick of a point.
    pub(crate) fn cap(&self, branch: &Branch, point: Point) -> i64
        ensures { (stand : places.Stand) → stand.branch ≡ branch.now → result ≡ cap
            self.now.rows.machine.now self.now.plans.now self.now.rows.ask.now self.now.limit stand
            point }
    {
        let machine = self.rows.machine;
        let ask = self.rows.ask;
        let horizon = u64::from(ask.now) + u64::from(machine.window);
        match point.copy() {
            Some(copy) => cap_in(horizon, self.plans.plan_of(copy), point.at()) as i64,
            None => {
                if point.at() == 0 {
                    self.limit
                } else if branch.is_stopped() && point.at() == branch.count() {
                    start_floor(machine, ask) as i64
                } else {
                    horizon as i64
                }
            }
        }
    }

    /// What is between the holds of two actions, where the next hold of the branch has several
    /// places.
    fn spanned_gap(&self, branch: &Branch, span: Span, ends: &Ends, track: &Track) -> Option<Gap>
        requires next { next_rule self.now.rows.machine.now branch.now.x ≡ Some span.rule }
        requires span { span.lo ≤ span.hi }
        requires order { track.now ≡ track_of ends.now.before ends.now.after
            (order_in self.now.rows.machine.now self.now.plans.now branch.now.x
            span.rule.resource.0) }
        requires track { IsTrack track.now }
        requires few { track.now.len < 2 ^ 33 }
        ensures { result ≡ gap_in (gap_at self.now.rows.machine.now span.rule.resource.0)
            ends.now.before ends.now.after (spanned branch.now.x span
            (order_in self.now.rows.machine.now self.now.plans.now branch.now.x
            span.rule.resource.0)) }
    {
        rule_law(self.rows.machine, branch, span.rule);
        let count = branch.count();
        let slot = Slot {
            rule: span.rule,
            from: Point::own(count),
            to: Point::own(count - 1),
        };
        let cut = Cut {
            lo: u64::from(span.lo) + 1,
            hi: u64::from(span.hi) + 1,
        };
        let apart = gap_at(self.rows.machine, span.rule.resource);
        let put = track.put(ends, span.lo, slot);
        put.gap(apart, cut)
    }

    /// The gap between two holds of the resource, if the next hold of the branch is on the resource too and has several places.
    fn span_gap(&self, stand: &Stand, resource: u16, ends: &Ends, part: Part) -> Option<Gap>
        requires sound { IsSpanOf self.now.rows.machine.now stand.now.branch stand.now.span }
        requires count { part.count ≤ length stand.now.branch.x.choices }
        requires part { IsPart self.now.rows.machine.now self.now.plans.now stand.now.branch
            resource ends.now part }
        ensures { result ≡ span_gap self.now.rows.machine.now stand.now.branch.x stand.now.span
            resource ends.now.before ends.now.after
            (order_in self.now.rows.machine.now self.now.plans.now stand.now.branch.x resource) }
    {
        match stand.span {
            Some(span) => {
                if span.rule.resource.0 == resource {
                    let whole = self.whole_track(&stand.branch, resource, ends, part);
                    self.spanned_gap(&stand.branch, span, ends, &whole)
                } else {
                    None
                }
            }
            None => None,
        }
    }

    /// What is between the holds of two actions on a resource, by the branch's choices up to both.
    /// Which of two holds stands first is settled once both are in its order: choices after them
    /// change nothing, and those of kept actions are in it from the start.
    fn walked_gap(&self, stand: &Stand, resource: u16, ends: &Ends) -> Option<Gap>
        requires known { resource < length self.now.rows.machine.now.resources }
        requires sound { IsSpanOf self.now.rows.machine.now stand.now.branch stand.now.span }
        ensures { result ≡ resource_gap self.now.rows.machine.now self.now.plans.now
            self.now.rows.ask.now self.now.limit stand.now resource ends.now.before ends.now.after }
    {
        let count = ends.choices().min(stand.branch.count());
        let part = self.part(&stand.branch, resource, ends, count);
        let apart = gap_at(self.rows.machine, ResId(resource));
        let nothing = Cut { lo: 0, hi: 0 };
        let gap = part.track.gap(apart, nothing);
        match gap {
            Some(gap) => Some(gap),
            None => self.span_gap(stand, resource, ends, part),
        }
    }

    /// What is between an own hold on a resource and a kept one. The ranks tell where the own one
    /// stands, unless another hold of the branch has several places on the resource.
    fn gap_to_kept(
        &self,
        stand: &Stand,
        ranks: &Ranks,
        resource: u16,
        ends: &Ends,
        start: u32,
    ) -> Option<Gap>
        requires known { resource < length self.now.rows.machine.now.resources }
        requires sound { IsSoundStand self.now.rows.machine.now self.now.plans.now stand.now
            ranks.now }
        requires mixed { own_among ends.now.before ends.now.after ≡ Some start }
        ensures { result ≡ resource_gap self.now.rows.machine.now self.now.plans.now
            self.now.rows.ask.now self.now.limit stand.now resource ends.now.before ends.now.after }
    {
        match stand.span {
            Some(span) => {
                if span.rule.resource.0 != resource {
                    self.placed_gap(&stand.branch, ranks, resource, ends, start)
                } else if start == stand.branch.count() {
                    self.span_gap_to_kept(&stand.branch, span, ranks, ends)
                } else {
                    self.walked_gap(stand, resource, ends)
                }
            }
            None => self.placed_gap(&stand.branch, ranks, resource, ends, start),
        }
    }

    /// What is between the holds of two actions on a resource.
    fn resource_gap(&self, stand: &Stand, ranks: &Ranks, resource: u16, ends: &Ends) -> Option<Gap>
        requires known { resource < length self.now.rows.machine.now.resources }
        requires sound { IsSoundStand self.now.rows.machine.now self.now.plans.now stand.now
            ranks.now }
        ensures { result ≡ resource_gap self.now.rows.machine.now self.now.plans.now
            self.now.rows.ask.now self.now.limit stand.now resource ends.now.before ends.now.after }
    {
        match ends.own() {
            Some(start) => self.gap_to_kept(stand, ranks, resource, ends, start),
            None => self.walked_gap(stand, resource, ends),
        }
    }

    fn gap_on(
        &self,
        stand: &Stand,
        ranks: &Ranks,
        resource: u16,
        before: Option<Point>,
        after: Option<Point>,
    ) -> Option<Gap>
        requires known { resource < length self.now.rows.machine.now.resources }
        requires sound { IsSoundStand self.now.rows.machine.now self.now.plans.now stand.now
            ranks.now }
        ensures { result ≡ hold_gap self.now.rows.machine.now self.now.plans.now
            self.now.rows.ask.now self.now.limit stand.now (Some resource) before after }
    {
        match before {
            Some(before) => match after {
                Some(after) => {
                    let ends = Ends { before, after };
                    self.resource_gap(stand, ranks, resource, &ends)
                }
                None => None,
            },
            None => None,
        }
    }

    fn hold_gap(
        &self,
        stand: &Stand,
        ranks: &Ranks,
        name: &Name,
        before: Option<Point>,
        after: Option<Point>,
    ) -> Option<Gap>
        requires sound { IsSoundStand self.now.rows.machine.now self.now.plans.now stand.now
            ranks.now }
        ensures { result ≡ hold_gap self.now.rows.machine.now self.now.plans.now
            self.now.rows.ask.now self.now.limit stand.now
            (position (λ r. bytes_eq r.name name.now) self.now.rows.machine.now.resources)
            before after }
    {
        machine_law(self.rows.machine);
        match resource_of(self.rows.machine.resources.as_slice(), name) {
            Some(resource) => self.gap_on(stand, ranks, resource as u16, before, after),
            None => None,
        }
    }

    /// What a hop from a point says, if it is allowed there.
    fn gap_of(&self, stand: &Stand, ranks: &Ranks, from: Point, hop: &Hop) -> Option<Gap>
        requires sound { IsSoundStand self.now.rows.machine.now self.now.plans.now stand.now
            ranks.now }
        ensures { result ≡ gap_of self.now.rows.machine.now self.now.plans.now
            self.now.rows.ask.now self.now.limit stand.now from hop.now }
    {
        let count = stand.branch.count();
        match hop {
            Hop::Duration(to) => match spot_of(self.plans, count, to) {
                Some(to) => {
                    let machine = self.rows.machine;
                    duration_gap(machine, self.plans, &stand.branch, from, to)
                }
                None => None,
            },
            Hop::Line(to) => match spot_of(self.plans, count, to) {
                Some(to) => line_gap(self.rows.ask, self.plans, from, to),
                None => None,
            },
            Hop::Resource {
                name,
                before,
                after,
            } => {
                let before = start_of(self.plans, count, before);
                let after = start_of(self.plans, count, after);
                from_here(from, self.hold_gap(stand, ranks, name, before, after))
            }
        }
    }

    /// Where hops lead from a point, with the sum of what they take; or the number of the first hop
    /// that
    /// isn't allowed.
    pub(crate) fn follow(
        &self,
        stand: &Stand,
        ranks: &Ranks,
        from: Walk,
        hops: &Hops,
    ) -> Result<Walk, u32>
        requires sound { IsSoundStand self.now.rows.machine.now self.now.plans.now stand.now
            ranks.now }
        requires least { pos 0 ≤ℤ from.sum }
        requires most { from.sum ≤ℤ pos (2 ^ 34) }
        ensures led { IfOk result (λ w. led w.at w.sum ≡ follow self.now.rows.machine.now
            self.now.plans.now self.now.rows.ask.now self.now.limit stand.now 0 from.at from.sum
            hops.now) }
        ensures lost { IfErr result (λ hop. lost hop ≡ follow self.now.rows.machine.now
            self.now.plans.now self.now.rows.ask.now self.now.limit stand.now 0 from.at from.sum
            hops.now) }
    {
        let mut walk = from;
        'hops: for k in 0..hops.len() {
            match self.gap_of(stand, ranks, walk.at, hops.get(k)) {
                Some(gap) => walk = go_on(walk, gap),
                None => return Err(k),
            }
        }
        Ok(walk)
    }
}

fn from_here(from: Point, gap: Option<Gap>) -> Option<Gap>
    ensures { result ≡ from_here from gap }
{
    match gap {
        Some(gap) if gap.from.is(from) => Some(gap),
        _ => None,
    }
}
