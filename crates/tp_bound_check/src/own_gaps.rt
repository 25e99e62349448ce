//! What is between an own hold and a kept one.
ghost use Rattle.std.specs.Prelude.{◌≡◌, ℕ, ℤ, ◌<◌, length, get_or, List, Some, IfSome, IfNone};
ghost use Rattle.tp_bound_check.specs.Founds.{found_in, slot_before, slot_behind};
ghost use Rattle.tp_bound_check.specs.Ranks.{AreRanked, AreSpanRanks, mixed_gap, own_among};
ghost use Rattle.tp_constraints.specs.Suffixes.{order_in};
ghost use Rattle.tp_machine.specs.Modes.{gap_at};
ghost use Rattle.tp_schedule.specs.Choices.{put_places};
ghost use Rattle.tp_schedule.specs.Spots as spots;
ghost use Rattle.tp_schedule.specs.Spots.{Spot, slot_order};
ghost use Rattle.tp_machine.specs.declared.parts.HoldRule.{HoldRule as Rule};
ghost use Rattle.tp_schedule.specs.declared.parts.Ask.{Ask};
ghost use Rattle.tp_bound_laws.specs.Chains.{gap_in, resource_gap};
ghost use Rattle.tp_bound_laws.specs.Places.{next_rule};

use crate::branch::Branch;
use crate::branch_span::Span;
use crate::found::{Ends, Found};
use crate::hops::slot_gap;
use crate::kept_ranks::Ranks;
use crate::orders::{CheckScene, holds_of, rule_law};
use crate::points::{Gap, Point, Slot};
use crate::stance::Stance;
use tp_machine::{HoldRule, ResId, gap_at};

/// The number of the hold on a resource among those of an action that have places.
fn number_on(resource: u16, rules: &[HoldRule], places: &[u32]) -> Option<usize>
    ensures some { IfSome result (λ n. (n < length rules.now) × (n < length places.now)
        × ((d : Rule) → (get_or rules.now n d).resource.0 ≡ resource)) }
    ensures none { IfNone result ((from to : Spot) (order : List spots.Slot) → put_places resource
        from to rules.now places.now order ≡ order) }
{
    let count = rules.len().min(places.len());
    'rules: for number in 0..count {
        if rules[number].resource.0 == resource {
            return Some(number);
        }
    }
    None
}

/// A hold of an order, where it stands from a place on.
fn slot_behind(hi: u32, found: Option<Found>) -> Option<Slot>
    ensures { result ≡ slot_behind hi found }
{
    match found {
        Some(found) if u64::from(hi) <= found.at => Some(found.slot),
        _ => None,
    }
}

/// A hold of an order, where it stands before a place.
fn slot_before(lo: u32, found: Option<Found>) -> Option<Slot>
    ensures { result ≡ slot_before lo found }
{
    match found {
        Some(found) if found.at < u64::from(lo) => Some(found.slot),
        _ => None,
    }
}

impl<'a> CheckScene<'a> {
    /// The hold in the kept order of the action that starts at the point.
    fn kept_found(&self, resource: u16, start: Point) -> Option<Found>
        requires { resource < length self.now.rows.machine.now.resources }
        ensures { result ≡ found_in start (slot_order self.now.rows.machine.now
            self.now.plans.now resource) }
    {
        self.kept_order(resource).found(start)
    }

    /// What is between an own hold and a kept one, whose places the kept order tells.
    fn mixed_gap(&self, resource: u16, ends: &Ends, stance: &Stance) -> Option<Gap>
        requires { resource < length self.now.rows.machine.now.resources }
        ensures { result ≡ mixed_gap (gap_at self.now.rows.machine.now resource) ends.now.before
            ends.now.after (Some stance.now) (slot_order self.now.rows.machine.now
            self.now.plans.now resource) }
    {
        let apart = gap_at(self.rows.machine, ResId(resource));
        match ends.before.copy() {
            None => match slot_behind(stance.hi, self.kept_found(resource, ends.after)) {
                Some(slot) => Some(slot_gap(apart, &stance.slot, &slot)),
                None => None,
            },
            Some(_) => match slot_before(stance.lo, self.kept_found(resource, ends.before)) {
                Some(slot) => Some(slot_gap(apart, &slot, &stance.slot)),
                None => None,
            },
        }
    }

    /// The hold of the action that starts at an own point, if it has a place on the resource.
    fn placed(&self, branch: &Branch, ranks: &Ranks, resource: u16, start: u32) -> Option<Stance>
        requires ranked { AreRanked self.now.rows.machine.now self.now.plans.now branch.now
            ranks.now.before }
        ensures gap { (apart : ℕ) (b a : Spot) → own_among b a ≡ Some start
            → gap_in apart b a
            (order_in self.now.rows.machine.now self.now.plans.now branch.now.x resource)
            ≡ mixed_gap apart b a result (slot_order self.now.rows.machine.now self.now.plans.now
            resource) }
    {
        if start == 0 || start > branch.count() {
            return None;
        }
        let at = start - 1;
        let Some(act) = branch.act(at) else {
            unreachable!()
        };
        let rules = holds_of(self.rows.machine, act);
        match number_on(resource, rules, branch.places(at)) {
            Some(number) => {
                let slot = Slot {
                    rule: rules[number],
                    from: Point::own(start),
                    to: Point::own(at),
                };
                let rank = ranks.before(4 * at + number as u32);
                Some(Stance {
                    slot,
                    lo: rank,
                    hi: rank,
                })
            }
            None => None,
        }
    }

    /// What is between the hold that an own action has on the resource, in its place, and a kept
    /// one.
    pub(crate) fn placed_gap(
        &self,
        branch: &Branch,
        ranks: &Ranks,
        resource: u16,
        ends: &Ends,
        start: u32,
    ) -> Option<Gap>
        requires known { resource < length self.now.rows.machine.now.resources }
        requires ranked { AreRanked self.now.rows.machine.now self.now.plans.now branch.now
            ranks.now.before }
        requires mixed { own_among ends.now.before ends.now.after ≡ Some start }
        ensures { result ≡ gap_in (gap_at self.now.rows.machine.now resource) ends.now.before
            ends.now.after (order_in self.now.rows.machine.now self.now.plans.now branch.now.x
            resource) }
    {
        match self.placed(branch, ranks, resource, start) {
            Some(stance) => self.mixed_gap(resource, ends, &stance),
            None => None,
        }
    }

    /// What is between the hold of the branch that has several places and a kept one.
    pub(crate) fn span_gap_to_kept(
        &self,
        branch: &Branch,
        span: Span,
        ranks: &Ranks,
        ends: &Ends,
    ) -> Option<Gap>
        requires next { next_rule self.now.rows.machine.now branch.now.x ≡ Some span.rule }
        requires ranked { AreSpanRanks self.now.rows.machine.now self.now.plans.now branch.now
            (Some span) ranks.now }
        requires mixed { own_among ends.now.before ends.now.after ≡ Some
            (length branch.now.x.choices) }
        ensures { (ask : Ask) (limit : ℤ) → result ≡ resource_gap self.now.rows.machine.now
            self.now.plans.now ask limit
            (record { branch = branch.now; span = Some span }) span.rule.resource.0
            ends.now.before ends.now.after }
    {
        rule_law(self.rows.machine, branch, span.rule);
        let count = branch.count();
        let slot = Slot {
            rule: span.rule,
            from: Point::own(count),
            to: Point::own(count - 1),
        };
        let stance = Stance {
            slot,
            lo: ranks.lo(),
            hi: ranks.hi(),
        };
        self.mixed_gap(span.rule.resource.0, ends, &stance)
    }
}
