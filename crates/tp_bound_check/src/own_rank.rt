//! How many kept holds are before an own one.
ghost use Rattle.std.specs.Prelude.{◌≡◌, ℕ, ◌+◌, ◌<◌, ◌^◌, ◌≤◌, ◌==◌, length, List, Some, false, if◌then◌else◌};
ghost use Rattle.tp_bound_check.specs.Ranks.{AreRanked, AreSpanRanks, IsSoundStand, StayTo, is_kept_point, next_number, rank_at, without};
ghost use Rattle.tp_bound_check.specs.Stands.{order_until};
ghost use Rattle.tp_constraints.specs.Suffixes.{with_place};
ghost use Rattle.tp_schedule.specs.Choices.{put_places};
ghost use Rattle.tp_schedule.specs.Spots.{Slot, Spot, slot_order};
ghost use Rattle.tp_bound_laws.specs.Places.{Stand, next_rule, stand_of};
ghost use Rattle.tp_bound_laws.specs.Places.Due.{places};

use crate::branch::Branch;
use crate::kept_ranks::Ranks;
use crate::orders::{CheckScene, Order, holds_of, rule_law};
use tp_bounds::Head;
use tp_machine::HoldRule;

/// A place, told of the order without the hold by a rule at a place.
fn place_without(resource: u16, rule: &HoldRule, at: u32, place: u32) -> u32
    ensures { result ≡ (if rule.now.resource.0 == resource then without at place else place) }
{
    if rule.resource.0 != resource {
        return place;
    }
    if at < place { place - 1 } else { place }
}

/// A place of an order with the holds of an action, told of the order without them: as many kept
/// holds are before it.
fn place_below(resource: u16, rules: &[HoldRule], places: &[u32], place: u32) -> u32
    ensures { (from to : Spot) (order : List Slot) → is_kept_point from ≡ false → rank_at
        place (put_places resource from to rules.now places.now order) ≡ rank_at result order }
{
    let mut left = place;
    let mut at = rules.len().min(places.len());
    'places: while at > 0 {
        at -= 1;
        left = place_without(resource, &rules[at], places[at], left);
    }
    left
}

impl<'a> CheckScene<'a> {
    /// The kept order of a resource.
    pub(crate) fn kept_order(&self, resource: u16) -> &Order
        requires { resource < length self.now.rows.machine.now.resources }
        ensures { result.now ≡ slot_order self.now.rows.machine.now self.now.plans.now resource }
    {
        &self.orders[usize::from(resource)]
    }

    /// How many holds the kept order has.
    fn kept_len(&self, resource: u16) -> u64
        requires { resource < length self.now.rows.machine.now.resources }
        ensures len { result ≡ length (slot_order self.now.rows.machine.now self.now.plans.now
            resource) }
        ensures few { result < 2 ^ 32 }
    {
        self.kept_order(resource).len()
    }

    /// How many kept holds are among the first so many of the kept order.
    fn kept_rank(&self, resource: u16, place: u32) -> u32
        requires { resource < length self.now.rows.machine.now.resources }
        ensures { result ≡ rank_at place (slot_order self.now.rows.machine.now self.now.plans.now
            resource) }
    {
        u64::from(place).min(self.kept_len(resource)) as u32
    }

    /// How many kept holds are among the first so many of the order with the holds of so many
    /// choices, the oldest first.
    pub(crate) fn rank(&self, branch: &Branch, resource: u16, count: u32, place: u32) -> u32
        requires known { resource < length self.now.rows.machine.now.resources }
        requires count { count ≤ length branch.now.x.choices }
        ensures { result ≡ rank_at place (order_until self.now.rows.machine.now self.now.plans.now
            branch.now resource count) }
    {
        // For the prover: brings length choices ≤ 64.
        let _most = branch.count();
        let mut left = place;
        let mut at = count;
        'choices: while at > 0 {
            at -= 1;
            let Some(act) = branch.act(at) else {
                unreachable!()
            };
            let rules = holds_of(self.rows.machine, act);
            left = place_below(resource, rules, branch.places(at), left);
        }
        self.kept_rank(resource, left)
    }

    /// Ranks the branch's next hold, which has a place.
    fn rank_place(&self, branch: &Branch, ranks: &mut Ranks, rule: HoldRule, place: u32)
        requires next { next_rule self.now.rows.machine.now branch.now.x ≡ Some rule }
        requires ranked { AreRanked self.now.rows.machine.now self.now.plans.now branch.now
            ranks.old.before }
        ensures ranked { (depth : ℕ) → AreRanked self.now.rows.machine.now self.now.plans.now
            (record { depth = depth; first = branch.now.first; x = with_place place branch.now.x })
            ranks.new.before }
        ensures stay { StayTo (next_number branch.now.x.choices) ranks.old.before ranks.new.before }
    {
        rule_law(self.rows.machine, branch, rule);
        let newest = branch.count() - 1;
        let number = 4 * newest + branch.places(newest).len() as u32;
        ranks.put(number, self.rank(branch, rule.resource.0, newest, place));
    }

    /// Ranks the places of the branch's next hold, which has several.
    fn rank_span(&self, branch: &Branch, ranks: &mut Ranks, rule: HoldRule, lo: u32, hi: u32)
        requires next { next_rule self.now.rows.machine.now branch.now.x ≡ Some rule }
        ensures before { ranks.new.before ≡ ranks.old.before }
        ensures spanned { AreSpanRanks self.now.rows.machine.now self.now.plans.now branch.now
            (Some (record { rule = rule; lo = lo; hi = hi })) ranks.new }
    {
        rule_law(self.rows.machine, branch, rule);
        let count = branch.count();
        let resource = rule.resource.0;
        let before = self.rank(branch, resource, count, lo);
        ranks.span(before, self.rank(branch, resource, count, hi));
    }

    /// Ranks the hold of a node of places of the branch's next hold.
    pub(crate) fn rank_node(&self, branch: &Branch, ranks: &mut Ranks, rule: HoldRule, head: &Head)
        requires next { next_rule self.now.rows.machine.now branch.now.x ≡ Some rule }
        requires ranked { AreRanked self.now.rows.machine.now self.now.plans.now branch.now
            ranks.old.before }
        ensures sound { (lo : ℕ) (s : Stand) → stand_of self.now.rows.machine.now
            self.now.plans.now self.now.rows.ask.now self.now.rows.rows.now
            (places branch.now rule lo) head.now ≡ Some s
            → IsSoundStand self.now.rows.machine.now self.now.plans.now s ranks.new }
        ensures stay { StayTo (next_number branch.now.x.choices) ranks.old.before ranks.new.before }
        ensures ranked { AreRanked self.now.rows.machine.now self.now.plans.now branch.now
            ranks.new.before }
    {
        match head {
            Head::At { lo, hi, .. } => {
                if *lo == *hi {
                    self.rank_place(branch, ranks, rule, *lo);
                } else {
                    self.rank_span(branch, ranks, rule, *lo, *hi);
                }
            }
            _ => {}
        }
    }
}
