//! Where a node stands.
ghost use Rattle.std.specs.Prelude.{◌≡◌, ℕ, ◌+◌, ◌<◌, ◌≤◌, ◌==◌, ◌&&◌, nat_le, [], ◌∷◌, ◌++◌, length, slice_get, Some, None, Option, IfOk, IfErr, IfSome, List};
ghost use Rattle.tp_bound_check.specs.Branches.{newest_in};
ghost use Rattle.tp_bound_check.specs.Frames.{IsOn, IsShallow, IsShallowStand};
ghost use Rattle.tp_bound_check.specs.Looks.{IsFaultOf, IsSoundFrame, at_depth, dues_of};
ghost use Rattle.tp_bound_check.specs.Ranks as ranking;
ghost use Rattle.tp_bound_check.specs.Ranks.{AreRanked, IsFrameOf, IsSoundStand, next_number};
ghost use Rattle.tp_bounds.specs.declared.tree.TreeRow.{TreeRow};
ghost use Rattle.tp_machine.specs.Limits.{most_act_holds};
ghost use Rattle.tp_machine.specs.declared.machine.Machine.{Machine};
ghost use Rattle.tp_machine.specs.declared.parts.State.{State};
ghost use Rattle.tp_machine.specs.ModuleUse.{action_at};
ghost use Rattle.tp_schedule.specs.Choices.{Choice};
ghost use Rattle.tp_schedule.specs.Limits.{most_acts};
ghost use Rattle.tp_schedule.specs.declared.parts.Ask.{Ask};
ghost use Rattle.tp_schedule.specs.declared.parts.Plan.{Plan};
ghost use Rattle.tp_bound_laws.specs.Places.{Due, at_places, due_behind, is_name_of_act, is_name_of_resource, next_rule, order_length, room_at, stand_of};
ghost use Rattle.tp_bound_laws.specs.Places.Due.{goal, action, places, stop};
ghost use Rattle.tp_bound_laws.specs.Trees.{look};
ghost use Rattle.tp_bound_laws.specs.Trees.Look.{due};

use crate::act_length::action_of;
use crate::branch::Branch;
use crate::branch_span::{Span, Stand};
use crate::dues::{Frame, NodeFault};
use crate::kept_ranks::Ranks;
use crate::orders::{CheckScene, rule_law};
use crate::states::is_named;
use tp_base::Name;
use tp_bounds::{Head, Node};
use tp_machine::{ActId, HoldRule, ResId, State};

fn alone(branch: Branch) -> Stand
    ensures { result ≡ record { branch = branch; span = None } }
{
    Stand { branch, span: None }
}

/// The stand of a node of this depth at the places from `from` to `to`.
fn stand_at(branch: &Branch, rule: HoldRule, from: u32, to: u32, depth: u32) -> Stand
    requires depth { depth ≡ branch.now.depth + 1 }
    requires some { 0 < length branch.now.x.choices }
    requires few { (c : Choice) → newest_in branch.now.x.choices ≡ Some c
        → length c.places < most_act_holds }
    ensures stand { (machine : Machine) (plans : List Plan) (ask : Ask) (rows : List TreeRow)
        → result ≡ at_places machine plans ask rows branch.now rule from to }
    ensures shallow { IsShallow branch.now → IsShallowStand result }
    ensures deeper { result.branch.depth ≡ branch.now.depth + 1 }
    ensures grows { next_number branch.now.x.choices ≤ next_number result.branch.x.choices }
{
    if from == to {
        alone(branch.place(depth, from))
    } else {
        let span = Span {
            rule,
            lo: from,
            hi: to,
        };
        Stand {
            branch: branch.deeper(depth),
            span: Some(span),
        }
    }
}

impl<'a> CheckScene<'a> {
    pub(crate) fn is_name_of_act(&self, act: ActId, name: &Name) -> bool
        ensures { result ≡ is_name_of_act self.now.rows.machine.now self.now.plans.now
            self.now.rows.ask.now self.now.rows.rows.now name.now (action_at
            self.now.rows.machine.now act.0) }
    {
        match action_of(self.rows.machine, act) {
            Some(action) => *name == action.name,
            None => false,
        }
    }

    pub(crate) fn is_name_of_resource(&self, resource: ResId, name: &Name) -> bool
        ensures { result ≡ is_name_of_resource self.now.rows.machine.now self.now.plans.now
            self.now.rows.ask.now self.now.rows.rows.now name.now (slice_get
            self.now.rows.machine.now.resources resource.0) }
    {
        let machine = self.rows.machine;
        if u32::from(resource.0) < machine.resources.len() {
            *name == machine.resources.get(u32::from(resource.0)).name
        } else {
            false
        }
    }

    pub(crate) fn room_at(&self, state: State) -> u32
        ensures { result ≡ room_at self.now.rows.machine.now self.now.plans.now
            self.now.rows.ask.now self.now.rows.rows.now state }
    {
        match self.rows.row_of(state) {
            Some(room) => room,
            None => 0,
        }
    }

    /// How many holds the order of the rule's resource has.
    pub(crate) fn order_length(&self, branch: &Branch, rule: HoldRule) -> u64
        requires next { next_rule self.now.rows.machine.now branch.now.x ≡ Some rule }
        ensures { result ≡ order_length self.now.rows.machine.now self.now.plans.now
            self.now.rows.ask.now self.now.rows.rows.now branch.now rule }
    {
        rule_law(self.rows.machine, branch, rule);
        self.length(branch, rule.resource.0)
    }

    pub(crate) fn goal_stand(&self, state: State, head: &Head, depth: u32) -> Option<Stand>
        ensures stand { result ≡ at_depth depth (stand_of self.now.rows.machine.now
            self.now.plans.now self.now.rows.ask.now self.now.rows.rows.now (goal state) head.now) }
        ensures sound { (ranks : ranking.Ranks) → IfSome result (λ s. IsSoundStand
            self.now.rows.machine.now self.now.plans.now s ranks) }
        ensures shallow { IfSome result IsShallowStand }
    {
        match head {
            Head::Goal { state: named } => {
                if depth == 0 && is_named(self.rows.machine, state, named) {
                    Some(alone(Branch::goal(state, self.room_at(state))))
                } else {
                    None
                }
            }
            _ => None,
        }
    }

    pub(crate) fn act_stand(
        &self,
        branch: &Branch,
        act: ActId,
        state: State,
        head: &Head,
        depth: u32,
    ) -> Option<Stand>
        requires few { length branch.now.x.choices < most_acts }
        requires shallow { IsShallow branch.now }
        ensures stand { result ≡ at_depth depth (stand_of self.now.rows.machine.now
            self.now.plans.now self.now.rows.ask.now self.now.rows.rows.now (action branch.now act
            state) head.now) }
        ensures sound { (ranks : ranking.Ranks) → AreRanked self.now.rows.machine.now
            self.now.plans.now
            branch.now ranks.before → IfSome result (λ s. IsSoundStand self.now.rows.machine.now
            self.now.plans.now s ranks) }
        ensures shallow { IfSome result IsShallowStand }
        ensures deeper { IfSome result (λ s. s.branch.depth ≡ branch.now.depth + 1) }
        ensures grows { IfSome result (λ s. next_number branch.now.x.choices ≤ next_number
            s.branch.x.choices) }
    {
        match head {
            Head::Act { name } => {
                let deeper = u64::from(depth) == u64::from(branch.depth()) + 1;
                if deeper && self.is_name_of_act(act, name) {
                    let room = self.room_at(state);
                    Some(alone(branch.act_before(depth, act, state, room)))
                } else {
                    None
                }
            }
            _ => None,
        }
    }

    pub(crate) fn stop_stand(&self, branch: &Branch, head: &Head, depth: u32) -> Option<Stand>
        ensures stand { result ≡ at_depth depth (stand_of self.now.rows.machine.now
            self.now.plans.now self.now.rows.ask.now self.now.rows.rows.now (stop branch.now)
            head.now) }
        ensures sound { (ranks : ranking.Ranks) → AreRanked self.now.rows.machine.now
            self.now.plans.now
            branch.now ranks.before → IfSome result (λ s. IsSoundStand self.now.rows.machine.now
            self.now.plans.now s ranks) }
        ensures shallow { IfSome result IsShallowStand }
        ensures deeper { IfSome result (λ s. s.branch.depth ≡ branch.now.depth + 1) }
        ensures grows { IfSome result (λ s. next_number branch.now.x.choices ≤ next_number
            s.branch.x.choices) }
    {
        match head {
            Head::Stop => {
                if u64::from(depth) == u64::from(branch.depth()) + 1 {
                    Some(alone(branch.stop(depth)))
                } else {
                    None
                }
            }
            _ => None,
        }
    }

    /// Returns whether a node of this name has the places that are due from `lo` on.
    fn are_places(
        &self,
        branch: &Branch,
        rule: HoldRule,
        lo: u64,
        name: &Name,
        from: u32,
        to: u32,
    ) -> bool
        requires next { next_rule self.now.rows.machine.now branch.now.x ≡ Some rule }
        ensures { result ≡ (is_name_of_resource self.now.rows.machine.now self.now.plans.now
            self.now.rows.ask.now self.now.rows.rows.now name.now (slice_get
            self.now.rows.machine.now.resources rule.resource.0) && (from == lo)
            && nat_le from to && nat_le to (order_length self.now.rows.machine.now
            self.now.plans.now self.now.rows.ask.now self.now.rows.rows.now branch.now rule)) }
    {
        self.is_name_of_resource(rule.resource, name)
            && u64::from(from) == lo
            && from <= to
            && u64::from(to) <= self.order_length(branch, rule)
    }

    pub(crate) fn place_stand(
        &self,
        branch: &Branch,
        rule: HoldRule,
        lo: u64,
        head: &Head,
        depth: u32,
    ) -> Option<Stand>
        requires next { next_rule self.now.rows.machine.now branch.now.x ≡ Some rule }
        requires shallow { IsShallow branch.now }
        ensures stand { result ≡ at_depth depth (stand_of self.now.rows.machine.now
            self.now.plans.now self.now.rows.ask.now self.now.rows.rows.now (places branch.now rule
            lo) head.now) }
        ensures shallow { IfSome result IsShallowStand }
        ensures deeper { IfSome result (λ s. s.branch.depth ≡ branch.now.depth + 1) }
        ensures grows { IfSome result (λ s. next_number branch.now.x.choices ≤ next_number
            s.branch.x.choices) }
    {
        let Head::At {
            resource,
            lo: from,
            hi: to,
        } = head
        else {
            return None;
        };
        if u64::from(depth) != u64::from(branch.depth()) + 1 {
            return None;
        }
        if !self.are_places(branch, rule, lo, resource, *from, *to) {
            return None;
        }
        rule_law(self.rows.machine, branch, rule);
        Some(stand_at(branch, rule, *from, *to, depth))
    }

    /// What is due below a node that stands here, if it stands anywhere, or what is wrong with it.
    pub(crate) fn look(
        &self,
        stand: Option<Stand>,
        ranks: &Ranks,
        node: &Node,
    ) -> Result<Frame, NodeFault>
        requires sound { IfSome stand (λ s. IsSoundStand self.now.rows.machine.now
            self.now.plans.now s ranks.now) }
        requires shallow { IfSome stand IsShallowStand }
        ensures ok { IfOk result (λ f. (goals : List State) (d : Due) → stand ≡ at_depth
            node.now.depth (stand_of self.now.rows.machine.now self.now.plans.now
            self.now.rows.ask.now self.now.rows.rows.now d node.now.head) → look
            self.now.rows.machine.now self.now.plans.now self.now.rows.ask.now
            self.now.rows.rows.now self.now.limit d node.now ≡ due (dues_of
            self.now.rows.machine.now self.now.plans.now self.now.rows.ask.now
            self.now.rows.rows.now self.now.limit goals f ++ due_behind self.now.rows.machine.now
            self.now.plans.now self.now.rows.ask.now self.now.rows.rows.now d node.now.head)) }
        ensures sound { IfOk result (IsSoundFrame self.now.rows.machine.now) }
        ensures fault { IfErr result (λ e. (d : Due)
            → stand ≡ at_depth node.now.depth (stand_of
            self.now.rows.machine.now self.now.plans.now self.now.rows.ask.now
            self.now.rows.rows.now d node.now.head) → IsFaultOf (look self.now.rows.machine.now
            self.now.plans.now self.now.rows.ask.now self.now.rows.rows.now self.now.limit d
            node.now) e) }
        ensures depth { IfOk result (λ f. (n : ℕ) → IfSome stand (λ s. n ≤ s.branch.depth)
            → IsOn f (n + 1)) }
        ensures below { IfOk result (IsFrameOf stand) }
    {
        match stand {
            Some(stand) => self.close_look(stand, ranks, &node.head, &node.close),
            None => Err(NodeFault::Uncovered),
        }
    }
}
