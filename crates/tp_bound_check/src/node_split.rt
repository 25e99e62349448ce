//! What is due below a node that is split.
ghost use Rattle.std.specs.Prelude.{◌≡◌, ℕ, ◌+◌, ◌<◌, ◌≤◌, ◌^◌, ◌&&◌, length, slice_get, None, IfOk, IfSome, IfErr, List, nat_lt, if◌then◌else◌};
ghost use Rattle.std.specs.List.{list_any};
ghost use Rattle.std.specs.Str.{bytes_eq};
ghost use Rattle.tp_bound_check.specs.Frames.{IsOn, IsShallow, IsShallowStand};
ghost use Rattle.tp_bound_check.specs.Looks.{IsActOf, IsFaultOf, IsSoundFrame, dues_of};
ghost use Rattle.tp_bound_check.specs.Links.{ends_of, next_at};
ghost use Rattle.tp_bound_check.specs.Ranks.{IsFrameBelow};
ghost use Rattle.tp_machine.specs.ModuleUse.{action_at};
ghost use Rattle.tp_machine.specs.declared.parts.State.{State};
ghost use Rattle.tp_schedule.specs.Answers.{kept_of};
ghost use Rattle.tp_schedule.specs.Holders.{holds_of_act};
ghost use Rattle.tp_schedule.specs.Limits.{most_acts};
ghost use Rattle.tp_schedule.specs.Routes.{fresh};
ghost use Rattle.tp_bound_laws.specs.Places.{children, children_of, has_choice, is_begun, is_front_state, next_rule};
ghost use Rattle.tp_bound_laws.specs.Rows.{is_same_state};
ghost use Rattle.tp_bound_laws.specs.Trees.{split_look};
ghost use Rattle.tp_bound_laws.specs.Trees.Look.{due};

use crate::branch::Branch;
use crate::branch_span::Stand;
use crate::dues::{Frame, NodeFault};
use crate::orders::{CheckScene, holds_of};
use crate::states::is_same_state;
use tp_machine::{ActId, Feeder, HoldRule, Machine, State};
use tp_schedule::{Origin, new_sheet};

/// The hold of the action that has no place yet.
fn rule_at(machine: &Machine, act: ActId, places: &[u32]) -> Option<HoldRule>
    ensures { result ≡ slice_get (holds_of_act (action_at machine.now act.0))
        (length places.now) }
{
    holds_of(machine, act).get(places.len()).copied()
}

impl<'a> CheckScene<'a> {
    /// The hold of the newest choice that has no place yet.
    fn next_rule(&self, branch: &Branch) -> Option<HoldRule>
        ensures { result ≡ next_rule self.now.rows.machine.now branch.now.x }
    {
        let count = branch.count();
        if count == 0 {
            return None;
        }
        let places = branch.places(count - 1);
        let Some(act) = branch.act(count - 1) else {
            unreachable!()
        };
        rule_at(self.rows.machine, act, places)
    }

    fn is_begun(&self, state: State) -> bool
        ensures { result ≡ is_begun self.now.rows.machine.now self.now.rows.ask.now
            self.now.rows.ask.now.origin state }
    {
        match self.rows.ask.origin {
            Origin::Feeder => {
                let fresh = self.is_at_feeder(self.rows.machine.feeders.as_slice(), state);
                fresh && self.rows.ask.may_begin_at(state.loc)
            }
            Origin::Front { .. } => false,
        }
    }

    fn is_at_feeder(&self, feeders: &[Feeder], state: State) -> bool
        ensures { result ≡ list_any (λ f. bytes_eq f.media self.now.rows.ask.now.want.media &&
            is_same_state state (fresh f.loc)) feeders.now }
    {
        feeders.iter().any(|feeder| self.is_fresh(feeder, state))
    }

    fn is_fresh(&self, feeder: &Feeder, state: State) -> bool
        ensures { result ≡ (bytes_eq feeder.now.media self.now.rows.ask.now.want.media &&
            is_same_state state (fresh feeder.now.loc)) }
    {
        feeder.media == self.rows.ask.want.media && is_same_state(state, new_sheet(feeder.loc))
    }

    fn is_front_state(&self, state: State) -> bool
        ensures { result ≡ is_front_state self.now.rows.ask.now.origin state }
    {
        match self.rows.ask.origin {
            Origin::Feeder => false,
            Origin::Front { state: front, .. } => is_same_state(state, front),
        }
    }

    /// Whether the branch may be stopped.
    fn can_stop(&self, branch: &Branch) -> bool
        ensures { result ≡ (is_front_state self.now.rows.ask.now.origin branch.now.first &&
            has_choice self.now.rows.machine.now self.now.plans.now self.now.rows.ask.now
            self.now.rows.rows.now branch.now.x.choices) }
    {
        let some = 0 < branch.count();
        self.is_front_state(branch.first()) && some
    }

    /// How many actions the asked copy keeps.
    fn kept(&self) -> u64
        ensures kept { result ≡ kept_of self.now.rows.ask.now }
        ensures fits { result < 2 ^ 32 }
    {
        match self.rows.ask.origin {
            Origin::Feeder => 0,
            Origin::Front { kept, .. } => u64::from(kept),
        }
    }

    /// The first of the actions that lead to a branch, if one more may go before it.
    fn first_act(&self, branch: &Branch) -> Option<u16>
        ensures none { result ≡ (if nat_lt (kept_of self.now.rows.ask.now + length
            branch.now.x.choices) most_acts then next_at branch.now.first.loc.0 0 (ends_of
            self.now.rows.machine.now) else None) }
        ensures sound { IfSome result (IsActOf self.now.rows.machine.now branch.now) }
    {
        if self.kept() + u64::from(branch.count()) < 64 {
            self.ends.first(branch.first().loc.0)
        } else {
            None
        }
    }

    /// What is due below a complete or open branch all of whose holds have places.
    fn open(&self, branch: Branch) -> Result<Frame, NodeFault>
        requires shallow { IsShallow branch }
        ensures ok { IfOk result (λ f. (goals : List State) → split_look (children_of
            self.now.rows.machine.now self.now.plans.now self.now.rows.ask.now
            self.now.rows.rows.now branch None) ≡ due (dues_of self.now.rows.machine.now
            self.now.plans.now self.now.rows.ask.now self.now.rows.rows.now self.now.limit goals
            f)) }
        ensures sound { IfOk result (IsSoundFrame self.now.rows.machine.now) }
        ensures fault { IfErr result (IsFaultOf (split_look (children_of self.now.rows.machine.now
            self.now.plans.now self.now.rows.ask.now self.now.rows.rows.now branch None))) }
        ensures depth { IfOk result (λ f. (n : ℕ) → n ≤ branch.depth → IsOn f (n + 1)) }
        ensures below { IfOk result (IsFrameBelow branch) }
    {
        let first = branch.first();
        if self.is_begun(first) {
            return Err(NodeFault::Uncovered);
        }
        let with_stop = self.can_stop(&branch);
        let at = self.first_act(&branch);
        Ok(Frame::Acts {
            branch,
            with_stop,
            at,
        })
    }

    /// What is due below a node that is split.
    pub(crate) fn split(&self, stand: Stand) -> Result<Frame, NodeFault>
        requires shallow { IsShallowStand stand }
        ensures ok { IfOk result (λ f. (goals : List State) → split_look (children
            self.now.rows.machine.now self.now.plans.now self.now.rows.ask.now
            self.now.rows.rows.now stand) ≡ due (dues_of self.now.rows.machine.now
            self.now.plans.now self.now.rows.ask.now self.now.rows.rows.now self.now.limit goals
            f)) }
        ensures sound { IfOk result (IsSoundFrame self.now.rows.machine.now) }
        ensures fault { IfErr result (IsFaultOf (split_look (children self.now.rows.machine.now
            self.now.plans.now self.now.rows.ask.now self.now.rows.rows.now stand))) }
        ensures depth { IfOk result (λ f. (n : ℕ) → n ≤ stand.branch.depth
            → IsOn f (n + 1)) }
        ensures below { IfOk result (IsFrameBelow stand.branch) }
    {
        match stand.span {
            Some(_) => Err(NodeFault::Uncovered),
            None => {
                if stand.branch.is_stopped() {
                    return Err(NodeFault::Uncovered);
                }
                match self.next_rule(&stand.branch) {
                    Some(rule) => Ok(Frame::Held {
                        branch: stand.branch,
                        rule,
                        lo: 0,
                    }),
                    None => self.open(stand.branch),
                }
            }
        }
    }
}
