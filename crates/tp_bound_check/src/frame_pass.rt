//! A node at a frame: it stands where the first of the frame is due.
ghost use Rattle.std.specs.Prelude.{◌≡◌, ℕ, ◌+◌, ◌-◌, ◌<◌, ◌≤◌, ◌^◌, [], ◌∷◌, ◌++◌, length, slice_get, Some, None, Option, IfSome, IfNone, List, if◌then◌else◌, false, true};
ghost use Rattle.tp_bound_check.specs.Frames.{IsShallow};
ghost use Rattle.tp_bound_check.specs.Ranks.{AreRanked, IsRanked, IsRankedPassing, StayTo, next_number, number_of};
ghost use Rattle.tp_bound_check.specs.Looks.{IsActOf, IsPassing, IsSoundFrame, IsSoundPassing, acts_at, dues_of, places_behind};
ghost use Rattle.tp_bound_check.specs.declared.dues.Frame.TheVariants.{Acts, Goals, Held};
ghost use Rattle.tp_machine.specs.ModuleUse.{action_at};
ghost use Rattle.tp_machine.specs.declared.parts.State.{State};
ghost use Rattle.tp_schedule.specs.Limits.{most_acts};
ghost use Rattle.tp_schedule.specs.Routes.{is_act_allowed};
ghost use Rattle.tp_bound_laws.specs.Places.{Due, next_rule, state_before};
ghost use Rattle.tp_bound_laws.specs.Places.Due.{action};

use crate::branch::Branch;
use crate::dues::{Frame, NodeFault};
use crate::kept_ranks::Ranks;
use crate::orders::CheckScene;
use tp_bounds::{Head, Node};
use tp_machine::{ActId, HoldRule, State, allowed, regress};
use tp_schedule::action_law;

/// What comes of a node at a frame: nothing is due of the frame, the node is wrong, or it stands
/// there. Then so much is left of the frame, and so much is due below the node.
#[derive(Drop)]
pub(crate) enum Passing {
    Empty,
    Wrong(NodeFault),
    Passed { left: Frame, below: Frame },
}

/// An action that may go before a branch, the state before it, and the next one to be looked at.
#[derive(Clone, Copy)]
struct NextAct {
    act: ActId,
    state: State,
    after: Option<u16>,
}

fn goal_at(goals: &[State], at: usize) -> Option<State>
    ensures { result ≡ slice_get goals.now at }
{
    goals.get(at).copied()
}

impl<'a> CheckScene<'a> {
    /// The state from which the action leads to the branch's state, if it is allowed.
    fn before(&self, branch: &Branch, act: u16) -> Option<State>
        requires { act < length self.now.rows.machine.now.actions }
        ensures { result ≡ (if is_act_allowed self.now.rows.machine.now self.now.rows.ask.now.outs
            (record { 0 = act }) then state_before self.now.rows.ask.now.want branch.now.first
            (action_at self.now.rows.machine.now act) else None) }
    {
        action_law();
        let machine = self.rows.machine;
        if !allowed(machine, self.rows.ask.outs, ActId(act)) {
            return None;
        }
        let action = machine.actions.get(u32::from(act));
        regress(action, &self.rows.ask.want, branch.first())
    }

    /// The first action from one on that may go before the branch.
    fn next_act(&self, branch: &Branch, from: Option<u16>) -> Option<NextAct>
        requires sound { IfSome from (IsActOf self.now.rows.machine.now branch.now) }
        ensures some { IfSome result (λ t. acts_at self.now.rows.machine.now self.now.plans.now
            self.now.rows.ask.now self.now.rows.rows.now self.now.limit branch.now from ≡ action
            branch.now t.act t.state ∷ acts_at self.now.rows.machine.now self.now.plans.now
            self.now.rows.ask.now self.now.rows.rows.now self.now.limit branch.now t.after) }
        ensures none { IfNone result (acts_at self.now.rows.machine.now self.now.plans.now
            self.now.rows.ask.now self.now.rows.rows.now self.now.limit branch.now from ≡ []) }
        ensures few { IfSome result (λ _. length branch.now.x.choices < most_acts) }
        ensures after { IfSome result (λ t. IfSome t.after (IsActOf self.now.rows.machine.now
            branch.now)) }
    {
        let mut cursor = from;
        'acts: while let Some(act) = cursor {
            cursor = self.ends.after(act);
            match self.before(branch, act) {
                Some(state) => {
                    return Some(NextAct {
                        act: ActId(act),
                        state,
                        after: cursor,
                    });
                }
                None => {}
            }
        }
        None
    }

    fn pass_act(&self, branch: Branch, ranks: &Ranks, from: Option<u16>, node: &Node) -> Passing
        requires shallow { IsShallow branch }
        requires ranked { AreRanked self.now.rows.machine.now self.now.plans.now branch
            ranks.now.before }
        requires from { IfSome from (IsActOf self.now.rows.machine.now branch) }
        ensures passing { (goals : List State) → IsPassing self.now.rows.machine.now
            self.now.plans.now self.now.rows.ask.now self.now.rows.rows.now self.now.limit goals
            (Acts branch false from) node.now result }
        ensures sound { IsSoundPassing self.now.rows.machine.now (Acts branch false from) result }
        ensures ranked { IsRankedPassing self.now.rows.machine.now self.now.plans.now
            ranks.now.before (Acts branch false from) result }
    {
        match self.next_act(&branch, from) {
            Some(next) => {
                let stand = self.act_stand(&branch, next.act, next.state, &node.head, node.depth);
                match self.look(stand, ranks, node) {
                    Ok(below) => {
                        let left = Frame::Acts {
                            branch,
                            with_stop: false,
                            at: next.after,
                        };
                        Passing::Passed { left, below }
                    }
                    Err(fault) => Passing::Wrong(fault),
                }
            }
            None => Passing::Empty,
        }
    }

    fn pass_stop(&self, branch: Branch, ranks: &Ranks, from: Option<u16>, node: &Node) -> Passing
        requires shallow { IsShallow branch }
        requires ranked { AreRanked self.now.rows.machine.now self.now.plans.now branch
            ranks.now.before }
        requires from { IfSome from (IsActOf self.now.rows.machine.now branch) }
        ensures passing { (goals : List State) → IsPassing self.now.rows.machine.now
            self.now.plans.now self.now.rows.ask.now self.now.rows.rows.now self.now.limit goals
            (Acts branch true from) node.now result }
        ensures sound { IsSoundPassing self.now.rows.machine.now (Acts branch true from) result }
        ensures ranked { IsRankedPassing self.now.rows.machine.now self.now.plans.now
            ranks.now.before (Acts branch true from) result }
    {
        let stand = self.stop_stand(&branch, &node.head, node.depth);
        match self.look(stand, ranks, node) {
            Ok(below) => {
                let left = Frame::Acts {
                    branch,
                    with_stop: false,
                    at: from,
                };
                Passing::Passed { left, below }
            }
            Err(fault) => Passing::Wrong(fault),
        }
    }

    fn pass_place(
        &self,
        branch: Branch,
        ranks: &mut Ranks,
        rule: HoldRule,
        lo: u64,
        node: &Node,
    ) -> Passing
        requires shallow { IsShallow branch }
        requires ranked { AreRanked self.now.rows.machine.now self.now.plans.now branch
            ranks.old.before }
        requires next { next_rule self.now.rows.machine.now branch.x ≡ Some rule }
        ensures passing { (goals : List State) → IsPassing self.now.rows.machine.now
            self.now.plans.now self.now.rows.ask.now self.now.rows.rows.now self.now.limit goals
            (Held branch rule lo) node.now result }
        ensures sound { IsSoundPassing self.now.rows.machine.now (Held branch rule lo) result }
        ensures ranked { IsRankedPassing self.now.rows.machine.now self.now.plans.now
            ranks.new.before (Held branch rule lo) result }
        ensures stay { StayTo (next_number branch.x.choices) ranks.old.before ranks.new.before }
    {
        if lo > self.order_length(&branch, rule) {
            return Passing::Empty;
        }
        let stand = self.place_stand(&branch, rule, lo, &node.head, node.depth);
        self.rank_node(&branch, ranks, rule, &node.head);
        match self.look(stand, ranks, node) {
            Ok(below) => {
                let left = places_behind(branch, rule, &node.head);
                Passing::Passed { left, below }
            }
            Err(fault) => Passing::Wrong(fault),
        }
    }

    fn pass_goal(&self, goals: &[State], ranks: &Ranks, at: usize, node: &Node) -> Passing
        ensures passing { IsPassing self.now.rows.machine.now self.now.plans.now
            self.now.rows.ask.now self.now.rows.rows.now self.now.limit goals.now (Goals at)
            node.now result }
        ensures sound { IsSoundPassing self.now.rows.machine.now (Goals at) result }
        ensures ranked { IsRankedPassing self.now.rows.machine.now self.now.plans.now
            ranks.now.before (Goals at) result }
    {
        // For the prover: brings length goals < 2^64.
        let _count = goals.len();
        match goal_at(goals, at) {
            Some(state) => {
                let stand = self.goal_stand(state, &node.head, node.depth);
                match self.look(stand, ranks, node) {
                    Ok(below) => Passing::Passed {
                        left: Frame::Goals(at + 1),
                        below,
                    },
                    Err(fault) => Passing::Wrong(fault),
                }
            }
            None => Passing::Empty,
        }
    }

    /// What comes of a node at a frame.
    pub(crate) fn pass(
        &self,
        goals: &[State],
        frame: Frame,
        ranks: &mut Ranks,
        node: &Node,
    ) -> Passing
        requires sound { IsSoundFrame self.now.rows.machine.now frame }
        requires ranked { IsRanked self.now.rows.machine.now self.now.plans.now ranks.old.before
            frame }
        ensures passing { IsPassing self.now.rows.machine.now self.now.plans.now
            self.now.rows.ask.now self.now.rows.rows.now self.now.limit goals.now frame node.now
            result }
        ensures sound { IsSoundPassing self.now.rows.machine.now frame result }
        ensures ranked { IsRankedPassing self.now.rows.machine.now self.now.plans.now
            ranks.new.before frame result }
        ensures stay { StayTo (number_of frame) ranks.old.before ranks.new.before }
    {
        match frame {
            Frame::Nothing => Passing::Empty,
            Frame::Goals(at) => self.pass_goal(goals, ranks, at, node),
            Frame::Held { branch, rule, lo } => self.pass_place(branch, ranks, rule, lo, node),
            Frame::Acts {
                branch,
                with_stop,
                at,
            } => {
                if with_stop {
                    self.pass_stop(branch, ranks, at, node)
                } else {
                    self.pass_act(branch, ranks, at, node)
                }
            }
        }
    }

    fn has_act(&self, branch: &Branch, from: Option<u16>) -> bool
        requires from { IfSome from (IsActOf self.now.rows.machine.now branch.now) }
        ensures none { result ≡ false → acts_at self.now.rows.machine.now self.now.plans.now
            self.now.rows.ask.now self.now.rows.rows.now self.now.limit branch.now from ≡ [] }
        ensures some { result ≡ true → (d : Due) × (ds : List Due) × (acts_at
            self.now.rows.machine.now self.now.plans.now self.now.rows.ask.now
            self.now.rows.rows.now self.now.limit branch.now from ≡ d ∷ ds) }
    {
        match self.next_act(branch, from) {
            Some(_) => true,
            None => false,
        }
    }

    /// Whether something is due of a frame.
    pub(crate) fn has_more(&self, goals: &[State], frame: &Frame) -> bool
        requires { IsSoundFrame self.now.rows.machine.now frame.now }
        ensures none { result ≡ false → dues_of self.now.rows.machine.now self.now.plans.now
            self.now.rows.ask.now self.now.rows.rows.now self.now.limit goals.now frame.now ≡ [] }
        ensures some { result ≡ true → (d : Due) × (ds : List Due) × (dues_of
            self.now.rows.machine.now self.now.plans.now self.now.rows.ask.now
            self.now.rows.rows.now self.now.limit goals.now frame.now ≡ d ∷ ds) }
    {
        match frame {
            Frame::Nothing => false,
            Frame::Goals(at) => *at < goals.len(),
            Frame::Held { branch, rule, lo } => *lo <= self.order_length(branch, *rule),
            Frame::Acts {
                branch,
                with_stop,
                at,
            } => {
                if *with_stop {
                    true
                } else {
                    self.has_act(branch, *at)
                }
            }
        }
    }
}

/// The places behind those of a node.
fn places_behind(branch: Branch, rule: HoldRule, head: &Head) -> Frame
    ensures { result ≡ places_behind branch rule head.now }
{
    match head {
        Head::At { hi, .. } => Frame::Held {
            branch,
            rule,
            lo: u64::from(*hi) + 1,
        },
        _ => Frame::Nothing,
    }
}
