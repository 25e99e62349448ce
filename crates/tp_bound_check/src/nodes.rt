//! The pass over the nodes.
//!
//! A frame of the stack is what is left to be due below one node on the way to the node that was
//! looked at last, or of the goals. The deeper one stands later, and no two are of nodes of one
//! depth. A way has a goal, and at most 64 actions with at most 4 holds each. So there are at most
//! 322 frames: the stack never takes more memory than it was made with.
ghost use Rattle.std.specs.Prelude.{◌≡◌, ℕ, ◌+◌, ◌<◌, ◌≤◌, ◌^◌, [], ◌∷◌, ◌++◌, length, Some, None, IfOk, IfErr, OnOk, List, All, map, vec_capacity, true, false};
ghost use Rattle.tp_bound_check.specs.Frames.{has_due, with_frame};
ghost use Rattle.tp_bound_check.specs.Ranks.{AreRankedFrames};
ghost use Rattle.tp_bound_check.specs.Looks.{IsNodeFault, IsSoundFrame, IsSoundStack, IsStep, due_on, flaw_by};
ghost use Rattle.tp_bound_check.specs.declared.dues.Frame.TheVariants.{Goals};
ghost use Rattle.tp_machine.specs.declared.parts.State.{State};
ghost use Rattle.tp_bound_laws.specs.Flaws.{IsFlawOf, bad_node_from};
ghost use Rattle.tp_bound_laws.specs.Places.{Due};
ghost use Rattle.tp_bound_laws.specs.Places.Due.{goal};

use crate::dues::{Frame, NodeFault};
use crate::frame_pass::Passing;
use crate::kept_ranks::Ranks;
use crate::orders::CheckScene;
use std::alloc::{AllocError, Global};
use tp_bound_laws::TreeFlaw;
use tp_bounds::{Node, Nodes};
use tp_machine::State;

/// One for each depth of a node that may be split, and one of the goals.
const MOST_FRAMES: usize = 322;

/// The flaw of the node of this number.
fn flaw_of(node: u64, fault: NodeFault) -> TreeFlaw
    ensures { result ≡ flaw_by node fault }
{
    match fault {
        NodeFault::Uncovered => TreeFlaw::Uncovered { node },
        NodeFault::NoSuchHop(hop) => TreeFlaw::NoSuchHop { node, hop },
        NodeFault::Weak { reach, cap } => TreeFlaw::Weak { node, reach, cap },
        NodeFault::NotDead => TreeFlaw::NotDead { node },
    }
}

fn has_due(frame: &Frame) -> bool
    ensures { result ≡ has_due frame.now }
{
    match frame {
        Frame::Nothing => false,
        Frame::Goals(_) => true,
        Frame::Held { .. } => true,
        Frame::Acts { .. } => true,
    }
}

/// A frame more, which comes first. An empty one is left out.
fn put(stack: &mut Vec<Frame>, frame: Frame)
    requires fits { has_due frame ≡ true → length stack.old.items < 322 }
    requires room { 322 ≤ vec_capacity stack.old }
    ensures items { stack.new.items ≡ with_frame frame stack.old.items }
    ensures room { vec_capacity stack.new ≡ vec_capacity stack.old }
{
    if has_due(&frame) {
        stack.push_reserved(frame);
    }
}

/// The stack of all goals, with room for all frames that there may be.
fn goal_stack(alloc: Global) -> Result<Vec<Frame>, AllocError>
    ensures goals { IfOk result (λ stack. stack.items ≡ Goals 0 ∷ []) }
    ensures room { IfOk result (λ stack. 322 ≤ vec_capacity stack) }
{
    let mut stack = Vec::with_capacity(alloc, MOST_FRAMES)?;
    stack.push_reserved(Frame::Goals(0));
    Ok(stack)
}

impl<'a> CheckScene<'a> {
    /// Whether nothing is due of a stack, which is empty then.
    fn is_done(&self, goals: &[State], stack: &mut Vec<Frame>) -> bool
        requires { All (IsSoundFrame self.now.rows.machine.now) stack.old.items }
        ensures done { result ≡ true → due_on self.now.rows.machine.now self.now.plans.now
            self.now.rows.ask.now self.now.rows.rows.now self.now.limit goals.now
            stack.old.items ≡ [] }
        ensures more { result ≡ false → (d : Due) × (ds : List Due) × (due_on
            self.now.rows.machine.now self.now.plans.now self.now.rows.ask.now
            self.now.rows.rows.now self.now.limit goals.now stack.old.items ≡ d ∷ ds) }
    {
        'frames: while let Some(frame) = stack.pop() {
            if self.has_more(goals, &frame) {
                return false;
            }
        }
        true
    }

    /// The nodes stand where nodes are due.
    pub(crate) fn check_nodes(
        &self,
        alloc: Global,
        goals: &[State],
        nodes: &Nodes,
    ) -> Result<(), TreeFlaw>
        ensures ok { OnOk result (bad_node_from self.now.rows.machine.now self.now.plans.now
            self.now.rows.ask.now self.now.rows.rows.now self.now.limit 0 (map (λ s. goal s)
            goals.now) nodes.now ≡ None) }
        ensures flaw { IfErr result (IsFlawOf (bad_node_from self.now.rows.machine.now
            self.now.plans.now self.now.rows.ask.now self.now.rows.rows.now
            self.now.limit 0 (map (λ
            s. goal s) goals.now) nodes.now)) }
    {
        let mut stack = match goal_stack(alloc) {
            Ok(stack) => stack,
            Err(_) => return Err(TreeFlaw::Memory),
        };
        let mut ranks = Ranks::new();
        'nodes: for at in 0..nodes.len() {
            match self.check_node(goals, &mut stack, &mut ranks, nodes.get(at)) {
                Ok(()) => {}
                Err(fault) => return Err(flaw_of(at, fault)),
            }
        }
        if self.is_done(goals, &mut stack) {
            Ok(())
        } else {
            Err(TreeFlaw::Uncovered { node: nodes.len() })
        }
    }

    /// The node stands where the first is due, and what is due below it takes its place.
    fn check_node(
        &self,
        goals: &[State],
        stack: &mut Vec<Frame>,
        ranks: &mut Ranks,
        node: &Node,
    ) -> Result<(), NodeFault>
        requires stack { IsSoundStack self.now.rows.machine.now stack.old.items }
        requires ranked { AreRankedFrames self.now.rows.machine.now self.now.plans.now
            ranks.old.before stack.old.items }
        requires room { 322 ≤ vec_capacity stack.old }
        ensures ok { OnOk result (IsStep self.now.rows.machine.now self.now.plans.now
            self.now.rows.ask.now self.now.rows.rows.now self.now.limit (due_on
            self.now.rows.machine.now self.now.plans.now self.now.rows.ask.now
            self.now.rows.rows.now self.now.limit goals.now stack.old.items) node.now (due_on
            self.now.rows.machine.now self.now.plans.now self.now.rows.ask.now
            self.now.rows.rows.now self.now.limit goals.now stack.new.items)) }
        ensures fault { IfErr result (IsNodeFault self.now.rows.machine.now self.now.plans.now
            self.now.rows.ask.now self.now.rows.rows.now self.now.limit (due_on
            self.now.rows.machine.now self.now.plans.now self.now.rows.ask.now
            self.now.rows.rows.now self.now.limit goals.now stack.old.items) node.now) }
        ensures stack { OnOk result (IsSoundStack self.now.rows.machine.now stack.new.items) }
        ensures ranked { OnOk result (AreRankedFrames self.now.rows.machine.now self.now.plans.now
            ranks.new.before stack.new.items) }
        ensures room { 322 ≤ vec_capacity stack.new }
    {
        'frames: while let Some(frame) = stack.pop() {
            match self.pass(goals, frame, ranks, node) {
                Passing::Empty => {}
                Passing::Wrong(fault) => return Err(fault),
                Passing::Passed { left, below } => {
                    put(stack, left);
                    put(stack, below);
                    return Ok(());
                }
            }
        }
        Err(NodeFault::Uncovered)
    }
}
