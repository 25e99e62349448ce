//! What closes a node: a dead state, a chain or a loop; or what is due below it.
ghost use Rattle.std.specs.Prelude.{◌≡◌, ℕ, ◌+◌, ◌≤◌, ◌++◌, [], length, Some, IfOk, IfErr, OnOk, List};
ghost use Rattle.tp_bound_check.specs.Frames.{IsOn, IsShallowStand};
ghost use Rattle.tp_bound_check.specs.Looks.{IsFaultOf, IsSoundFrame, dues_of};
ghost use Rattle.tp_bound_check.specs.Ranks.{IsFrameBelow, IsSoundStand};
ghost use Rattle.tp_machine.specs.declared.parts.State.{State};
ghost use Rattle.tp_bound_laws.specs.Chains.{spot_of};
ghost use Rattle.tp_bound_laws.specs.Rows.{row_of};
ghost use Rattle.tp_bound_laws.specs.Trees.{chain_look, close_look, dead_look, loop_look, may_be_dead, reach_look};
ghost use Rattle.tp_bound_laws.specs.Trees.Look.{due};

use crate::branch_span::Stand;
use crate::dues::{Frame, NodeFault};
use crate::hop_chains::Walk;
use crate::kept_ranks::Ranks;
use crate::orders::CheckScene;
use crate::points::Point;
use crate::tree_names::spot_of;
use tp_bounds::{Close, Head, Hops, TreePoint};

fn may_be_dead(head: &Head) -> bool
    ensures { result ≡ may_be_dead head.now }
{
    match head {
        Head::Goal { .. } => true,
        Head::Act { .. } => true,
        Head::At { .. } => false,
        Head::Stop => false,
    }
}

/// A sum above its cap closes a node.
fn reach_look(reach: i64, cap: i64) -> Result<(), NodeFault>
    ensures ok { OnOk result (reach_look reach cap ≡ due []) }
    ensures fault { IfErr result (IsFaultOf (reach_look reach cap)) }
{
    if cap < reach {
        Ok(())
    } else {
        Err(NodeFault::Weak { reach, cap })
    }
}

impl<'a> CheckScene<'a> {
    /// A dead node's state has no row.
    fn dead_look(&self, stand: &Stand, head: &Head) -> Result<(), NodeFault>
        ensures ok { OnOk result (dead_look (may_be_dead head.now) (row_of self.now.rows.machine.now
            self.now.rows.rows.now stand.now.branch.first) ≡ due []) }
        ensures fault { IfErr result (IsFaultOf (dead_look (may_be_dead head.now) (row_of
            self.now.rows.machine.now self.now.rows.rows.now stand.now.branch.first))) }
    {
        if !may_be_dead(head) {
            return Err(NodeFault::NotDead);
        }
        match self.rows.row_of(stand.branch.first()) {
            Some(_) => Err(NodeFault::NotDead),
            None => Ok(()),
        }
    }

    fn chain_look(
        &self,
        stand: &Stand,
        ranks: &Ranks,
        first: &TreePoint,
        hops: &Hops,
    ) -> Result<(), NodeFault>
        requires sound { IsSoundStand self.now.rows.machine.now self.now.plans.now stand.now
            ranks.now }
        ensures ok { OnOk result (chain_look self.now.rows.machine.now self.now.plans.now
            self.now.rows.ask.now self.now.rows.rows.now self.now.limit stand.now (spot_of
            self.now.plans.now (length stand.now.branch.x.choices) first.now) hops.now ≡ due []) }
        ensures fault { IfErr result (IsFaultOf (chain_look self.now.rows.machine.now
            self.now.plans.now self.now.rows.ask.now self.now.rows.rows.now self.now.limit stand.now
            (spot_of self.now.plans.now (length stand.now.branch.x.choices) first.now) hops.now)) }
    {
        match spot_of(self.plans, stand.branch.count(), first) {
            Some(at) => self.chain_from(stand, ranks, at, hops),
            None => Err(NodeFault::NoSuchHop(0)),
        }
    }

    fn chain_from(
        &self,
        stand: &Stand,
        ranks: &Ranks,
        at: Point,
        hops: &Hops,
    ) -> Result<(), NodeFault>
        requires sound { IsSoundStand self.now.rows.machine.now self.now.plans.now stand.now
            ranks.now }
        ensures ok { OnOk result (chain_look self.now.rows.machine.now self.now.plans.now
            self.now.rows.ask.now self.now.rows.rows.now self.now.limit stand.now (Some at) hops.now
            ≡ due []) }
        ensures fault { IfErr result (IsFaultOf (chain_look self.now.rows.machine.now
            self.now.plans.now self.now.rows.ask.now self.now.rows.rows.now self.now.limit stand.now
            (Some at) hops.now)) }
    {
        let from = Walk {
            at,
            sum: self.low(&stand.branch, at),
        };
        match self.follow(stand, ranks, from, hops) {
            Ok(walk) => reach_look(walk.sum, self.cap(&stand.branch, walk.at)),
            Err(hop) => Err(NodeFault::NoSuchHop(hop)),
        }
    }

    fn loop_look(
        &self,
        stand: &Stand,
        ranks: &Ranks,
        first: &TreePoint,
        hops: &Hops,
    ) -> Result<(), NodeFault>
        requires sound { IsSoundStand self.now.rows.machine.now self.now.plans.now stand.now
            ranks.now }
        ensures ok { OnOk result (loop_look self.now.rows.machine.now self.now.plans.now
            self.now.rows.ask.now self.now.rows.rows.now self.now.limit stand.now (spot_of
            self.now.plans.now (length stand.now.branch.x.choices) first.now) hops.now ≡ due []) }
        ensures fault { IfErr result (IsFaultOf (loop_look self.now.rows.machine.now
            self.now.plans.now self.now.rows.ask.now self.now.rows.rows.now self.now.limit stand.now
            (spot_of self.now.plans.now (length stand.now.branch.x.choices) first.now) hops.now)) }
    {
        match spot_of(self.plans, stand.branch.count(), first) {
            Some(at) => self.loop_from(stand, ranks, at, hops),
            None => Err(NodeFault::NoSuchHop(0)),
        }
    }

    fn loop_from(
        &self,
        stand: &Stand,
        ranks: &Ranks,
        at: Point,
        hops: &Hops,
    ) -> Result<(), NodeFault>
        requires sound { IsSoundStand self.now.rows.machine.now self.now.plans.now stand.now
            ranks.now }
        ensures ok { OnOk result (loop_look self.now.rows.machine.now self.now.plans.now
            self.now.rows.ask.now self.now.rows.rows.now self.now.limit stand.now (Some at) hops.now
            ≡ due []) }
        ensures fault { IfErr result (IsFaultOf (loop_look self.now.rows.machine.now
            self.now.plans.now self.now.rows.ask.now self.now.rows.rows.now self.now.limit stand.now
            (Some at) hops.now)) }
    {
        let from = Walk { at, sum: 0 };
        match self.follow(stand, ranks, from, hops) {
            Ok(walk) => {
                if walk.at.is(at) {
                    reach_look(walk.sum, 0)
                } else {
                    Err(NodeFault::NoSuchHop(hops.len().saturating_sub(1)))
                }
            }
            Err(hop) => Err(NodeFault::NoSuchHop(hop)),
        }
    }

    /// What is due below a node that is closed here, or split.
    pub(crate) fn close_look(
        &self,
        stand: Stand,
        ranks: &Ranks,
        head: &Head,
        close: &Close,
    ) -> Result<Frame, NodeFault>
        requires sound { IsSoundStand self.now.rows.machine.now self.now.plans.now stand
            ranks.now }
        requires shallow { IsShallowStand stand }
        ensures ok { IfOk result (λ f. (goals : List State)
            → close_look self.now.rows.machine.now
            self.now.plans.now self.now.rows.ask.now self.now.rows.rows.now self.now.limit stand
            head.now close.now ≡ due (dues_of self.now.rows.machine.now self.now.plans.now
            self.now.rows.ask.now self.now.rows.rows.now self.now.limit goals f)) }
        ensures sound { IfOk result (IsSoundFrame self.now.rows.machine.now) }
        ensures fault { IfErr result (IsFaultOf (close_look self.now.rows.machine.now
            self.now.plans.now self.now.rows.ask.now self.now.rows.rows.now self.now.limit stand
            head.now close.now)) }
        ensures depth { IfOk result (λ f. (n : ℕ) → n ≤ stand.branch.depth
            → IsOn f (n + 1)) }
        ensures below { IfOk result (IsFrameBelow stand.branch) }
    {
        match close {
            Close::Split => self.split(stand),
            Close::Dead => match self.dead_look(&stand, head) {
                Ok(()) => Ok(Frame::Nothing),
                Err(fault) => Err(fault),
            },
            Close::Chain { first, hops } => match self.chain_look(&stand, ranks, first, hops) {
                Ok(()) => Ok(Frame::Nothing),
                Err(fault) => Err(fault),
            },
            Close::Loop { first, hops } => match self.loop_look(&stand, ranks, first, hops) {
                Ok(()) => Ok(Frame::Nothing),
                Err(fault) => Err(fault),
            },
        }
    }
}
