//! Nodes of a tree, each where a branch is due.
ghost use Rattle.std.specs.Prelude.{◌≡◌, ◌&&◌, false, ◌≤◌, ◌<◌, ◌∷◌, ◌++◌, [], None, Some, true, IfErr, IfOk, IfSome, OnOk, length, pos, MatchOption};
ghost use Rattle.tp_bounds.specs.declared.tree.Close.TheVariants.{Dead};
ghost use Rattle.tp_constraints.specs.Suffixes.{IsInFlight, Suffix, with_stop};
ghost use Rattle.tp_machine.specs.declared.parts.ActId.{ActId};
ghost use Rattle.tp_placing.specs.Boards.{content_of};
ghost use Rattle.tp_schedule.specs.Plans.{AreNamed};
ghost use Rattle.tp_bound_make.specs.Closes.{IsEndRefused, IsLimit, IsRefused, IsStopRefused};
ghost use Rattle.tp_bound_make.specs.TreeProgress.{Carries, IsEarly, IsEarlyEnd, IsSet, IsSince, PutsNode, branch_by, hold_of, kids_of};
ghost use Rattle.tp_bound_laws.specs.Places as places;
ghost use Rattle.tp_bound_laws.specs.Places.{is_begun};
ghost use Rattle.tp_bound_laws.specs.Rows.{is_same_state};
ghost use Rattle.tp_schedule.specs.Routes.{fresh};
ghost use Rattle.std.specs.List.{list_any};
ghost use Rattle.std.specs.Str.{bytes_eq};

use crate::refused_close::{close_end, close_late, close_stop};
use crate::scene::{NotShown, ShowBranch, ShowScene};
use tp_base::{Memory, Network, Tick};
use tp_bounds::{Close, Head, Node, Nodes};
use tp_machine::{Feeder, Machine, State};
use tp_placing::Board;
use tp_schedule::{Ask, Origin, new_sheet};

/// One node more.
pub(crate) fn put_node(
    nodes: &mut Nodes,
    depth: u32,
    head: Head,
    close: Close,
) -> Result<(), Memory>
    ensures { OnOk result (nodes.new
        ≡ nodes.old ++ record { depth = depth; head = head; close = close } ∷ []) }
{
    nodes.push(Node { depth, head, close })
}

/// Adds the node of a branch that the board refused, and that is not stopped.
pub(crate) fn put_late<N: Network>(
    nodes: &mut Nodes,
    board: &Board<N>,
    scene: ShowScene,
    depth: u32,
    head: Head,
) -> Result<(), Memory>
    requires set { IsSet N.reading scene.machine.now scene.ask.now
        board.now }
    requires named { AreNamed board.now.plans }
    requires limit { IsLimit scene.machine.now scene.ask.now (pos scene.limit) }
    requires refused { (x : Suffix) × IsRefused N.refutes scene.machine.now board.now x }
    ensures { OnOk result ((b : places.Branch) → b.depth ≡ depth
        → IsRefused N.refutes scene.entry.machine.now board.now b.x
        → PutsNode scene.entry.machine.now board.now.plans scene.entry.ask.now scene.entry.limit
        nodes.old nodes.new b head (λ _. [])) }
{
    match close_late(scene.alloc, board, scene.machine) {
        Ok(close) => put_node(nodes, depth, head, close),
        Err(Memory) => Err(Memory),
    }
}

/// Adds the node of the stop of the branch that the board carries, which it refused.
pub(crate) fn put_stop<N: Network>(
    nodes: &mut Nodes,
    board: &Board<N>,
    scene: ShowScene,
    depth: u32,
    head: Head,
) -> Result<(), Memory>
    requires set { IsSet N.reading scene.machine.now scene.ask.now
        board.now }
    requires named { AreNamed board.now.plans }
    requires limit { IsLimit scene.machine.now scene.ask.now (pos scene.limit) }
    requires flying { IsInFlight scene.ask.now.origin }
    requires refused { (x : Suffix) × IsStopRefused N.refutes scene.machine.now board.now x }
    ensures { OnOk result ((b : places.Branch) (x : Suffix) → b.depth ≡ depth
        → b.x ≡ with_stop x
        → 0 < length x.choices → IsStopRefused N.refutes scene.entry.machine.now board.now x
        → PutsNode scene.entry.machine.now board.now.plans scene.entry.ask.now scene.entry.limit
        nodes.old nodes.new b head (λ _. [])) }
{
    match close_stop(scene.alloc, board, scene.machine) {
        Ok(close) => put_node(nodes, depth, head, close),
        Err(Memory) => Err(Memory),
    }
}

/// Adds the node of a branch whose end by the limit the board refused.
fn put_end<N: Network>(
    nodes: &mut Nodes,
    board: &Board<N>,
    scene: ShowScene,
    depth: u32,
    head: Head,
) -> Result<(), Memory>
    requires set { IsSet N.reading scene.machine.now scene.ask.now
        board.now }
    requires named { AreNamed board.now.plans }
    requires limit { IsLimit scene.machine.now scene.ask.now (pos scene.limit) }
    requires refused { (x : Suffix)
        × IsEndRefused N.refutes scene.machine.now board.now x scene.limit }
    ensures { OnOk result ((b : places.Branch) → b.depth ≡ depth
        → IsEndRefused N.refutes scene.entry.machine.now board.now b.x scene.entry.limit
        → PutsNode scene.entry.machine.now board.now.plans scene.entry.ask.now scene.entry.limit
        nodes.old nodes.new b head (λ _. [])) }
{
    match close_end(scene.alloc, board, scene.machine, scene.limit) {
        Ok(close) => put_node(nodes, depth, head, close),
        Err(Memory) => Err(Memory),
    }
}

pub(crate) fn is_same_state(one: State, other: State) -> bool
    ensures { result ≡ is_same_state one other }
{
    one == other
}

fn is_fresh(feeder: &Feeder, ask: &Ask, state: State) -> bool
    ensures { result ≡ (bytes_eq feeder.now.media ask.entry.now.want.media
        && is_same_state state (fresh feeder.now.loc)) }
{
    feeder.media == ask.want.media && is_same_state(state, new_sheet(feeder.loc))
}

fn is_at_feeder(feeders: &[Feeder], ask: &Ask, state: State) -> bool
    ensures { result ≡ list_any (λ f. bytes_eq f.media ask.entry.now.want.media
        && is_same_state state (fresh f.loc)) feeders.now }
{
    feeders.iter().any(|feeder| is_fresh(feeder, ask, state))
}

/// Whether a new copy begins in this state.
pub(crate) fn is_begun(machine: &Machine, ask: &Ask, state: State) -> bool
    ensures { result ≡ is_begun machine.now ask.entry.now ask.entry.now.origin state }
{
    match ask.origin {
        Origin::Feeder => {
            let fresh = is_at_feeder(machine.feeders.as_slice(), ask, state);
            fresh && ask.may_begin_at(state.loc)
        }
        Origin::Front { .. } => false,
    }
}

/// Whether a branch begins where a new copy does, and all its holds have places.
fn is_complete(scene: ShowScene, branch: ShowBranch) -> bool
    requires { IfSome branch.newest (λ (act : ActId). act.0
        < length scene.machine.now.actions) }
    ensures going { result ≡ false → hold_of scene.entry.machine.now branch ≡ None
        → is_begun scene.entry.machine.now scene.entry.ask.now scene.entry.ask.now.origin
        branch.first ≡ false }
    ensures placed { result ≡ true → hold_of scene.entry.machine.now branch ≡ None }
    ensures begun { result ≡ true → is_begun scene.entry.machine.now scene.entry.ask.now
        scene.entry.ask.now.origin branch.first ≡ true }
{
    match branch.next_hold(scene.machine) {
        Some(_) => false,
        None => is_begun(scene.machine, scene.ask, branch.first),
    }
}

/// Adds the node of the branch that the board carries: split, or closed where it ends after the
/// limit. Answers the branch if it is split.
pub(crate) fn put_carried<N: Network>(
    nodes: &mut Nodes,
    board: &mut Board<N>,
    scene: ShowScene,
    child: ShowBranch,
    head: Head,
) -> Result<Option<ShowBranch>, NotShown>
    requires set { IsSet N.reading scene.machine.now scene.ask.now
        board.old }
    requires named { AreNamed board.old.plans }
    requires limit { IsLimit scene.machine.now scene.ask.now (pos scene.limit) }
    requires carries { (x : Suffix) × Carries N.reading scene.machine.now
        scene.ask.now board.old child x }
    ensures put { IfOk result (λ o. (x : Suffix) → Carries N.reading
        scene.entry.machine.now scene.entry.ask.now board.old child x
        → MatchOption o (PutsNode scene.entry.machine.now board.old.plans scene.entry.ask.now
        scene.entry.limit nodes.old nodes.new (branch_by child x) head (λ _. []))
        (λ r. (r ≡ child) × PutsNode scene.entry.machine.now board.old.plans scene.entry.ask.now
        scene.entry.limit nodes.old nodes.new (branch_by child x) head
        (λ rows. kids_of scene.entry.machine.now board.old.plans scene.entry.ask.now rows
        (branch_by child x)))) }
    ensures splits { IfOk result (λ o. IfSome o
        (λ _. hold_of scene.entry.machine.now child ≡ None
        → is_begun scene.entry.machine.now scene.entry.ask.now scene.entry.ask.now.origin
        child.first ≡ false)) }
    ensures split_early { IfOk result (λ o. IfSome o (λ _. IsEarly scene.entry.machine.now
        scene.entry.ask.now scene.entry.limit board.old)) }
    ensures early { IfErr result (IsEarlyEnd scene.entry.machine.now board.old.plans
        scene.entry.ask.now scene.entry.limit) }
    ensures since { IsSince N.reading board.old board.new
        scene.entry.machine.now }
    ensures same { content_of N.reading board.new ≡ content_of N.reading board.old }
{
    if board.end_bound() > scene.limit {
        board.refuse_end(scene.limit);
        return match put_end(nodes, board, scene, child.depth, head) {
            Ok(()) => Ok(None),
            Err(Memory) => Err(NotShown::Memory),
        };
    }
    if is_complete(scene, child) {
        return Err(NotShown::Early);
    }
    match put_node(nodes, child.depth, head, Close::Split) {
        Ok(()) => Ok(Some(child)),
        Err(Memory) => Err(NotShown::Memory),
    }
}

/// Adds the node of a state that can't be reached.
pub(crate) fn put_dead(
    nodes: &mut Nodes,
    depth: u32,
    head: Head,
) -> Result<Option<ShowBranch>, NotShown>
    ensures none { IfOk result (λ o. o ≡ None) }
    ensures memory { IfErr result (λ fault. fault ≡ NotShown.Memory) }
    ensures put { OnOk result (nodes.new
        ≡ nodes.old ++ record { depth = depth; head = head; close = Dead } ∷ []) }
{
    match put_node(nodes, depth, head, Close::Dead) {
        Ok(()) => Ok(None),
        Err(Memory) => Err(NotShown::Memory),
    }
}
