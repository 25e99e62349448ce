//! Which modules an action uses, and whether it may run while some are out.
ghost use Rattle.std.specs.Prelude.{◌≡◌, ◌<◌, ◌≤◌, ◌≤ℤ◌, ◌^◌, neg_ℤ, length, not, IfSome};
ghost use Rattle.std.specs.List.{list_any, list_all};
ghost use Rattle.tp_machine.specs.ModuleUse.{action_at, uses_module, holds_module, is_allowed, is_held_out, begin_of, end_of, tick_of};

use crate::machine::Machine;
use crate::parts::{ActId, Action, Anchor, HoldRule, ModId, Outs};
use tp_base::Tick;

/// Whether the action uses the module: it is the action's own, or that of a resource that it holds.
pub fn uses(machine: &Machine, act: ActId, id: ModId) -> bool
    requires { act.0 < length machine.now.actions }
    ensures { IfSome (action_at machine.now act.0)
        (λ action. result ≡ uses_module machine.now action id.0) }
{
    uses_by(machine, machine.actions.get(u32::from(act.0)), id)
}

fn uses_by(machine: &Machine, action: &Action, id: ModId) -> bool
    ensures { result ≡ uses_module machine.now action.now id.0 }
{
    let own = action.module == id;
    own || is_any_held_in(machine, action.holds.as_slice(), id)
}

fn is_any_held_in(machine: &Machine, holds: &[HoldRule], id: ModId) -> bool
    ensures { result ≡ list_any (holds_module machine.now id.0) holds.now }
{
    holds.iter().any(|hold| is_held_in(machine, hold, id))
}

fn is_held_in(machine: &Machine, hold: &HoldRule, id: ModId) -> bool
    ensures { result ≡ holds_module machine.now id.0 hold.now }
{
    match machine
        .resources
        .as_slice()
        .get(usize::from(hold.resource.0))
    {
        Some(resource) => resource.module == id,
        None => false,
    }
}

/// Whether none of the modules that the action uses is out.
pub fn allowed(machine: &Machine, outs: Outs, act: ActId) -> bool
    requires { act.0 < length machine.now.actions }
    ensures { IfSome (action_at machine.now act.0)
        (λ action. result ≡ is_allowed machine.now outs action) }
{
    is_clear(machine, outs, machine.actions.get(u32::from(act.0)))
}

fn is_clear(machine: &Machine, outs: Outs, action: &Action) -> bool
    ensures { result ≡ is_allowed machine.now outs action.now }
{
    let own = outs.contains(action.module);
    !own && are_holds_clear(machine, outs, action.holds.as_slice())
}

fn are_holds_clear(machine: &Machine, outs: Outs, holds: &[HoldRule]) -> bool
    ensures { result ≡ list_all (λ h. not (is_held_out machine.now outs h)) holds.now }
{
    holds.iter().all(|hold| !is_hold_out(machine, outs, hold))
}

fn is_hold_out(machine: &Machine, outs: Outs, hold: &HoldRule) -> bool
    ensures { result ≡ is_held_out machine.now outs hold.now }
{
    match machine
        .resources
        .as_slice()
        .get(usize::from(hold.resource.0))
    {
        Some(resource) => outs.contains(resource.module),
        None => false,
    }
}

/// The ticks at which a hold begins and ends, half open, where its action runs from `start` to
/// `end`. Both may lie outside the range of a `Tick`.
pub fn span(hold: &HoldRule, start: Tick, end: Tick) -> (i64, i64)
    ensures begins { result.0 ≡ begin_of hold.now start end }
    ensures ends { result.1 ≡ end_of hold.now start end }
{
    let begin_at = i64::from(anchored(hold.begin, start, end)) + i64::from(hold.begin_off);
    let end_at = i64::from(anchored(hold.end, start, end)) + i64::from(hold.end_off);
    (begin_at, end_at)
}

/// The tick from which a begin or an end is counted, where its action runs from `start` to `end`.
pub fn anchored(anchor: Anchor, start: Tick, end: Tick) -> Tick
    ensures { result ≡ tick_of anchor start end }
{
    match anchor {
        Anchor::Start => start,
        Anchor::End => end,
    }
}
