//! The mode of a hold, and the gap between two holds of one resource.
ghost use Rattle.std.specs.Prelude.{◌≡◌, ◌≤◌, slice_get};
ghost use Rattle.tp_machine.specs.Limits.{longest};
ghost use Rattle.tp_machine.specs.Modes.{mode_of, gap_of, gap_at, gap_between};

use crate::machine::Machine;
use crate::parts::{HoldRule, ResId, Resource};

/// The mode of a hold.
#[tactic(auto, unfolding(crate::specs::Modes::mode_of))]
pub fn mode_of(hold: &HoldRule) -> u8
    ensures { result ≡ mode_of hold.now }
{
    hold.mode
}

/// The gap of a resource, in ticks. A number that names no resource has the gap 0.
#[tactic(auto, unfolding(crate::specs::Modes::gap_at))]
pub fn gap_at(machine: &Machine, resource: ResId) -> u32
    ensures gap { result ≡ gap_at machine.now resource.0 }
    ensures within { result ≤ longest }
{
    gap_in(machine.resources.as_slice(), resource)
}

fn gap_in(resources: &[Resource], resource: ResId) -> u32
    ensures { result ≡ gap_of (slice_get resources.now resource.0) }
{
    match resources.get(usize::from(resource.0)) {
        Some(resource) => resource.gap,
        None => 0,
    }
}

/// How far apart two holds stand on a resource with this gap.
#[tactic(auto, unfolding(crate::specs::Modes::gap_between))]
pub fn gap_between(gap: u32, one: &HoldRule, other: &HoldRule) -> u32
    ensures gap { result ≡ gap_between gap one.now other.now }
    ensures within { result ≤ gap }
{
    if mode_of(one) == mode_of(other) {
        0
    } else {
        gap
    }
}
