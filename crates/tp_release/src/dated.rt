//! Records by moment.

ghost use Rattle.std.specs.Prelude.{◌≡◌, map, OnOk, IfOk};
ghost use Rattle.tp_event_rules.specs.Clock.{by_moment};

use std::alloc::Global;
use std::marker::Model;
use tp_base::{Memory, Tick};
use tp_event_rules::Tell;

/// A record, with the moment at which it stands.
#[derive(Drop)]
pub(crate) struct Dated {
    pub(crate) at: Tick,
    pub(crate) tell: Tell,
}

// Clauses see the same pair under the name that it has where turns are defined.
impl Model for Dated {
    ghost use Rattle.tp_event_rules.specs.Clock.{Told};

    ghost Value = { Told };

    ghost view = { λ d. record { at = d.at; tell = d.tell } };
}

/// Sorts by moment. Records of one moment keep their order.
pub(crate) fn sort_by_moment(told: &mut Vec<Dated>) -> Result<(), Memory>
    ensures { OnOk result (told.new.items ≡ by_moment told.old.items) }
{
    told.sort_by_key(|dated| dated.at)?;
    Ok(())
}

/// The records without the moments.
pub(crate) fn undated(alloc: Global, told: &[Dated]) -> Result<Vec<Tell>, Memory>
    ensures { IfOk result (λ tells. tells.items ≡ map (λ t. t.tell) told.now) }
{
    Ok(told.iter().map(|dated| dated.tell).collect(alloc)?)
}
