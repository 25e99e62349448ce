//! The start states of an ask.
ghost use Rattle.std.specs.Prelude.{◌≡◌, ◌↔◌, Any, IsTrue, not};
ghost use Rattle.tp_schedule.specs.LocationSets.{has};
ghost use Rattle.tp_schedule.specs.Routes.{IsStart, fresh};

use crate::parts::{Ask, Origin};
use tp_machine::{Face, Feeder, LocId, Machine, Sheet, State};

/// The most locations of a machine.
const MOST_LOCATIONS: u16 = 256;

/// A new sheet at a location.
pub fn new_sheet(loc: LocId) -> State
    ensures { result ≡ fresh loc }
{
    State {
        loc,
        up: Face::Front,
        front_done: false,
        back_done: false,
    }
}

fn is_at_feeder(feeders: &[Feeder], sheet: &Sheet, state: State) -> bool
    ensures { IsTrue result ↔ Any (λ f. (f.media ≡ sheet.now.media) × (state ≡ fresh f.loc))
        feeders.now }
{
    feeders.iter().any(|feeder| feeder.media == sheet.media && state == new_sheet(feeder.loc))
}

impl Ask {
    /// Whether the location isn't an empty feeder, so that a new copy may begin there.
    pub fn may_begin_at(&self, loc: LocId) -> bool
        ensures { result ≡ not (has self.entry.now.empty loc) }
    {
        loc.0 >= MOST_LOCATIONS || !self.empty.has(loc)
    }
}

/// Whether the state is a start state of the ask.
pub fn is_start(machine: &Machine, ask: &Ask, state: State) -> bool
    ensures { IsTrue result ↔ IsStart machine.now ask.entry.now state }
{
    match ask.origin {
        Origin::Feeder => {
            let fresh = is_at_feeder(machine.feeders.as_slice(), &ask.want, state);
            fresh && ask.may_begin_at(state.loc)
        }
        Origin::Front { state: front, .. } => state == front,
    }
}
