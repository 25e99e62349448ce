//! The two sides of a hold in the order of its resource.
ghost use Rattle.std.specs.Prelude.{◌≡◌, ◌⊎◌, true};
ghost use Rattle.tp_bound_make.specs.Ranges.{IsFree, NoHop, is_own_hold, leads};

use tp_base::Name;
use tp_bounds::{Close, Hop, Hops, TreeHold};

/// The holds that stand before one in the order of its resource, or those behind it.
#[derive(Clone, Copy)]
pub(crate) enum Side {
    Before,
    Behind,
}

/// Whether it is the hold of the newest of so many choices.
fn is_own_hold(hold: &TreeHold, count: u32) -> bool
    ensures { result ≡ is_own_hold count hold.now }
{
    match hold {
        TreeHold::Own(at) => *at == count,
        TreeHold::Kept { .. } => false,
    }
}

impl Side {
    /// Whether a hop leads on the resource of this name from the newest choice's hold to one on
    /// this side of it, or from there to it.
    fn leads(self, name: &Name, count: u32, hop: &Hop) -> bool
        ensures { result ≡ leads self name.now count hop.now }
    {
        match hop {
            Hop::Duration(_) => false,
            Hop::Line(_) => false,
            Hop::Resource {
                name: resource,
                before,
                after,
            } => {
                let own = match self {
                    Side::Before => is_own_hold(after, count),
                    Side::Behind => is_own_hold(before, count),
                };
                *resource == *name && own
            }
        }
    }

    /// Whether no hop does so.
    fn has_none(self, name: &Name, count: u32, hops: &Hops) -> bool
        ensures { result ≡ true → NoHop (leads self name.now count) hops.now }
    {
        'hops: for at in 0..hops.len() {
            if self.leads(name, count, hops.get(at)) {
                return false;
            }
        }
        true
    }

    /// Whether a chain or a loop has no such hop: it doesn't rest on what stands on this side.
    fn is_free(self, name: &Name, count: u32, close: &Close) -> bool
        ensures { result ≡ true → IsFree (leads self name.now count) close.now }
    {
        match close {
            Close::Split => false,
            Close::Dead => false,
            Close::Chain { hops, .. } => self.has_none(name, count, hops),
            Close::Loop { hops, .. } => self.has_none(name, count, hops),
        }
    }

    /// Whether what closes a node of a place closes those of all places from there to the end of a
    /// range that is on this side, or is that place.
    pub(crate) fn serves(self, place: u32, end: u32, name: &Name, count: u32, close: &Close) -> bool
        ensures { result ≡ true
            → (place ≡ end) ⊎ IsFree (leads self name.now count) close.now }
    {
        place == end || self.is_free(name, count, close)
    }
}
