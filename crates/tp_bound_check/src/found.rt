//! Where the holds of two actions stand in the order of a resource.
ghost use Rattle.std.specs.Prelude.{◌≡◌, ◌+◌, ◌<◌, ◌≤◌, ◌^◌, ◌==◌, List, All, insert, length, max, min, if◌then◌else◌};
ghost use Rattle.tp_machine.specs.Limits.{longest};
ghost use Rattle.tp_bound_check.specs.Founds.{IsBelow, IsTrack, earlier, gap_out, is_outside, put_found, shifted, track_of};
ghost use Rattle.tp_bound_check.specs.Points.{HasOffsets, choices_to};
ghost use Rattle.tp_bound_check.specs.Ranks.{own_among};
ghost use Rattle.tp_schedule.specs.Choices.{put_places};
ghost use Rattle.tp_schedule.specs.Spots as spots;

use crate::hops::slot_gap;
use crate::points::{Gap, Point, Slot};
use tp_machine::HoldRule;

/// A hold with its place in an order.
#[derive(Clone, Copy)]
pub(crate) struct Found {
    pub(crate) at: u64,
    pub(crate) slot: Slot,
}

/// The points where two actions start.
#[derive(Clone, Copy)]
pub(crate) struct Ends {
    pub(crate) before: Point,
    pub(crate) after: Point,
}

impl Ends {
    /// How many choices, the oldest first, come up to both.
    pub(crate) fn choices(&self) -> u32
        ensures { result ≡ max (choices_to self.now.before) (choices_to self.now.after) }
    {
        self.before.choices_to().max(self.after.choices_to())
    }

    /// The own one of both, where the other is kept.
    pub(crate) fn own(&self) -> Option<u32>
        ensures { result ≡ own_among self.now.before self.now.after }
    {
        match (self.before.copy(), self.after.copy()) {
            (None, Some(_)) => Some(self.before.at()),
            (Some(_), None) => Some(self.after.at()),
            _ => None,
        }
    }
}

/// The points from and to which an action runs.
#[derive(Clone, Copy)]
pub(crate) struct Leg {
    pub(crate) from: Point,
    pub(crate) to: Point,
}

/// The length of an order, and where the holds of two actions stand in it.
#[derive(Clone, Copy)]
pub(crate) struct Track {
    pub(crate) len: u64,
    pub(crate) before: Option<Found>,
    pub(crate) after: Option<Found>,
}

/// A track of the order with the holds of so many choices of a branch, the oldest first.
#[derive(Clone, Copy)]
pub(crate) struct Part {
    pub(crate) track: Track,
    pub(crate) count: u32,
}

/// The places from `lo` on that stand before `hi`.
#[derive(Clone, Copy)]
pub(crate) struct Cut {
    pub(crate) lo: u64,
    pub(crate) hi: u64,
}

fn earlier(at: u64, slot: Slot, other: Option<Found>) -> Option<Found>
    ensures { result ≡ earlier at slot other }
{
    match other {
        Some(found) if found.at < at => Some(found),
        _ => Some(Found { at, slot }),
    }
}

fn shifted(at: u64, found: Found) -> Found
    requires { found.at + 1 < 2 ^ 64 }
    ensures { result ≡ shifted at found }
{
    if found.at < at {
        found
    } else {
        Found {
            at: found.at + 1,
            slot: found.slot,
        }
    }
}

fn put_found(start: Point, at: u64, slot: Slot, len: u64, found: Option<Found>) -> Option<Found>
    requires room { len + 1 < 2 ^ 64 }
    requires at { at ≤ len }
    requires below { IsBelow len found }
    ensures found { result ≡ put_found start at slot found }
    ensures below { IsBelow (len + 1) result }
{
    if slot.from.is(start) {
        return earlier(at, slot, found);
    }
    match found {
        Some(found) => Some(shifted(at, found)),
        None => None,
    }
}

impl Track {
    /// The track with a hold more in the order.
    pub(crate) fn put(&self, ends: &Ends, place: u32, slot: Slot) -> Track
        requires room { self.now.len + 1 < 2 ^ 64 }
        requires track { IsTrack self.now }
        ensures order { (order : List spots.Slot) → self.now ≡ track_of ends.now.before
            ends.now.after order
            → result ≡ track_of ends.now.before ends.now.after (insert order place slot) }
        ensures len { result.len ≡ self.now.len + 1 }
        ensures track { IsTrack result }
    {
        let at = u64::from(place).min(self.len);
        Track {
            len: self.len + 1,
            before: put_found(ends.before, at, slot, self.len, self.before),
            after: put_found(ends.after, at, slot, self.len, self.after),
        }
    }

    /// The track with those holds of an action that are on the resource, each in its place.
    pub(crate) fn put_places(
        self,
        ends: &Ends,
        resource: u16,
        leg: &Leg,
        rules: &[HoldRule],
        places: &[u32],
    ) -> Track
        requires offsets { All HasOffsets rules.now }
        requires room { self.len + length rules.now < 2 ^ 64 }
        requires track { IsTrack self }
        ensures order { (order : List spots.Slot) → self ≡ track_of ends.now.before
            ends.now.after order
            → result ≡ track_of ends.now.before ends.now.after
            (put_places resource leg.now.from leg.now.to rules.now places.now order) }
        ensures len { result.len ≤ self.len + length rules.now }
        ensures track { IsTrack result }
    {
        let mut track = self;
        let count = rules.len().min(places.len());
        'places: for at in 0..count {
            track = track.put_place(ends, resource, leg, &rules[at], places[at]);
        }
        track
    }

    fn put_place(&self, ends: &Ends, resource: u16, leg: &Leg, rule: &HoldRule, place: u32) -> Track
        requires offsets { HasOffsets rule.now }
        requires room { self.now.len + 1 < 2 ^ 64 }
        requires track { IsTrack self.now }
        ensures order { (order : List spots.Slot) → self.now ≡ track_of ends.now.before
            ends.now.after order
            → result ≡ track_of ends.now.before ends.now.after
            (if rule.now.resource.0 == resource
            then insert order place
            (record { rule = rule.now; from = leg.now.from; to = leg.now.to })
            else order) }
        ensures len { result.len ≤ self.now.len + 1 }
        ensures track { IsTrack result }
    {
        if rule.resource.0 == resource {
            let slot = Slot {
                rule: *rule,
                from: leg.from,
                to: leg.to,
            };
            self.put(ends, place, slot)
        } else {
            *self
        }
    }

    /// What is between the holds where the one stands before the other, without the places cut out.
    pub(crate) fn gap(&self, apart: u32, cut: Cut) -> Option<Gap>
        requires { apart ≤ longest }
        ensures { result ≡ gap_out apart cut.lo cut.hi self.now.before self.now.after }
    {
        match (self.before, self.after) {
            (Some(one), Some(other)) => {
                let outside = is_outside(cut, one) && is_outside(cut, other);
                if one.at < other.at && outside {
                    Some(slot_gap(apart, &one.slot, &other.slot))
                } else {
                    None
                }
            }
            _ => None,
        }
    }
}

fn is_outside(cut: Cut, found: Found) -> bool
    ensures { result ≡ is_outside cut.lo cut.hi found }
{
    found.at < cut.lo || cut.hi <= found.at
}
