//! Points, places and gaps, as a hop speaks of them.
ghost use Rattle.std.specs.Prelude.{◌≡◌};
ghost use Rattle.tp_constraints.specs.Numbers.{is_same_spot};
ghost use Rattle.tp_schedule.specs.Spots.Spot.{kept, own};

use std::marker::Model;
use tp_base::Tick;
use tp_machine::HoldRule;
use tp_schedule::SheetId;

/// A point of a copy's plan, or for no copy an own one.
#[derive(Clone, Copy)]
pub(crate) struct Point {
    copy: Option<SheetId>,
    at: u32,
}

impl Model for Point {
    ghost use Rattle.tp_schedule.specs.Spots.{Spot};
    ghost use Rattle.tp_bound_check.specs.Points.{at_again, at_in, copy_again, copy_in, spot_by};

    ghost Value = { Spot };

    ghost view = { λ p. spot_by p.copy p.at };

    ghost inverse = { λ s. record { copy = copy_in s; at = at_in s } };

    ghost inverse_ok = { λ a h. λ i. record {
      copy = copy_again a.copy a.at i;
      at = at_again a.copy a.at i;
    } };
}

impl Point {
    ghost use Rattle.tp_bound_check.specs.Points.{at_in, choices_to, copy_in};

    pub(crate) fn own(at: u32) -> Point
        ensures { result ≡ own at }
    {
        Point { copy: None, at }
    }

    pub(crate) fn kept(copy: SheetId, at: u32) -> Point
        ensures { result ≡ kept copy at }
    {
        Point {
            copy: Some(copy),
            at,
        }
    }

    pub(crate) fn copy(self) -> Option<SheetId>
        ensures { result ≡ copy_in self }
    {
        self.copy
    }

    pub(crate) fn at(self) -> u32
        ensures { result ≡ at_in self }
    {
        self.at
    }

    /// How many choices, the oldest first, come up to it.
    pub(crate) fn choices_to(self) -> u32
        ensures { result ≡ choices_to self }
    {
        match self.copy {
            Some(_) => 0,
            None => self.at,
        }
    }

    pub(crate) fn is(self, other: Point) -> bool
        ensures { result ≡ is_same_spot self other }
    {
        self.copy == other.copy && self.at == other.at
    }
}

/// A hold between two points.
#[derive(Clone, Copy)]
pub(crate) struct Slot {
    pub(crate) rule: HoldRule,
    pub(crate) from: Point,
    pub(crate) to: Point,
}

impl Model for Slot {
    ghost use Rattle.tp_schedule.specs.Spots as spots;
    ghost use Rattle.tp_bound_check.specs.Points.{HasOffsets};

    ghost Value = { spots.Slot };

    ghost view = { λ s. record { rule = s.rule; from = s.from; to = s.to } };

    ghost invariant = { λ s. HasOffsets s.rule };

    ghost inverse = { λ s. record { rule = s.rule; from = s.from; to = s.to } };
}

/// The one point is at least so much after the other.
#[derive(Clone, Copy)]
pub(crate) struct Gap {
    pub(crate) from: Point,
    pub(crate) to: Point,
    pub(crate) weight: i64,
}

impl Model for Gap {
    ghost use Rattle.tp_constraints.specs.Gaps as gaps;
    ghost use Rattle.tp_bound_check.specs.Points.{IsWeight};

    ghost Value = { gaps.Gap };

    ghost view = { λ g. record { from = g.from; to = g.to; weight = g.weight } };

    ghost invariant = { λ g. IsWeight g.weight };

    ghost inverse = { λ g. record { from = g.from; to = g.to; weight = g.weight } };
}
