//! Where a walk through a bound tree stands.
ghost use Rattle.std.specs.Prelude.{◌≡◌};

use crate::branch::Branch;
use std::marker::Model;
use tp_machine::HoldRule;

/// The places of a hold, from the first to the last.
#[derive(Clone, Copy)]
pub(crate) struct Span {
    pub(crate) rule: HoldRule,
    pub(crate) lo: u32,
    pub(crate) hi: u32,
}

impl Model for Span {
    ghost use Rattle.tp_bound_laws.specs.Places as places;

    ghost Value = { places.Span };

    ghost view = { λ s. record { rule = s.rule; lo = s.lo; hi = s.hi } };

    ghost inverse = { λ s. record { rule = s.rule; lo = s.lo; hi = s.hi } };
}

/// A branch, and a hold that has several places.
#[derive(Drop)]
pub(crate) struct Stand {
    pub(crate) branch: Branch,
    pub(crate) span: Option<Span>,
}

impl Model for Stand {
    ghost use Rattle.tp_bound_laws.specs.Places as places;

    ghost Value = { places.Stand };

    ghost view = { λ s. record { branch = s.branch; span = s.span } };
}
