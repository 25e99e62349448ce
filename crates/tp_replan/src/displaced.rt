//! Copies that cannot reach their tray in their turn.

use std::marker::Model;
use tp_machine::Sheet;
use tp_schedule::SheetId;

/// A copy that was displaced, what its sheet wants, and whether a next copy of the sheet is to wait.
#[derive(Drop)]
pub(crate) struct Displaced {
    pub(crate) sheet: SheetId,
    pub(crate) want: Sheet,
    pub(crate) again: bool,
}

// Clauses see the same three under the name that they have where turns are defined.
impl Model for Displaced {
    ghost use Rattle.tp_event_rules.specs.FallBacks.{Displaced as Moved};

    ghost Value = { Moved };

    ghost view = { λ d. record { sheet = d.sheet; want = d.want; again = d.again } };
}
