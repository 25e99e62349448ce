//! A sink that takes nothing.

ghost use Rattle.std.specs.Prelude.{Some, []};
ghost use Rattle.tp_outside.specs.Outside.{last_count};

use tp_outside::{Failed, Sink};

/// A sink that takes nothing: it fails at the first byte.
#[derive(Drop)]
pub(crate) struct Quiet;

impl Sink for Quiet {
    ghost taken = { λ _. Some [] };

    ghost faults = { λ _. last_count };

    fn write(&mut self, piece: &[u8]) -> Result<usize, Failed> {
        if piece.is_empty() { Ok(0) } else { Err(Failed) }
    }
}
