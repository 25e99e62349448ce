//! The engines of a case.

ghost use Rattle.std.specs.Prelude.{◌≡◌, ◌≤◌, ◌<◌, IfOk};
ghost use Rattle.tp_soak.specs.Engines.{draw_engines};

use crate::draws::Draws;
use std::alloc::Global;
use tp_base::Memory;

/// An engine: its number, counted from 1, and the least ticks that its print takes.
#[derive(Clone, Copy, Debug, PartialEq, Eq)]
pub(crate) struct MadeEngine {
    pub number: u32,
    pub least: u32,
}

const NUMBERS: [u32; 4] = [1, 2, 3, 4];

/// Draws 2 to 4 engines.
pub(crate) fn draw_engines(alloc: Global, draws: &mut Draws) -> Result<Vec<MadeEngine>, Memory>
    ensures engines { IfOk result (λ engines.
        engines.items ≡ (draw_engines draws.old.state).engines) }
    ensures state { IfOk result (λ _. draws.new.state ≡ (draw_engines draws.old.state).state) }
{
    let count = 2 + draws.draw(3);
    let mut engines = Vec::new(alloc);
    let mut rest = &NUMBERS[..count as usize];
    'engines: while let [number, others @ ..] = rest {
        let least = 4 + draws.draw(8);
        engines.push(MadeEngine {
            number: *number,
            least,
        })?;
        rest = others;
    }
    Ok(engines)
}
