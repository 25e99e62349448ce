//! A script answered by a farm.

ghost use Rattle.std.specs.Prelude.{◌≡◌, ◌-◌, [], Some, OnOk, IfErr, IfSome, IsErrOf};
ghost use Rattle.tp_farm.specs.Farms.{AnswersLine};
ghost use Rattle.tp_farm.specs.Inside.{state_of};
ghost use Rattle.tp_farm.specs.Scripts.{IsStopped, IsTaken};
ghost use Rattle.tp_outside.specs.Outside.{Rises, IsCounted};
ghost use Rattle.tp_stream.specs.declared.stop.Stop.{Stop};
ghost use Rattle.tp_stream.specs.Tellers.{most_events};

use crate::farm::Farm;
use std::alloc::Global;
use tp_outside::{Sink, Source};
use tp_stream::{LineTaker, Refusal, SCRIPT_LIMITS, Stop, Teller, stream};

/// A farm that answers the lines of a script, and the text of the last answer.
#[derive(Drop)]
struct ScriptedFarm<T: Teller> {
    farm: Farm<T>,
    text: Vec<u8>,
}

impl<T: Teller> LineTaker for ScriptedFarm<T> {
    ghost use Rattle.tp_farm.specs.Farms.{FarmState};

    ghost State = { FarmState T.State };

    ghost state = { λ s. state_of T.state s.farm };

    ghost text = { λ s. s.text.items };

    ghost room = { λ s. most_events - s.farm.lines };

    ghost answers = { AnswersLine T.tells T.probes };

    ghost refuses = { λ s line. ⊥ };

    fn take_line(&mut self, line: &[u8]) -> Result<(), Refusal> {
        match self.farm.line(line, &mut self.text) {
            Ok(()) => Ok(()),
            Err(_) => Err(Refusal::Memory),
        }
    }

    fn text(&self) -> &[u8] {
        &self.text
    }

    fn clear_text(&mut self) {
        self.text.clear();
    }
}

/// Answers the lines of a script, and writes each answer before the next line is handled. Lines have at most 4,096 bytes
/// without their LF, and there are at most 1,000,000.
pub fn answer_farm<T: Teller + Drop, S: Source, K: Sink>(
    alloc: Global,
    farm: Farm<T>,
    source: &mut S,
    sink: &mut K,
) -> Result<(), Stop>
    requires { farm.lines ≡ 0 }
    // The script is answered whole, and the source was read to its end.
    ensures all { OnOk result (IsTaken T.tells T.probes (state_of T.state farm) (S.left source.old)
        (K.taken sink.old) (S.left source.new) (K.taken sink.new)) }
    ensures end { OnOk result (IfSome (S.left source.old) (λ _. S.left source.new ≡ Some [])) }
    // Else its first lines are answered, up to the cause.
    ensures stops { IfErr result (λ stop. IsStopped T.tells T.probes (state_of T.state farm)
        (S.left source.old) (K.taken sink.old) stop (S.left source.new) (K.taken sink.new)) }
    ensures source { IsErrOf result Stop.Source
        → Rises (S.faults source.old) (S.faults source.new) }
    ensures sink { IsErrOf result Stop.Sink → Rises (K.faults sink.old) (K.faults sink.new) }
    ensures source_counted { IsCounted (S.faults source.old) (S.faults source.new) }
    ensures sink_counted { IsCounted (K.faults sink.old) (K.faults sink.new) }
{
    let mut scripted = ScriptedFarm {
        farm,
        text: Vec::new(alloc),
    };
    stream(alloc, &mut scripted, source, sink, SCRIPT_LIMITS)
}
