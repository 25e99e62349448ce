//! A run: a script answered on the machine of a text.

ghost use Rattle.std.specs.Prelude.{◌≡◌, IfSome, IsSome};
ghost use Rattle.tp_command.specs.App.{seen};
ghost use Rattle.tp_outside.specs.Outside.{Rises, file_at};
ghost use Rattle.tp_program.specs.Runs.{RunEnds};

use crate::Status;
use crate::machine::find_machine;
use crate::session::{Beginning, run_on};
use std::alloc::Global;
use tp_command::Request;
use tp_outside::{Shelf, Sink, Source};
use tp_run_laws::runs_keep_promises;
use tp_session::Settings;

/// Reads the machine text that is asked for, then the script line by line, and writes the log of each event before the next
/// line is handled. The first check that fails ends the run: the shelf, the length and the rules of the machine text; then for
/// each line the source, its length, its turn and the sink.
pub(crate) fn run<H: Shelf, S: Source, K: Sink>(
    alloc: Global,
    request: &Request<'_>,
    shelf: &mut H,
    source: &mut S,
    sink: &mut K,
) -> Status
    ensures ends { RunEnds S.left K.taken (H.known shelf.old) source.old source.new sink.old
        sink.new (seen request.now) result }
    ensures shelf { result ≡ Status.Shelf → Rises (H.faults shelf.old) (H.faults shelf.new) }
    ensures amiss { result ≡ Status.Shelf → IfSome (H.known shelf.old) (λ files.
        IsSome (file_at files request.now.arg.now)
        → Rises (H.amiss shelf.old) (H.amiss shelf.new)) }
    ensures source { result ≡ Status.Source
        → Rises (S.faults source.old) (S.faults source.new) }
    ensures sink { result ≡ Status.Sink → Rises (K.faults sink.old) (K.faults sink.new) }
{
    match find_machine(alloc, shelf, request.arg) {
        Ok(machine) => {
            let beginning = Beginning {
                machine,
                settings: Settings {
                    budget: request.budget,
                    bounds: request.bounds,
                },
                from: None,
            };
            runs_keep_promises();
            run_on(alloc, beginning, source, sink)
        }
        Err(status) => status,
    }
}
