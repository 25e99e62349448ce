//! What the words ask for, from the words to the bytes that are written.

ghost use Rattle.std.specs.Prelude.{◌≡◌, ◌⊎◌, None, map, string_bytes, IfSome, IsSome};
ghost use Rattle.tp_command.specs.App.{seen};
ghost use Rattle.tp_command.specs.Form.{form, seed_in};
ghost use Rattle.tp_command.specs.declared.request.Mode.TheVariants.{Run, Save, Resume, Check, Soak, Compose, Farm};
ghost use Rattle.tp_outside.specs.Outside.{Rises};
ghost use Rattle.tp_program.specs.Checks.{CheckEnds};
ghost use Rattle.tp_program.specs.Complete.{AnswersInOrder};
ghost use Rattle.tp_program.specs.ComposeEnds.{ComposeEnds};
ghost use Rattle.tp_program.specs.FarmEnds.{FarmEnds};
ghost use Rattle.tp_program.specs.Modes.{Ends};
ghost use Rattle.tp_program.specs.Requests.{Asks, IsThereFor};
ghost use Rattle.tp_program.specs.ResumeEnds.{ResumeEnds};
ghost use Rattle.tp_program.specs.Runs.{RunEnds};
ghost use Rattle.tp_program.specs.SaveEnds.{SaveEnds};
ghost use Rattle.tp_program.specs.SoakEnds.{SoakEnds};

use crate::Status;
use crate::check_mode::check;
use crate::compose_mode::compose_to;
use crate::farm_mode::farm;
use crate::resume_mode::resume;
use crate::run_mode::run;
use crate::save_mode::save;
use crate::soak_mode::soak_to;
use std::alloc::Global;
use tp_command::{Mode, Request, WordsFault, read_request};
use tp_outside::{Shelf, Sink, Source};
use tp_snapshot::snapshots_are_read_back;

/// Does what is asked for, each mode by its own function.
fn answer<H: Shelf, S: Source, K: Sink>(
    alloc: Global,
    request: &Request<'_>,
    shelf: &mut H,
    source: &mut S,
    sink: &mut K,
) -> Status
    requires { request.now.mode ≡ Soak → IsSome (seed_in request.now.arg.now) }
    ensures ends { Ends S.left K.taken (H.known shelf.old) source.old source.new sink.old sink.new
        (seen request.now) result }
    ensures unread { request.now.mode ≡ Soak → shelf.new ≡ shelf.old }
    ensures shelf { result ≡ Status.Shelf → Rises (H.faults shelf.old) (H.faults shelf.new) }
    ensures amiss { result ≡ Status.Shelf → IfSome (H.known shelf.old) (λ files.
        IsThereFor files (seen request.now) → Rises (H.amiss shelf.old) (H.amiss shelf.new)) }
    ensures source { result ≡ Status.Source
        → Rises (S.faults source.old) (S.faults source.new) }
    ensures sink { result ≡ Status.Sink → Rises (K.faults sink.old) (K.faults sink.new) }
{
    match request.mode {
        Mode::Run => run(alloc, request, shelf, source, sink),
        Mode::Compose => compose_to(alloc, request.arg, shelf, sink),
        Mode::Farm => farm(alloc, request, shelf, source, sink),
        Mode::Soak => soak_to(alloc, request, sink),
        Mode::Check => check(alloc, request, shelf, source, sink),
        Mode::Save => save(alloc, request, shelf, source, sink),
        Mode::Resume => resume(alloc, request, shelf, source, sink),
    }
}

/// Does what the words ask for, given without the program's name, over this outside. The first check that fails ends it: the
/// words first; then by the mode, as each mode's function says.
pub fn printer_main<H: Shelf, S: Source, K: Sink>(
    alloc: Global,
    words: &[String],
    shelf: &mut H,
    source: &mut S,
    sink: &mut K,
) -> Status
    // The words are not of the form: nothing is read or written. Want of memory may come first.
    ensures usage { result ≡ Status.Usage → (form (map string_bytes words.now) ≡ None)
        × (source.new ≡ source.old) × (sink.new ≡ sink.old) }
    ensures used { form (map string_bytes words.now) ≡ None
        → (result ≡ Status.Usage)
        ⊎ ((result ≡ Status.Memory) × (source.new ≡ source.old) × (sink.new ≡ sink.old)) }

    // What each status says of a run: with `Done` the source was read to its end, and the sink took the text of the log that
    // answers the script's events by a lawful run on the machine; with any other that text for the first lines, up to the cause. In both
    // cases the log keeps the promises: no resource is held twice, each tray receives its line in order, each plan is earliest and
    // least, each none and each budget means what it says, and with bounds trees prove plans and nones.
    ensures run { Asks Run (map string_bytes words.now)
        (λ asked. RunEnds S.left K.taken (H.known shelf.old) source.old source.new sink.old sink.new
        asked result) }

    // And of checking: with `Done` the source was read to its end, what it gave is the text of a log that is lawful with bounds, but
    // for the causes of its budgets, and the sink took the one line of its counts. With `Rejected`, as with any other status, the
    // first lines were those of such a log so far, and nothing is written.
    ensures check { Asks Check (map string_bytes words.now)
        (λ asked. CheckEnds S.left K.taken (H.known shelf.old) source.old source.new
        sink.old sink.new
        asked result) }

    // And of a run that is saved: with `Done` behind that text stands one line, a snapshot of the machine and of where the run ended.
    ensures save { Asks Save (map string_bytes words.now)
        (λ asked. SaveEnds S.left K.taken (H.known shelf.old) source.old source.new
        sink.old sink.new
        asked result) }

    // And of a run that is resumed: with `Done` it is as of a run, on the machine of the snapshot and from where its standing says.
    ensures resume { Asks Resume (map string_bytes words.now)
        (λ asked. ResumeEnds S.left K.taken (H.known shelf.old) source.old source.new
        sink.old sink.new
        asked result) }

    // And of composing: with `Done` the sink took a machine text of the machine that the rack comes to.
    ensures compose { Asks Compose (map string_bytes words.now)
        (λ asked. ComposeEnds K.taken (H.known shelf.old) source.old source.new sink.old sink.new
        asked result) }

    // And of a farm: with `Done` the source was read to its end, and the sink took what its machines told, each line with the
    // machine's number. Of each machine the lines without it are the text of the log that answers, by a lawful run, the events
    // that it was sent.
    ensures farm { Asks Farm (map string_bytes words.now)
        (λ asked. FarmEnds S.left K.taken (H.known shelf.old) source.old source.new
        sink.old sink.new
        asked result) }

    // And of soaking: with `Done` the sink took the line of the counts of a lawful log with bounds, for the machine and the events
    // of the number. Neither shelf nor source is read.
    ensures soak { Asks Soak (map string_bytes words.now) (λ asked. (shelf.new ≡ shelf.old)
        × SoakEnds K.taken source.old source.new sink.old sink.new asked result) }

    // The outside failed.
    ensures shelf { result ≡ Status.Shelf → Rises (H.faults shelf.old) (H.faults shelf.new) }
    ensures amiss { result ≡ Status.Shelf → IfSome (H.known shelf.old) (λ files.
        IfSome (form (map string_bytes words.now)) (λ asked. IsThereFor files asked
        → Rises (H.amiss shelf.old) (H.amiss shelf.new))) }
    ensures source { result ≡ Status.Source
        → Rises (S.faults source.old) (S.faults source.new) }
    ensures sink { result ≡ Status.Sink → Rises (K.faults sink.old) (K.faults sink.new) }

    // Nothing else is left open: if the outside did not fail in this call, and the words, the texts that they name and the input are in
    // order, all was done, or memory ran out; or a log was refused.
    ensures complete { ¬ Rises (H.faults shelf.old) (H.faults shelf.new)
        → ¬ Rises (S.faults source.old) (S.faults source.new)
        → ¬ Rises (K.faults sink.old) (K.faults sink.new)
        → AnswersInOrder (map string_bytes words.now) (H.known shelf.old) (S.left source.old)
        result }
{
    snapshots_are_read_back();
    match read_request(alloc, words) {
        Ok(request) => answer(alloc, &request, shelf, source, sink),
        Err(WordsFault::Memory) => Status::Memory,
        Err(WordsFault::Usage) => Status::Usage,
    }
}
