//! A run that goes on from a snapshot.

ghost use Rattle.std.specs.Prelude.{◌≡◌, ◌≢◌, ◌≤◌, Some, length, IfErr, IfOk, IfSome, IsSome, unwrap_or};
ghost use Rattle.tp_command.specs.App.{seen};
ghost use Rattle.tp_outside.specs.Outside.{Rises, file_at};
ghost use Rattle.tp_program.specs.ResumeEnds.{IsSaved, NoSnapshot, ResumeEnds, most_snapshot};
ghost use Rattle.tp_program.specs.Runs.{EndsOn};
ghost use Rattle.tp_run_laws.specs.Wholes.{IsWhole};
ghost use Rattle.tp_snapshot.specs.Rules.{IsSnapshot};
ghost use Rattle.tp_session_standing.specs.Sound.{IsSound};
ghost use Rattle.tp_session_standing.specs.StandingStates.{standing_state};
ghost use Rattle.tp_event_rules.specs.States.{SessionState};

use crate::session::{Beginning, run_on};
use crate::{Long, Status};
use std::alloc::Global;
use tp_command::Request;
use tp_outside::{ReadError, Shelf, Sink, Source, read_file};
use tp_session::{Settings, sessions_go_on};
use tp_snapshot::{Opened, SnapFault, read_snapshot};

/// The most bytes of a snapshot.
const MOST_BYTES: usize = 134_217_728;

/// Reads the bytes of this name. An `Err` is the status that all ends with.
fn find_bytes<H: Shelf>(alloc: Global, shelf: &mut H, name: &str) -> Result<Vec<u8>, Status>
    ensures known { IfOk result (λ text. IfSome (H.known shelf.old)
        (λ files. file_at files name.now ≡ Some text.items)) }
    ensures fits { IfOk result (λ text. length text.items ≤ most_snapshot) }
    ensures none { IfErr result (NoSnapshot (H.known shelf.old) name.now) }
    ensures shelf { IfErr result (λ s. s ≡ Status.Shelf
        → Rises (H.faults shelf.old) (H.faults shelf.new)) }
    ensures amiss { IfErr result (λ s. s ≡ Status.Shelf → IfSome (H.known shelf.old) (λ files.
        IsSome (file_at files name.now) → Rises (H.amiss shelf.old) (H.amiss shelf.new))) }
{
    match read_file(alloc, shelf, name, MOST_BYTES) {
        Ok(text) => Ok(text),
        Err(ReadError::Memory) => Err(Status::Memory),
        Err(ReadError::Failed) => Err(Status::Shelf),
        Err(ReadError::TooLong) => Err(Status::TooLong(Long::Snapshot)),
    }
}

/// The machine and the standing that the snapshot of this name tells. An `Err` is the status that all ends with.
fn find_snapshot<H: Shelf>(alloc: Global, shelf: &mut H, name: &str) -> Result<Opened, Status>
    ensures found { IfOk result (λ opened. IsSaved (H.known shelf.old) name.now
        (λ text. IsSnapshot text opened.machine opened.standing)) }
    ensures sound { IfOk result (λ opened. IsSound opened.machine opened.standing) }
    ensures none { IfErr result (NoSnapshot (H.known shelf.old) name.now) }
    ensures shelf { IfErr result (λ s. s ≡ Status.Shelf
        → Rises (H.faults shelf.old) (H.faults shelf.new)) }
    ensures amiss { IfErr result (λ s. s ≡ Status.Shelf → IfSome (H.known shelf.old) (λ files.
        IsSome (file_at files name.now) → Rises (H.amiss shelf.old) (H.amiss shelf.new))) }
{
    let text = match find_bytes(alloc, shelf, name) {
        Ok(text) => text,
        Err(status) => return Err(status),
    };
    match read_snapshot(alloc, &text) {
        Ok(opened) => Ok(opened),
        Err(SnapFault::Memory) => Err(Status::Memory),
        Err(SnapFault::NotJson) => Err(Status::Snapshot(SnapFault::NotJson)),
        Err(SnapFault::Rule(n)) => Err(Status::Snapshot(SnapFault::Rule(n))),
    }
}

/// Runs the script of the source from where the snapshot stands.
fn resume_on<S: Source, K: Sink>(
    alloc: Global,
    opened: Opened,
    settings: Settings,
    source: &mut S,
    sink: &mut K,
) -> Status
    requires sound { IsSound opened.machine opened.standing }
    ensures ends { (start : SessionState)
        → IsWhole opened.machine start (standing_state opened.machine opened.standing)
        → EndsOn opened.machine (unwrap_or settings.budget opened.machine.budget)
        settings.bounds start
        (S.left source.old) (S.left source.new) (K.taken sink.old) (K.taken sink.new) result }
    ensures read { result ≢ Status.Shelf }
    ensures source { result ≡ Status.Source
        → Rises (S.faults source.old) (S.faults source.new) }
    ensures sink { result ≡ Status.Sink → Rises (K.faults sink.old) (K.faults sink.new) }
{
    let Opened { machine, standing } = opened;
    let beginning = Beginning {
        machine,
        settings,
        from: Some(&standing),
    };
    run_on(alloc, beginning, source, sink)
}

/// Reads the snapshot that is asked for, then the script line by line, and writes the log of each event before the next line is
/// handled, as the session would have that was saved. The first check that fails ends it: the shelf, the length and the rules of the
/// snapshot; then as in a run.
pub(crate) fn resume<H: Shelf, S: Source, K: Sink>(
    alloc: Global,
    request: &Request<'_>,
    shelf: &mut H,
    source: &mut S,
    sink: &mut K,
) -> Status
    ensures ends { ResumeEnds S.left K.taken (H.known shelf.old) source.old source.new sink.old
        sink.new (seen request.now) result }
    ensures shelf { result ≡ Status.Shelf → Rises (H.faults shelf.old) (H.faults shelf.new) }
    ensures amiss { result ≡ Status.Shelf → IfSome (H.known shelf.old) (λ files.
        IsSome (file_at files request.now.arg.now)
        → Rises (H.amiss shelf.old) (H.amiss shelf.new)) }
    ensures source { result ≡ Status.Source
        → Rises (S.faults source.old) (S.faults source.new) }
    ensures sink { result ≡ Status.Sink → Rises (K.faults sink.old) (K.faults sink.new) }
{
    sessions_go_on();
    match find_snapshot(alloc, shelf, request.arg) {
        Ok(opened) => {
            let settings = Settings {
                budget: request.budget,
                bounds: request.bounds,
            };
            resume_on(alloc, opened, settings, source, sink)
        }
        Err(status) => status,
    }
}
