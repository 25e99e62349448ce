//! A run whose session is saved: a script answered on the machine of a text, and then a snapshot.

ghost use Rattle.std.specs.Prelude.{◌≡◌, ◌++◌, ◌∷◌, [], codes, IfOk, IfSome, IsSome, unwrap_or};
ghost use Rattle.tp_command.specs.App.{seen};
ghost use Rattle.tp_outside.specs.Outside.{Rises, file_at};
ghost use Rattle.tp_program.specs.SaveEnds.{EndsWithLine, IsSavedLine, SaveEnds, SavesOn};
ghost use Rattle.tp_session_standing.specs.Sound.{IsSound};
ghost use Rattle.tp_session_standing.specs.StandingStates.{standing_of};

use crate::Status;
use crate::machine::find_machine;
use crate::session::{Beginning, answer_on, status_of};
use std::alloc::Global;
use tp_base::Memory;
use tp_command::Request;
use tp_machine::Machine;
use tp_outside::{Failed, Shelf, Sink, Source, write_all};
use tp_session::{Session, Settings, sessions_go_on, sessions_stand_soundly};
use tp_snapshot::write_snapshot;

/// The snapshot as a line.
fn line_of(alloc: Global, snapshot: &[u8]) -> Result<Vec<u8>, Memory>
    ensures { IfOk result (λ line. line.items ≡ codes "= " ++ snapshot.now ++ 10 ∷ []) }
{
    let mut line = Vec::new(alloc);
    line.extend_from_slice(b"= ")?;
    line.extend_from_slice(snapshot)?;
    line.push(b'\n')?;
    Ok(line)
}

/// The line that tells where the session stands.
fn saved_line(alloc: Global, session: &Session) -> Result<Vec<u8>, Memory>
    requires { IsSound session.now.standing.machine
        (standing_of session.now.standing.machine session.now.standing.state) }
    ensures { IfOk result (λ line. IsSavedLine session.now.standing.machine
        (standing_of session.now.standing.machine session.now.standing.state) line.items) }
{
    let standing = session.standing(alloc)?;
    let snapshot = write_snapshot(alloc, session.machine(), &standing)?;
    line_of(alloc, &snapshot)
}

/// Writes that line.
fn write_line<K: Sink>(alloc: Global, session: &Session, sink: &mut K) -> Status
    requires { IsSound session.now.standing.machine
        (standing_of session.now.standing.machine session.now.standing.state) }
    ensures ends { EndsWithLine session.now.standing.machine
        (standing_of session.now.standing.machine session.now.standing.state)
        (K.taken sink.old) (K.taken sink.new) result }
    ensures sink { result ≡ Status.Sink → Rises (K.faults sink.old) (K.faults sink.new) }
{
    let line = match saved_line(alloc, session) {
        Ok(line) => line,
        Err(_) => return Status::Memory,
    };
    match write_all(sink, &line) {
        Ok(()) => Status::Done,
        Err(Failed) => Status::Sink,
    }
}

/// Runs the script of the source on the machine, and writes the line behind it.
fn save_on<S: Source, K: Sink>(
    alloc: Global,
    machine: Machine,
    settings: Settings,
    source: &mut S,
    sink: &mut K,
) -> Status
    ensures ends { SavesOn machine (unwrap_or settings.budget machine.budget) settings.bounds
        (S.left source.old) (S.left source.new) (K.taken sink.old) (K.taken sink.new) result }
    ensures source { result ≡ Status.Source
        → Rises (S.faults source.old) (S.faults source.new) }
    ensures sink { result ≡ Status.Sink → Rises (K.faults sink.old) (K.faults sink.new) }
{
    sessions_go_on();
    sessions_stand_soundly();
    let beginning = Beginning {
        machine,
        settings,
        from: None,
    };
    match answer_on(alloc, beginning, source, sink) {
        Ok(session) => write_line(alloc, &session, sink),
        Err(stop) => status_of(stop),
    }
}

/// Does what a run does, and then writes one line: where the session stands after the script. The first check that fails ends it, as
/// in a run; want of memory for the line, and a sink that fails at it, come last.
pub(crate) fn save<H: Shelf, S: Source, K: Sink>(
    alloc: Global,
    request: &Request<'_>,
    shelf: &mut H,
    source: &mut S,
    sink: &mut K,
) -> Status
    ensures ends { SaveEnds S.left K.taken (H.known shelf.old) source.old source.new sink.old
        sink.new (seen request.now) result }
    ensures shelf { result ≡ Status.Shelf → Rises (H.faults shelf.old) (H.faults shelf.new) }
    ensures amiss { result ≡ Status.Shelf → IfSome (H.known shelf.old) (λ files.
        IsSome (file_at files request.now.arg.now)
        → Rises (H.amiss shelf.old) (H.amiss shelf.new)) }
    ensures source { result ≡ Status.Source
        → Rises (S.faults source.old) (S.faults source.new) }
    ensures sink { result ≡ Status.Sink → Rises (K.faults sink.old) (K.faults sink.new) }
{
    match find_machine(alloc, shelf, request.arg) {
        Ok(machine) => {
            let settings = Settings {
                budget: request.budget,
                bounds: request.bounds,
            };
            save_on(alloc, machine, settings, source, sink)
        }
        Err(status) => status,
    }
}
