//! A script answered on a machine.

ghost use Rattle.std.specs.Prelude.{◌≡◌, ◌≢◌, [], Some, IfErr, IfOk, IfSome, IsErrOf, OnOk, unwrap_or};
ghost use Rattle.tp_outside.specs.Outside.{IsCounted, Rises};
ghost use Rattle.tp_program.specs.Beginnings.{CanBegin, begun, first_state, standing_in};
ghost use Rattle.tp_program.specs.Runs.{EndsBy, EndsOn};
ghost use Rattle.tp_run_laws.specs.Wholes.{IsWhole};
ghost use Rattle.tp_session.specs.Sessions.{Tells};
ghost use Rattle.tp_stream.specs.Scripts.{IsStopped, IsTaken};
ghost use Rattle.tp_stream.specs.declared.stop.Stop.{Stop};
ghost use Rattle.tp_event_rules.specs.States.{SessionState};

use crate::{Long, Status};
use std::alloc::Global;
use tp_base::Memory;
use tp_jobs::Standing;
use tp_machine::Machine;
use tp_outside::{Sink, Source};
use tp_session::{Session, Settings, sessions_go_on};
use tp_stream::{Stop, answer_script};

/// What a session is made of: a machine, settings, and where a standing says that it begins, if not with nothing.
pub(crate) struct Beginning<'a> {
    pub(crate) machine: Machine,
    pub(crate) settings: Settings,
    pub(crate) from: Option<&'a Standing>,
}

/// A session that begins so.
fn begin(alloc: Global, beginning: Beginning<'_>) -> Result<Session, Memory>
    requires sound { CanBegin beginning.machine (standing_in beginning.from) }
    ensures begins { IfOk result (λ s. s.standing ≡ begun beginning.entry.machine
        beginning.entry.settings.budget beginning.entry.settings.bounds
        (standing_in beginning.entry.from)) }
    ensures fresh { IfOk result (λ s. (s.answered ≡ 0) × (s.text ≡ [])) }
{
    let Beginning {
        machine,
        settings,
        from,
    } = beginning;
    match from {
        None => Session::new(alloc, machine, settings),
        Some(standing) => {
            let mut session = Session::new(alloc, machine, settings)?;
            session.restore(standing)?;
            Ok(session)
        }
    }
}

/// Answers the script of the source by a session that begins so, and gives the session back as it stands then.
pub(crate) fn answer_on<S: Source, K: Sink>(
    alloc: Global,
    beginning: Beginning<'_>,
    source: &mut S,
    sink: &mut K,
) -> Result<Session, Stop>
    requires sound { CanBegin beginning.machine (standing_in beginning.from) }
    ensures all { IfOk result (λ s. IsTaken Tells (begun beginning.entry.machine
        beginning.entry.settings.budget beginning.entry.settings.bounds
        (standing_in beginning.entry.from)) (S.left source.old) (K.taken sink.old) s.standing
        (S.left source.new) (K.taken sink.new)) }
    ensures end { OnOk result (IfSome (S.left source.old) (λ _. S.left source.new ≡ Some [])) }
    ensures stops { IfErr result (λ stop. IsStopped Tells (begun beginning.entry.machine
        beginning.entry.settings.budget beginning.entry.settings.bounds
        (standing_in beginning.entry.from)) (S.left source.old) (K.taken sink.old) stop
        (S.left source.new) (K.taken sink.new)) }
    ensures source { IsErrOf result Stop.Source
        → Rises (S.faults source.old) (S.faults source.new) }
    ensures sink { IsErrOf result Stop.Sink → Rises (K.faults sink.old) (K.faults sink.new) }
    ensures sink_counted { IsCounted (K.faults sink.old) (K.faults sink.new) }
{
    match begin(alloc, beginning) {
        Ok(session) => answer_script(alloc, session, source, sink),
        Err(_) => Err(Stop::Memory),
    }
}

/// The status that tells why the answering of a script stopped. No line of a script is refused.
pub(crate) fn status_of(stop: Stop) -> Status
    requires { stop ≢ Stop.Refused }
    ensures cause { EndsBy ⊥ (λ cause. stop ≡ cause) result }
    ensures read { result ≢ Status.Shelf }
{
    match stop {
        Stop::Memory => Status::Memory,
        Stop::Source => Status::Source,
        Stop::Sink => Status::Sink,
        Stop::Line(n) => Status::TooLong(Long::Line(n)),
        Stop::Lines => Status::TooLong(Long::Lines),
        Stop::Refused => unreachable!(),
    }
}

/// Ends a session whose script was answered.
fn end(_session: Session) -> Status
    ensures { result ≡ Status.Done }
{
    Status::Done
}

/// Runs the script of the source by a session that begins so, and tells how the run ended.
pub(crate) fn run_on<S: Source, K: Sink>(
    alloc: Global,
    beginning: Beginning<'_>,
    source: &mut S,
    sink: &mut K,
) -> Status
    requires sound { CanBegin beginning.machine (standing_in beginning.from) }
    ensures ends { (whole : SessionState) → IsWhole beginning.entry.machine whole
        (first_state beginning.entry.machine (standing_in beginning.entry.from))
        → EndsOn beginning.entry.machine
        (unwrap_or beginning.entry.settings.budget beginning.entry.machine.budget)
        beginning.entry.settings.bounds whole
        (S.left source.old) (S.left source.new) (K.taken sink.old) (K.taken sink.new) result }
    ensures read { result ≢ Status.Shelf }
    ensures source { result ≡ Status.Source
        → Rises (S.faults source.old) (S.faults source.new) }
    ensures sink { result ≡ Status.Sink → Rises (K.faults sink.old) (K.faults sink.new) }
{
    sessions_go_on();
    match answer_on(alloc, beginning, source, sink) {
        Ok(session) => end(session),
        Err(stop) => status_of(stop),
    }
}
