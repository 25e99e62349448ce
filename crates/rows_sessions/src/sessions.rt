//! What a session keeps, and probes of it.
ghost use Rattle.std.specs.Prelude.{◌≡◌, [], IfOk};
ghost use Rattle.tp_script.specs.Printed.{IsEchoed};

use rows_machine::machines::{DUO, LINE, machine_of};
use std::alloc::Global;
use std::test::Fail;
use tp_script::{Event, LineFault, read_printed};
use tp_session::{Probe, Session, Settings};

pub(crate) fn session_on(alloc: Global, text: &[u8], budget: Option<u32>) -> Result<Session, Fail>
    ensures { IfOk result (λ session. (session.answered ≡ 0) × (session.text ≡ [])) }
{
    let machine = machine_of(alloc, text)?;
    let settings = Settings {
        budget,
        bounds: false,
    };
    match Session::new(alloc, machine, settings) {
        Ok(session) => Ok(session),
        Err(_) => Err(Fail::from("memory")),
    }
}

fn event_of(alloc: Global, line: &[u8]) -> Result<Event, Fail>
    ensures { IfOk result IsEchoed }
{
    if line.len() > 99 {
        return Err(Fail::from("a longer line than a row has"));
    }
    match read_printed(alloc, line) {
        Ok(event) => Ok(event),
        Err(LineFault::Syntax) => Ok(Event::Bad),
        Err(LineFault::Memory) => Err(Fail::from("memory")),
    }
}

pub(crate) fn take_line(alloc: Global, session: &mut Session, line: &[u8]) -> Result<(), Fail> {
    if session.events() > 999 {
        return Err(Fail::from("more lines than a row has"));
    }
    let event = event_of(alloc, line)?;
    match session.event(&event) {
        Ok(()) => Ok(()),
        Err(_) => Err(Fail::from("memory")),
    }
}

fn take_lines(alloc: Global, session: &mut Session, lines: &[&[u8]]) -> Result<(), Fail> {
    for line in lines {
        take_line(alloc, session, line)?;
    }
    Ok(())
}

fn text_after(alloc: Global, session: &mut Session, lines: &[&[u8]]) -> Result<Vec<u8>, Fail> {
    take_lines(alloc, session, lines)?;
    Ok(session.text().to_vec(alloc)?)
}

/// What is kept after a script: the moment, how many events came, and how many plans are live.
type KeptCounts = (u32, u32, u32);

fn kept(session: &Session) -> KeptCounts {
    (session.now(), session.events(), session.schedule().len())
}

/// What is kept after the first script, and the text of the second.
fn kept_between(
    alloc: Global,
    session: &mut Session,
    first: &[&[u8]],
    second: &[&[u8]],
) -> Result<(KeptCounts, Vec<u8>), Fail> {
    take_lines(alloc, session, first)?;
    let kept = kept(session);
    session.clear_text();
    Ok((kept, text_after(alloc, session, second)?))
}

fn kept_on_duo(
    alloc: Global,
    first: &[&[u8]],
    second: &[&[u8]],
) -> Result<(KeptCounts, Vec<u8>), Fail> {
    let mut session = session_on(alloc, DUO.as_bytes(), None)?;
    let kept = kept_between(alloc, &mut session, first, second);
    drop(session);
    kept
}

#[test]
fn what_a_session_keeps(rt: HostRuntime) -> Result<(), Fail> {
    let first: [&[u8]; 2] = [b"job j1 t plain M-:F", b"clock 1"];
    let (kept, text) = kept_on_duo(rt.alloc(), &first, &[b"clock 14"])?;
    let wanted = b"> clock 14\n\
                   release j1.1.1 2 print2 5 11\n\
                   release j1.1.1 3 out 11 14\n\
                   done j1.1.1 t 14\n";
    assert!(rt; kept == (1, 2, 1));
    assert!(rt; text.as_slice() == wanted.as_slice());
    Ok(())
}

/// A machine text, the budget, the lines of a script, and an event.
#[derive(Clone, Copy)]
struct Probed {
    machine: &'static str,
    budget: Option<u32>,
    lines: &'static [&'static [u8]],
    event: &'static [u8],
}

/// What a probe of the event tells after the script, and whether all that can be seen is as before.
fn probe_after(alloc: Global, session: &mut Session, row: Probed) -> Result<(Probe, bool), Fail> {
    let text = text_after(alloc, session, row.lines)?;
    let before = kept(session);
    let event = event_of(alloc, row.event)?;
    match session.probe(&event) {
        Ok(told) => Ok((
            told,
            kept(session) == before && session.text() == text.as_slice(),
        )),
        Err(_) => Err(Fail::from("memory")),
    }
}

fn probe_of(alloc: Global, row: Probed) -> Result<(Probe, bool), Fail> {
    let mut session = session_on(alloc, row.machine.as_bytes(), row.budget)?;
    let told = probe_after(alloc, &mut session, row);
    drop(session);
    told
}

/// A row on DUO by the machine's budget.
fn on_duo(lines: &'static [&'static [u8]], event: &'static [u8]) -> Probed {
    Probed {
        machine: DUO,
        budget: None,
        lines,
        event,
    }
}

#[test]
fn probes(rt: HostRuntime) -> Result<(), Fail> {
    let one: &[u8] = b"job j1 t plain M-:F";
    let two: &[u8] = b"job j2 t plain C-:F";
    let rows: [(Probed, Probe); 9] = [
        (on_duo(&[], one), Probe::Ends(14)),
        (on_duo(&[b"job j1 t plain M-:F"], two), Probe::Ends(17)),
        (on_duo(&[b"job j1 t plain M-:F"], one), Probe::Refused),
        (on_duo(&[], b"clock 1"), Probe::Refused),
        (on_duo(&[], b"job j1 p plain M-:F"), Probe::Refused),
        (on_duo(&[b"off ENG1", b"off ENG2"], one), Probe::Never),
        (
            on_duo(&[b"off ENG1", b"job j1 t plain C-:F"], two),
            Probe::Waits,
        ),
        (
            Probed {
                budget: Some(1),
                ..on_duo(&[], one)
            },
            Probe::Spent(14),
        ),
        (
            Probed {
                machine: LINE,
                ..on_duo(&[b"job big t plain 256*M-:F"], b"job j2 t plain M-:F")
            },
            Probe::Full,
        ),
    ];
    for (row, wanted) in rows {
        let (told, stays) = probe_of(rt.alloc(), row)?;
        let event = row.event;
        assert!(rt; told == wanted, "{event:?}");
        assert!(rt; stays);
    }
    Ok(())
}
