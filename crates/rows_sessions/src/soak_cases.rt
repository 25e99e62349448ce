//! The machine and the script that are generated from a number.

use std::alloc::Global;
use std::test::Fail;
use tp_machine::Machine;
use tp_script::{Event, print_event};
use tp_soak::soak_case;

/// The least ticks of a print by each engine of a machine.
fn leasts_in(alloc: Global, machine: &Machine) -> Result<Vec<u32>, Fail> {
    let mut leasts = Vec::new(alloc);
    for action in machine.actions.as_slice() {
        if action.mono {
            leasts.push(action.least)?;
        }
    }
    Ok(leasts)
}

/// The least ticks of a print by each engine of the machine that a number gives.
fn leasts_of(alloc: Global, number: u32) -> Result<Vec<u32>, Fail> {
    let case = soak_case(alloc, number).ok().ok_or("memory")?;
    let leasts = leasts_in(alloc, &case.machine);
    drop(case);
    leasts
}

/// A script with a line for each event.
fn script_with(alloc: Global, events: &[Event]) -> Result<Vec<u8>, Fail> {
    let mut text = Vec::new(alloc);
    for event in events {
        print_event(event, &mut text).ok().ok_or("memory")?;
        text.push(b'\n')?;
    }
    Ok(text)
}

/// The script that a number gives.
fn script_of(alloc: Global, number: u32) -> Result<Vec<u8>, Fail> {
    let case = soak_case(alloc, number).ok().ok_or("memory")?;
    let script = script_with(alloc, &case.events);
    drop(case);
    script
}

const FIRST_SCRIPT: &[u8] = b"job j1 t plain 3*M-:F\nclock 20\n\
    job j2 t plain M-:F\nclock 30\n\
    job j3 t plain 3*M-:F\nclock 31\n\
    job j4 t plain 3*C-:F\nclock 41\n\
    job j5 t plain C-:F\nclock 48\n\
    job j6 t plain 3*M-:F\njam ENG1\nclock 64\n\
    job j7 t plain C-:F\nclock 79\n\
    job j8 t plain C-:F\non ENG1\nclock 82\n\
    job j9 t plain 3*M-:F\nclock 88\n\
    job j10 t plain 3*M-:F\nclock 100\n\
    job j11 t plain 3*M-:F\nclock 114\n\
    job j12 t plain M-:F\nclock 123\nclock 523\n";

const SEVENTH_SCRIPT: &[u8] = b"job j1 t plain 3*C-:F\nclock 15\n\
    job j2 t plain 3*C-:F\nclock 29\n\
    job j3 t plain 3*C-:F\nclock 40\n\
    job j4 t plain 3*C-:F\nclock 43\n\
    job j5 t plain 2*M-:F\nclock 54\n\
    job j6 t plain 3*M-:F\njam ENG1\nclock 62\n\
    job j7 t plain M-:F\nclock 64\n\
    job j8 t plain 3*C-:F\non ENG1\nclock 78\n\
    job j9 t plain 3*M-:F\nclock 92\n\
    job j10 t plain 2*M-:F\nclock 103\n\
    job j11 t plain C-:F\nclock 119\n\
    job j12 t plain M-:F\nclock 128\nclock 528\n";

#[test]
fn cases_that_are_made(rt: HostRuntime) -> Result<(), Fail> {
    let rows: [(u32, &[u32], &[u8]); 2] = [
        (1, &[10, 5, 7, 7], FIRST_SCRIPT),
        (7, &[10, 8, 6], SEVENTH_SCRIPT),
    ];
    for (number, leasts, script) in rows {
        assert!(rt;
            leasts_of(rt.alloc(), number)?.as_slice() == leasts,
            "leasts of {number}"
        );
        assert!(rt;
            script_of(rt.alloc(), number)?.as_slice() == script,
            "script of {number}"
        );
    }
    Ok(())
}
