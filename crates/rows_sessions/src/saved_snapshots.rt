//! Snapshots, and what is written of the machine and the standing that they tell.

ghost use Rattle.std.specs.Prelude.{◌≡◌, IfOk};
ghost use Rattle.tp_session_standing.specs.Sound.{IsSound};

use rows_machine::machines::{DUO, TWIN};
use std::alloc::Global;
use std::test::Fail;
use tp_base::Memory;
use tp_jobs::{Desk, Standing};
use tp_session::{Session, Settings};
use tp_snapshot::{Opened, read_snapshot, write_snapshot};

/// A machine text, and what a snapshot has before it and behind it.
#[derive(Clone, Copy)]
struct Saved {
    machine: &'static str,
    head: &'static str,
    tail: &'static str,
}

/// One sheet, of which the feed alone is released.
const ONE: Saved = Saved {
    machine: DUO,
    head: r#"{"format":1,"jobs":[{"broken":false,"name":"j1","tray":"t"}],"machine":"#,
    tail: concat!(
        r#","now":1,"out":[],"plans":[{"acts":["feed","print2","out"],"goal":"t","#,
        r#""points":[3,5,11,14],"sheet":"j1.1.1","want":"plain M-:F","whole":true}],"#,
        r#""stock":[null],"waiting":[]}"#
    ),
};

/// The engine with the sheet jams: the copy is lost, but its front still runs, and the next copy goes round it.
const JAMMED: Saved = Saved {
    machine: DUO,
    head: r#"{"format":1,"jobs":[{"broken":false,"name":"j1","tray":"t"}],"machine":"#,
    tail: concat!(
        r#","now":6,"out":["ENG2"],"plans":[{"acts":["feed","print2"],"goal":"t","#,
        r#""points":[3,5,11],"sheet":"j1.1.1","want":"plain M-:F","whole":false},"#,
        r#"{"acts":["feed","print1","out"],"goal":"t","points":[9,11,20,23],"#,
        r#""sheet":"j1.1.2","want":"plain M-:F","whole":true}],"#,
        r#""stock":[null],"waiting":[]}"#
    ),
};

/// TWIN with five sheets at its feeder.
const STOCKED: &str = r#"format = 2
lead = 2
window = 200
locations = ["f", "a", "t"]
modules = ["FEED", "L", "R"]
trays = ["t"]

[feeders]
f = "plain"

[stock]
f = 5

[resources]
rf = "FEED"
rr = "R"

[[actions]]
name = "feed"
module = "FEED"
from = "f"
to = "a"
least = 2
most = 2
holds = [{ resource = "rf", begin = ["start", 0], end = ["end", 0] }]

[[actions]]
name = "left"
module = "L"
from = "a"
to = "t"
least = 8
most = 8

[[actions]]
name = "right"
module = "R"
from = "a"
to = "t"
least = 5
most = 20
holds = [{ resource = "rr", begin = ["start", 0], end = ["end", 0] }]
"#;

/// The first sheet is lost as the second one enters the tray, so that its job breaks. Then the other way goes out too, and a third job
/// waits. Three sheets are left of five.
const AFTERMATH: Saved = Saved {
    machine: STOCKED,
    head: concat!(
        r#"{"format":1,"jobs":[{"broken":true,"name":"j1","tray":"t"},"#,
        r#"{"broken":false,"name":"j2","tray":"t"},{"broken":false,"name":"j3","tray":"t"}],"#,
        r#""machine":"#
    ),
    tail: concat!(
        r#","now":8,"out":["L","R"],"plans":[{"acts":["feed","right"],"goal":"t","#,
        r#""points":[5,7,12],"sheet":"j1.1.1","want":"plain --:F","whole":false},"#,
        r#"{"acts":["feed","left"],"goal":"t","points":[3,5,13],"#,
        r#""sheet":"j2.1.1","want":"plain --:F","whole":true}],"#,
        r#""stock":[3],"waiting":[{"sheet":"j3.1.1","want":"plain --:F"}]}"#
    ),
};

/// The snapshot's text. Between quotes JSON writes a machine text as `{:?}` does: what is escaped in it is `"` and LF alone.
fn text_of(alloc: Global, saved: Saved) -> Result<String, Fail> {
    let Saved {
        machine,
        head,
        tail,
    } = saved;
    Ok(format!(in alloc; "{head}{machine:?}{tail}")?)
}

/// What is written of the machine and the standing.
fn written(alloc: Global, opened: &Opened) -> Result<Vec<u8>, Fail>
    requires { IsSound opened.now.machine opened.now.standing }
{
    match write_snapshot(alloc, &opened.machine, &opened.standing) {
        Ok(written) => Ok(written),
        Err(_) => Err(Fail::from("memory")),
    }
}

/// What is written of the machine and the standing that these bytes hold.
fn again(alloc: Global, bytes: &[u8]) -> Result<Vec<u8>, Fail> {
    match read_snapshot(alloc, bytes) {
        Ok(opened) => written(alloc, &opened),
        Err(_) => Err(Fail::from("the snapshot is refused")),
    }
}

/// Brings the desk to the standing, and returns where it stands then.
fn stood<D: Desk>(alloc: Global, desk: &mut D, standing: &Standing) -> Result<Standing, Memory>
    requires sound { D.sound (D.machine desk.old) standing.now }
    ensures stands { IfOk result (λ told. told ≡ standing.entry.now) }
    ensures same_machine { D.machine desk.new ≡ D.machine desk.old }
{
    desk.restore(standing)?;
    desk.standing(alloc)
}

/// What is written of the session's machine and of where it stands, once it was brought to the standing as a desk.
fn written_on(alloc: Global, mut session: Session, standing: &Standing) -> Result<Vec<u8>, Fail>
    requires { IsSound session.standing.machine standing.now }
{
    match stood(alloc, &mut session, standing) {
        Ok(told) => match write_snapshot(alloc, session.machine(), &told) {
            Ok(written) => Ok(written),
            Err(_) => Err(Fail::from("memory")),
        },
        Err(_) => Err(Fail::from("memory")),
    }
}

/// What is written so of a new session on the machine that these bytes hold.
fn by_desk(alloc: Global, bytes: &[u8]) -> Result<Vec<u8>, Fail> {
    match read_snapshot(alloc, bytes) {
        Ok(Opened { machine, standing }) => {
            let settings = Settings {
                budget: None,
                bounds: false,
            };
            match Session::new(alloc, machine, settings) {
                Ok(session) => written_on(alloc, session, &standing),
                Err(_) => Err(Fail::from("memory")),
            }
        }
        Err(_) => Err(Fail::from("the snapshot is refused")),
    }
}

#[test]
fn sessions_stand_as_desks(rt: HostRuntime) -> Result<(), Fail> {
    for saved in [ONE, JAMMED, AFTERMATH] {
        let text = text_of(rt.alloc(), saved)?;
        let written = again(rt.alloc(), text.as_bytes())?;
        let by_desk = by_desk(rt.alloc(), &written)?;
        assert!(rt; by_desk == written);
    }
    Ok(())
}

#[test]
fn snapshots_are_written_again(rt: HostRuntime) -> Result<(), Fail> {
    for saved in [ONE, JAMMED, AFTERMATH] {
        let text = text_of(rt.alloc(), saved)?;
        let first = again(rt.alloc(), text.as_bytes())?;
        let second = again(rt.alloc(), &first)?;
        assert!(rt; first.starts_with(saved.head.as_bytes()));
        assert!(rt; first.ends_with(saved.tail.as_bytes()));
        assert!(rt; first == second);
    }
    Ok(())
}
