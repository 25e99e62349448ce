//! Records of a log, and the lines that are written for them.
ghost use Rattle.std.specs.Prelude.{◌≡◌, ◌∷◌, [], IfOk};
ghost use Rattle.tp_log.specs.Records.{IsPrintable};

use std::alloc::Global;
use std::test::Fail;
use tp_base::{Items, Memory, Name, Tick};
use tp_log::print_record;
use tp_schedule::{Cause, Record, SheetName};

pub(crate) fn name_of(text: &[u8]) -> Result<Name, Fail> {
    match Name::read(text) {
        Some(name) => Ok(name),
        None => Err(Fail::from("a name of the rows is refused")),
    }
}

/// Fails where the record's line is another one.
fn has_line(alloc: Global, rec: &Record, line: &[u8]) -> Result<(), Fail>
    requires { IsPrintable rec.now }
{
    let mut out = Vec::new(alloc);
    out.extend_from_slice(b"before ")?;
    print_record(rec, &mut out).ok().ok_or("memory")?;
    if out.as_slice().strip_prefix(b"before ") == Some(line) {
        Ok(())
    } else {
        Err(Fail::from("another line than the row's"))
    }
}

fn is_line(alloc: Global, rec: Record, line: &[u8]) -> Result<(), Fail>
    requires { IsPrintable rec }
{
    let told = has_line(alloc, &rec, line);
    drop(rec);
    told
}

fn first() -> Result<SheetName, Fail> {
    Ok(SheetName {
        job: name_of(b"j1")?,
        number: 1,
        copy: 1,
    })
}

fn two<T: Drop>(alloc: Global, one: T, other: T) -> Result<Items<T>, Memory>
    ensures { IfOk result (λ items. items ≡ one ∷ other ∷ []) }
{
    let mut items = Items::new(alloc);
    items.push(one)?;
    items.push(other)?;
    Ok(items)
}

#[test]
fn plans(rt: HostRuntime) -> Result<(), Fail> {
    let alloc = rt.alloc();
    let sheet = first()?;
    let mut points = two::<Tick>(alloc, 3, 5).ok().ok_or("memory")?;
    points.push(8).ok().ok_or("memory")?;
    let acts = two(alloc, name_of(b"feed")?, name_of(b"out")?)
        .ok()
        .ok_or("memory")?;
    let place = name_of(b"t")?;
    is_line(
        alloc,
        Record::Plan {
            sheet,
            place,
            points,
            acts,
        },
        b"plan j1.1.1 t 3 feed 5 out 8\n",
    )?;
    let points = two::<Tick>(alloc, 3, 4294967295).ok().ok_or("memory")?;
    is_line(
        alloc,
        Record::Move { sheet, points },
        b"move j1.1.1 3 4294967295\n",
    )
}

#[test]
fn answers(rt: HostRuntime) -> Result<(), Fail> {
    let alloc = rt.alloc();
    let sheet = first()?;
    let tray = name_of(b"t")?;
    let goal = Some(tray);
    let none = Record::Never { sheet, goal };
    is_line(alloc, none, b"none j1.1.1 t\n")?;
    let no_purge = Record::Never { sheet, goal: None };
    is_line(alloc, no_purge, b"none j1.1.1 *\n")?;
    let budget = Record::Budget {
        sheet,
        goal,
        bound: 17,
    };
    is_line(alloc, budget, b"budget j1.1.1 t 17\n")?;
    let full = Record::FullUp { sheet };
    is_line(alloc, full, b"full j1.1.1\n")?;
    let release = Record::Release {
        sheet,
        act: 1,
        name: name_of(b"feed")?,
        start: 3,
        end: 5,
    };
    is_line(alloc, release, b"release j1.1.1 1 feed 3 5\n")?;
    let done = Record::Done {
        sheet,
        place: tray,
        at: 14,
    };
    is_line(alloc, done, b"done j1.1.1 t 14\n")
}

#[test]
fn repairs(rt: HostRuntime) -> Result<(), Fail> {
    let alloc = rt.alloc();
    let sheet = first()?;
    let lost = Record::Lost { sheet };
    is_line(alloc, lost, b"lost j1.1.1\n")?;
    let recall = Record::Recall { sheet, act: 2 };
    is_line(alloc, recall, b"recall j1.1.1 2\n")?;
    let withdraw = Record::Withdraw { sheet };
    is_line(alloc, withdraw, b"withdraw j1.1.1\n")?;
    let cut = Record::Cut { sheet };
    is_line(alloc, cut, b"cut j1.1.1\n")?;
    let purge = Record::Purge { sheet };
    is_line(alloc, purge, b"purge j1.1.1\n")?;
    let again = Record::Again { sheet };
    is_line(alloc, again, b"again j1.1.1\n")?;
    let stuck = Record::Stuck {
        sheet,
        module: name_of(b"OUT")?,
    };
    is_line(alloc, stuck, b"stuck j1.1.1 OUT\n")?;
    let broken = Record::Broken { job: sheet.job };
    is_line(alloc, broken, b"broken j1\n")?;
    let gone = Record::Drop { sheet };
    is_line(alloc, gone, b"drop j1.1.1\n")
}

fn is_refused(alloc: Global, cause: Cause, line: &[u8]) -> Result<(), Fail> {
    is_line(alloc, Record::Refused { cause }, line)
}

#[test]
fn refusals(rt: HostRuntime) -> Result<(), Fail> {
    let alloc = rt.alloc();
    let name = name_of(b"x")?;
    is_refused(alloc, Cause::Syntax, b"refused syntax\n")?;
    is_refused(alloc, Cause::Tray(name), b"refused tray x\n")?;
    is_refused(alloc, Cause::Media(name), b"refused media x\n")?;
    is_refused(alloc, Cause::Named(name), b"refused named x\n")?;
    is_refused(alloc, Cause::Waiting, b"refused waiting\n")?;
    is_refused(alloc, Cause::Back(30), b"refused back 30\n")?;
    is_refused(alloc, Cause::End, b"refused end\n")?;
    is_refused(alloc, Cause::Module(name), b"refused module x\n")?;
    is_refused(alloc, Cause::Out(name), b"refused out x\n")?;
    is_refused(alloc, Cause::NotOn(name), b"refused noton x\n")?;
    is_refused(alloc, Cause::Feeder(name), b"refused feeder x\n")?;
    is_refused(alloc, Cause::Endless(name), b"refused endless x\n")?;
    is_refused(alloc, Cause::Stock(name), b"refused stock x\n")
}
