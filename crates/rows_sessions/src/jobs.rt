//! Jobs of machines: which are refused, which of their copies wait, and which is tried next.
ghost use Rattle.std.specs.Prelude.{◌≡◌, ◌+◌, ◌<◌, ◌≤◌, ◌^◌, length, IfOk, IsSome, OnOk};
ghost use Rattle.tp_jobs.specs.WaitingCopies.{find_waiting};

use rows_machine::machines::{DUO, machine_of};
use std::alloc::Global;
use std::process::Abort;
use std::test::Fail;
use tp_base::Name;
use tp_jobs::{Blocked, JobFault, Lines};
use tp_machine::{LocId, Machine, Want};
use tp_schedule::SheetId;
use tp_script::{Event, read_line};

const TWO_TRAYS: &str = r#"format = 1
lead = 2
window = 200
locations = ["f", "t", "u"]
modules = ["FEED"]
trays = ["t", "u"]

[feeders]
f = "plain"

[[actions]]
name = "up"
module = "FEED"
from = "f"
to = "t"
least = 2
most = 4

[[actions]]
name = "down"
module = "FEED"
from = "f"
to = "u"
least = 2
most = 4
"#;

fn job_of(alloc: Global, line: &[u8]) -> Result<Event, Fail> {
    if line.len() > 99 {
        return Err(Fail::from("a longer line than a row has"));
    }
    match read_line(alloc, line) {
        Ok(Some(event)) => Ok(event),
        _ => Err(Fail::from("a line without an event")),
    }
}

/// Adds the job.
fn add(lines: &mut Lines, machine: &Machine, job: &Event) -> Result<u32, JobFault>
    requires { length lines.old.jobs + 1 < 2 ^ 32 }
    ensures { length lines.new.jobs ≤ length lines.old.jobs + 1 }
{
    match job {
        Event::Job {
            name,
            tray,
            media,
            groups,
        } => {
            // For the prover: brings length groups < 2^32.
            let _count = groups.len();
            lines.add(machine, *name, *tray, *media, groups.as_slice())
        }
        _ => Err(JobFault::Memory),
    }
}

/// Adds the job of a line.
fn add_line(
    alloc: Global,
    lines: &mut Lines,
    machine: &Machine,
    line: &[u8],
) -> Result<Result<u32, JobFault>, Fail>
    requires { length lines.old.jobs + 1 < 2 ^ 32 }
    ensures { length lines.new.jobs ≤ length lines.old.jobs + 1 }
{
    let job = job_of(alloc, line)?;
    Ok(add(lines, machine, &job))
}

fn put_name(out: &mut Vec<u8>, word: &[u8], name: &Name) -> Result<(), Fail> {
    out.extend_from_slice(word)?;
    out.extend_from_slice(name.as_bytes())?;
    Ok(())
}

fn put_text(out: &mut Vec<u8>, text: &String) -> Result<(), Fail> {
    out.extend_from_slice(text.as_bytes())?;
    Ok(())
}

fn told(alloc: Global, answer: &Result<u32, JobFault>) -> Result<Vec<u8>, Fail> {
    let mut out = Vec::new(alloc);
    match answer {
        Ok(job) => put_text(&mut out, &format!(in alloc; "job {job}")?)?,
        Err(JobFault::UnknownTray(name)) => put_name(&mut out, b"tray ", name)?,
        Err(JobFault::UnknownMedia(name)) => put_name(&mut out, b"media ", name)?,
        Err(JobFault::TwiceNamed(name)) => put_name(&mut out, b"named ", name)?,
        Err(JobFault::TooManyWaiting { waiting, asked }) => {
            put_text(&mut out, &format!(in alloc; "waiting {waiting} {asked}")?)?;
        }
        Err(JobFault::Memory) => return Err(Fail::from("memory")),
    }
    Ok(out)
}

/// The answer for the second job, if none has come.
fn second_told(
    alloc: Global,
    machine: &Machine,
    lines: &mut Lines,
    first: &[u8],
    second: &[u8],
) -> Result<Vec<u8>, Fail>
    requires { length lines.old.jobs ≡ 0 }
{
    let _first = add_line(alloc, lines, machine, first)?;
    let answer = add_line(alloc, lines, machine, second)?;
    told(alloc, &answer)
}

// What a function lets go of at its end is proved anew for each of its ways out. So what is large is lent to a function that may
// fail, and then given to `drop`, which is proved once.
fn told_of_two(
    alloc: Global,
    machine: &Machine,
    first: &[u8],
    second: &[u8],
) -> Result<Vec<u8>, Fail> {
    let mut lines = Lines::new(alloc);
    let told = second_told(alloc, machine, &mut lines, first, second);
    drop(lines);
    told
}

fn look_at_refusals(rt: &impl Abort, alloc: Global, machine: &Machine) -> Result<(), Fail> {
    let rows: [(&[u8], &[u8], &[u8]); 12] = [
        (b"job j1 t plain M-:F", b"job j2 t plain C-:F", b"job 1"),
        (b"job j1 t plain M-:F", b"job j2 x plain M-:F", b"tray x"),
        (b"job j1 t plain M-:F", b"job j2 p plain M-:F", b"tray p"),
        (b"job j1 t plain M-:F", b"job j2 f plain M-:F", b"tray f"),
        (
            b"job j1 t plain M-:F",
            b"job j2 t glossy M-:F",
            b"media glossy",
        ),
        (b"job j1 t plain M-:F", b"job j1 t plain C-:F", b"named j1"),
        (
            b"job j1 t plain M-:F",
            b"job j2 t plain 4096*M-:F",
            b"waiting 1 4096",
        ),
        (
            b"job j1 x plain M-:F",
            b"job j2 t plain 4096*M-:F M-:F",
            b"waiting 0 4097",
        ),
        (
            b"job j1 t plain 4000*M-:F",
            b"job j2 t plain 96*MM:F",
            b"job 1",
        ),
        (
            b"job j1 t plain M-:F",
            b"job j1 x glossy 4096*M-:F",
            b"tray x",
        ),
        (
            b"job j1 t plain M-:F",
            b"job j1 t glossy 4096*M-:F",
            b"media glossy",
        ),
        (
            b"job j1 t plain M-:F",
            b"job j1 t plain 4096*M-:F",
            b"named j1",
        ),
    ];
    for (first, second, wanted) in rows {
        let given = told_of_two(alloc, machine, first, second)?;
        assert_eq!(rt; given.as_slice(), wanted, "{second:?}");
    }
    Ok(())
}

#[test]
fn refusals(rt: HostRuntime) -> Result<(), Fail> {
    let machine = machine_of(rt.alloc(), DUO.as_bytes())?;
    let looked = look_at_refusals(&rt, rt.alloc(), &machine);
    drop(machine);
    looked
}

fn letter(want: Want) -> &'static str {
    match want {
        Want::Blank => "-",
        Want::Mono => "M",
        Want::Colour => "C",
    }
}

/// The copy, and what it wants.
fn put_copy(alloc: Global, out: &mut Vec<u8>, lines: &Lines, copy: SheetId) -> Result<(), Fail>
    requires waits { IsSome (find_waiting copy lines.now.waiting) }
    requires job { copy.job < length lines.now.jobs }
{
    put_name(out, b"", &lines.name_of(copy.job))?;
    let number = copy.number;
    let copy_number = copy.copy;
    let want = lines.want_of(copy);
    let front = letter(want.front);
    let back = letter(want.back);
    put_text(
        out,
        &format!(in alloc; ".{number}.{copy_number} {front}{back} ")?,
    )
}

/// The copies in the order in which they are tried.
fn tried(alloc: Global, lines: &Lines, blocked: &Blocked) -> Result<Vec<u8>, Fail> {
    let mut out = Vec::new(alloc);
    let mut after: Option<SheetId> = None;
    for _ in 0..lines.waiting() {
        match lines.next_to_try(after, blocked) {
            Some(copy) => {
                put_copy(alloc, &mut out, lines, copy)?;
                after = Some(copy);
            }
            None => return Ok(out),
        }
    }
    Ok(out)
}

/// The lines after one job.
fn one_job(alloc: Global, machine: &Machine, job: &[u8]) -> Result<Lines, Fail>
    ensures { IfOk result (λ lines. length lines.jobs ≤ 1) }
{
    let job = job_of(alloc, job)?;
    let mut lines = Lines::new(alloc);
    let _number = add(&mut lines, machine, &job);
    Ok(lines)
}

/// The copies of two groups.
fn two_groups(alloc: Global, machine: &Machine) -> Result<Vec<u8>, Fail> {
    let lines = one_job(alloc, machine, b"job j t plain 2*MM:F C-:B")?;
    let given = tried(alloc, &lines, &Blocked::none());
    drop(lines);
    given
}

fn groups_on_duo(alloc: Global) -> Result<Vec<u8>, Fail> {
    let machine = machine_of(alloc, DUO.as_bytes())?;
    let given = two_groups(alloc, &machine);
    drop(machine);
    given
}

#[test]
fn wants(rt: HostRuntime) -> Result<(), Fail> {
    let given = groups_on_duo(rt.alloc())?;
    assert!(rt; given.as_slice() == b"j.1.1 MM j.2.1 MM j.3.1 C- ".as_slice());
    Ok(())
}

/// Two jobs more, of which the first goes to the other tray.
fn add_two(alloc: Global, lines: &mut Lines, machine: &Machine) -> Result<(), Fail>
    requires { length lines.old.jobs ≤ 1 }
{
    let _second = add_line(alloc, lines, machine, b"job b u plain 2*C-:F")?;
    let _third = add_line(alloc, lines, machine, b"job c t plain -M:F")?;
    Ok(())
}

/// Three jobs of the two trays, in turn.
fn jobs_of_both(alloc: Global, machine: &Machine) -> Result<Lines, Fail> {
    let mut lines = one_job(alloc, machine, b"job a t plain 2*M-:F")?;
    match add_two(alloc, &mut lines, machine) {
        Ok(()) => Ok(lines),
        Err(fail) => {
            drop(lines);
            Err(fail)
        }
    }
}

fn three_jobs(alloc: Global) -> Result<Lines, Fail> {
    let machine = machine_of(alloc, TWO_TRAYS.as_bytes())?;
    let lines = jobs_of_both(alloc, &machine);
    drop(machine);
    lines
}

fn only_blocked(loc: u16) -> Blocked {
    let mut blocked = Blocked::none();
    if loc < 256 {
        blocked.add(LocId(loc));
    }
    blocked
}

fn look_at_both(rt: &impl Abort, alloc: Global, lines: &Lines) -> Result<(), Fail> {
    let given = tried(alloc, lines, &Blocked::none())?;
    assert!(rt; given.as_slice() == b"a.1.1 M- a.2.1 M- b.1.1 C- b.2.1 C- c.1.1 -M ".as_slice());
    let given = tried(alloc, lines, &only_blocked(1))?;
    assert!(rt; given.as_slice() == b"b.1.1 C- b.2.1 C- ".as_slice());
    Ok(())
}

/// Takes the copy that is tried first, and puts it back if asked to.
fn retake(lines: &mut Lines, blocked: &Blocked, back: bool) -> Result<(), Fail> {
    let Some(first) = lines.next_to_try(None, blocked) else {
        return Err(Fail::from("no copy"));
    };
    if lines.is_broken(first.job) || lines.tray_of(first.job) != LocId(2) {
        return Err(Fail::from("another job than the row's"));
    }
    let want = lines.want_of(first);
    lines.taken(first);
    if back && lines.waiting() < 4096 && lines.wait(first, want).is_err() {
        return Err(Fail::from("memory"));
    }
    Ok(())
}

fn copy_of(alloc: Global, lines: &Lines) -> Result<Lines, Fail> {
    match lines.copy(alloc) {
        Ok(copy) => Ok(copy),
        Err(_) => Err(Fail::from("memory")),
    }
}

fn look_at_taken(rt: &impl Abort, alloc: Global, copy: &mut Lines) -> Result<(), Fail> {
    retake(copy, &only_blocked(1), true)?;
    let given = tried(alloc, copy, &Blocked::none())?;
    assert!(rt; given.as_slice() == b"a.1.1 M- a.2.1 M- b.1.1 C- b.2.1 C- c.1.1 -M ".as_slice());
    retake(copy, &only_blocked(1), false)?;
    let given = tried(alloc, copy, &Blocked::none())?;
    assert!(rt; given.as_slice() == b"a.1.1 M- a.2.1 M- b.2.1 C- c.1.1 -M ".as_slice());
    Ok(())
}

fn look_at_copy(rt: &impl Abort, alloc: Global, lines: &Lines) -> Result<(), Fail> {
    let mut copy = copy_of(alloc, lines)?;
    let looked = look_at_taken(rt, alloc, &mut copy);
    drop(copy);
    looked
}

/// Takes the only copy that waits, and lets the next copy of its sheet wait.
fn renew(lines: &mut Lines) -> Result<SheetId, Fail> {
    let Some(first) = lines.next_to_try(None, &Blocked::none()) else {
        return Err(Fail::from("no copy"));
    };
    let want = lines.want_of(first);
    lines.taken(first);
    if lines.waiting() > 0 || first.copy == u32::MAX {
        return Err(Fail::from("another copy than the row's"));
    }
    match lines.again(first, want) {
        Ok(next) => Ok(next),
        Err(_) => Err(Fail::from("memory")),
    }
}

/// Breaks the job of the copy that is tried first. Tells whether the job of the one that is tried first then is broken.
fn is_broken_after(lines: &mut Lines) -> Result<bool, Fail> {
    if let Some(first) = lines.next_to_try(None, &Blocked::none()) {
        lines.break_job(first.job);
    }
    match lines.next_to_try(None, &Blocked::none()) {
        Some(first) => Ok(lines.is_broken(first.job)),
        None => Err(Fail::from("no copy")),
    }
}

fn look_at_next(rt: &impl Abort, alloc: Global, lines: &mut Lines) -> Result<(), Fail> {
    let next = renew(lines)?;
    assert!(rt; next.copy == 2);
    let given = tried(alloc, lines, &Blocked::none())?;
    assert!(rt; given.as_slice() == b"j.1.2 MM ".as_slice());
    assert!(rt; is_broken_after(lines)?);
    assert!(rt; lines.waiting() == 1);
    Ok(())
}

/// Takes a copy, breaks a job, and goes back to a mark made before. Tells whether the job was broken.
fn change_and_undo(lines: &mut Lines) -> Result<bool, Fail> {
    match lines.mark() {
        Ok(()) => {}
        Err(_) => return Err(Fail::from("memory")),
    }
    retake(lines, &only_blocked(1), false)?;
    let broken = is_broken_after(lines)?;
    lines.undo();
    Ok(broken)
}

fn is_first_broken(lines: &Lines) -> Result<bool, Fail> {
    match lines.next_to_try(None, &Blocked::none()) {
        Some(first) => Ok(lines.is_broken(first.job)),
        None => Err(Fail::from("no copy")),
    }
}

fn look_back(rt: &impl Abort, alloc: Global, lines: &mut Lines) -> Result<(), Fail> {
    assert!(rt; change_and_undo(lines)?);
    assert!(rt; !is_first_broken(lines)?);
    look_at_both(rt, alloc, lines)
}

/// As they are, gone back to, and a copy of them.
fn look_at_three(rt: &impl Abort, alloc: Global, lines: &mut Lines) -> Result<(), Fail> {
    look_at_both(rt, alloc, lines)?;
    look_back(rt, alloc, lines)?;
    look_at_copy(rt, alloc, lines)
}

#[test]
fn two_lines(rt: HostRuntime) -> Result<(), Fail> {
    let mut lines = three_jobs(rt.alloc())?;
    let looked = look_at_three(&rt, rt.alloc(), &mut lines);
    drop(lines);
    looked
}

fn one_on_duo(alloc: Global) -> Result<Lines, Fail> {
    let machine = machine_of(alloc, DUO.as_bytes())?;
    let lines = one_job(alloc, &machine, b"job j t plain MM:F");
    drop(machine);
    lines
}

#[test]
fn again_and_broken(rt: HostRuntime) -> Result<(), Fail> {
    let mut lines = one_on_duo(rt.alloc())?;
    let looked = look_at_next(&rt, rt.alloc(), &mut lines);
    drop(lines);
    looked
}

/// A job of one sheet, with this number in its name. Where 4,096 copies wait, the first is taken.
fn add_numbered(
    alloc: Global,
    lines: &mut Lines,
    machine: &Machine,
    number: u32,
) -> Result<(), Fail>
    requires { length lines.old.jobs + 1 < 2 ^ 32 }
    ensures { OnOk result (length lines.new.jobs ≤ length lines.old.jobs + 1) }
{
    if lines.waiting() == 4096
        && let Some(first) = lines.next_to_try(None, &Blocked::none())
    {
        lines.taken(first);
    }
    let line = format!(in alloc; "job j{number} t plain M-:F")?;
    match add_line(alloc, lines, machine, line.as_bytes())? {
        Ok(_) => Ok(()),
        Err(_) => Err(Fail::from("a job is refused")),
    }
}

fn add_ten_thousand(alloc: Global, lines: &mut Lines, machine: &Machine) -> Result<(), Fail>
    requires { length lines.old.jobs ≡ 0 }
    ensures { OnOk result (length lines.new.jobs ≤ 10000) }
{
    for number in 0..10_000 {
        add_numbered(alloc, lines, machine, number)?;
    }
    Ok(())
}

/// Where ten thousand jobs came, one more of a name among theirs is refused.
fn look_at_one_more(
    rt: &impl Abort,
    alloc: Global,
    lines: &mut Lines,
    machine: &Machine,
) -> Result<(), Fail>
    requires { length lines.old.jobs ≡ 0 }
{
    add_ten_thousand(alloc, lines, machine)?;
    assert!(rt; lines.waiting() == 4096);
    let answer = add_line(alloc, lines, machine, b"job j77 t plain M-:F")?;
    let given = told(alloc, &answer)?;
    assert!(rt; given.as_slice() == b"named j77".as_slice());
    Ok(())
}

fn look_at_ten_thousand(rt: &impl Abort, alloc: Global, machine: &Machine) -> Result<(), Fail> {
    let mut lines = Lines::new(alloc);
    let looked = look_at_one_more(rt, alloc, &mut lines, machine);
    drop(lines);
    looked
}

#[test]
fn ten_thousand(rt: HostRuntime) -> Result<(), Fail> {
    let machine = machine_of(rt.alloc(), DUO.as_bytes())?;
    let looked = look_at_ten_thousand(&rt, rt.alloc(), &machine);
    drop(machine);
    looked
}
