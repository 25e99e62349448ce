//! Runs the cases of the files that the words name. Prints the name of each case with `ok`, or
//! how the case ended if it ended otherwise.
//!
//! A case is one run of the program. It begins with a line `case NAME`. Its other lines may have
//! any order, except for those of one text:
//!
//! - `# ..`: a remark.
//! - `$ WORD ..`: the words of the command line. `''` is the empty word. `text` names the case's
//!   own text, and any other name a file.
//! - `| LINE`, `< LINE`, `> LINE`: a line of the own text, of the input, of the wanted output.
//!   `\n`, `\r` and `\t` stand for LF, CR and TAB. A line that ends with a backslash has no LF.
//! - `text HOW`, `input HOW`, `output HOW`: more of that text. HOW is one of
//!   - `file NAME`: the bytes of a file;
//!   - `times N PIECE`: the piece, N times;
//!   - `swap OLD => NEW`: no more, but the first OLD in the text so far becomes NEW;
//!   - `kept`: the output of the last case that keeps it;
//!   - `snapshot`: the snapshot at the end of that output.
//! - `status N LINE`: the exit status and the line on standard error. A line `input too long`
//!   also says what is too long. Without this line the run must end well.
//! - `begins`: the output need only begin with the wanted one.
//! - `plain`: lines of bounds are left out of the output before it is compared.
//! - `keep`: later cases may use the output of this one, with its lines of bounds.
//! - `runs parted`: the run is also parted before the first and behind each line of the input.
//!   The first part is saved and the second resumed from it. Both logs together must be the log
//!   of the whole run.
//! - `runs each-digit`, `runs each-line`: in place of the one run there is one for each digit of
//!   the input, with the next digit in its place, or one for each line, without it. The output is
//!   `N of M`: N of M runs ended well. The others may write nothing.
//! - `read-most N`, `write-most N`: the most bytes that a call of the source gives, or that one
//!   of the sink takes.
//! - `fail-shelf N`, `fail-source N`, `fail-sink N`: this call fails, counted from 1. The shelf
//!   counts the reads of the own text alone.
//!
//! To add a case, write it without an output into a file of `data/`, run the program on the file,
//! and judge what it prints. Then paste that into the case, and add the line `NAME ok` to `stdout`.
#![tactic(auto)]

mod case;
mod case_lines;
mod case_run;
mod case_shelf;
mod case_text;
mod changed_runs;
mod parted_runs;
mod verdict;

use crate::case::{Case, Runs};
use crate::case_lines::case_of;
use crate::case_run::{Ended, run};
use crate::changed_runs::{run_each_digit, run_each_line};
use crate::parted_runs::first_broken_part;
use crate::verdict::mismatch;
use std::alloc::Global;
use std::test::Fail;
use tp_outside::{FileShelf, read_file, words};

/// The most bytes of a file of cases.
const LIMIT: usize = 16_777_216;

/// How the run of a case ends, or what the runs that stand for it come to.
fn ended(rt: &HostRuntime, alloc: Global, case: &Case) -> Result<Ended, Fail> {
    match case.runs {
        Runs::Once | Runs::Parted => run(alloc, rt, case.given()),
        Runs::EachDigit => run_each_digit(rt, alloc, case),
        Runs::EachLine => run_each_line(rt, alloc, case),
    }
}

/// What is wrong with the end of a case, if anything is.
fn flaw(
    rt: &HostRuntime,
    alloc: Global,
    case: &Case,
    ended: &Ended,
) -> Result<Option<String>, Fail> {
    let flaw = mismatch(alloc, case, ended)?;
    if flaw.is_some() {
        return Ok(flaw);
    }
    match case.runs {
        Runs::Parted => match first_broken_part(rt, alloc, case, &ended.output)? {
            Some(at) => Ok(Some(format!(in alloc;
                "ended otherwise when parted behind {at} bytes"
            )?)),
            None => Ok(None),
        },
        _ => Ok(None),
    }
}

/// Runs a case and prints how it ended. Returns its output.
fn tried(rt: &HostRuntime, alloc: Global, case: &Case) -> Result<Vec<u8>, Fail> {
    let ended = ended(rt, alloc, case)?;
    match flaw(rt, alloc, case, &ended)? {
        None => println!(rt; "{} ok", case.name.as_str())?,
        Some(flaw) => println!(rt; "{} {}", case.name.as_str(), flaw.as_str())?,
    }
    Ok(ended.output)
}

/// Tries the case of these lines. `kept` is the output that was kept last, and becomes the output
/// of this case if it keeps it.
fn try_case(rt: &HostRuntime, alloc: Global, lines: &str, kept: &mut Vec<u8>) -> Result<(), Fail> {
    let case = case_of(alloc, rt, lines, kept)?;
    let output = tried(rt, alloc, &case);
    let keeps = case.keeps;
    drop(case);
    let output = output?;
    if keeps {
        *kept = output;
    }
    Ok(())
}

/// Tries all cases of a text in their order. Lines before the first case are remarks.
fn try_text(rt: &HostRuntime, alloc: Global, text: &str) -> Result<(), Fail> {
    let mut kept = Vec::new(alloc);
    for lines in text.split("\ncase ").skip(1) {
        try_case(rt, alloc, lines, &mut kept)?;
    }
    Ok(())
}

fn try_file(rt: &HostRuntime, alloc: Global, name: &str) -> Result<(), Fail> {
    let mut files = FileShelf::new(alloc, rt);
    let bytes = read_file(alloc, &mut files, name, LIMIT)?;
    let text = str::from_utf8(&bytes)?;
    try_text(rt, alloc, text)
}

fn main(rt: HostRuntime) -> Result<(), Fail> {
    let alloc = rt.alloc();
    for name in words(alloc, &rt)?.as_slice() {
        try_file(&rt, alloc, name.as_str())?;
    }
    Ok(())
}
