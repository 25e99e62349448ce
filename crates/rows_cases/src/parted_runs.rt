//! Runs that are saved between two lines of their input, and resumed.

use crate::case::Case;
use crate::case_run::{Ended, Given, run};
use crate::case_shelf::TEXT;
use crate::changed_runs::line_ends;
use std::alloc::Global;
use std::test::Fail;
use tp_program::Status;

/// The log and the snapshot that a saved run writes. No line of a log has the sign that stands
/// before the snapshot.
pub(crate) fn log_and_snapshot(written: &str) -> Option<(&str, &str)> {
    let (log, line) = written.split_at_checked(written.find("= {")?)?;
    let snapshot = line.strip_prefix("= ")?.strip_suffix("\n")?;
    Some((log, snapshot))
}

/// The words with `save` in place of `run`.
fn save_words(alloc: Global, words: &[String]) -> Result<Vec<String>, Fail> {
    let mut saving = Vec::new(alloc);
    for word in words {
        let word = word.as_str();
        let word = if word == "run" { "save" } else { word };
        saving.push(String::from_str(alloc, word)?)?;
    }
    Ok(saving)
}

fn resume_words(alloc: Global) -> Result<Vec<String>, Fail> {
    let mut words = Vec::new(alloc);
    for word in ["resume", TEXT] {
        words.push(String::from_str(alloc, word)?)?;
    }
    Ok(words)
}

/// Runs the first part of a case's input and saves where it ends.
fn saved(rt: &HostRuntime, alloc: Global, case: &Case, first: &[u8]) -> Result<Ended, Fail> {
    let words = save_words(alloc, &case.words)?;
    let given = Given {
        words: &words,
        ..case.given_with(first)
    };
    run(alloc, rt, given)
}

/// Runs the rest of a case's input from a snapshot.
fn resumed(
    rt: &HostRuntime,
    alloc: Global,
    case: &Case,
    snapshot: &str,
    rest: &[u8],
) -> Result<Ended, Fail> {
    let words = resume_words(alloc)?;
    let given = Given {
        words: &words,
        text: snapshot.as_bytes(),
        ..case.given_with(rest)
    };
    run(alloc, rt, given)
}

/// Whether the logs of the two parts are together the whole log, if the input is parted behind so
/// many bytes.
fn joins(
    rt: &HostRuntime,
    alloc: Global,
    case: &Case,
    whole: &[u8],
    at: usize,
) -> Result<bool, Fail> {
    let (first, rest) = case
        .input
        .split_at_checked(at)
        .ok_or("the input is shorter")?;
    let saved = saved(rt, alloc, case, first)?;
    let Some((log, snapshot)) = log_and_snapshot(str::from_utf8(&saved.output)?) else {
        return Ok(false);
    };
    let resumed = resumed(rt, alloc, case, snapshot, rest)?;
    if resumed.status != Status::Done {
        return Ok(false);
    }
    match whole.strip_prefix(log.as_bytes()) {
        Some(second) => Ok(resumed.output.as_slice() == second),
        None => Ok(false),
    }
}

/// The first place before or behind a line of the input, in bytes from its start, where the logs
/// of the two parts are together not the whole log. `None` if they are at each place.
pub(crate) fn first_broken_part(
    rt: &HostRuntime,
    alloc: Global,
    case: &Case,
    whole: &[u8],
) -> Result<Option<usize>, Fail> {
    if !joins(rt, alloc, case, whole, 0)? {
        return Ok(Some(0));
    }
    for end in line_ends(alloc, &case.input)?.as_slice() {
        if !joins(rt, alloc, case, whole, *end)? {
            return Ok(Some(*end));
        }
    }
    Ok(None)
}
