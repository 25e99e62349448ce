//! Whether a run ended as its case says.

use crate::case::{Case, Wanted};
use crate::case_run::Ended;
use std::alloc::Global;
use std::test::Fail;
use tp_program::{Long, Status};

/// A log without its lines of bounds.
fn plain_log(alloc: Global, log: &[u8]) -> Result<Vec<u8>, Fail> {
    let mut plain = Vec::new(alloc);
    for line in str::from_utf8(log)?.split_inclusive('\n') {
        if !line.starts_with("b ") {
            plain.extend_from_slice(line.as_bytes())?;
        }
    }
    Ok(plain)
}

fn is_wanted(alloc: Global, wanted: &Wanted, output: &[u8]) -> Result<bool, Fail> {
    if wanted.begins {
        Ok(output.starts_with(&wanted.output))
    } else if wanted.plain {
        Ok(plain_log(alloc, output)? == wanted.output)
    } else {
        Ok(output == wanted.output.as_slice())
    }
}

fn long_name(long: Long) -> &'static str {
    match long {
        Long::MachineText => "text",
        Long::Line(_) => "line",
        Long::Lines => "lines",
        Long::Log => "log",
        Long::Snapshot => "snapshot",
    }
}

/// The exit status and the line on standard error, with what is too long. Empty if the run ended
/// well.
fn status_text(alloc: Global, status: Status) -> Result<String, Fail> {
    let number = status.number();
    Ok(match status {
        Status::Done => String::new(alloc),
        Status::TooLong(Long::Line(line)) => {
            format!(in alloc; "{number} {status}: line {line}")?
        }
        Status::TooLong(long) => {
            let name = long_name(long);
            format!(in alloc; "{number} {status}: {name}")?
        }
        _ => format!(in alloc; "{number} {status}")?,
    })
}

/// The lines of a case that ends so.
fn lines_of(alloc: Global, status: &str, output: &[u8]) -> Result<String, Fail> {
    let mut text = String::from_str(alloc, "ended otherwise:")?;
    if !status.is_empty() {
        text.push_str("\nstatus ")?;
        text.push_str(status)?;
    }
    for line in str::from_utf8(output)?.split_inclusive('\n') {
        text.push_str("\n> ")?;
        match line.strip_suffix("\n") {
            Some(line) => text.push_str(line)?,
            None => {
                text.push_str(line)?;
                text.push_str("\\")?;
            }
        }
    }
    Ok(text)
}

/// How the run ended, as lines of a case, if the case says otherwise.
pub(crate) fn mismatch(alloc: Global, case: &Case, ended: &Ended) -> Result<Option<String>, Fail> {
    let status = status_text(alloc, ended.status)?;
    let is_wanted = is_wanted(alloc, &case.wanted, &ended.output)?;
    if is_wanted && status.as_str() == case.wanted.status.as_str() {
        return Ok(None);
    }
    Ok(Some(lines_of(alloc, status.as_str(), &ended.output)?))
}
