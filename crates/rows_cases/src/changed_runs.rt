//! Runs on an input that is changed at each place in turn, and how many of them end well.

use crate::case::Case;
use crate::case_run::{Ended, run};
use std::alloc::Global;
use std::test::Fail;
use tp_program::Status;

/// The byte behind each LF, counted from the start of the text.
pub(crate) fn line_ends(alloc: Global, text: &[u8]) -> Result<Vec<usize>, Fail> {
    let mut ends = Vec::new(alloc);
    for (at, byte) in text.iter().enumerate() {
        if *byte == b'\n' {
            ends.push(at.saturating_add(1))?;
        }
    }
    Ok(ends)
}

/// How many runs were tried, and how many of them ended well.
#[derive(Clone, Copy)]
struct Tally {
    done: u32,
    tried: u32,
}

impl Tally {
    const NONE: Tally = Tally { done: 0, tried: 0 };

    /// With one run more. Fails if the run did not end well and wrote something.
    fn with(self, ended: &Ended) -> Result<Tally, Fail> {
        let is_done = ended.status == Status::Done;
        if !is_done && !ended.output.is_empty() {
            return Err(Fail::new("a run that is refused writes something"));
        }
        Ok(Tally {
            done: self.done.saturating_add(u32::from(is_done)),
            tried: self.tried.saturating_add(1),
        })
    }

    /// The end of a case that stands for all of them.
    fn ended(self, alloc: Global) -> Result<Ended, Fail> {
        let text = format!(in alloc; "{} of {}\n", self.done, self.tried)?;
        Ok(Ended {
            status: Status::Done,
            output: text.as_bytes().to_vec(alloc)?,
        })
    }
}

/// The digit after this one; the first is the digit after the last.
fn next_digit(byte: u8) -> Option<u8> {
    match byte {
        b'0'..=b'8' => Some(byte + 1),
        b'9' => Some(b'0'),
        _ => None,
    }
}

/// The text with another byte at one place.
fn with_byte(alloc: Global, text: &[u8], at: usize, byte: u8) -> Result<Vec<u8>, Fail> {
    match text.split_at_checked(at) {
        Some((before, [_, after @ ..])) => Ok([before, &[byte], after].concat(alloc)?),
        _ => Err(Fail::new("the text is shorter")),
    }
}

/// The text without the bytes from `begin` up to `end`.
fn without(alloc: Global, text: &[u8], begin: usize, end: usize) -> Result<Vec<u8>, Fail> {
    let (before, _) = text.split_at_checked(begin).ok_or("the text is shorter")?;
    let (_, after) = text.split_at_checked(end).ok_or("the text is shorter")?;
    Ok([before, after].concat(alloc)?)
}

/// Runs a case once for each digit of its input, with the next digit in its place.
pub(crate) fn run_each_digit(rt: &HostRuntime, alloc: Global, case: &Case) -> Result<Ended, Fail> {
    let mut tally = Tally::NONE;
    for (at, byte) in case.input.iter().enumerate() {
        if let Some(digit) = next_digit(*byte) {
            let changed = with_byte(alloc, &case.input, at, digit)?;
            tally = tally.with(&run(alloc, rt, case.given_with(&changed))?)?;
        }
    }
    tally.ended(alloc)
}

/// Runs a case once for each line of its input, without this line.
pub(crate) fn run_each_line(rt: &HostRuntime, alloc: Global, case: &Case) -> Result<Ended, Fail> {
    let mut tally = Tally::NONE;
    let mut begin = 0;
    for end in line_ends(alloc, &case.input)?.as_slice() {
        let changed = without(alloc, &case.input, begin, *end)?;
        tally = tally.with(&run(alloc, rt, case.given_with(&changed))?)?;
        begin = *end;
    }
    tally.ended(alloc)
}
