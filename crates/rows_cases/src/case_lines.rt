//! Reads the lines of a case.

use crate::case::{Case, Outside, Runs, new_case};
use crate::case_text::{put_from, put_line, split_word};
use std::alloc::Global;
use std::rt::Files;
use std::test::Fail;
use tp_outside::FileShelf;

/// The case of these lines, of which the first is its name. `kept` is the output that was kept
/// last.
pub(crate) fn case_of<R: Files + Drop>(
    alloc: Global,
    rt: R,
    lines: &str,
    kept: &[u8],
) -> Result<Case, Fail> {
    let (name, lines) = lines.split_once('\n').unwrap_or((lines, ""));
    let mut case = new_case(alloc, name)?;
    let mut files = FileShelf::new(alloc, rt);
    match put_lines(alloc, &mut case, &mut files, lines, kept) {
        Ok(()) => Ok(case),
        Err(fail) => {
            drop(case);
            Err(fail)
        }
    }
}

fn put_lines<R: Files + Drop>(
    alloc: Global,
    case: &mut Case,
    files: &mut FileShelf<R>,
    lines: &str,
    kept: &[u8],
) -> Result<(), Fail> {
    for line in lines.split('\n') {
        let (word, rest) = split_word(line);
        match word {
            "text" => put_from(alloc, &mut case.text, files, rest, kept)?,
            "input" => put_from(alloc, &mut case.input, files, rest, kept)?,
            "output" => put_from(alloc, &mut case.wanted.output, files, rest, kept)?,
            _ => put(alloc, case, word, rest)?,
        }
    }
    Ok(())
}

/// Takes a line that needs no file.
fn put(alloc: Global, case: &mut Case, word: &str, rest: &str) -> Result<(), Fail> {
    match word {
        "" | "#" => Ok(()),
        "$" => put_words(alloc, &mut case.words, rest),
        "|" => put_line(&mut case.text, rest),
        "<" => put_line(&mut case.input, rest),
        ">" => put_line(&mut case.wanted.output, rest),
        "status" => put_status(alloc, &mut case.wanted.status, rest),
        "runs" => put_runs(&mut case.runs, rest),
        "begins" | "plain" | "keep" => {
            put_flag(case, word);
            Ok(())
        }
        _ => put_outside(&mut case.outside, word, rest),
    }
}

fn put_words(alloc: Global, words: &mut Vec<String>, rest: &str) -> Result<(), Fail> {
    for word in rest.split_ascii_whitespace() {
        let word = if word == "''" { "" } else { word };
        words.push(String::from_str(alloc, word)?)?;
    }
    Ok(())
}

fn put_status(alloc: Global, status: &mut String, rest: &str) -> Result<(), Fail> {
    *status = String::from_str(alloc, rest)?;
    Ok(())
}

fn put_runs(runs: &mut Runs, rest: &str) -> Result<(), Fail> {
    *runs = match rest {
        "parted" => Runs::Parted,
        "each-digit" => Runs::EachDigit,
        "each-line" => Runs::EachLine,
        _ => return Err(no_line("runs", rest)),
    };
    Ok(())
}

fn put_flag(case: &mut Case, word: &str) {
    match word {
        "begins" => case.wanted.begins = true,
        "plain" => case.wanted.plain = true,
        _ => case.keeps = true,
    }
}

fn put_outside(outside: &mut Outside, word: &str, rest: &str) -> Result<(), Fail> {
    let Ok(number) = rest.parse::<u32>() else {
        return Err(no_line(word, rest));
    };
    match word {
        "read-most" => outside.read_most = number,
        "write-most" => outside.write_most = number,
        "fail-shelf" => outside.shelf.push(number)?,
        "fail-source" => outside.source.push(number)?,
        "fail-sink" => outside.sink.push(number)?,
        _ => return Err(no_line(word, rest)),
    }
    Ok(())
}

fn no_line(word: &str, rest: &str) -> Fail {
    Fail::new(format_args!("not a line of a case: {word} {rest}"))
}
