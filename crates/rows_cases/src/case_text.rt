//! Builds the texts of a case piece by piece.

use crate::parted_runs::log_and_snapshot;
use std::alloc::Global;
use std::rt::Files;
use std::test::Fail;
use tp_outside::{FileShelf, read_file};

/// The most bytes of a file that a case takes.
const LIMIT: usize = 134_217_728;

/// The first word of a text, and what follows the space behind it.
pub(crate) fn split_word(text: &str) -> (&str, &str) {
    text.split_once(' ').unwrap_or((text, ""))
}

/// Adds a text in which `\n` stands for LF, `\r` for CR and `\t` for TAB.
fn put_text(out: &mut Vec<u8>, text: &str) -> Result<(), Fail> {
    for (at, piece) in text.split('\\').enumerate() {
        let (byte, rest) = match piece.as_bytes() {
            [b'n', rest @ ..] if at > 0 => (Some(b'\n'), rest),
            [b'r', rest @ ..] if at > 0 => (Some(b'\r'), rest),
            [b't', rest @ ..] if at > 0 => (Some(b'\t'), rest),
            [] => (None, &[] as &[u8]),
            rest if at > 0 => (Some(b'\\'), rest),
            rest => (None, rest),
        };
        if let Some(byte) = byte {
            out.push(byte)?;
        }
        out.extend_from_slice(rest)?;
    }
    Ok(())
}

/// Adds a line with its LF, or without if a backslash ends the line.
pub(crate) fn put_line(out: &mut Vec<u8>, line: &str) -> Result<(), Fail> {
    put_text(out, line)?;
    if !line.ends_with('\\') {
        out.push(b'\n')?;
    }
    Ok(())
}

/// Adds to a text, or changes it, as `how` says. `kept` is the output that was kept last.
pub(crate) fn put_from<R: Files + Drop>(
    alloc: Global,
    out: &mut Vec<u8>,
    files: &mut FileShelf<R>,
    how: &str,
    kept: &[u8],
) -> Result<(), Fail> {
    let (how, what) = split_word(how);
    match how {
        "file" => {
            let bytes = read_file(alloc, files, what, LIMIT)?;
            out.extend_from_slice(&bytes)?;
            Ok(())
        }
        "kept" => {
            out.extend_from_slice(kept)?;
            Ok(())
        }
        "snapshot" => put_snapshot(out, kept),
        "swap" => swap(alloc, out, what),
        "times" => put_times(out, what),
        _ => Err(Fail::new(format_args!("no way to build a text: {how}"))),
    }
}

/// Adds the snapshot at the end of the kept output.
fn put_snapshot(out: &mut Vec<u8>, kept: &[u8]) -> Result<(), Fail> {
    let text = str::from_utf8(kept)?;
    let (_, snapshot) = log_and_snapshot(text).ok_or("no snapshot was kept")?;
    out.extend_from_slice(snapshot.as_bytes())?;
    Ok(())
}

/// Replaces the first piece of the text that stands before the arrow by what stands behind it.
fn swap(alloc: Global, out: &mut Vec<u8>, what: &str) -> Result<(), Fail> {
    let Some((old, new)) = what.split_once(" => ") else {
        return Err(Fail::new("a swap without an arrow"));
    };
    let text = str::from_utf8(out)?;
    let Some((before, after)) = text.split_once(old) else {
        return Err(Fail::new(format_args!("nothing to swap: {old}")));
    };
    let mut swapped = before.as_bytes().to_vec(alloc)?;
    put_text(&mut swapped, new)?;
    swapped.extend_from_slice(after.as_bytes())?;
    out.clear();
    out.extend_from_slice(&swapped)?;
    Ok(())
}

/// Adds a piece several times.
fn put_times(out: &mut Vec<u8>, what: &str) -> Result<(), Fail> {
    let (number, piece) = split_word(what);
    for _ in 0..number.parse::<u32>()? {
        out.extend_from_slice(piece.as_bytes())?;
    }
    Ok(())
}
