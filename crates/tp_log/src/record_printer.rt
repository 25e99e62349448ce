//! Records written.
ghost use Rattle.std.specs.Prelude.{◌≡◌, [], ◌++◌, ◌∷◌, OnOk, OnErr, codes, decimal};
ghost use Rattle.tp_words.specs.Texts.{spaced};
ghost use Rattle.tp_bounds.specs.Sheets.{sheet_text};
ghost use Rattle.tp_log.specs.Records.{record_words, record_text, IsPrintable};

use crate::causes::put_cause;
use crate::fields::{put_goal_word, put_sheet_word};
use crate::plans::{put_points, put_turns};
use tp_base::{Memory, Name, Tick};
use tp_schedule::{Record, SheetName};
use tp_words::{put_number_word, put_word};

/// As many bytes as most lines have.
const LINE_BYTES: usize = 64;

/// Writes a heading and the copy that it is about.
fn put_heading(out: &mut Vec<u8>, heading: &[u8], sheet: &SheetName) -> Result<(), Memory>
    ensures { OnOk result (out.new.items ≡ out.old.items
        ++ (heading.now ++ 32 ∷ sheet_text sheet.now)) }
{
    out.extend_from_slice(heading)?;
    put_sheet_word(out, sheet)
}

/// Writes a heading, the copy, and one word more.
fn put_with_word(
    out: &mut Vec<u8>,
    heading: &[u8],
    sheet: &SheetName,
    word: &[u8],
) -> Result<(), Memory>
    ensures { OnOk result (out.new.items ≡ out.old.items
        ++ (heading.now ++ 32 ∷ sheet_text sheet.now) ++ 32 ∷ word.now) }
{
    put_heading(out, heading, sheet)?;
    put_word(out, word)
}

fn put_release(
    out: &mut Vec<u8>,
    sheet: &SheetName,
    act: u32,
    name: &Name,
    start: Tick,
    end: Tick,
) -> Result<(), Memory>
    ensures { OnOk result (out.new.items ≡ out.old.items
        ++ spaced (codes "release" ∷ sheet_text sheet.now ∷ decimal act ∷ name.now
        ∷ decimal start ∷
        decimal end ∷ [])) }
{
    put_heading(out, b"release", sheet)?;
    put_number_word(out, act)?;
    put_word(out, name.as_bytes())?;
    put_number_word(out, start)?;
    put_number_word(out, end)
}

/// Writes the words of the record, with one space between each two.
fn put_record(out: &mut Vec<u8>, rec: &Record) -> Result<(), Memory>
    requires { IsPrintable rec.now }
    ensures { OnOk result (out.new.items ≡ out.old.items ++ spaced (record_words rec.now)) }
{
    match rec {
        Record::Plan {
            sheet,
            place,
            points,
            acts,
        } => {
            put_with_word(out, b"plan", sheet, place.as_bytes())?;
            put_turns(out, points.as_slice(), acts.as_slice())
        }
        Record::Move { sheet, points } => {
            put_heading(out, b"move", sheet)?;
            put_points(out, points.as_slice())
        }
        Record::Never { sheet, goal } => {
            put_heading(out, b"none", sheet)?;
            put_goal_word(out, goal)
        }
        Record::Budget { sheet, goal, bound } => {
            put_heading(out, b"budget", sheet)?;
            put_goal_word(out, goal)?;
            put_number_word(out, *bound)
        }
        Record::FullUp { sheet } => put_heading(out, b"full", sheet),
        Record::Release {
            sheet,
            act,
            name,
            start,
            end,
        } => put_release(out, sheet, *act, name, *start, *end),
        Record::Done { sheet, place, at } => {
            put_with_word(out, b"done", sheet, place.as_bytes())?;
            put_number_word(out, *at)
        }
        Record::Lost { sheet } => put_heading(out, b"lost", sheet),
        Record::Recall { sheet, act } => {
            put_heading(out, b"recall", sheet)?;
            put_number_word(out, *act)
        }
        Record::Withdraw { sheet } => put_heading(out, b"withdraw", sheet),
        Record::Cut { sheet } => put_heading(out, b"cut", sheet),
        Record::Purge { sheet } => put_heading(out, b"purge", sheet),
        Record::Again { sheet } => put_heading(out, b"again", sheet),
        Record::Stuck { sheet, module } => put_with_word(out, b"stuck", sheet, module.as_bytes()),
        Record::Broken { job } => {
            out.extend_from_slice(b"broken")?;
            put_word(out, job.as_bytes())
        }
        Record::Drop { sheet } => put_heading(out, b"drop", sheet),
        Record::Refused { cause } => {
            out.extend_from_slice(b"refused")?;
            put_cause(out, cause)
        }
    }
}

/// Appends the record's line as `print_record` does. It is made in `line` first, whose old text goes: many records are
/// printed in the memory of one line.
pub fn print_record_by(rec: &Record, line: &mut Vec<u8>, out: &mut Vec<u8>) -> Result<(), Memory>
    requires { IsPrintable rec.now }
    ensures printed { OnOk result (out.new.items ≡ out.old.items ++ record_text rec.now) }
    ensures line { OnOk result (line.new.items ≡ record_text rec.now) }
    ensures memory { OnErr result (out.new.items ≡ out.old.items) }
{
    line.clear();
    put_record(line, rec)?;
    line.push(b'\n')?;
    out.extend_from_slice(line)?;
    Ok(())
}

/// Appends the record's line, with its LF: words with one space between, numbers without leading
/// zeros. After `Memory` the buffer is as before.
pub fn print_record(rec: &Record, out: &mut Vec<u8>) -> Result<(), Memory>
    requires { IsPrintable rec.now }
    ensures printed { OnOk result (out.new.items ≡ out.old.items ++ record_text rec.now) }
    ensures memory { OnErr result (out.new.items ≡ out.old.items) }
{
    let mut line = Vec::with_capacity(*out.allocator(), LINE_BYTES)?;
    print_record_by(rec, &mut line, out)
}
