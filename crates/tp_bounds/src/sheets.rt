//! Copies as words, read and written.
ghost use Rattle.std.specs.Prelude.{◌≡◌, ◌++◌, OnOk};
ghost use Rattle.tp_bounds.specs.Sheets.{IsSheet, numbers_of, sheet_of, sheet_text};

use tp_base::Memory;
use tp_schedule::SheetName;
use tp_words::{cut, name_bytes, put_number, read_name, read_number};

#[tactic(auto, unfolding(tp_words::specs::Fields::pair_of))]
fn read_numbers(word: &[u8]) -> Option<(u32, u32)>
    ensures { result ≡ numbers_of word.now }
{
    let (number, copy) = cut(word, b'.')?;
    let number = read_number(number)?;
    let copy = read_number(copy)?;
    Some((number, copy))
}

/// The copy that the word names.
#[tactic(auto, unfolding(crate::specs::Sheets::sheet_of, tp_words::specs::Fields::pair_of))]
pub fn read_sheet(word: &[u8]) -> Option<SheetName>
    ensures { result ≡ sheet_of word.now }
{
    let (job, numbers) = cut(word, b'.')?;
    let job = read_name(job)?;
    let (number, copy) = read_numbers(numbers)?;
    Some(SheetName { job, number, copy })
}

/// Writes a copy: its job, its sheet and its number, with dots between.
pub fn put_sheet(out: &mut Vec<u8>, sheet: &SheetName) -> Result<(), Memory>
    ensures written { OnOk result (out.new.items ≡ out.old.items ++ sheet_text sheet.now) }
    ensures spelled { OnOk result (IsSheet sheet.now) }
{
    out.extend_from_slice(name_bytes(&sheet.job))?;
    out.push(b'.')?;
    put_number(out, sheet.number)?;
    out.push(b'.')?;
    put_number(out, sheet.copy)
}
