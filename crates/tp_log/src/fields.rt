//! Words of records, read and written: copies, goals and numbers.
ghost use Rattle.std.specs.Prelude.{◌≡◌, ◌++◌, ◌∷◌, OnOk};
ghost use Rattle.tp_words.specs.Parts.{shown};
ghost use Rattle.tp_words.specs.Fields.{name_of};
ghost use Rattle.tp_words.specs.Numbers.{number_of};
ghost use Rattle.tp_bounds.specs.Sheets.{sheet_of, sheet_text};
ghost use Rattle.tp_log.specs.Records.{goal_text};
ghost use Rattle.tp_log.specs.RecordReaders.{goal_of, one_of};

use tp_base::{Memory, Name};
use tp_bounds::{put_sheet, read_sheet};
use tp_schedule::SheetName;
use tp_words::{put_word, read_name, read_number};

#[tactic(auto, unfolding(crate::specs::RecordReaders::goal_of))]
pub(crate) fn read_goal(word: &[u8]) -> Option<Option<Name>>
    ensures { result ≡ goal_of word.now }
{
    if word == b"*".as_slice() {
        return Some(None);
    }
    read_name(word).map(Some)
}

#[tactic(auto, unfolding(crate::specs::RecordReaders::one_of))]
pub(crate) fn only_sheet(words: &[&[u8]]) -> Option<SheetName>
    ensures { result ≡ one_of sheet_of (shown words.now) }
{
    let [sheet] = words else {
        return None;
    };
    read_sheet(sheet)
}

#[tactic(auto, unfolding(crate::specs::RecordReaders::one_of))]
pub(crate) fn only_name(words: &[&[u8]]) -> Option<Name>
    ensures { result ≡ one_of name_of (shown words.now) }
{
    let [name] = words else {
        return None;
    };
    read_name(name)
}

#[tactic(auto, unfolding(crate::specs::RecordReaders::one_of))]
pub(crate) fn only_number(words: &[&[u8]]) -> Option<u32>
    ensures { result ≡ one_of number_of (shown words.now) }
{
    let [number] = words else {
        return None;
    };
    read_number(number)
}

pub(crate) fn put_sheet_word(out: &mut Vec<u8>, sheet: &SheetName) -> Result<(), Memory>
    ensures { OnOk result (out.new.items ≡ out.old.items ++ 32 ∷ sheet_text sheet.now) }
{
    out.push(b' ')?;
    put_sheet(out, sheet)
}

pub(crate) fn put_goal_word(out: &mut Vec<u8>, goal: &Option<Name>) -> Result<(), Memory>
    ensures { OnOk result (out.new.items ≡ out.old.items ++ 32 ∷ goal_text goal.now) }
{
    match goal {
        None => put_word(out, b"*"),
        Some(tray) => put_word(out, tray.as_bytes()),
    }
}
