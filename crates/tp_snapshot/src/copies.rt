//! Copies and what is wanted of their sheets, as texts of a snapshot.
ghost use Rattle.std.specs.Prelude.{◌≡◌, ◌<◌, ◌^◌, IfOk, length};
ghost use Rattle.serde_json.specs.View.{view};
ghost use Rattle.tp_snapshot.specs.Copies.{copy_by, copy_in, copy_of, want_in, want_of};
ghost use Rattle.tp_snapshot.specs.Written.{copy_data, want_data};

use crate::json_values::text_value;
use crate::sides::{put_sides, read_sides};
use indexmap::IndexSet;
use serde_json::Value;
use std::alloc::Global;
use tp_base::{Memory, Name};
use tp_bounds::{put_sheet, read_sheet};
use tp_machine::Sheet;
use tp_schedule::{SheetId, SheetName};
use tp_words::{cut, name_bytes, read_name};

/// The most sheets of a job, and the most copies of a sheet.
const MOST_SHEETS: u32 = 4096;

const MOST_COPIES: u32 = 4_000_000_000;

/// The copy of the job, where its numbers are in their ranges.
fn copy_by(sheet: SheetName, job: u32) -> Option<SheetId>
    ensures { result ≡ copy_by sheet job }
{
    let sheets = 1 <= sheet.number && sheet.number <= MOST_SHEETS;
    let copies = 1 <= sheet.copy && sheet.copy <= MOST_COPIES;
    if sheets && copies {
        Some(SheetId {
            job,
            number: sheet.number,
            copy: sheet.copy,
        })
    } else {
        None
    }
}

/// The copy that the text names, of a job among these.
#[tactic(auto, unfolding(crate::specs::Copies::copy_of))]
fn copy_of(names: &IndexSet<Name>, text: &str) -> Option<SheetId>
    requires { length names.now.keys < 2 ^ 32 }
    ensures { result ≡ copy_of names.now.keys text.now }
{
    let sheet = read_sheet(text.as_bytes())?;
    let job = names.get_index_of(&sheet.job)?;
    copy_by(sheet, job as u32)
}

/// The copy that the value names.
pub(crate) fn read_copy(names: &IndexSet<Name>, value: &Value) -> Option<SheetId>
    requires { length names.now.keys < 2 ^ 32 }
    ensures { result ≡ copy_in names.now.keys (view value.now) }
{
    copy_of(names, value.as_str()?)
}

#[tactic(auto, unfolding(crate::specs::Copies::want_of, tp_words::specs::Fields::pair_of))]
fn want_of(text: &[u8]) -> Option<Sheet>
    ensures { result ≡ want_of text.now }
{
    let (media, sides) = cut(text, b' ')?;
    let media = read_name(media)?;
    let sides = read_sides(sides)?;
    Some(Sheet {
        media,
        front: sides.front,
        back: sides.back,
        face: sides.face,
    })
}

/// What the value wants of a sheet.
pub(crate) fn read_want(value: &Value) -> Option<Sheet>
    ensures { result ≡ want_in (view value.now) }
{
    want_of(value.as_str()?.as_bytes())
}

/// The copy by the name of its job.
pub(crate) fn copy_value(alloc: Global, name: Name, copy: SheetId) -> Result<Value, Memory>
    ensures { IfOk result (λ value. view value ≡ copy_data name copy) }
{
    let mut text = Vec::new(alloc);
    put_sheet(&mut text, &tp_event_records::label(name, copy))?;
    text_value(alloc, text.as_slice())
}

/// What is wanted of a sheet: its media, a space, and its sides.
pub(crate) fn want_value(alloc: Global, want: &Sheet) -> Result<Value, Memory>
    ensures { IfOk result (λ value. view value ≡ want_data want.now) }
{
    let mut text = Vec::new(alloc);
    text.extend_from_slice(name_bytes(&want.media))?;
    text.push(b' ')?;
    put_sides(&mut text, want)?;
    text_value(alloc, text.as_slice())
}
