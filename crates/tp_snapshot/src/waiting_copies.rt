//! The waiting copies of a snapshot, read and written.
ghost use Rattle.std.specs.Prelude.{◌≡◌, ◌<◌, ◌^◌, IfOk, codes, length, map, true};
ghost use Rattle.std.specs.List.{list_all};
ghost use Rattle.serde_json.specs.Data.{array, member, no_members, object};
ghost use Rattle.serde_json.specs.View.{items_of, view};
ghost use Rattle.tp_snapshot.specs.Copies.{copy_in, want_in};
ghost use Rattle.tp_snapshot.specs.Values.{few_read, field_of};
ghost use Rattle.tp_snapshot.specs.WaitingCopies.{wait_of, waiting_of};
ghost use Rattle.tp_snapshot.specs.Written.{is_of_jobs, wait_data};

use crate::copies::{copy_value, read_copy, read_want, want_value};
use crate::json_lookup::{has_members, value_at, values_at};
use indexmap::IndexSet;
use serde_json::{Value, json};
use std::alloc::{AllocError, Global};
use tp_base::{Items, Memory, Name};
use tp_jobs::{JobRow, WaitRow, WaitRows};
use tp_machine::Sheet;
use tp_schedule::SheetId;

/// The most copies of a snapshot that wait.
const MOST_WAITING: usize = 4352;

/// The copy at `sheet`.
pub(crate) fn copy_at(names: &IndexSet<Name>, value: &Value) -> Option<SheetId>
    requires { length names.now.keys < 2 ^ 32 }
    ensures { result ≡ field_of (codes "sheet") (copy_in names.now.keys) (view value.now) }
{
    read_copy(names, value_at(value, "sheet")?)
}

/// What is wanted at `want`.
pub(crate) fn want_at(value: &Value) -> Option<Sheet>
    ensures { result ≡ field_of (codes "want") want_in (view value.now) }
{
    read_want(value_at(value, "want")?)
}

#[tactic(auto, unfolding(crate::specs::WaitingCopies::wait_of, crate::specs::WaitingCopies::wait_from))]
fn read_wait(names: &IndexSet<Name>, value: &Value) -> Option<WaitRow>
    requires { length names.now.keys < 2 ^ 32 }
    ensures { result ≡ wait_of names.now.keys (view value.now) }
{
    if !has_members(value, 2) {
        return None;
    }
    let sheet = copy_at(names, value)?;
    let want = want_at(value)?;
    Some(WaitRow { sheet, want })
}

/// The waiting copies of the values, where each is one.
fn waiting_in(
    alloc: Global,
    names: &IndexSet<Name>,
    values: &[Value],
) -> Result<Option<WaitRows>, Memory>
    requires { length names.now.keys < 2 ^ 32 }
    ensures { IfOk result (λ waiting. waiting
        ≡ few_read 4352 (wait_of names.now.keys) (map view values.now)) }
{
    if values.len() > MOST_WAITING {
        return Ok(None);
    }
    let mut waiting = Items::new(alloc);
    for value in values {
        match read_wait(names, value) {
            Some(row) => waiting.push(row)?,
            None => return Ok(None),
        }
    }
    Ok(Some(waiting))
}

/// The waiting copies of a snapshot with jobs of these names.
pub(crate) fn read_waiting(
    alloc: Global,
    names: &IndexSet<Name>,
    value: &Value,
) -> Result<Option<WaitRows>, Memory>
    requires { length names.now.keys < 2 ^ 32 }
    ensures { IfOk result (λ waiting. waiting ≡ waiting_of names.now.keys (view value.now)) }
{
    match values_at(value, "waiting") {
        Some(values) => waiting_in(alloc, names, values),
        None => Ok(None),
    }
}

fn wait_object(alloc: Global, sheet: Value, want: Value) -> Result<Value, AllocError>
    ensures { IfOk result (λ value. view value ≡ object (member (codes "sheet") (view sheet)
        (member (codes "want") (view want) no_members))) }
{
    json!(in alloc; {"sheet": sheet, "want": want})
}

fn wait_value(alloc: Global, jobs: &[JobRow], row: &WaitRow) -> Result<Value, Memory>
    requires { is_of_jobs (length jobs.now) row.now ≡ true }
    ensures { IfOk result (λ value. view value ≡ wait_data jobs.now row.now) }
{
    let job = &jobs[row.sheet.job as usize];
    let sheet = copy_value(alloc, job.name, row.sheet)?;
    let want = want_value(alloc, &row.want)?;
    Ok(wait_object(alloc, sheet, want)?)
}

/// An array of the waiting copies.
pub(crate) fn waiting_value(
    alloc: Global,
    jobs: &[JobRow],
    waiting: &[WaitRow],
) -> Result<Value, Memory>
    requires { list_all (is_of_jobs (length jobs.now)) waiting.now ≡ true }
    ensures { IfOk result (λ value. view value
        ≡ array (items_of (map (wait_data jobs.now) waiting.now))) }
{
    let mut array = Vec::new(alloc);
    let mut rest = waiting;
    'waiting: while let [row, others @ ..] = rest {
        array.push(wait_value(alloc, jobs, row)?)?;
        rest = others;
    }
    Ok(Value::from(array))
}
