//! Looks at the values of a text: the first that is not what is wanted.
ghost use Rattle.std.specs.Prelude.{◌≡◌, [], map, not, option_map, position, string_bytes};
ghost use Rattle.std.specs.BTreeMap.{keys, values};
ghost use Rattle.toml.specs.View.{table_view, view};
ghost use Rattle.tp_machine_text.specs.Words.{members_of};
ghost use Rattle.tp_machine_text.specs.Slips.{slip, unless, or_slip, first_in};
ghost use Rattle.tp_machine_text.specs.Wants.{is_noun as is_noun_text};
ghost use Rattle.tp_machine_text.specs.MachineSlips.{required, optional, first_other, own_keys, entries, amount, amounts, item, single_item, single_items};

use crate::slip::{Key, Noun, Part, Slip, Want, Wrong};
use crate::wants::{is_noun, is_single, meets};
use toml::{Table, Value};

/// A slip of the text itself. Its rule comes later.
fn slip(part: Part, wrong: Wrong) -> Slip
    ensures { result ≡ slip part wrong }
{
    Slip {
        rule: 0,
        action: None,
        hold: None,
        part,
        wrong,
    }
}

/// No slip if the test holds.
pub(crate) fn unless(holds: bool, part: Part, wrong: Wrong) -> Option<Slip>
    ensures { result ≡ unless holds (slip part wrong) }
{
    if holds { None } else { Some(slip(part, wrong)) }
}

/// The first of two.
pub(crate) fn or_slip(first: Option<Slip>, second: Option<Slip>) -> Option<Slip>
    ensures { result ≡ or_slip first second }
{
    match first {
        Some(slip) => Some(slip),
        None => second,
    }
}

/// The value that has to be what is wanted.
pub(crate) fn required(table: &Table, key: Key, want: Want, value: Option<&Value>) -> Option<Slip>
    ensures { result ≡ required (table_view table.now) key want
        (option_map (λ v. view v.now) value.entry) }
{
    unless(
        meets(table, want, value),
        Part::Field(key),
        Wrong::Not(want),
    )
}

/// The value that has to be what is wanted, or absent.
pub(crate) fn optional(table: &Table, key: Key, want: Want, value: Option<&Value>) -> Option<Slip>
    ensures { result ≡ optional (table_view table.now) key want
        (option_map (λ v. view v.now) value.entry) }
{
    match value {
        Some(value) => required(table, key, want, Some(value)),
        None => None,
    }
}

/// The number of the first key that is not that.
fn first_other(table: &Table, noun: Noun, members: &Table) -> Option<usize>
    ensures { result ≡ first_other (table_view table.now) noun (table_view members.now) }
{
    position_of_other(table, noun, members)
}

fn position_of_other(table: &Table, noun: Noun, members: &Table) -> Option<usize>
    ensures { result ≡ position (λ key.
        not (is_noun_text (table_view table.now) noun (string_bytes key))) (keys members.now) }
{
    members
        .keys()
        .position(|key| !is_noun(table, noun, key.as_str()))
}

/// The keys of the text, an action or a hold.
pub(crate) fn own_keys(table: &Table, noun: Noun, members: Option<&Table>) -> Option<Slip>
    ensures { result ≡ own_keys (table_view table.now) noun
        (members_of (option_map (λ m. table_view m.now) members.entry)) }
{
    let number = first_other(table, noun, members?)?;
    Some(slip(Part::Key(number), Wrong::Not(Want::Is(noun))))
}

/// The keys of the table at a key.
pub(crate) fn entries(table: &Table, key: Key, noun: Noun, members: Option<&Table>) -> Option<Slip>
    ensures { result ≡ entries (table_view table.now) key noun
        (members_of (option_map (λ m. table_view m.now) members.entry)) }
{
    let number = first_other(table, noun, members?)?;
    Some(slip(Part::Entry(key, number), Wrong::Not(Want::Is(noun))))
}

fn amount(table: &Table, key: Key, want: Want, number: usize, value: &Value) -> Option<Slip>
    ensures { result ≡ amount (table_view table.now) key want number (view value.now) [] }
{
    unless(
        meets(table, want, Some(value)),
        Part::Amount(key, number),
        Wrong::Not(want),
    )
}

/// The values of the table at a key.
pub(crate) fn amounts(table: &Table, key: Key, want: Want, members: Option<&Table>) -> Option<Slip>
    ensures { result ≡ amounts (table_view table.now) key want
        (members_of (option_map (λ m. table_view m.now) members.entry)) }
{
    match members {
        Some(members) => all_amounts(table, key, want, members),
        None => None,
    }
}

fn all_amounts(table: &Table, key: Key, want: Want, members: &Table) -> Option<Slip>
    ensures { result ≡ amounts (table_view table.now) key want (table_view members.now) }
{
    let mut number = 0;
    let values = members.values();
    'values: for value in values {
        let found = amount(table, key, want, number, value);
        if found.is_some() {
            return found;
        }
        number += 1;
    }
    None
}

/// A value of the array at a key.
pub(crate) fn item(
    table: &Table,
    key: Key,
    want: Want,
    number: usize,
    value: &Value,
) -> Option<Slip>
    ensures { result ≡ item (table_view table.now) key want number (view value.now) [] }
{
    unless(
        meets(table, want, Some(value)),
        Part::Item(key, number),
        Wrong::Not(want),
    )
}

/// A value of the array at a key, whose text stands in none of the others.
#[tactic(auto, unfolding(crate::specs::MachineSlips::single_item))]
fn single_item(
    table: &Table,
    key: Key,
    want: Want,
    number: usize,
    value: &Value,
    others: &[Value],
) -> Option<Slip>
    ensures { result ≡ single_item (table_view table.now) key want number (view value.now)
        (map view others.now) }
{
    let single = unless(
        is_single(value, others),
        Part::Item(key, number),
        Wrong::Twice,
    );
    or_slip(item(table, key, want, number, value), single)
}

/// The values of the array at a key, which differ.
pub(crate) fn single_items(table: &Table, key: Key, want: Want, values: &[Value]) -> Option<Slip>
    ensures { result ≡ single_items (table_view table.now) key want (map view values.now) }
{
    let mut number = 0;
    let mut rest = values;
    'values: while let [value, others @ ..] = rest {
        let found = single_item(table, key, want, number, value, others);
        if found.is_some() {
            return found;
        }
        number += 1;
        rest = others;
    }
    None
}
