//! Where a text breaks a rule, in words.
ghost use Rattle.std.specs.Prelude.{◌≡◌, ◌++◌, ◌∷◌, [], codes, map, option_map, OnOk, decimal, slice_get, string_bytes, suc};
ghost use Rattle.std.specs.List.{list_all};
ghost use Rattle.toml.specs.Data.{get_member};
ghost use Rattle.toml.specs.View.{table_view, view};
ghost use Rattle.tp_machine_text.specs.Keys.{actions};
ghost use Rattle.tp_machine_text.specs.Words.{data_of, keys_of, members_of, text_in};
ghost use Rattle.tp_machine_text.specs.Slips.{key_text};
ghost use Rattle.tp_why.specs.Sentences.{action_text, comma_before, hold_text, hold_in, is_plain as is_plain_byte, members_in, owner_in, part_text, quoted, said, shown, slip_text, table_key, text_number, value_text};
ghost use Rattle.tp_machine_text.specs.Phrases.{wrong_text};

use std::alloc::AllocError;
use toml::{Table, Value};
use tp_machine_text::lookup::{
    count_items, count_keys, field, table_in, text_of, value_at, values_at, values_in,
};
use tp_machine_text::{Key, Part, Slip, Wrong};

fn is_plain(byte: u8) -> bool
    ensures { result ≡ is_plain_byte byte }
{
    32 <= byte && byte != 127
}

fn is_plain_text(text: &[u8]) -> bool
    ensures { result ≡ list_all is_plain_byte text.now }
{
    text.iter().all(|byte| is_plain(*byte))
}

/// Writes a text between quotes, if it has no control characters.
fn put_quoted(out: &mut String, text: &str) -> Result<(), AllocError>
    ensures { OnOk result (string_bytes out.new ≡ string_bytes out.old ++ quoted text.now) }
{
    if is_plain_text(text.as_bytes()) {
        write!(out, "\"{text}\"")
    } else {
        out.push_str("a text with control characters")
    }
}

/// Writes what stands there.
fn put_value(out: &mut String, value: &Value) -> Result<(), AllocError>
    ensures { OnOk result (string_bytes out.new
        ≡ string_bytes out.old ++ shown (view value.now)) }
{
    match value {
        Value::String(text) => put_quoted(out, text.as_str()),
        Value::Integer(number) => write!(out, "{number}"),
        Value::Float(_) => out.push_str("a float"),
        Value::Boolean(true) => out.push_str("true"),
        Value::Boolean(false) => out.push_str("false"),
        Value::Datetime(_) => out.push_str("a date"),
        Value::Array(_) => put_count(out, "an array of", count_items(Some(value)), "values"),
        Value::Table(_) => put_count(out, "a table of", count_keys(Some(value)), "keys"),
    }
}

fn put_count(out: &mut String, what: &str, count: usize, of: &str) -> Result<(), AllocError>
    ensures { OnOk result (string_bytes out.new ≡ string_bytes out.old
        ++ (what.now ++ 32 ∷ decimal count ++ 32 ∷ of.now)) }
{
    write!(out, "{what} {count} {of}")
}

/// The key of this number, counted from 0.
fn key_number(table: &Table, number: usize) -> &str
    ensures { result.now ≡ text_number number (keys_of (table_view table.now)) }
{
    let mut left = number;
    let keys = table.keys();
    'keys: for key in keys {
        if left == 0 {
            return key.as_str();
        }
        left -= 1;
    }
    ""
}

/// The value of the key of this number, counted from 0.
fn amount_number(table: &Table, number: usize) -> Option<&Value>
    ensures { option_map (λ v. view v.now) result ≡ slice_get (data_of (table_view table.now))
        number }
{
    let mut left = number;
    let values = table.values();
    'values: for value in values {
        if left == 0 {
            return Some(value);
        }
        left -= 1;
    }
    None
}

/// The value of this number, counted from 0.
fn value_number(values: &[Value], number: usize) -> Option<&Value>
    ensures { option_map (λ v. view v.now) result ≡ slice_get (map view values.now) number }
{
    values.get(number)
}

/// The table of an action, of a hold, or of the text.
fn owner<'a>(table: &'a Table, action: Option<usize>, hold: Option<usize>) -> Option<&'a Table>
    ensures { members_of (option_map (λ m. table_view m.now) result)
        ≡ owner_in (table_view table.now) action hold }
{
    let Some(action) = action else {
        return Some(table);
    };
    table_in(hold_in(value_number(values_at(table, "actions"), action), hold))
}

fn hold_in(action: Option<&Value>, hold: Option<usize>) -> Option<&Value>
    ensures { option_map (λ v. view v.now) result ≡ hold_in
        (option_map (λ v. view v.now) action.entry) hold }
{
    let Some(hold) = hold else {
        return action;
    };
    value_number(values_in(field(action?, "holds")), hold)
}

/// Writes the words on the action.
fn put_action(out: &mut String, table: &Table, action: Option<usize>) -> Result<(), AllocError>
    ensures { OnOk result (string_bytes out.new ≡ string_bytes out.old
        ++ action_text (table_view table.now) action) }
{
    let Some(number) = action else {
        return Ok(());
    };
    put_ordinal(out, "action ", number)?;
    out.push_str(" ")?;
    put_quoted(out, name_in(owner(table, action, None)))
}

fn name_in(action: Option<&Table>) -> &str
    ensures { result.now ≡ text_in (get_member (codes "name")
        (members_of (option_map (λ m. table_view m.now) action.entry))) }
{
    match action {
        Some(action) => match value_at(action, "name") {
            Some(name) => text_of(name),
            None => "",
        },
        None => "",
    }
}

/// Writes a number that counts from 1, behind a word.
fn put_ordinal(out: &mut String, word: &str, number: usize) -> Result<(), AllocError>
    ensures { OnOk result (string_bytes out.new ≡ string_bytes out.old ++ word.now
        ++ decimal (suc number)) }
{
    let number = number as u128 + 1;
    write!(out, "{word}{number}")
}

fn put_hold(out: &mut String, hold: Option<usize>) -> Result<(), AllocError>
    ensures { OnOk result (string_bytes out.new ≡ string_bytes out.old ++ hold_text hold) }
{
    match hold {
        Some(number) => put_ordinal(out, ", hold ", number),
        None => Ok(()),
    }
}

fn put_comma(out: &mut String, part: Part, action: Option<usize>) -> Result<(), AllocError>
    ensures { OnOk result (string_bytes out.new ≡ string_bytes out.old
        ++ comma_before part action) }
{
    match (part, action) {
        (Part::Whole, _) | (_, None) => Ok(()),
        (_, Some(_)) => out.push_str(", "),
    }
}

/// Writes a key of this number.
fn put_key(out: &mut String, table: Option<&Table>, number: usize) -> Result<(), AllocError>
    ensures { OnOk result (string_bytes out.new ≡ string_bytes out.old ++ table_key
        (members_of (option_map (λ m. table_view m.now) table.entry)) number) }
{
    out.push_str("key ")?;
    match table {
        Some(table) => put_quoted(out, key_number(table, number)),
        None => put_quoted(out, ""),
    }
}

/// Writes a key of the table at a key.
fn put_entry(
    out: &mut String,
    owner: Option<&Table>,
    key: Key,
    number: usize,
) -> Result<(), AllocError>
    ensures { OnOk result (string_bytes out.new ≡ string_bytes out.old ++ part_text
        (members_of (option_map (λ m. table_view m.now) owner.entry)) (Part.Entry key number)) }
{
    out.push_str(key.text())?;
    out.push_str(", ")?;
    put_key(out, table_in(value_in(owner, key)), number)
}

/// The value at a key.
fn value_in(owner: Option<&Table>, key: Key) -> Option<&Value>
    ensures { option_map (λ v. view v.now) result ≡ get_member (key_text key)
        (members_of (option_map (λ m. table_view m.now) owner.entry)) }
{
    value_at(owner?, key.text())
}

fn put_part(out: &mut String, owner: Option<&Table>, part: Part) -> Result<(), AllocError>
    ensures { OnOk result (string_bytes out.new ≡ string_bytes out.old ++ part_text
        (members_of (option_map (λ m. table_view m.now) owner.entry)) part) }
{
    match part {
        Part::Whole => Ok(()),
        Part::Key(number) => put_key(out, owner, number),
        Part::Field(key) => out.push_str(key.text()),
        Part::Item(key, number) => {
            out.push_str(key.text())?;
            put_ordinal(out, ", item ", number)
        }
        Part::Entry(key, number) => put_entry(out, owner, key, number),
        Part::Amount(key, number) => put_entry(out, owner, key, number),
    }
}

/// Writes what is wrong with a value.
fn put_wrong(out: &mut String, value: Option<&Value>, wrong: Wrong) -> Result<(), AllocError>
    ensures { OnOk result (string_bytes out.new ≡ string_bytes out.old ++ value_text
        (wrong_text wrong) (option_map (λ v. view v.now) value.entry)) }
{
    let Some(value) = value else {
        return out.push_str(" is missing");
    };
    out.push_str(": ")?;
    put_value(out, value)?;
    write!(out, " {wrong}")
}

fn amount_in(owner: Option<&Table>, key: Key, number: usize) -> Option<&Value>
    ensures { option_map (λ v. view v.now) result ≡ slice_get (data_of (members_in
        (get_member (key_text key)
        (members_of (option_map (λ m. table_view m.now) owner.entry))))) number }
{
    amount_number(table_in(value_in(owner, key))?, number)
}

fn put_said(
    out: &mut String,
    owner: Option<&Table>,
    part: Part,
    wrong: Wrong,
) -> Result<(), AllocError>
    ensures { OnOk result (string_bytes out.new ≡ string_bytes out.old ++ said
        (members_of (option_map (λ m. table_view m.now) owner.entry)) part (wrong_text wrong)) }
{
    match part {
        Part::Field(key) => put_wrong(out, value_in(owner, key), wrong),
        Part::Item(key, number) => {
            put_wrong(
                out,
                value_number(values_in(value_in(owner, key)), number),
                wrong,
            )
        }
        Part::Amount(key, number) => put_wrong(out, amount_in(owner, key, number), wrong),
        Part::Whole | Part::Key(_) | Part::Entry(_, _) => write!(out, " {wrong}"),
    }
}

/// Writes where the rule is broken, and by what.
pub(crate) fn put_slip(out: &mut String, table: &Table, slip: Slip) -> Result<(), AllocError>
    ensures { OnOk result (string_bytes out.new ≡ string_bytes out.old
        ++ slip_text (table_view table.now) slip) }
{
    let owner = owner(table, slip.action, slip.hold);
    put_action(out, table, slip.action)?;
    put_hold(out, slip.hold)?;
    put_comma(out, slip.part, slip.action)?;
    put_part(out, owner, slip.part)?;
    put_said(out, owner, slip.part, slip.wrong)
}
