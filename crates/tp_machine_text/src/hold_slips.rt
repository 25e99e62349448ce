//! The rules on the holds of an action.
ghost use Rattle.std.specs.Prelude.{◌≡◌, map, option_map};
ghost use Rattle.toml.specs.View.{table_view, view};
ghost use Rattle.tp_machine_text.specs.HoldRules.{holds};
ghost use Rattle.tp_machine_text.specs.Slips.{in_hold, first_in};
ghost use Rattle.tp_machine_text.specs.MachineSlips.{of, single_hold, hold_parts, hold_slip, hold_look, hold_of, all_holds};

use crate::hold_points::{begins_in_action, holds_of, is_filled};
use crate::looks::{optional, or_slip, own_keys, required, unless};
use crate::lookup::field;
use crate::slip::{ActionRule, Key, Noun, Part, Slip, Want, Wrong};
use crate::wants::{is_single_at, meets};
use toml::{Table, Value};

/// The value at a key of an action or a hold.
pub(crate) fn of(key: Key, value: &Value) -> Option<&Value>
    ensures { option_map (λ v. view v.now) result ≡ of key (view value.now) }
{
    field(value, key.text())
}

fn single_hold(hold: &Value, others: &[Value]) -> Option<Slip>
    ensures { result ≡ single_hold (view hold.now) (map view others.now) }
{
    unless(
        is_single_at(hold, others, "resource"),
        Part::Field(Key::Resource),
        Wrong::Twice,
    )
}

fn hold_parts(table: &Table, hold: &Value, others: &[Value]) -> Option<Slip>
    ensures { result ≡ hold_parts (table_view table.now) (view hold.now) (map view others.now) }
{
    let begin = required(table, Key::Begin, Want::Point, of(Key::Begin, hold));
    let end = required(table, Key::End, Want::Point, of(Key::End, hold));
    let mode = optional(table, Key::Mode, Want::Whole(0, 255), of(Key::Mode, hold));
    let second = required(table, Key::Mode, Want::Second, of(Key::Mode, hold));
    let single = or_slip(single_hold(hold, others), second);
    or_slip(begin, or_slip(end, or_slip(mode, single)))
}

fn hold_slip(table: &Table, hold: &Value, others: &[Value]) -> Option<Slip>
    ensures { result ≡ hold_slip (table_view table.now) (view hold.now) (map view others.now) }
{
    let whole = unless(
        meets(table, Want::Table, Some(hold)),
        Part::Whole,
        Wrong::Not(Want::Table),
    );
    let keys = own_keys(table, Noun::HoldKey, hold.as_table());
    let resource = required(
        table,
        Key::Resource,
        Want::Is(Noun::Resource),
        of(Key::Resource, hold),
    );
    let parts = hold_parts(table, hold, others);
    or_slip(whole, or_slip(keys, or_slip(resource, parts)))
}

fn hold_look(
    table: &Table,
    rule: ActionRule,
    action: &Value,
    hold: &Value,
    others: &[Value],
) -> Option<Slip>
    ensures { result ≡ hold_look (table_view table.now) rule (view action.now) (view hold.now)
        (map view others.now) }
{
    match rule {
        ActionRule::Begins => unless(begins_in_action(action, hold), Part::Whole, Wrong::Early),
        ActionRule::Lengths => unless(is_filled(action, hold), Part::Whole, Wrong::Empty),
        _ => hold_slip(table, hold, others),
    }
}

fn in_hold(number: usize, slip: Option<Slip>) -> Option<Slip>
    ensures { result ≡ option_map (in_hold number) slip }
{
    let slip = slip?;
    Some(Slip {
        hold: Some(number),
        ..slip
    })
}

/// What the rule says of the holds of an action.
pub(crate) fn all_holds(table: &Table, rule: ActionRule, action: &Value) -> Option<Slip>
    ensures { result ≡ all_holds (table_view table.now) rule (view action.now) }
{
    let mut number = 0;
    let mut rest = holds_of(action);
    'holds: while let [hold, others @ ..] = rest {
        let found = in_hold(number, hold_look(table, rule, action, hold, others));
        if found.is_some() {
            return found;
        }
        number += 1;
        rest = others;
    }
    None
}
