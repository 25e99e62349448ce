//! The rules on actions, one by one.
ghost use Rattle.std.specs.Prelude.{◌≡◌, map, option_map};
ghost use Rattle.toml.specs.View.{table_view, view};
ghost use Rattle.tp_machine_text.specs.Keys.{actions};
ghost use Rattle.tp_machine_text.specs.Slips.{in_action, first_in};
ghost use Rattle.tp_machine_text.specs.MachineSlips.{of, required, name_slip, ends_slip, way_slip, durations_slip, prints_slip, holds_slip, action_look, action_of, all_actions};

use crate::hold_slips::{all_holds, of};
use crate::looks::{optional, or_slip, own_keys, required, single_items, unless};
use crate::lookup::{values_at, values_in, whole_at};
use crate::slip::{ActionRule, Key, Noun, Part, Slip, Want, Wrong};
use crate::wants::is_single_at;
use toml::{Table, Value};

/// The value at a key of an action, which has to be what is wanted.
fn needs(table: &Table, key: Key, want: Want, action: &Value) -> Option<Slip>
    ensures { result ≡ required (table_view table.now) key want (of key (view action.now)) }
{
    required(table, key, want, of(key, action))
}

fn name_slip(table: &Table, action: &Value, others: &[Value]) -> Option<Slip>
    ensures { result ≡ name_slip (table_view table.now) (view action.now) (map view others.now) }
{
    let single = unless(
        is_single_at(action, others, "name"),
        Part::Field(Key::Name),
        Wrong::Twice,
    );
    or_slip(
        needs(table, Key::Name, Want::Is(Noun::Name), action),
        single,
    )
}

fn ends_slip(table: &Table, action: &Value) -> Option<Slip>
    ensures { result ≡ ends_slip (table_view table.now) (view action.now) }
{
    let from = needs(table, Key::From, Want::Is(Noun::Location), action);
    or_slip(
        from,
        needs(table, Key::To, Want::Is(Noun::Location), action),
    )
}

fn way_slip(table: &Table, action: &Value) -> Option<Slip>
    ensures { result ≡ way_slip (table_view table.now) (view action.now) }
{
    let tray = needs(table, Key::From, Want::IsNot(Noun::Tray), action);
    let purge = needs(table, Key::From, Want::IsNot(Noun::PurgeTray), action);
    let feeder = needs(table, Key::To, Want::IsNot(Noun::Feeder), action);
    or_slip(tray, or_slip(purge, feeder))
}

fn durations_slip(table: &Table, action: &Value) -> Option<Slip>
    ensures { result ≡ durations_slip (table_view table.now) (view action.now) }
{
    let least = needs(table, Key::Least, Want::Whole(1, 4096), action);
    let most = needs(table, Key::Most, Want::Whole(1, 4096), action);
    let rises = unless(
        whole_at(action, "least") <= whole_at(action, "most"),
        Part::Field(Key::Most),
        Wrong::BelowLeast,
    );
    or_slip(least, or_slip(most, rises))
}

fn prints_slip(table: &Table, action: &Value) -> Option<Slip>
    ensures { result ≡ prints_slip (table_view table.now) (view action.now) }
{
    let prints = of(Key::Prints, action);
    let array = optional(table, Key::Prints, Want::Array, prints);
    let kinds = single_items(table, Key::Prints, Want::Is(Noun::Kind), values_in(prints));
    let flip = optional(table, Key::Flip, Want::TruthValue, of(Key::Flip, action));
    or_slip(array, or_slip(kinds, flip))
}

fn holds_slip(table: &Table, action: &Value) -> Option<Slip>
    ensures { result ≡ holds_slip (table_view table.now) (view action.now) }
{
    let array = optional(table, Key::Holds, Want::Array, of(Key::Holds, action));
    let few = needs(table, Key::Holds, Want::Items(0, 4), action);
    or_slip(
        array,
        or_slip(few, all_holds(table, ActionRule::Holds, action)),
    )
}

fn action_look(table: &Table, rule: ActionRule, action: &Value, others: &[Value]) -> Option<Slip>
    ensures { result ≡ action_look (table_view table.now) rule (view action.now)
        (map view others.now) }
{
    match rule {
        ActionRule::Keys => own_keys(table, Noun::ActionKey, action.as_table()),
        ActionRule::Name => name_slip(table, action, others),
        ActionRule::Module => needs(table, Key::Module, Want::Is(Noun::Module), action),
        ActionRule::Ends => ends_slip(table, action),
        ActionRule::Way => way_slip(table, action),
        ActionRule::Durations => durations_slip(table, action),
        ActionRule::Prints => prints_slip(table, action),
        ActionRule::Holds => holds_slip(table, action),
        ActionRule::Begins => all_holds(table, ActionRule::Begins, action),
        ActionRule::Lengths => all_holds(table, ActionRule::Lengths, action),
    }
}

fn in_action(number: usize, slip: Option<Slip>) -> Option<Slip>
    ensures { result ≡ option_map (in_action number) slip }
{
    let slip = slip?;
    Some(Slip {
        action: Some(number),
        ..slip
    })
}

/// What the rule says of the actions.
pub(crate) fn all_actions(table: &Table, rule: ActionRule) -> Option<Slip>
    ensures { result ≡ all_actions (table_view table.now) rule }
{
    let mut number = 0;
    let mut rest = values_at(table, "actions");
    'actions: while let [action, others @ ..] = rest {
        let found = in_action(number, action_look(table, rule, action, others));
        if found.is_some() {
            return found;
        }
        number += 1;
        rest = others;
    }
    None
}
