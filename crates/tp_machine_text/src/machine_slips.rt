//! The first place of a machine text that breaks a rule.
ghost use Rattle.std.specs.Prelude.{◌≡◌, List, map, option_map};
ghost use Rattle.toml.specs.View.{table_view, view};
ghost use Rattle.tp_machine_text.specs.Slips.{of_rule, or_slip, first_in, first_of};
ghost use Rattle.tp_machine_text.specs.MachineSlips.{at, number_slips, array_slip, purge_slip, location_slips, feeders_slip, resources_slip, supply_slips, actions_slip, amounts_slip, amount_slips, action_slips, all_actions, hold_slips, first_slip, item, optional};
ghost use Rattle.tp_machine_text.specs.Keys.{actions};
ghost use Rattle.tp_machine_text.specs.Words.{table_in as table_of};

use crate::action_slips::all_actions;
use crate::looks::{amounts, entries, item, optional, or_slip, own_keys, required, single_items};
use crate::lookup::{table_in, value_at, values_at};
use crate::slip::{ActionRule, Key, Noun, Slip, Want};
use toml::{Table, Value};

fn at(key: Key, table: &Table) -> Option<&Value>
    ensures { option_map (λ v. view v.now) result ≡ at key (table_view table.now) }
{
    value_at(table, key.text())
}

fn table_at(key: Key, table: &Table) -> Option<&Table>
    ensures { option_map (λ m. table_view m.now) result
        ≡ table_of (at key (table_view table.now)) }
{
    table_in(at(key, table))
}

/// A whole number that may be absent.
fn whole_slip(table: &Table, key: Key, low: i64, high: i64) -> Option<Slip>
    ensures { result ≡ optional (table_view table.now) key (Want.Whole low high)
        (at key (table_view table.now)) }
{
    optional(table, key, Want::Whole(low, high), at(key, table))
}

/// Gives the slip its rule. If there is none, the later one comes.
fn of_rule(rule: u8, slip: Option<Slip>, later: Option<Slip>) -> Option<Slip>
    ensures { result ≡ or_slip (option_map (of_rule rule) slip) later }
{
    match slip {
        Some(slip) => Some(Slip { rule, ..slip }),
        None => later,
    }
}

fn number_slip(table: &Table) -> Option<Slip>
    ensures { result ≡ first_of 1 (number_slips (table_view table.now)) }
{
    let format = Want::Whole(1, 2);
    let budget = of_rule(5, whole_slip(table, Key::Budget, 1, 200_000), None);
    let window = of_rule(4, whole_slip(table, Key::Window, 1, 32_768), budget);
    let lead = of_rule(3, whole_slip(table, Key::Lead, 0, 4096), window);
    let format = required(table, Key::Format, format, at(Key::Format, table));
    of_rule(
        1,
        own_keys(table, Noun::TopKey, Some(table)),
        of_rule(2, format, lead),
    )
}

fn array_slip(table: &Table, key: Key, whole: Want, each: Want) -> Option<Slip>
    ensures { result ≡ array_slip (table_view table.now) key whole each }
{
    if let Some(slip) = required(table, key, whole, at(key, table)) {
        return Some(slip);
    }
    single_items(table, key, each, values_at(table, key.text()))
}

fn purge_slip(table: &Table) -> Option<Slip>
    ensures { result ≡ purge_slip (table_view table.now) }
{
    let values = values_at(table, "purge");
    let items = single_items(table, Key::Purge, Want::Is(Noun::PurgePlace), values);
    or_slip(
        optional(table, Key::Purge, Want::Array, at(Key::Purge, table)),
        items,
    )
}

fn location_slip(table: &Table) -> Option<Slip>
    ensures { result ≡ first_of 6 (location_slips (table_view table.now)) }
{
    let name = Want::Is(Noun::Name);
    let location = Want::Is(Noun::Location);
    let locations = array_slip(table, Key::Locations, Want::Items(1, 256), name);
    let modules = array_slip(table, Key::Modules, Want::Items(1, 64), name);
    let trays = array_slip(table, Key::Trays, Want::SomeItems, location);
    let purge = of_rule(9, purge_slip(table), None);
    of_rule(6, locations, of_rule(7, modules, of_rule(8, trays, purge)))
}

fn feeders_slip(table: &Table) -> Option<Slip>
    ensures { result ≡ feeders_slip (table_view table.now) }
{
    let whole = required(table, Key::Feeders, Want::SomeKeys, at(Key::Feeders, table));
    let feeders = table_at(Key::Feeders, table);
    or_slip(
        whole,
        entries(table, Key::Feeders, Noun::FeederPlace, feeders),
    )
}

fn resources_slip(table: &Table) -> Option<Slip>
    ensures { result ≡ resources_slip (table_view table.now) }
{
    let value = at(Key::Resources, table);
    let whole = optional(table, Key::Resources, Want::Table, value);
    let few = required(table, Key::Resources, Want::Keys(256), value);
    let names = entries(table, Key::Resources, Noun::Name, table_in(value));
    or_slip(whole, or_slip(few, names))
}

fn supply_slip(table: &Table) -> Option<Slip>
    ensures { result ≡ first_of 10 (supply_slips (table_view table.now)) }
{
    let feeders = table_at(Key::Feeders, table);
    let resources = table_at(Key::Resources, table);
    let media = amounts(table, Key::Feeders, Want::Is(Noun::Name), feeders);
    let modules = amounts(table, Key::Resources, Want::Is(Noun::Module), resources);
    let later = of_rule(12, resources_slip(table), of_rule(13, modules, None));
    of_rule(10, feeders_slip(table), of_rule(11, media, later))
}

fn tables_slip(table: &Table) -> Option<Slip>
    ensures { result ≡ first_in (item (table_view table.now) Key.Actions Want.Table) 0
        (actions (table_view table.now)) }
{
    let mut number = 0;
    let mut rest = values_at(table, "actions");
    'values: while let [value, others @ ..] = rest {
        let found = item(table, Key::Actions, Want::Table, number, value);
        if found.is_some() {
            return found;
        }
        number += 1;
        rest = others;
    }
    None
}

fn actions_slip(table: &Table) -> Option<Slip>
    ensures { result ≡ actions_slip (table_view table.now) }
{
    let value = at(Key::Actions, table);
    if let Some(slip) = required(table, Key::Actions, Want::Items(1, 512), value) {
        return Some(slip);
    }
    tables_slip(table)
}

/// The slip of the rule on actions, one by one. If there is none, the later one comes.
fn of_actions(rule: u8, look: ActionRule, table: &Table, later: Option<Slip>) -> Option<Slip>
    ensures { result ≡ or_slip
        (option_map (of_rule rule) (all_actions (table_view table.now) look)) later }
{
    of_rule(rule, all_actions(table, look), later)
}

fn action_slip(table: &Table) -> Option<Slip>
    ensures { result ≡ first_of 14 (action_slips (table_view table.now)) }
{
    if let Some(slip) = of_rule(14, actions_slip(table), None) {
        return Some(slip);
    }
    let prints = of_actions(21, ActionRule::Prints, table, None);
    let durations = of_actions(20, ActionRule::Durations, table, prints);
    let ways = of_actions(19, ActionRule::Way, table, durations);
    let ends = of_actions(18, ActionRule::Ends, table, ways);
    let modules = of_actions(17, ActionRule::Module, table, ends);
    let names = of_actions(16, ActionRule::Name, table, modules);
    of_actions(15, ActionRule::Keys, table, names)
}

fn hold_slip(table: &Table) -> Option<Slip>
    ensures { result ≡ first_of 22 (hold_slips (table_view table.now)) }
{
    let lengths = of_actions(24, ActionRule::Lengths, table, None);
    let begins = of_actions(23, ActionRule::Begins, table, lengths);
    of_actions(22, ActionRule::Holds, table, begins)
}

fn amounts_slip(table: &Table, key: Key, noun: Noun, most: u32) -> Option<Slip>
    ensures { result ≡ amounts_slip (table_view table.now) key noun most }
{
    let value = at(key, table);
    let members = table_in(value);
    let second = required(table, key, Want::Second, value);
    let whole = optional(table, key, Want::Table, value);
    let keys = entries(table, key, noun, members);
    let values = amounts(table, key, Want::Whole(0, i64::from(most)), members);
    or_slip(second, or_slip(whole, or_slip(keys, values)))
}

fn amount_slip(table: &Table) -> Option<Slip>
    ensures { result ≡ first_of 25 (amount_slips (table_view table.now)) }
{
    let gaps = amounts_slip(table, Key::Gaps, Noun::Resource, 4096);
    let stock = amounts_slip(table, Key::Stock, Noun::Feeder, 1_000_000);
    of_rule(25, gaps, of_rule(26, stock, None))
}

/// The first place of the first rule that the table breaks.
pub fn first_slip(table: &Table) -> Option<Slip>
    ensures { result ≡ first_slip (table_view table.now) }
{
    if let Some(slip) = number_slip(table) {
        return Some(slip);
    }
    if let Some(slip) = location_slip(table) {
        return Some(slip);
    }
    if let Some(slip) = supply_slip(table) {
        return Some(slip);
    }
    if let Some(slip) = action_slip(table) {
        return Some(slip);
    }
    if let Some(slip) = hold_slip(table) {
        return Some(slip);
    }
    amount_slip(table)
}
