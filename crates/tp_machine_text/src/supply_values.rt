//! Feeders, stocks and gaps, taken from a table that keeps the rules.
ghost use Rattle.std.specs.Prelude.{◌≡◌, ◌≤◌, pos, true, IsTrue, IfOk, length, map, option_map};
ghost use Rattle.std.specs.List.{list_all};
ghost use Rattle.toml.specs.Data.{get_member};
ghost use Rattle.toml.specs.View.{table_view, view};
ghost use Rattle.tp_base.specs.NameText.{is_name_text};
ghost use Rattle.tp_machine.specs.Limits.{most_locations, most_modules, most_resources, most_stock};
ghost use Rattle.tp_machine.specs.Rules.{do_names_rise};
ghost use Rattle.tp_machine_text.specs.Words.{text_of, keys_of, data_of, members_of, is_name, is_among, is_fit, is_whole};
ghost use Rattle.tp_machine_text.specs.TheMachine.{amount_at, or_zero, feeders_of, resources_of, place_in as place_among};

use crate::lookup::{text_of, value_at, whole_of};
use crate::table_values::{loc_of, module_of, name_in, name_of};
use std::alloc::Global;
use toml::{Table, Value};
use tp_base::{Items, Memory};
use tp_machine::{Feeder, Resource};

/// The whole number at the key, where it is there.
#[tactic(auto, unfolding(crate::specs::TheMachine::amount_at))]
fn amount_in(amounts: &Table, key: &str) -> Option<u32>
    requires { IsTrue (is_fit (is_whole (pos 0) (pos most_stock))
        (get_member key.now (table_view amounts.now))) }
    ensures { result ≡ amount_at key.now (table_view amounts.now) }
{
    match value_at(amounts, key) {
        Some(value) => Some(whole_of(value) as u32),
        None => None,
    }
}

/// The whole number at the key of a table, if there is a table and a number.
#[tactic(auto, unfolding(crate::specs::TheMachine::amount_at))]
fn amount_at(amounts: Option<&Table>, key: &str) -> Option<u32>
    requires { list_all (is_whole (pos 0) (pos most_stock))
        (data_of (members_of (option_map (λ m. table_view m.now) amounts))) ≡ true }
    ensures { result ≡ amount_at key.now
        (members_of (option_map (λ m. table_view m.now) amounts.entry)) }
{
    match amounts {
        Some(amounts) => amount_in(amounts, key),
        None => None,
    }
}

fn gap_at(gaps: Option<&Table>, key: &str) -> u32
    requires { list_all (is_whole (pos 0) (pos most_stock))
        (data_of (members_of (option_map (λ m. table_view m.now) gaps))) ≡ true }
    ensures { result ≡ or_zero (amount_at key.now
        (members_of (option_map (λ m. table_view m.now) gaps.entry))) }
{
    match amount_at(gaps, key) {
        Some(gap) => gap,
        None => 0,
    }
}

/// The feeders of a table, in the order of its keys, with their stocks.
pub(crate) fn feeders_of(
    alloc: Global,
    locations: &[Value],
    stocks: Option<&Table>,
    table: &Table,
) -> Result<Items<Feeder>, Memory>
    requires few { length locations.now ≤ most_locations }
    requires known { list_all (is_among (map text_of (map view locations.now)))
        (keys_of (table_view table.now)) ≡ true }
    requires named { list_all is_name (data_of (table_view table.now)) ≡ true }
    requires stocked { list_all (is_whole (pos 0) (pos most_stock))
        (data_of (members_of (option_map (λ m. table_view m.now) stocks))) ≡ true }
    ensures feeders { IfOk result (λ feeders. feeders
        ≡ feeders_of (map text_of (map view locations.now))
        (members_of (option_map (λ m. table_view m.now) stocks.entry)) (table_view table.now)) }
    ensures rise { IfOk result (λ _. IsTrue (do_names_rise (keys_of (table_view table.now)))) }
{
    let mut feeders = Items::new(alloc);
    let entries = table.iter();
    'entries: for (key, value) in entries {
        feeders.push(Feeder {
            loc: loc_of(locations, key.as_str()),
            media: name_of(value),
            stock: amount_at(stocks, key.as_str()),
        })?;
    }
    Ok(feeders)
}

/// The resources of a table, in the order of its keys, with their gaps.
pub(crate) fn resources_of(
    alloc: Global,
    modules: &[Value],
    gaps: Option<&Table>,
    table: &Table,
) -> Result<Items<Resource>, Memory>
    requires few { length modules.now ≤ most_modules }
    requires counted { length (keys_of (table_view table.now)) ≤ most_resources }
    requires named { list_all is_name_text (keys_of (table_view table.now)) ≡ true }
    requires spaced { list_all (is_whole (pos 0) (pos most_stock))
        (data_of (members_of (option_map (λ m. table_view m.now) gaps))) ≡ true }
    ensures resources { IfOk result
        (λ resources. resources ≡ resources_of (map text_of (map view modules.now))
        (members_of (option_map (λ m. table_view m.now) gaps.entry)) (table_view table.now)) }
    ensures rise { IfOk result (λ _. IsTrue (do_names_rise (keys_of (table_view table.now)))) }
{
    let mut resources = Items::new(alloc);
    let entries = table.iter();
    'entries: for (key, value) in entries {
        resources.push(Resource {
            name: name_in(key.as_str()),
            module: module_of(modules, text_of(value)),
            gap: gap_at(gaps, key.as_str()),
        })?;
    }
    Ok(resources)
}

/// The place of the key among the keys of a table, counted from 0.
pub(crate) fn place_of_key(table: &Table, text: &str) -> usize
    ensures place { result ≡ place_among (keys_of (table_view table.now)) text.now }
    ensures within { result ≤ length (keys_of (table_view table.now)) }
{
    let mut place = 0;
    let keys = table.keys();
    'keys: for key in keys {
        if text == key.as_str() {
            return place;
        }
        place += 1;
    }
    place
}
