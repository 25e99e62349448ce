//! Numbers and names, taken from a table that keeps the rules.
ghost use Rattle.std.specs.Prelude.{◌≡◌, ◌≤◌, ◌<◌, ◌++◌, ◌∷◌, [], false, OnOk, IsTrue, IfOk, length, map, pos};
ghost use Rattle.toml.specs.Data.{get_member};
ghost use Rattle.toml.specs.View.{table_view, view};
ghost use Rattle.tp_base.specs.NameText.{is_name_text};
ghost use Rattle.tp_machine.specs.Limits.{most_budget, most_locations, most_modules};
ghost use Rattle.tp_machine_text.specs.Words.{text_of, is_fit, is_whole, is_among, is_name, are_names};
ghost use Rattle.tp_machine_text.specs.TheMachine.{place_in, loc_of, module_of, number_or};

use crate::lookup::{text_of, value_at, whole_of};
use std::alloc::Global;
use toml::{Table, Value};
use tp_base::{Items, Memory, Name};
use tp_machine::{LocId, ModId, Names};

/// The whole number at the key, or `absent`.
pub(crate) fn number_at(table: &Table, key: &str, absent: u32) -> u32
    requires { IsTrue (is_fit (is_whole (pos 0) (pos most_budget))
        (get_member key.now (table_view table.now))) }
    ensures { result ≡ number_or absent (get_member key.now (table_view table.now)) }
{
    match value_at(table, key) {
        Some(value) => whole_of(value) as u32,
        None => absent,
    }
}

pub(crate) fn name_in(text: &str) -> Name
    requires { IsTrue (is_name_text text.now) }
    ensures { result ≡ text.now }
{
    match Name::read(text.as_bytes()) {
        Some(name) => name,
        None => unreachable!(),
    }
}

pub(crate) fn name_of(value: &Value) -> Name
    requires { IsTrue (is_name (view value.now)) }
    ensures { result ≡ text_of (view value.now) }
{
    name_in(text_of(value))
}

/// Adds a name that is not there yet.
fn add_name(names: &mut Names, value: &Value) -> Result<(), Memory>
    requires room { length names.old < most_locations }
    requires named { IsTrue (is_name (view value.now)) }
    requires new { is_among names.old (text_of (view value.now)) ≡ false }
    ensures { OnOk result (names.new ≡ names.old ++ text_of (view value.now) ∷ []) }
{
    names.add(name_of(value))?;
    Ok(())
}

/// The names of an array, in its order.
#[tactic(auto, using(crate::proofs::Fresh::fresh, crate::proofs::Seen::seen))]
pub(crate) fn names_of(alloc: Global, values: &[Value]) -> Result<Names, Memory>
    requires { IsTrue (are_names most_locations (map view values.now)) }
    ensures { IfOk result (λ names. names ≡ map text_of (map view values.now)) }
{
    let mut names = Names::new(alloc);
    let mut rest = values;
    'values: while let [value, others @ ..] = rest {
        add_name(&mut names, value)?;
        rest = others;
    }
    Ok(names)
}

/// The place of the text among the values, counted from 0.
pub(crate) fn place_in(values: &[Value], text: &str) -> usize
    ensures place { result ≡ place_in (map text_of (map view values.now)) text.now }
    ensures within { result ≤ length values.now }
{
    let mut place = 0;
    let mut rest = values;
    'values: while let [value, others @ ..] = rest {
        if text == text_of(value) {
            return place;
        }
        place += 1;
        rest = others;
    }
    place
}

pub(crate) fn loc_of(locations: &[Value], text: &str) -> LocId
    requires { length locations.now ≤ most_locations }
    ensures { result ≡ loc_of (map text_of (map view locations.now)) text.now }
{
    LocId(place_in(locations, text) as u16)
}

pub(crate) fn module_of(modules: &[Value], text: &str) -> ModId
    requires { length modules.now ≤ most_modules }
    ensures { result ≡ module_of (map text_of (map view modules.now)) text.now }
{
    ModId(place_in(modules, text) as u8)
}

/// The places of the values among the locations.
pub(crate) fn locs_of(
    alloc: Global,
    locations: &[Value],
    values: &[Value],
) -> Result<Items<LocId>, Memory>
    requires few { length locations.now ≤ most_locations }
    requires within { length values.now ≤ most_locations }
    ensures { IfOk result (λ locs. locs
        ≡ map (loc_of (map text_of (map view locations.now)))
        (map text_of (map view values.now))) }
{
    let mut locs = Items::new(alloc);
    let mut rest = values;
    'values: while let [value, others @ ..] = rest {
        locs.push(loc_of(locations, text_of(value)))?;
        rest = others;
    }
    Ok(locs)
}
