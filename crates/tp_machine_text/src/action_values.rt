//! An action and its holds, taken from a table that keeps the rules.
ghost use Rattle.std.specs.Prelude.{◌≡◌, ◌≤◌, ◌≤ℤ◌, pos, negsuc, true, IsTrue, IfOk, length, map, option_map, codes};
ghost use Rattle.std.specs.List.{list_all};
ghost use Rattle.toml.specs.Data.{get};
ghost use Rattle.toml.specs.View.{table_view, view};
ghost use Rattle.tp_machine.specs.Limits.{most_act_holds, most_actions, most_locations, most_mode, most_modules, most_resources};
ghost use Rattle.tp_machine_text.specs.Words.{text_of, keys_of, members_of, is_fit, is_whole};
ghost use Rattle.tp_machine_text.specs.ActionRules.{is_named, has_durations};
ghost use Rattle.tp_machine_text.specs.HoldRules.{is_hold, has_holds, holds};
ghost use Rattle.tp_machine_text.specs.TheMachine.{number_or, resource_of, hold_of, prints_word, truth_in, action_of};

use crate::hold_points::{holds_of, least_of, most_of, point_at};
use crate::lookup::{field, is_among, text_at, values_in, whole_of};
use crate::supply_values::place_of_key;
use crate::table_values::{loc_of, module_of, name_in};
use std::alloc::Global;
use toml::{Table, Value};
use tp_base::{Items, Memory};
use tp_machine::{Action, HoldRule, Holds, ResId};

fn resource_of(resources: Option<&Table>, text: &str) -> ResId
    requires { length (keys_of (members_of
        (option_map (λ m. table_view m.now) resources))) ≤ most_resources }
    ensures { result ≡ resource_of
        (keys_of (members_of (option_map (λ m. table_view m.now) resources.entry))) text.now }
{
    match resources {
        Some(table) => ResId(place_of_key(table, text) as u16),
        None => ResId(0),
    }
}

/// An offset in the range of a hold's offsets.
fn narrow(offset: i64) -> i32
    requires low { negsuc 8191 ≤ℤ offset }
    requires high { offset ≤ℤ pos 8192 }
    ensures { result ≡ offset }
{
    offset as i32
}

/// The mode of a hold, which is 0 where it is absent.
fn mode_of(hold: &Value) -> u8
    requires { IsTrue (is_fit (is_whole (pos 0) (pos most_mode))
        (get (codes "mode") (view hold.now))) }
    ensures { result ≡ number_or 0 (get (codes "mode") (view hold.now)) }
{
    match field(hold, "mode") {
        Some(mode) => whole_of(mode) as u8,
        None => 0,
    }
}

#[tactic(auto, unfolding(crate::specs::TheMachine::hold_of))]
fn hold_of(resources: Option<&Table>, hold: &Value) -> HoldRule
    requires few { length (keys_of (members_of (option_map (λ m. table_view m.now) resources)))
        ≤ most_resources }
    requires kept { is_hold (keys_of (members_of (option_map (λ m. table_view m.now) resources)))
        (view hold.now) ≡ true }
    ensures { result ≡ hold_of (keys_of
        (members_of (option_map (λ m. table_view m.now) resources.entry))) (view hold.now) }
{
    let begin = point_at(hold, "begin");
    let end = point_at(hold, "end");
    HoldRule {
        resource: resource_of(resources, text_at(hold, "resource")),
        begin: begin.0,
        begin_off: narrow(begin.1),
        end: end.0,
        end_off: narrow(end.1),
        mode: mode_of(hold),
    }
}

/// The holds of an action, in the order of the text.
fn holds_in(resources: Option<&Table>, holds: &[Value]) -> Holds
    requires few { length (keys_of (members_of (option_map (λ m. table_view m.now) resources)))
        ≤ most_resources }
    requires counted { length holds.now ≤ most_act_holds }
    requires kept { list_all (is_hold
        (keys_of (members_of (option_map (λ m. table_view m.now) resources)))) (map view holds.now)
        ≡ true }
    ensures { result ≡ map (hold_of
        (keys_of (members_of (option_map (λ m. table_view m.now) resources.entry))))
        (map view holds.now) }
{
    let mut made = Holds::new();
    let mut rest = holds;
    'holds: while let [hold, others @ ..] = rest {
        made.add(hold_of(resources, hold));
        rest = others;
    }
    made
}

#[tactic(auto, unfolding(crate::specs::HoldRules::has_holds))]
fn action_holds(resources: Option<&Table>, action: &Value) -> Holds
    requires few { length (keys_of (members_of (option_map (λ m. table_view m.now) resources)))
        ≤ most_resources }
    requires kept { has_holds (keys_of (members_of (option_map (λ m. table_view m.now) resources)))
        (view action.now) ≡ true }
    ensures { result ≡ map (hold_of
        (keys_of (members_of (option_map (λ m. table_view m.now) resources.entry))))
        (holds (view action.now)) }
{
    holds_in(resources, holds_of(action))
}

fn prints_word(action: &Value, word: &str) -> bool
    ensures { result ≡ prints_word word.now (view action.now) }
{
    is_among(values_in(field(action, "prints")), word)
}

fn truth_in(value: Option<&Value>) -> bool
    ensures { result ≡ truth_in (option_map (λ v. view v.now) value.entry) }
{
    match value {
        Some(value) => value.as_bool().unwrap_or(false),
        None => false,
    }
}

#[tactic(auto, unfolding(crate::specs::TheMachine::action_of, crate::specs::ActionRules::is_named, crate::specs::ActionRules::has_durations))]
fn action_of(
    locations: &[Value],
    modules: &[Value],
    resources: Option<&Table>,
    action: &Value,
) -> Action
    requires few_locations { length locations.now ≤ most_locations }
    requires few_modules { length modules.now ≤ most_modules }
    requires few { length (keys_of (members_of (option_map (λ m. table_view m.now) resources)))
        ≤ most_resources }
    requires named { is_named (view action.now) ≡ true }
    requires lasting { has_durations (view action.now) ≡ true }
    requires held { has_holds (keys_of (members_of (option_map (λ m. table_view m.now) resources)))
        (view action.now) ≡ true }
    ensures { result ≡ action_of (map text_of (map view locations.now))
        (map text_of (map view modules.now))
        (keys_of (members_of (option_map (λ m. table_view m.now) resources.entry)))
        (view action.now) }
{
    Action {
        name: name_in(text_at(action, "name")),
        module: module_of(modules, text_at(action, "module")),
        from: loc_of(locations, text_at(action, "from")),
        to: loc_of(locations, text_at(action, "to")),
        least: least_of(action) as u32,
        most: most_of(action) as u32,
        mono: prints_word(action, "mono"),
        colour: prints_word(action, "colour"),
        flip: truth_in(field(action, "flip")),
        holds: action_holds(resources, action),
    }
}

/// The actions, in the order of the text.
pub(crate) fn actions_of(
    alloc: Global,
    locations: &[Value],
    modules: &[Value],
    resources: Option<&Table>,
    actions: &[Value],
) -> Result<Items<Action>, Memory>
    requires few_locations { length locations.now ≤ most_locations }
    requires few_modules { length modules.now ≤ most_modules }
    requires few { length (keys_of (members_of (option_map (λ m. table_view m.now) resources)))
        ≤ most_resources }
    requires counted { length actions.now ≤ most_actions }
    requires named { list_all is_named (map view actions.now) ≡ true }
    requires lasting { list_all has_durations (map view actions.now) ≡ true }
    requires held { list_all (has_holds
        (keys_of (members_of (option_map (λ m. table_view m.now) resources))))
        (map view actions.now) ≡ true }
    ensures { IfOk result (λ made. made
        ≡ map (action_of (map text_of (map view locations.now))
        (map text_of (map view modules.now))
        (keys_of (members_of (option_map (λ m. table_view m.now) resources.entry))))
        (map view actions.now)) }
{
    let mut made = Items::new(alloc);
    let mut rest = actions;
    'actions: while let [action, others @ ..] = rest {
        made.push(action_of(locations, modules, resources, action))?;
        rest = others;
    }
    Ok(made)
}
