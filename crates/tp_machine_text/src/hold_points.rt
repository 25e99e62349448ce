//! The holds of an action, and when a hold begins and ends.
ghost use Rattle.std.specs.Prelude.{◌≡◌, map};
ghost use Rattle.toml.specs.View.{view};
ghost use Rattle.tp_machine.specs.Rules.{begins_within, is_never_empty};
ghost use Rattle.tp_machine_text.specs.HoldRules.{holds, anchor_of, anchor_in, offset_in, anchor_at, offset_at, number_of, least_of, most_of, begins_in_action, is_filled};

use crate::lookup::{field, text_of, values_in, whole_at, whole_of};
use toml::Value;
use tp_machine::Anchor;

/// The holds of an action.
pub(crate) fn holds_of(action: &Value) -> &[Value]
    ensures { map view result.now ≡ holds (view action.now) }
{
    values_in(field(action, "holds"))
}

fn anchor_of(value: &Value) -> Anchor
    ensures { result ≡ anchor_of (view value.now) }
{
    if text_of(value) == "end" {
        Anchor::End
    } else {
        Anchor::Start
    }
}

/// The anchor and the offset of `begin` or `end`.
pub(crate) fn point_at(hold: &Value, key: &str) -> (Anchor, i64)
    ensures anchor { result.0 ≡ anchor_at key.now (view hold.now) }
    ensures offset { result.1 ≡ offset_at key.now (view hold.now) }
{
    point_in(values_in(field(hold, key)))
}

fn point_in(values: &[Value]) -> (Anchor, i64)
    ensures anchor { result.0 ≡ anchor_in (map view values.now) }
    ensures offset { result.1 ≡ offset_in (map view values.now) }
{
    match values {
        [anchor, offset, ..] => (anchor_of(anchor), whole_of(offset)),
        [anchor] => (anchor_of(anchor), 0),
        [] => (Anchor::Start, 0),
    }
}

fn number_of(number: i64) -> u64
    ensures { result ≡ number_of number }
{
    if number < 0 { 0 } else { number as u64 }
}

pub(crate) fn least_of(action: &Value) -> u64
    ensures { result ≡ least_of (view action.now) }
{
    number_of(whole_at(action, "least"))
}

pub(crate) fn most_of(action: &Value) -> u64
    ensures { result ≡ most_of (view action.now) }
{
    number_of(whole_at(action, "most"))
}

/// Whether the hold begins at or after the start of its action, whatever the duration.
#[tactic(auto, unfolding(crate::specs::HoldRules::begins_in_action))]
pub(crate) fn begins_in_action(action: &Value, hold: &Value) -> bool
    ensures { result ≡ begins_in_action (least_of (view action.now)) (view hold.now) }
{
    let (anchor, offset) = point_at(hold, "begin");
    begins_within(least_of(action), anchor, offset)
}

fn begins_within(least: u64, anchor: Anchor, offset: i64) -> bool
    ensures { result ≡ begins_within least anchor offset }
{
    match anchor {
        Anchor::Start => 0 <= offset,
        Anchor::End => 0 <= i128::from(least) + i128::from(offset),
    }
}

/// Whether the hold begins before it ends, whatever the duration.
#[tactic(auto, unfolding(crate::specs::HoldRules::is_filled))]
pub(crate) fn is_filled(action: &Value, hold: &Value) -> bool
    ensures { result ≡ is_filled (least_of (view action.now)) (most_of (view action.now))
        (view hold.now) }
{
    let begin = point_at(hold, "begin");
    let end = point_at(hold, "end");
    is_never_empty(least_of(action), most_of(action), begin, end)
}

fn is_never_empty(least: u64, most: u64, begin: (Anchor, i64), end: (Anchor, i64)) -> bool
    ensures { result ≡ is_never_empty least most begin.0 begin.1 end.0 end.1 }
{
    let first = i128::from(begin.1);
    let last = i128::from(end.1);
    match (begin.0, end.0) {
        (Anchor::Start, Anchor::Start) | (Anchor::End, Anchor::End) => first < last,
        (Anchor::Start, Anchor::End) => first < i128::from(least) + last,
        (Anchor::End, Anchor::Start) => i128::from(most) + first < last,
    }
}
