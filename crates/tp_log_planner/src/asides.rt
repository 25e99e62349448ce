//! The records that tell no answer.
ghost use Rattle.std.specs.Prelude.{◌≡◌, ◌≤◌, drop, length};
ghost use Rattle.tp_log_planner.specs.ToldAnswers.{begins_with_move, behind_asides, is_aside, is_other};

use tp_log::Item;
use tp_schedule::Record;

fn is_other(told: &Record) -> bool
    ensures { result ≡ is_other told.now }
{
    match told {
        Record::Plan { .. } | Record::Move { .. } | Record::Never { .. } | Record::Budget { .. } =>
            false,
        _ => true,
    }
}

fn is_aside(item: &Item) -> bool
    ensures { result ≡ is_aside item.now }
{
    match item {
        Item::Note(told) => is_other(told),
        _ => false,
    }
}

/// The first place, from this one on, of an item that is no aside, or the number of items.
pub(crate) fn next_from(items: &[Item], from: usize) -> usize
    requires { from ≤ length items.now }
    ensures items { drop result items.now ≡ behind_asides (drop from items.now) }
    ensures further { from ≤ result }
    ensures within { result ≤ length items.now }
{
    let mut at = from;
    'asides: while at < items.len() {
        if !is_aside(&items[at]) {
            return at;
        }
        at += 1;
    }
    at
}

/// Whether the first item is a move.
pub(crate) fn begins_with_move(items: &[Item]) -> bool
    ensures { result ≡ begins_with_move items.now }
{
    match items {
        [Item::Note(Record::Move { .. }), ..] => true,
        _ => false,
    }
}
