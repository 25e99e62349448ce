//! Where records part from those of items.

ghost use Rattle.std.specs.Prelude.{◌≡◌, ◌↔◌, ◌≤◌, ◌∷◌, ◌++◌, [], List, IfSome, IsNone, MatchOption, drop, length};
ghost use Rattle.tp_log.specs.GatheredItems.{is_tree};
ghost use Rattle.tp_schedule.specs.declared.records.Record.{Record};
ghost use Rattle.tp_log_check.specs.EventEntry.{trees_in};
ghost use Rattle.tp_log_check.specs.FirstDifference.{IsFirstTree, PartsAt};
ghost use Rattle.tp_run_laws.specs.Proved.{records_in};

use crate::same_record;
use tp_log::Item;
use tp_schedule::Record;

/// What is due behind the record, if this one is due.
fn behind_record<'a>(due: &'a [Record], told: &Record) -> Option<&'a [Record]>
    ensures { MatchOption result ((left : List Record) → due.now ≡ told.now ∷ left → ⊥)
        (λ left. due.now ≡ told.now ∷ left.now) }
{
    match due {
        [first, others @ ..] => {
            if same_record(first, told) {
                Some(others)
            } else {
                None
            }
        }
        [] => None,
    }
}

/// What is due behind the item, if its record is due.
fn behind<'a>(due: &'a [Record], item: &Item) -> Option<&'a [Record]>
    ensures { MatchOption result ((left : List Record)
        → due.now ≡ records_in (item.now ∷ []) ++ left → ⊥)
        (λ left. due.now ≡ records_in (item.now ∷ []) ++ left.now) }
{
    match item {
        Item::Note(told) => behind_record(due, told),
        Item::Event(_) | Item::Tree(_) => Some(due),
    }
}

/// The first item that tells another record than the one that is due, or one that is too many; their number, if a record is due behind
/// them. None exactly where the items tell these records.
pub(crate) fn find_parting(notes: &[Record], items: &[Item]) -> Option<usize>
    ensures same { IsNone result ↔ (notes.now ≡ records_in items.now) }
    ensures parts { IfSome result (PartsAt notes.now items.now) }
{
    let mut due = notes;
    let mut rest = items;
    'items: while let [item, others @ ..] = rest {
        match behind(due, item) {
            Some(left) => due = left,
            None => return Some(items.len() - rest.len()),
        }
        rest = others;
    }
    if due.is_empty() {
        None
    } else {
        Some(items.len())
    }
}

fn is_tree(item: &Item) -> bool
    ensures { result ≡ is_tree item.now }
{
    matches!(item, Item::Tree(_))
}

/// The first tree from a place on. None exactly where there is none.
pub(crate) fn find_tree(items: &[Item], from: usize) -> Option<usize>
    requires { from ≤ length items.now }
    ensures none { IsNone result ↔ (trees_in (drop from items.now) ≡ []) }
    ensures first { IfSome result (IsFirstTree from items.now) }
{
    let mut rest = &items[from..];
    'trees: while let [item, others @ ..] = rest {
        if is_tree(item) {
            return Some(items.len() - rest.len());
        }
        rest = others;
    }
    None
}
