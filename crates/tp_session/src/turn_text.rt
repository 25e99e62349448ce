//! The text of an event's turn.

ghost use Rattle.std.specs.Prelude.{◌≡◌, ◌++◌, [], All, None, Some, drop, false, map, slice_get, take, flat_map, if◌then◌else◌, IfOk, IfSome, OnOk, OnErr};
ghost use Rattle.tp_bounds.specs.Trees.{IsPrintable};
ghost use Rattle.tp_log.specs.Grammar.{HasFields, IsRecord};
ghost use Rattle.tp_log.specs.Logs.{IsItem, item_text, log_text};
ghost use Rattle.tp_log.specs.Records.{record_text};
ghost use Rattle.tp_log.specs.declared.item.Item.TheVariants.{Tree};
ghost use Rattle.tp_run_laws.specs.Runs.{begin_with_move, entry_of, is_of_plan, items_of, items_with, trees_behind};
ghost use Rattle.tp_script.specs.Printed.{IsEchoed};
ghost use Rattle.tp_session.specs.Texts.{IsLonger};

use tp_base::Memory;
use tp_bounds::{BoundTree, print_tree};
use tp_log::{print_echo, print_record_by, record_law};
use tp_schedule::Record;
use tp_script::Event;

/// The names in the records are names, and their numbers fit in 32 bits. The call changes nothing.
pub(crate) fn records_law(records: &[Record])
    ensures { All HasFields records.now }
{
    for rec in records {
        record_law(rec);
    }
}

/// Whether the record is a plan, or a move directly behind a plan and its other moves.
fn is_of_plan(before: bool, rec: &Record) -> bool
    ensures { result ≡ is_of_plan before rec.now }
{
    match rec {
        Record::Plan { .. } => true,
        Record::Move { .. } => before,
        _ => false,
    }
}

fn begin_with_move(records: &[Record]) -> bool
    ensures { result ≡ begin_with_move records.now }
{
    match records {
        [Record::Move { .. }, ..] => true,
        _ => false,
    }
}

/// Whether a tree stands between the record and the ones behind it.
fn takes_tree(before: bool, rec: &Record, records: &[Record]) -> bool
    ensures { trees_behind before rec.now records.now ≡ (if result then 1 else 0) }
{
    match rec {
        Record::Never { .. } => true,
        _ => is_of_plan(before, rec) && !begin_with_move(records),
    }
}

/// The first record and those behind it.
fn first_record(records: &[Record]) -> Option<(&Record, &[Record])>
    ensures first { IfSome result (λ pair. slice_get records.now 0 ≡ Some pair.0.now) }
    ensures more { IfSome result (λ pair. pair.1.now ≡ drop 1 records.now) }
    ensures none { result ≡ None → records.now ≡ [] }
{
    match records {
        [rec, more @ ..] => Some((rec, more)),
        [] => None,
    }
}

/// Appends the lines of the first tree, if there is one, and tells the trees behind it.
fn put_first<'t>(trees: &'t [BoundTree], out: &mut Vec<u8>) -> Result<&'t [BoundTree], Memory>
    requires { All IsPrintable trees.now }
    ensures left { IfOk result (λ left. left.now ≡ drop 1 trees.now) }
    ensures told { OnOk result (out.new.items ≡ out.old.items
        ++ flat_map item_text (map (λ t. Tree t) (take 1 trees.now))) }
    ensures spelled { OnOk result (All IsItem (map (λ t. Tree t) (take 1 trees.now))) }
    ensures grows { IsLonger out.old.items out.new.items }
{
    match trees {
        [tree, left @ ..] => match print_tree(tree, out) {
            Ok(()) => Ok(left),
            Err(error) => Err(error),
        },
        [] => Ok(trees),
    }
}

/// Appends the line of the record, made in `line`, and the lines of a tree where one stands behind it. Tells the trees that are
/// left.
fn put_with_tree<'t>(
    before: bool,
    rec: &Record,
    more: &[Record],
    trees: &'t [BoundTree],
    line: &mut Vec<u8>,
    out: &mut Vec<u8>,
) -> Result<&'t [BoundTree], Memory>
    requires is_record { IsRecord rec.now }
    requires printable { All IsPrintable trees.now }
    ensures left { IfOk result
        (λ left. left.now ≡ drop (trees_behind before rec.now more.now) trees.now) }
    ensures told { OnOk result (out.new.items ≡ out.old.items ++ (record_text rec.now
        ++ flat_map item_text
        (map (λ t. Tree t) (take (trees_behind before rec.now more.now) trees.now)))) }
    ensures spelled { OnOk result (All IsItem
        (map (λ t. Tree t) (take (trees_behind before rec.now more.now) trees.now))) }
    ensures grows { IsLonger out.old.items out.new.items }
{
    print_record_by(rec, line, out)?;
    if takes_tree(before, rec, more) {
        put_first(trees, out)
    } else {
        Ok(trees)
    }
}

/// Appends the lines of the records, with the trees in their places. After `Memory` the first of them may have been appended.
fn put_items(records: &[Record], trees: &[BoundTree], out: &mut Vec<u8>) -> Result<(), Memory>
    requires lines { All IsRecord records.now }
    requires printable { All IsPrintable trees.now }
    ensures told { OnOk result (out.new.items ≡ out.old.items
        ++ log_text (items_with false records.now trees.now)) }
    ensures spelled { OnOk result (All IsItem (items_with false records.now trees.now)) }
    ensures grows { IsLonger out.old.items out.new.items }
{
    let mut rest = records;
    let mut left = trees;
    let mut of_plan = false;
    let mut line = Vec::new(*out.allocator());
    'records: while let Some((rec, more)) = first_record(rest) {
        left = put_with_tree(of_plan, rec, more, left, &mut line, out)?;
        of_plan = is_of_plan(of_plan, rec);
        rest = more;
    }
    Ok(())
}

/// Appends the echo of the event and the lines of its records and trees. After `Memory` the first of them may have been
/// appended.
fn put_turn(
    event: &Event,
    records: &[Record],
    trees: &[BoundTree],
    text: &mut Vec<u8>,
) -> Result<(), Memory>
    requires echoed { IsEchoed event.now }
    requires lines { All IsRecord records.now }
    requires printable { All IsPrintable trees.now }
    ensures told { OnOk result (text.new.items ≡ text.old.items
        ++ log_text (items_of (entry_of event.now records.now trees.now))) }
    ensures spelled { OnOk result
        (All IsItem (items_of (entry_of event.now records.now trees.now))) }
    ensures grows { IsLonger text.old.items text.new.items }
{
    print_echo(event, text)?;
    put_items(records, trees, text)
}

/// Appends the echo of the event and the lines of its records and trees. After `Memory` the text is as before.
pub(crate) fn tell(
    event: &Event,
    records: &[Record],
    trees: &[BoundTree],
    text: &mut Vec<u8>,
) -> Result<(), Memory>
    requires echoed { IsEchoed event.now }
    requires lines { All IsRecord records.now }
    requires printable { All IsPrintable trees.now }
    ensures told { OnOk result (text.new.items ≡ text.old.items
        ++ log_text (items_of (entry_of event.now records.now trees.now))) }
    ensures spelled { OnOk result
        (All IsItem (items_of (entry_of event.now records.now trees.now))) }
    ensures memory { OnErr result (text.new.items ≡ text.old.items) }
{
    let before = text.len();
    match put_turn(event, records, trees, text) {
        Ok(()) => Ok(()),
        Err(error) => {
            text.truncate(before);
            Err(error)
        }
    }
}
