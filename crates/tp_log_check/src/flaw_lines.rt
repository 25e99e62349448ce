//! The lines on which items stand.

ghost use Rattle.std.specs.Prelude.{◌≡◌, ◌≢◌, ◌+◌, ◌<◌, ◌≤◌, ◌^◌};
ghost use Rattle.tp_log.specs.declared.item.Item.TheVariants.{Tree as TreeItem};
ghost use Rattle.tp_log_check.specs.Heights.{height, heights};
ghost use Rattle.tp_log_check.specs.Causes.{flaw_at, flaw_on, lines_into, lines_to, tree_line};
ghost use Rattle.tp_log_check.specs.FlawLines.{LiesBehind};
ghost use Rattle.tp_log_check.specs.declared.flaw.Flaw.TheVariants.{Memory as WantsMemory};

use crate::flaw::Flaw;
use tp_bound_laws::TreeFlaw;
use tp_bounds::BoundTree;
use tp_log::Item;
use tp_log_planner::{Reason, WrongItem};

fn height(item: &Item) -> u64
    ensures { height item.now < 2 ^ 64 → result ≡ height item.now }
{
    match item {
        Item::Event(_) | Item::Note(_) => 1,
        Item::Tree(tree) => tree.rows.len().saturating_add(tree.nodes.len()),
    }
}

/// The line behind the items, where the first stands behind this line.
fn line_behind(items: &[Item], line: u64) -> u64
    ensures { line + 1 + heights items.now < 2 ^ 64 → result ≡ line + 1 + heights items.now }
{
    let mut next = line.saturating_add(1);
    let mut rest = items;
    'items: while let [item, others @ ..] = rest {
        next = next.saturating_add(height(item));
        rest = others;
    }
    next
}

/// How far behind its first line a tree has a flaw: the row or the node, or the line behind the tree.
fn flawed_line(tree: &BoundTree, flaw: TreeFlaw) -> u64
    ensures within { result ≤ height (TreeItem tree.now) }
    ensures is { height (TreeItem tree.now) < 2 ^ 64 → result ≡ tree_line tree.now flaw }
{
    let rows = tree.rows.len();
    let nodes = tree.nodes.len();
    match flaw {
        TreeFlaw::Memory => 0,
        TreeFlaw::RoomRow { row } => {
            if row < rows {
                row
            } else {
                rows.saturating_add(nodes)
            }
        }
        TreeFlaw::Uncovered { node }
        | TreeFlaw::NoSuchHop { node, .. }
        | TreeFlaw::Weak { node, .. }
        | TreeFlaw::NotDead { node } => rows.saturating_add(node.min(nodes)),
    }
}

/// How far behind the first of these items a tree has the flaw, where that one is the tree.
fn lines_into(items: &[Item], flaw: TreeFlaw) -> u64
    ensures within { result ≤ heights items.now }
    ensures is { heights items.now < 2 ^ 64 → result ≡ lines_into items.now flaw }
{
    match items {
        [Item::Tree(tree), ..] => flawed_line(tree, flaw),
        _ => 0,
    }
}

/// The line so many lines further.
fn further(line: u64, count: u64) -> u64
    ensures from { line ≤ result }
    ensures up_to { result ≤ line + count }
    ensures is { line + count < 2 ^ 64 → result ≡ line + count }
{
    line.saturating_add(count)
}

/// How many lines behind the first line of these items the reason lies, if it is about the first item.
fn lines_to(items: &[Item], reason: Reason) -> u64
    ensures within { result ≤ heights items.now }
    ensures is { heights items.now < 2 ^ 64 → result ≡ lines_to items.now reason }
{
    match reason {
        Reason::Tree(flaw) => lines_into(items, flaw),
        _ => 0,
    }
}

/// What is wrong on this line, or with a tree on the other one.
fn flaw_on(line: u64, place: u64, reason: Reason) -> Flaw
    ensures { result ≡ flaw_on line place reason }
{
    match reason {
        Reason::Due => Flaw::Due { line },
        Reason::Illegal { first, second } => Flaw::Illegal {
            line,
            first,
            second,
        },
        Reason::NotLeast { given, least } => Flaw::NotLeast { line, given, least },
        Reason::Tree(flaw) => Flaw::Tree { line: place, flaw },
    }
}

/// What is wrong with the items behind the event on this line. It is never want of memory.
pub(crate) fn flaw_of(items: &[Item], line: u64, stop: WrongItem) -> Flaw
    ensures known { result ≢ WantsMemory }
    ensures is { line + 1 + heights items.now < 2 ^ 64
        → result ≡ flaw_at line items.now stop }
    ensures lies { line + 1 + heights items.now < 2 ^ 64
        → LiesBehind line (line + 1 + heights items.now) result }
{
    let at = stop.item.min(items.len());
    let line = line_behind(&items[..at], line);
    let into = lines_to(&items[at..], stop.reason);
    flaw_on(line, further(line, into), stop.reason)
}
