//! How many lines items have.

ghost use Rattle.std.specs.Prelude.{◌≡◌, ◌+◌, ◌<◌, ◌^◌};
ghost use Rattle.tp_log_check.specs.Heights.{height, heights};

use tp_log::Item;

/// How many lines an item has: a tree has one for each row and each node.
pub(crate) fn height(item: &Item) -> u64
    requires { height item.now < 2 ^ 64 }
    ensures { result ≡ height item.now }
{
    match item {
        Item::Event(_) | Item::Note(_) => 1,
        Item::Tree(tree) => tree.rows.len() + tree.nodes.len(),
    }
}

/// How many lines the items have.
#[tactic(auto, using(crate::proofs::LineCountFacts::heights_cons))]
pub(crate) fn heights(items: &[Item]) -> u64
    requires { heights items.now < 2 ^ 64 }
    ensures { result ≡ heights items.now }
{
    let mut lines = 0;
    let mut rest = items;
    'items: while let [first, others @ ..] = rest {
        lines += height(first);
        rest = others;
    }
    lines
}
