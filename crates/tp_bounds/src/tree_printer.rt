//! Trees written.
ghost use Rattle.std.specs.Prelude.{◌≡◌, ◌++◌, flat_map, All, OnOk, OnErr};
ghost use Rattle.tp_bounds.specs.Lines.{IsRow, IsHead, IsClose, IsNode, head_words, close_words, row_text, node_text};
ghost use Rattle.tp_bounds.specs.Lines.{behind_spaces};
ghost use Rattle.tp_bounds.specs.declared.tree.Node.{Node};
ghost use Rattle.tp_bounds.specs.Trees.{HasHops, IsPrintable, IsTree, tree_text};

use crate::tree::{BoundTree, Close, Head, Node, TreeRow};
use crate::word_writer::{put_hop_words, put_point_word, put_state_word};
use tp_base::Memory;
use tp_words::{put_name_word, put_number_word, put_word};

fn put_row(out: &mut Vec<u8>, row: &TreeRow) -> Result<(), Memory>
    ensures written { OnOk result (out.new.items ≡ out.old.items ++ row_text row.now) }
    ensures spelled { OnOk result (IsRow row.now) }
{
    out.extend_from_slice(b"b room")?;
    put_state_word(out, &row.state)?;
    put_number_word(out, row.room)?;
    out.push(b'\n')?;
    Ok(())
}

fn put_head(out: &mut Vec<u8>, head: &Head) -> Result<(), Memory>
    ensures written { OnOk result (out.new.items ≡ out.old.items
        ++ behind_spaces (head_words head.now)) }
    ensures spelled { OnOk result (IsHead head.now) }
{
    match head {
        Head::Goal { state } => {
            put_word(out, b"goal")?;
            put_state_word(out, state)
        }
        Head::Act { name } => {
            put_word(out, b"act")?;
            put_name_word(out, name)
        }
        Head::At { resource, lo, hi } => {
            put_word(out, b"at")?;
            put_name_word(out, resource)?;
            put_number_word(out, *lo)?;
            put_number_word(out, *hi)
        }
        Head::Stop => put_word(out, b"stop"),
    }
}

fn put_close(out: &mut Vec<u8>, close: &Close) -> Result<(), Memory>
    requires { HasHops close.now }
    ensures written { OnOk result (out.new.items ≡ out.old.items
        ++ behind_spaces (close_words close.now)) }
    ensures spelled { OnOk result (IsClose close.now) }
{
    match close {
        Close::Split => put_word(out, b"split"),
        Close::Dead => put_word(out, b"dead"),
        Close::Chain { first, hops } => {
            put_word(out, b"chain")?;
            put_point_word(out, first)?;
            put_hop_words(out, hops.as_slice())
        }
        Close::Loop { first, hops } => {
            put_word(out, b"loop")?;
            put_point_word(out, first)?;
            put_hop_words(out, hops.as_slice())
        }
    }
}

fn put_node(out: &mut Vec<u8>, node: &Node) -> Result<(), Memory>
    requires { HasHops node.now.close }
    ensures written { OnOk result (out.new.items ≡ out.old.items ++ node_text node.now) }
    ensures spelled { OnOk result (IsNode node.now) }
{
    out.push(b'b')?;
    put_number_word(out, node.depth)?;
    put_head(out, &node.head)?;
    put_close(out, &node.close)?;
    out.push(b'\n')?;
    Ok(())
}

fn put_rows(out: &mut Vec<u8>, rows: &[TreeRow]) -> Result<(), Memory>
    ensures written { OnOk result (out.new.items ≡ out.old.items ++ flat_map row_text rows.now) }
    ensures spelled { OnOk result (All IsRow rows.now) }
{
    for row in rows {
        put_row(out, row)?;
    }
    Ok(())
}

fn put_nodes(out: &mut Vec<u8>, nodes: &[Node]) -> Result<(), Memory>
    requires { All (λ (node : Node). HasHops node.close) nodes.now }
    ensures written { OnOk result (out.new.items ≡ out.old.items
        ++ flat_map node_text nodes.now) }
    ensures spelled { OnOk result (All IsNode nodes.now) }
{
    for node in nodes {
        put_node(out, node)?;
    }
    Ok(())
}

/// Appends the lines of the tree, each with its LF: its rows, and then its nodes. After `Memory`
/// the buffer is as before.
pub fn print_tree(tree: &BoundTree, out: &mut Vec<u8>) -> Result<(), Memory>
    requires { IsPrintable tree.now }
    ensures printed { OnOk result (out.new.items ≡ out.old.items ++ tree_text tree.now) }
    ensures memory { OnErr result (out.new.items ≡ out.old.items) }

    // What was printed is a tree's, so it is read back.
    ensures spelled { OnOk result (IsTree tree.now) }
{
    let mut text = Vec::new(*out.allocator());
    put_rows(&mut text, tree.rows.as_slice())?;
    put_nodes(&mut text, tree.nodes.as_slice())?;
    out.extend_from_slice(&text)?;
    Ok(())
}
