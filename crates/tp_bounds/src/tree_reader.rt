//! Bound lines and trees read.
ghost use Rattle.std.specs.Prelude.{◌≡◌, ◌+◌, ◌<◌, ◌^◌, All, length, IfOk, IfErr, MatchResult};
ghost use Rattle.tp_words.specs.Parts.{parts_at};
ghost use Rattle.tp_bounds.specs.declared.tree.BoundTree.{BoundTree};
ghost use Rattle.tp_words.specs.Texts.{lines_of};
ghost use Rattle.tp_bounds.specs.Lines.{bound_of, ReadsBound};
ghost use Rattle.tp_bounds.specs.Trees.{IfBad, IsFirstOff, IsTree, ReadsNth, tree_text};

use crate::fault::TreeFault;
use crate::line::BoundLine;
use crate::lists::{Nodes, TreeRows};
use crate::node_reader::read_bound_words;
use crate::tree::BoundTree;
use std::alloc::Global;
use tp_base::Memory;
use tp_words::{first_line, parts, without_newline};

fn read_text(alloc: Global, text: &[u8]) -> Result<Option<BoundLine>, Memory>
    requires { length text.now + 1 < 2 ^ 32 }
    ensures { IfOk result (λ told. told ≡ bound_of (parts_at 32 text.now)) }
{
    let words = parts(alloc, text, b' ')?;
    read_bound_words(alloc, &words)
}

/// The room row or node of one line, given with its LF. `None` off the grammar.
pub fn read_bound_line(alloc: Global, line: &[u8]) -> Result<Option<BoundLine>, Memory>
    requires { length line.now + 1 < 2 ^ 32 }
    ensures { ReadsBound line.now result }
{
    match without_newline(line) {
        None => Ok(None),
        Some(text) => read_text(alloc, text),
    }
}

/// What line `number`, counted from 1, says behind so many nodes. No row stands behind a node.
fn read_nth(alloc: Global, nodes: u64, number: u64, line: &[u8]) -> Result<BoundLine, TreeFault>
    requires { length line.now + 1 < 2 ^ 32 }
    ensures { ReadsNth nodes number line.now result }
{
    match read_bound_line(alloc, line) {
        Err(Memory) => Err(TreeFault::Memory),
        Ok(None) => Err(TreeFault::Bad(number)),
        Ok(Some(BoundLine::Room(_))) if nodes > 0 => Err(TreeFault::Bad(number)),
        Ok(Some(told)) => Ok(told),
    }
}

/// The tree of a text. `Bad` tells the first line that is off the grammar, counted from 1, and 1
/// for an empty text.
pub fn read_tree(alloc: Global, text: &[u8]) -> Result<BoundTree, TreeFault>
    requires { All (λ line. length line + 1 < 2 ^ 32) (lines_of text.now) }
    ensures read { IfOk result (λ tree. IsTree tree × (text.now ≡ tree_text tree)) }
    ensures bad { IfErr result (λ fault. IfBad fault (λ n. IsFirstOff n text.now)) }

    // A printed tree is read back.
    ensures printed { (tree : BoundTree) → IsTree tree → text.now ≡ tree_text tree
        → MatchResult result (λ read. read ≡ tree) (λ fault. fault ≡ TreeFault.Memory) }
{
    if text.is_empty() {
        return Err(TreeFault::Bad(1));
    }
    let mut rows = TreeRows::new(alloc);
    let mut nodes = Nodes::new(alloc);
    let mut rest = text;
    let mut number: u64 = 0;
    'lines: while !rest.is_empty() {
        number += 1;
        let (line, more) = first_line(rest);
        match read_nth(alloc, nodes.len(), number, line) {
            Err(fault) => return Err(fault),
            Ok(BoundLine::Room(row)) => rows.push(row)?,
            Ok(BoundLine::Node(node)) => nodes.push(node)?,
        }
        rest = more;
    }
    Ok(BoundTree { rows, nodes })
}
