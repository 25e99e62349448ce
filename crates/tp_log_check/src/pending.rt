//! The event that is under way, with its records and trees so far.

ghost use Rattle.std.specs.Prelude.{List, ◌≡◌, ◌+◌, ◌<◌, ◌≤◌, ◌++◌, ◌∷◌, [], false, OnOk, OnErr, IfOk, vec_len, vec_capacity};
ghost use Rattle.std.specs.Bool.{MatchBool};
ghost use Rattle.tp_bounds.specs.Lines.{IsNode, IsRow};
ghost use Rattle.tp_log_check.specs.Gathered.{IsPending, IsSame, items_of, lines_of};
ghost use Rattle.tp_log.specs.GatheredItems.{closed, has_lines};
ghost use Rattle.tp_log.specs.Grammar.{IsRecord};
ghost use Rattle.tp_log.specs.LogLines.{AreInOrder, IsLogLine, is_event};
ghost use Rattle.tp_bounds.specs.declared.tree.BoundTree.{BoundTree};
ghost use Rattle.tp_log.specs.declared.item.Item.{Item};
ghost use Rattle.tp_log.specs.declared.item.Item.TheVariants.{Event as EventItem};
ghost use Rattle.tp_log.specs.declared.log_line.LogLine.TheVariants.{Event as EventLine, Note as NoteLine, Room as RowLine, Node as NodeLine};
ghost use Rattle.tp_script.specs.Printed.{IsEchoed};

use crate::next_entry::NextEntry;
use std::alloc::Global;
use std::mem;
use tp_base::Memory;
use tp_bounds::{BoundTree, Node, Nodes, TreeRow, TreeRows};
use tp_log::{Item, LogLine};
use tp_schedule::Record;
use tp_script::Event;

fn no_tree(alloc: Global) -> BoundTree
    ensures { result ≡ record { rows = []; nodes = [] } }
{
    BoundTree {
        rows: TreeRows::new(alloc),
        nodes: Nodes::new(alloc),
    }
}

fn has_lines(tree: &BoundTree) -> bool
    ensures { result ≡ has_lines tree.now }
{
    tree.rows.len() > 0 || tree.nodes.len() > 0
}

/// An event with its records and trees so far, and the tree to which lines may still come.
pub struct Pending {
    alloc: Global,
    /// The number of its line.
    pub line: u64,
    pub event: Event,
    /// Its records, and the trees that are ended.
    pub items: Vec<Item>,
    tree: BoundTree,
    next: NextEntry,
}

// What becomes of its parts is proved here, once for all who let go of one.
impl Drop for Pending {
    fn drop(self) {
        let Pending {
            alloc: _,
            line: _,
            event: _,
            items: _,
            tree: _,
            next: _,
        } = self;
    }
}

impl Pending {
    /// An event without records yet, with the number of its line.
    pub fn new(alloc: Global, line: u64, event: Event) -> Pending
        requires echoed { IsEchoed event }
        ensures pending { IsPending result }
        ensures lines { lines_of result ≡ EventLine event ∷ [] }
        ensures line { result.line ≡ line }
    {
        Pending {
            alloc,
            line,
            event,
            items: Vec::new(alloc),
            tree: no_tree(alloc),
            next: NextEntry::behind_event(),
        }
    }

    /// Makes room for so many items more.
    fn reserve(&mut self, count: usize) -> Result<(), Memory>
        ensures same { IsSame self.old self.new }
        ensures room { OnOk result
            (vec_len self.new.items + count ≤ vec_capacity self.new.items) }
    {
        self.items.reserve(count)?;
        Ok(())
    }

    /// Ends the tree, if there is one. Room for it was made.
    fn end_tree(&mut self)
        requires room { vec_len self.old.items < vec_capacity self.old.items }
        ensures items { items_of self.new ≡ closed (items_of self.old) self.old.tree }
        ensures tree { self.new.tree ≡ record { rows = []; nodes = [] } }
        ensures next { self.new.next ≡ self.old.next }
        ensures event { self.new.event ≡ self.old.event }
        ensures line { self.new.line ≡ self.old.line }
        ensures len { vec_len self.new.items ≤ vec_len self.old.items + 1 }
        ensures capacity { vec_capacity self.new.items ≡ vec_capacity self.old.items }
    {
        if has_lines(&self.tree) {
            let tree = mem::replace(&mut self.tree, no_tree(self.alloc));
            self.items.push_reserved(Item::Tree(tree));
        }
    }

    /// Adds a record. After `Memory` all is as before.
    fn add_record(&mut self, told: Record) -> Result<(), Memory>
        requires pending { IsPending self.old }
        requires line { IsRecord told }
        ensures pending { OnOk result (IsPending self.new) }
        ensures lines { OnOk result (lines_of self.new ≡ lines_of self.old
            ++ NoteLine told ∷ []) }
        ensures event { self.new.event ≡ self.old.event }
        ensures line { self.new.line ≡ self.old.line }
        ensures memory { OnErr result (IsSame self.old self.new) }
    {
        self.reserve(2)?;
        self.end_tree();
        self.next = NextEntry::behind_record(&told);
        self.items.push_reserved(Item::Note(told));
        Ok(())
    }

    /// Adds a room row, or answers false where none may stand here. After `Memory` all is as before.
    fn add_row(&mut self, row: TreeRow) -> Result<bool, Memory>
        requires pending { IsPending self.old }
        requires line { IsRow row }
        ensures pending { IfOk result (λ stands. IsPending self.new) }
        ensures lines { IfOk result (λ stands. MatchBool stands
            (lines_of self.new ≡ lines_of self.old ++ RowLine row ∷ [])
            (AreInOrder (lines_of self.old ++ RowLine row ∷ []) → ⊥)) }
        ensures off { IfOk result (λ stands.
            MatchBool stands (Unit {0}) (IsSame self.old self.new)) }
        ensures event { self.new.event ≡ self.old.event }
        ensures line { self.new.line ≡ self.old.line }
        ensures memory { OnErr result (IsSame self.old self.new) }
    {
        if !self.next.takes_row() {
            return Ok(false);
        }
        self.tree.rows.push(row)?;
        self.next = NextEntry::behind_row();
        Ok(true)
    }

    /// Adds a node, or answers false where none may stand here. After `Memory` all is as before.
    fn add_node(&mut self, node: Node) -> Result<bool, Memory>
        requires pending { IsPending self.old }
        requires line { IsNode node }
        ensures pending { IfOk result (λ stands. IsPending self.new) }
        ensures lines { IfOk result (λ stands. MatchBool stands
            (lines_of self.new ≡ lines_of self.old ++ NodeLine node ∷ [])
            (AreInOrder (lines_of self.old ++ NodeLine node ∷ []) → ⊥)) }
        ensures off { IfOk result (λ stands.
            MatchBool stands (Unit {0}) (IsSame self.old self.new)) }
        ensures event { self.new.event ≡ self.old.event }
        ensures line { self.new.line ≡ self.old.line }
        ensures memory { OnErr result (IsSame self.old self.new) }
    {
        if !self.next.takes_node() {
            return Ok(false);
        }
        self.tree.nodes.push(node)?;
        self.next = NextEntry::behind_node();
        Ok(true)
    }

    /// Adds a line that is no event's, or returns false if it may not stand here. After `Memory` all is as before.
    pub fn add(&mut self, told: LogLine) -> Result<bool, Memory>
        requires pending { IsPending self.old }
        requires line { IsLogLine told }
        requires plain { is_event told ≡ false }
        ensures pending { IfOk result (λ stands. IsPending self.new) }
        ensures lines { IfOk result (λ stands. MatchBool stands
            (lines_of self.new ≡ lines_of self.old ++ told ∷ [])
            (AreInOrder (lines_of self.old ++ told ∷ []) → ⊥)) }
        ensures off { IfOk result (λ stands.
            MatchBool stands (Unit {0}) (IsSame self.old self.new)) }
        ensures event { self.new.event ≡ self.old.event }
        ensures line { self.new.line ≡ self.old.line }
        ensures memory { OnErr result (IsSame self.old self.new) }
    {
        match told {
            LogLine::Event(_) => Ok(false),
            LogLine::Note(rec) => {
                self.add_record(rec)?;
                Ok(true)
            }
            LogLine::Room(row) => self.add_row(row),
            LogLine::Node(node) => self.add_node(node),
        }
    }

    /// Ends the tree, if there is one, so that the items have all lines, and tells whether there was one. After `Memory` all is as
    /// before.
    pub fn end(&mut self) -> Result<bool, Memory>
        ensures items { OnOk result (items_of self.new ≡ closed
            (items_of self.old) self.old.tree) }
        ensures ended { IfOk result (λ ended. ended ≡ has_lines self.old.tree) }
        ensures tree { OnOk result (self.new.tree ≡ record { rows = []; nodes = [] }) }
        ensures next { self.new.next ≡ self.old.next }
        ensures event { self.new.event ≡ self.old.event }
        ensures line { self.new.line ≡ self.old.line }
        ensures memory { OnErr result (IsSame self.old self.new) }
    {
        let ended = has_lines(&self.tree);
        self.reserve(1)?;
        self.end_tree();
        Ok(ended)
    }

    /// Takes back that the tree was ended, if there was one.
    pub fn reopen(&mut self, ended: bool)
        ensures back { (items : List Item) (tree : BoundTree) → ended ≡ has_lines tree
            → items_of self.old ≡ closed (EventItem self.old.event ∷ items) tree
            → self.old.tree ≡ record { rows = []; nodes = [] }
            → (self.new.items.items ≡ items) × (self.new.tree ≡ tree) }
        ensures next { self.new.next ≡ self.old.next }
        ensures event { self.new.event ≡ self.old.event }
        ensures line { self.new.line ≡ self.old.line }
    {
        if ended {
            match self.items.pop() {
                Some(Item::Tree(tree)) => self.tree = tree,
                Some(Item::Event(_)) | Some(Item::Note(_)) | None => {}
            }
        }
    }
}
