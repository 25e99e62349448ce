//! The lines of a log, gathered into items.
ghost use Rattle.std.specs.Prelude.{◌≡◌, ◌∷◌, ◌++◌, [], IfOk, OnOk};
ghost use Rattle.std.specs.Bool.{MatchBool};
ghost use Rattle.tp_log.specs.GatheredItems.{IsGathered, allows, behind, closed, lines_so_far};
ghost use Rattle.tp_log.specs.LogLines.{AreInOrder, IsLogLine, takes_tree};

use crate::item::Item;
use crate::log_line::LogLine;
use std::alloc::Global;
use std::mem;
use tp_base::Memory;
use tp_bounds::{BoundTree, Nodes, TreeRows};
use tp_schedule::Record;

/// What may stand behind the lines so far, besides an event.
#[derive(Clone, Copy)]
pub(crate) struct NextLine {
    record: bool,
    row: bool,
    node: bool,
}

fn takes_tree(told: &Record) -> bool
    ensures { result ≡ takes_tree told.now }
{
    matches!(
        told,
        Record::Plan { .. } | Record::Move { .. } | Record::Never { .. }
    )
}

impl NextLine {
    fn allows(self, told: &LogLine) -> bool
        ensures { result ≡ allows self told.now }
    {
        match told {
            LogLine::Event(_) => true,
            LogLine::Note(_) => self.record,
            LogLine::Room(_) => self.row,
            LogLine::Node(_) => self.node,
        }
    }

    /// What may stand behind a line.
    fn behind(told: &LogLine) -> NextLine
        ensures { result ≡ behind told.now }
    {
        let (row, node) = match told {
            LogLine::Event(_) => (false, false),
            LogLine::Note(rec) => (takes_tree(rec), takes_tree(rec)),
            LogLine::Room(_) => (true, true),
            LogLine::Node(_) => (false, true),
        };
        NextLine {
            record: true,
            row,
            node,
        }
    }
}

fn no_tree(alloc: Global) -> BoundTree
    ensures { result ≡ record { rows = []; nodes = [] } }
{
    BoundTree {
        rows: TreeRows::new(alloc),
        nodes: Nodes::new(alloc),
    }
}

/// Items of whole lines, and the tree to which lines may still come.
#[derive(Drop)]
pub(crate) struct Gathered {
    alloc: Global,
    items: Vec<Item>,
    tree: BoundTree,
    next: NextLine,
}

impl Gathered {
    pub(crate) fn new(alloc: Global) -> Gathered
        ensures gathered { IsGathered result }
        ensures none { lines_so_far result ≡ [] }
    {
        Gathered {
            alloc,
            items: Vec::new(alloc),
            tree: no_tree(alloc),
            next: NextLine {
                record: false,
                row: false,
                node: false,
            },
        }
    }

    /// No line comes to the tree any more, if there is one.
    fn close(&mut self) -> Result<(), Memory>
        ensures items { OnOk result (self.new.items.items
            ≡ closed self.old.items.items self.old.tree) }
        ensures tree { OnOk result (self.new.tree ≡ record { rows = []; nodes = [] }) }
        ensures next { self.new.next ≡ self.old.next }
    {
        if self.tree.rows.len() > 0 || self.tree.nodes.len() > 0 {
            let tree = mem::replace(&mut self.tree, no_tree(self.alloc));
            self.items.push(Item::Tree(tree))?;
        }
        Ok(())
    }

    /// Adds an item of one line, to which no tree has come yet.
    fn push_item(&mut self, item: Item) -> Result<(), Memory>
        ensures items { OnOk result (self.new.items.items
            ≡ closed self.old.items.items self.old.tree ++ item ∷ []) }
        ensures tree { OnOk result (self.new.tree ≡ record { rows = []; nodes = [] }) }
        ensures next { self.new.next ≡ self.old.next }
    {
        self.close()?;
        self.items.push(item)?;
        Ok(())
    }

    /// Adds a line, or answers false where it may not stand here. After `Memory` nothing is known of what was gathered.
    pub(crate) fn add(&mut self, told: LogLine) -> Result<bool, Memory>
        requires gathered { IsGathered self.old }
        requires line { IsLogLine told }
        ensures gathered { IfOk result (λ stands. MatchBool stands (IsGathered self.new) Unit) }
        ensures lines { IfOk result (λ stands. MatchBool stands
            (lines_so_far self.new ≡ lines_so_far self.old ++ told ∷ [])
            (AreInOrder (lines_so_far self.old ++ told ∷ []) → ⊥)) }
    {
        if !self.next.allows(&told) {
            return Ok(false);
        }
        self.next = NextLine::behind(&told);
        match told {
            LogLine::Event(event) => self.push_item(Item::Event(event))?,
            LogLine::Note(rec) => self.push_item(Item::Note(rec))?,
            LogLine::Room(row) => self.tree.rows.push(row)?,
            LogLine::Node(node) => self.tree.nodes.push(node)?,
        }
        Ok(true)
    }

    /// The items of all lines.
    pub(crate) fn finish(mut self) -> Result<Vec<Item>, Memory>
        ensures { IfOk result (λ items. items.items ≡ closed self.items.items self.tree) }
    {
        self.close()?;
        let Gathered { items, .. } = self;
        Ok(items)
    }
}
