//! The check of a bound tree: its rows first, then its nodes.
ghost use Rattle.std.specs.Prelude.{◌≡◌, IfOk, IfErr, OnOk, None};
ghost use Rattle.tp_schedule.specs.Answers.{IsAsked};
ghost use Rattle.tp_schedule.specs.Legality.{IsLegal};
ghost use Rattle.tp_schedule.specs.Timetables.{IsOrdered};
ghost use Rattle.tp_bound_laws.specs.Claims.{IsTold, IsTreeFor, limit_of, live_part};
ghost use Rattle.tp_bound_laws.specs.Flaws.{IsFlawOf, bad_node_from, tree_flaw};
ghost use Rattle.tp_bound_laws.specs.Trees.{goals_due};
ghost use Rattle.tp_bound_laws.specs.declared.claim.TreeFlaw.TheVariants.{Memory as NoMemory};

use crate::kept::{kept_orders, live_part};
use crate::links::{by_end, by_start};
use crate::orders::CheckScene;
use crate::rows::Rows;
use crate::sheets::Sheets;
use crate::table::Table;
use std::alloc::Global;
use tp_base::Memory;
use tp_bound_laws::{Claim, TreeFlaw, flawless_trees_are_bound, goal_states, trees_show_bounds};
use tp_bounds::BoundTree;
use tp_machine::Machine;
use tp_schedule::{Ask, Schedule};

/// The last tick that is claimed to be too early, or the horizon.
fn limit_of(machine: &Machine, ask: &Ask, claim: Claim) -> i64
    ensures { result ≡ limit_of machine.now ask.entry.now claim }
{
    match claim {
        Claim::Earliest(end) => i64::from(end) - 1,
        Claim::Never => i64::from(ask.now) + i64::from(machine.window),
    }
}

fn wanting(_memory: Memory) -> TreeFlaw
    ensures { result ≡ NoMemory }
{
    TreeFlaw::Memory
}

/// Checks the nodes, where the rows are good.
fn check_kept(
    alloc: Global,
    rows: &Rows,
    plans: &Sheets,
    limit: i64,
    tree: &BoundTree,
) -> Result<(), TreeFlaw>
    requires rows { rows.now.rows.now ≡ tree.now.rows }
    requires ordered { IsOrdered plans.now }
    ensures ok { OnOk result (bad_node_from rows.now.machine.now plans.now rows.now.ask.now
        tree.now.rows limit 0 (goals_due rows.now.machine.now plans.now rows.now.ask.now
        tree.now.rows limit) tree.now.nodes ≡ None) }
    ensures flaw { IfErr result (IsFlawOf (bad_node_from rows.now.machine.now plans.now
        rows.now.ask.now tree.now.rows limit 0 (goals_due rows.now.machine.now plans.now
        rows.now.ask.now tree.now.rows limit) tree.now.nodes)) }
{
    let orders = match kept_orders(alloc, rows.machine, plans.as_slice()) {
        Ok(orders) => orders,
        Err(memory) => return Err(wanting(memory)),
    };
    let goals = match goal_states(alloc, rows.machine, rows.ask) {
        Ok(goals) => goals,
        Err(memory) => return Err(wanting(memory)),
    };
    let ends = match by_end(alloc, rows.machine) {
        Ok(ends) => ends,
        Err(memory) => return Err(wanting(memory)),
    };
    let scene = CheckScene {
        rows: *rows,
        plans,
        orders: orders.as_slice(),
        ends: &ends,
        limit,
    };
    scene.check_nodes(alloc, goals.as_slice(), &tree.nodes)
}

/// Checks rows and nodes on the live part.
fn check_tree(
    alloc: Global,
    machine: &Machine,
    plans: &Sheets,
    ask: &Ask,
    limit: i64,
    tree: &BoundTree,
) -> Result<(), TreeFlaw>
    requires { IsOrdered plans.now }
    ensures ok { OnOk result
        (tree_flaw machine.now plans.now ask.entry.now limit tree.now ≡ None) }
    ensures flaw { IfErr result (IsFlawOf (tree_flaw machine.now plans.now ask.entry.now limit
        tree.now)) }
{
    let table = match Table::new(alloc, machine, &tree.rows) {
        Ok(table) => table,
        Err(memory) => return Err(wanting(memory)),
    };
    let starts = match by_start(alloc, machine) {
        Ok(starts) => starts,
        Err(memory) => return Err(wanting(memory)),
    };
    let rows = Rows {
        machine,
        ask,
        rows: &tree.rows,
        table: &table,
        starts: &starts,
    };
    match rows.first_bad(alloc) {
        Ok(None) => check_kept(alloc, &rows, plans, limit, tree),
        Ok(Some(row)) => Err(TreeFlaw::RoomRow { row }),
        Err(memory) => Err(wanting(memory)),
    }
}

/// Checks that a tree shows what is claimed of an ask on a schedule: on its live part, with the
/// front of an asked copy in flight. It returns the first flaw, rows before nodes. Memory may be
/// wanted in place of any answer.
pub fn check_bound(
    alloc: Global,
    machine: &Machine,
    schedule: &Schedule,
    ask: &Ask,
    claim: Claim,
    tree: &BoundTree,
) -> Result<(), TreeFlaw>
    ensures tree { IfOk result (λ _. IsTreeFor machine.now schedule.now.plans ask.entry.now claim
        tree.now) }

    // On a legal schedule that the ask fits, what is claimed holds.
    ensures told { IfOk result (λ _. IsLegal machine.now schedule.now.plans
        → IsAsked machine.now schedule.now.plans ask.entry.now
        → IsTold machine.now schedule.now.plans ask.entry.now claim) }
    ensures flaw { IfErr result (IsFlawOf (tree_flaw machine.now
        (live_part machine.now ask.entry.now schedule.now.plans) ask.entry.now
        (limit_of machine.now ask.entry.now claim) tree.now)) }
{
    trees_show_bounds();
    flawless_trees_are_bound();
    let plans = match live_part(alloc, machine, ask, schedule) {
        Ok(plans) => plans,
        Err(memory) => return Err(wanting(memory)),
    };
    let limit = limit_of(machine, ask, claim);
    check_tree(alloc, machine, &plans, ask, limit, tree)
}
