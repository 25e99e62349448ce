//! The places of a hold that one node closes.
ghost use Rattle.std.specs.Prelude.{◌≡◌, ℕ, ◌≤◌, ◌+◌, ◌<◌, AllPairs, List, OnOk, IfErr, IfOk, IfSome, Some, length, pos};
ghost use Rattle.tp_constraints.specs.Suffixes.{Suffix, order_in, with_place};
ghost use Rattle.tp_schedule.specs.Plans.{IsEarlier};
ghost use Rattle.tp_schedule.specs.declared.parts.Plan.{Plan};
ghost use Rattle.tp_bound_make.specs.Closes.{Closes};
ghost use Rattle.tp_bound_make.specs.Ranges.{IsRange};
ghost use Rattle.tp_bound_make.specs.TreeProgress.{Shows, branch_by};
ghost use Rattle.tp_bound_laws.specs.Places.{next_rule, places_from};

use crate::scene::{NotShown, ShowBranch, ShowScene};
use crate::side::Side;
use crate::tree_nodes::put_node;
use tp_base::Memory;
use tp_bounds::{Close, Head, Nodes};
use tp_machine::{HoldRule, machine_law};

/// The places of a branch's next hold that are due, from the first to the last.
#[derive(Clone, Copy)]
pub(crate) struct Places {
    pub(crate) rule: HoldRule,
    pub(crate) lo: u32,
    pub(crate) last: u32,
}

/// The places that are due up to one, and what closes a node at all of them.
#[derive(Drop)]
pub(crate) struct Range {
    pub(crate) hi: u32,
    pub(crate) close: Close,
}

impl Range {
    /// The places that are due for which the close of one of them serves, from the first on: all up
    /// to that one, where the close doesn't rest on a hold before it, and all behind it, where it
    /// doesn't rest on a hold behind it. None where it serves for no place below it.
    pub(crate) fn of(
        scene: ShowScene,
        branch: ShowBranch,
        places: Places,
        place: u32,
        close: Close,
    ) -> Option<Range>
        requires known { places.rule.resource.0 < length scene.machine.now.resources }
        requires begins { places.lo ≤ place }
        requires ends { place ≤ places.last }
        ensures { IfSome result (λ range. (plans : List Plan) (x : Suffix)
            → AllPairs IsEarlier plans → next_rule scene.entry.machine.now x
            ≡ Some places.rule
            → branch.count ≡ length x.choices
            → places.last ≡ length (order_in scene.entry.machine.now plans x
            places.rule.resource.0)
            → Closes scene.entry.machine.now plans scene.entry.ask.now (pos scene.entry.limit)
            (with_place place x) close
            → IsRange scene.entry.machine.now plans scene.entry.ask.now (pos scene.entry.limit) x
            places.rule places.lo place places.last range) }
    {
        machine_law(scene.machine);
        let resource = scene
            .machine
            .resources
            .get(u32::from(places.rule.resource.0));
        let name = resource.name;
        let count = branch.count;
        if !Side::Before.serves(place, places.lo, &name, count, &close) {
            return None;
        }
        if Side::Behind.serves(place, places.last, &name, count, &close) {
            Some(Range {
                hi: places.last,
                close,
            })
        } else {
            Some(Range { hi: place, close })
        }
    }

    /// Adds the node of these places. Answers the first place behind them.
    pub(crate) fn put(
        self,
        nodes: &mut Nodes,
        scene: ShowScene,
        branch: ShowBranch,
        places: Places,
    ) -> Result<u64, NotShown>
        requires known { places.rule.resource.0 < length scene.machine.now.resources }
        requires depth { branch.depth < 4294967295 }
        ensures next { IfOk result (λ next. next ≡ self.hi + 1) }
        ensures shown { OnOk result ((plans : List Plan) (x : Suffix) (place : ℕ)
            → places.last ≡ length (order_in scene.entry.machine.now plans x
            places.rule.resource.0)
            → IsRange scene.entry.machine.now plans scene.entry.ask.now (pos scene.entry.limit) x
            places.rule places.lo place places.last self
            → Shows scene.entry.machine.now plans scene.entry.ask.now scene.entry.rooms.now.sums
            scene.entry.limit nodes.old nodes.new
            (λ rows. places_from scene.entry.machine.now plans scene.entry.ask.now rows
            (branch_by branch x) places.rule places.lo)
            (λ rows. places_from scene.entry.machine.now plans scene.entry.ask.now rows
            (branch_by branch x) places.rule (self.hi + 1))) }
        ensures memory { IfErr result (λ fault. fault ≡ NotShown.Memory) }
    {
        machine_law(scene.machine);
        let resource = scene
            .machine
            .resources
            .get(u32::from(places.rule.resource.0));
        let Range { hi, close } = self;
        let head = Head::At {
            resource: resource.name,
            lo: places.lo,
            hi,
        };
        match put_node(nodes, branch.depth + 1, head, close) {
            Ok(()) => Ok(u64::from(hi) + 1),
            Err(Memory) => Err(NotShown::Memory),
        }
    }
}
