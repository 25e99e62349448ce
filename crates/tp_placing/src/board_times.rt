//! What a board tells: its times, its bound, its changes.
ghost use Rattle.std.specs.Prelude.{◌≡◌, ◌<◌, ◌≤◌, length, map, IfOk, IsSome, IsSomeAnd};
ghost use Rattle.tp_machine.specs.declared.machine.Machine.{Machine};
ghost use Rattle.tp_schedule.specs.Plans.{plan_of};
ghost use Rattle.tp_schedule.specs.Spots.Spot.{kept, own};
ghost use Rattle.tp_placing.specs.Boards.{suffix_of};
ghost use Rattle.tp_placing.specs.LoadedBoard.{Stands, order_after};
ghost use Rattle.tp_placing.specs.Ticks.{HasLeastTick};

use crate::board::Board;
use crate::parts::Change;
use crate::point_index::point_of;
use std::alloc::Global;
use tp_base::{Memory, Network, Tick};
use tp_constraints::solutions_are_ticks;
use tp_machine::ResId;
use tp_schedule::{Ask, SheetId};

impl<N: Network> Board<N> {
    pub fn net(&self) -> &N
        ensures { result.now ≡ self.now.net }
    {
        &self.net
    }

    /// The ask that the board is loaded for.
    pub fn asked(&self) -> Option<Ask>
        ensures { result ≡ self.now.ask }
    {
        self.ask
    }

    /// The changes that were made since the board was loaded, the first one first.
    pub fn changes(&self, alloc: Global) -> Result<Vec<Change>, Memory>
        ensures { IfOk result (λ changes. changes.items ≡ map (λ s. s.change) self.now.steps) }
    {
        let changes = self.steps.iter().map(|step| step.change).collect(alloc)?;
        Ok(changes)
    }

    /// The least tick at which the asked copy can end with the choices so far, in constant time.
    pub fn end_bound(&self) -> Tick
        requires stands { (m : Machine) × Stands N.reading self.now m }
        requires open { IsSome (suffix_of self.now) }
        ensures { (m : Machine) → Stands N.reading self.now m
            → HasLeastTick m self.now (own 0) result }
    {
        self.net.earliest(self.last)
    }

    /// The least tick of a point of a loaded plan.
    pub fn time_of(&self, sheet: SheetId, point: u32) -> Tick
        requires stands { (m : Machine) × Stands N.reading self.now m }
        requires there { IsSomeAnd (plan_of sheet self.now.plans) (λ p. point ≤ length p.acts) }
        ensures { (m : Machine) → Stands N.reading self.now m
            → HasLeastTick m self.now (kept sheet point) result }
    {
        let number = point_of(&self.plans, &self.firsts, sheet, point);
        self.net.earliest(number)
    }

    /// The length of a resource's order with the holds placed so far, in constant time.
    pub fn places(&self, resource: ResId) -> u32
        requires known { resource.0 < self.now.made_for.resources }
        ensures { (m : Machine) → Stands N.reading self.now m → result
            ≡ length (order_after m self.now.plans (suffix_of self.now) resource.0) }
    {
        self.timelines.len(resource)
    }
}
