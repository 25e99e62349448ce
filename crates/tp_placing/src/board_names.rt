//! The points and edges of a board's network, and of a reason, by name.
ghost use Rattle.std.specs.Prelude.{◌≡◌, ◌+◌, ◌<◌, ◌≤◌, length, slice_get, Some};
ghost use Rattle.tp_machine.specs.declared.machine.Machine.{Machine};
ghost use Rattle.tp_schedule.specs.Limits.{most_acts};
ghost use Rattle.tp_placing.specs.Causes.{grip_name, kind_of, name_of_plan, named_point, numbered, spot_name, why_name};
ghost use Rattle.tp_placing.specs.LoadedBoard.{Stands};

use crate::board::Board;
use crate::causes::EdgeCause;
use crate::kept_ticks::count_to;
use crate::reason_names::{Grip, Spot, Why};
use tp_base::{Edge, Network, PointId};
use tp_schedule::{Plan, SheetName};

fn sheet_name(plan: &Plan) -> SheetName
    ensures { result ≡ name_of_plan plan.now }
{
    SheetName {
        job: plan.name,
        number: plan.sheet.number,
        copy: plan.sheet.copy,
    }
}

impl<N: Network> Board<N> {
    /// The plan of a point below the own ones, by its place, and the point's number there.
    fn kept_point(&self, point: PointId) -> (SheetName, u32)
        requires stands { (m : Machine) × Stands N.reading self.now m }
        requires kept { point.0 < self.now.last.0 }
        ensures spot { spot_name self.now.plans (numbered self.now.plans point.0)
            ≡ Some (Spot.Kept result.0 result.1) }
        ensures grip { grip_name self.now.plans (numbered self.now.plans point.0)
            ≡ Some (Grip.Kept result.0 (result.1 + 1)) }
        ensures few { result.1 ≤ most_acts }
    {
        let place = count_to(&self.firsts, point) - 1;
        let plan = &self.plans[place];
        (sheet_name(plan), point.0 - self.firsts[place].0)
    }

    /// The action that starts at a point.
    fn grip_of(&self, point: PointId) -> Grip
        requires stands { (m : Machine) × Stands N.reading self.now m }
        ensures { grip_name self.now.plans (numbered self.now.plans point.0) ≡ Some result }
    {
        if point.0 < self.last.0 {
            let (sheet, at) = self.kept_point(point);
            Grip::Kept { sheet, act: at + 1 }
        } else {
            Grip::Own(point.0 - self.last.0)
        }
    }

    /// A point of the network, or of what `reason` tells, by its name.
    pub fn spot_of(&self, point: PointId) -> Spot
        requires stands { (m : Machine) × Stands N.reading self.now m }
        ensures { named_point self.now.plans self.now.limit point ≡ Some result }
    {
        if let Some(limit) = self.limit
            && limit == point
        {
            return Spot::Limit;
        }
        if point.0 < self.last.0 {
            let (sheet, at) = self.kept_point(point);
            Spot::Kept { sheet, at }
        } else {
            Spot::Own(point.0 - self.last.0)
        }
    }

    /// Why an edge of the network, or of what `reason` tells, stands. Nothing is known of other edges: the edge's tag is to be
    /// that of a cause that the board keeps.
    pub fn why_of(&self, edge: Edge) -> Why
        requires stands { (m : Machine) × Stands N.reading self.now m }
        requires told { edge.tag < length self.now.causes }
        ensures { why_name self.now.plans
            (kind_of self.now.plans (slice_get self.now.causes edge.tag)) ≡ Some result }
    {
        match self.causes.get(edge.tag) {
            EdgeCause::Forward => Why::Forward,
            EdgeCause::Back => Why::Back,
            EdgeCause::Line => Why::Line,
            EdgeCause::Stop => Why::Stop,
            EdgeCause::Limit => Why::Limit,
            EdgeCause::Resource {
                resource,
                before,
                after,
            } => Why::Resource {
                resource,
                before: self.grip_of(before),
                after: self.grip_of(after),
            },
        }
    }
}
