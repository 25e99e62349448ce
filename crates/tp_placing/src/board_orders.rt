//! The points and orders of a loaded board, and the ends beside an ask in its line.
ghost use Rattle.std.specs.Prelude.{◌≡◌, ◌<◌, length, slice_get, Some, IfSome};
ghost use Rattle.tp_machine.specs.declared.machine.Machine.{Machine};
ghost use Rattle.tp_schedule.specs.Spots.{Slot};
ghost use Rattle.tp_constraints.specs.Numbers.{table_of};
ghost use Rattle.tp_placing.specs.Boards.{suffix_of};
ghost use Rattle.tp_placing.specs.Edges.{is_ahead, is_behind};
ghost use Rattle.tp_placing.specs.LoadedBoard.{Stands, board_table, order_after};
ghost use Rattle.tp_placing.specs.ReadOrders.{IsEndIn, IsHoldOf};

use crate::board::Board;
use crate::parts::Held;
use crate::tray_neighbours::ends_beside;
use tp_base::{Network, PointId};
use tp_machine::ResId;
use tp_schedule::Ask;

impl<N: Network> Board<N> {
    /// How many points the loaded plans have. The own points of choices come behind them.
    pub fn points(&self) -> u32
        ensures { (m : Machine) → Stands N.reading self.now m
            → result ≡ length (table_of self.now.plans) }
    {
        self.last.0
    }

    /// The hold at a place of a resource's order, with the points where its action starts and ends, in constant time.
    pub fn hold_at(&self, resource: ResId, place: u32) -> Held
        requires stands { (m : Machine) × Stands N.reading self.now m }
        requires known { resource.0 < self.now.made_for.resources }
        requires there { (m : Machine) → Stands N.reading self.now m
            → place < length (order_after m self.now.plans (suffix_of self.now) resource.0) }
        ensures { (m : Machine) → Stands N.reading self.now m → (s : Slot)
            → slice_get (order_after m self.now.plans (suffix_of self.now) resource.0) place
            ≡ Some s
            → IsHoldOf (board_table self.now.plans (suffix_of self.now)) result s }
    {
        self.held[self.timelines.at(resource, place) as usize]
    }

    /// The last points of the plans next to an ask in its line: of the last one ahead of it, and of the first one behind.
    /// Looks at the plans from the last one to that which is ahead.
    pub fn line_ends(&self, ask: &Ask) -> (Option<PointId>, Option<PointId>)
        requires stands { (m : Machine) × Stands N.reading self.now m }
        ensures ahead { IfSome result.0 (IsEndIn (is_ahead ask.entry.now) self.now.plans) }
        ensures behind { IfSome result.1 (IsEndIn (is_behind ask.entry.now) self.now.plans) }
    {
        ends_beside(&self.plans, &self.firsts, ask)
    }
}
