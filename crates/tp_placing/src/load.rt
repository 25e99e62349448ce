//! A schedule and an ask, laid out on a board.
ghost use Rattle.std.specs.Prelude.{◌≡◌, ◌+◌, ◌<◌, ◌^◌, [], filter, Some};
ghost use Rattle.tp_schedule.specs.Choices.{start_floor};
ghost use Rattle.tp_schedule.specs.LivePlans.{is_live};
ghost use Rattle.tp_schedule.specs.PlannerAnswers.{CanAsk};
ghost use Rattle.tp_placing.specs.Boards.{past_of};
ghost use Rattle.tp_placing.specs.LoadedBoard.{IsMadeFor, Stands};

use crate::board::Board;
use crate::schedule_times::are_settled;
use tp_base::{Network, Tick};
use tp_machine::Machine;
use tp_schedule::{Ask, Origin, Schedule};

/// The least tick of the first own point: above now and the lead, or the end of the front.
pub(crate) fn start_floor(machine: &Machine, ask: &Ask) -> Tick
    requires can { ask.now.now + machine.now.lead + 1 < 2 ^ 32 }
    ensures { result ≡ start_floor machine.now ask.entry.now.now ask.entry.now.origin }
{
    match ask.origin {
        Origin::Feeder => ask.now + machine.lead + 1,
        Origin::Front { end, .. } => end,
    }
}

impl<N: Network> Board<N> {
    /// Holds the schedule's live plans from now on, to be asked this. Costs in proportion to their points and holds, which
    /// are sorted once, so that each resource's order is. Takes no memory.
    pub fn load(&mut self, machine: &Machine, schedule: &Schedule, ask: &Ask)
        requires made { IsMadeFor self.old.made_for machine.now }
        requires can_ask { CanAsk machine.now schedule.now.plans ask.now }
        ensures made { self.new.made_for ≡ self.old.made_for }
        ensures plans { self.new.plans
            ≡ filter (is_live machine.now ask.entry.now.now) schedule.now.plans }
        ensures asked { self.new.ask ≡ Some ask.entry.now }
        ensures closed { self.new.steps ≡ [] }
        ensures stands { Stands N.reading self.new machine.now }
        ensures past { past_of N.reading self.new ≡ [] }
        ensures marks { N.reading.max_marks self.new.net ≡ N.reading.max_marks self.old.net }
    {
        self.load_live(machine, schedule, ask.now);
        self.settled = are_settled(&self.net, &self.plans, &self.firsts);
        self.floor = start_floor(machine, ask);
        self.horizon = ask.now + machine.window;
        self.ask = Some(*ask);
    }
}
