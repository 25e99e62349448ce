//! The least times of a schedule without an ask.
ghost use Rattle.std.specs.Prelude.{◌≡◌, [], None};
ghost use Rattle.tp_schedule.specs.PlannerAnswers.{CanSettle, IsSettled};
ghost use Rattle.tp_placing.specs.Boards.{past_of};
ghost use Rattle.tp_placing.specs.LoadedBoard.{IsMadeFor};

use crate::board::Board;
use crate::schedule_times::write_times;
use tp_base::{Network, Tick};
use tp_machine::Machine;
use tp_schedule::Schedule;

impl<N: Network> Board<N> {
    /// Gives each point of the schedule its least tick for the orders that stand. Loads the plans that are live at the
    /// moment to be asked nothing, and takes no memory.
    pub fn settle(&mut self, machine: &Machine, schedule: &mut Schedule, now: Tick)
        requires made { IsMadeFor self.old.made_for machine.now }
        requires can_settle { CanSettle machine.now now schedule.old.plans }
        ensures settled { IsSettled machine.now now schedule.old.plans schedule.new.plans }
        ensures spare { schedule.new.spare ≡ schedule.old.spare }
        ensures made { self.new.made_for ≡ self.old.made_for }
        ensures asked { self.new.ask ≡ None }
        ensures closed { self.new.steps ≡ [] }
        ensures past { past_of N.reading self.new ≡ [] }
        ensures marks { N.reading.max_marks self.new.net ≡ N.reading.max_marks self.old.net }
    {
        self.load_live(machine, schedule, now);
        write_times(&self.net, &self.plans, &self.firsts, schedule, false);
    }
}
