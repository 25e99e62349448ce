//! The plan on a board, written into the schedule.
ghost use Rattle.std.specs.Prelude.{◌≡◌, ◌+◌, ◌<◌, ◌≤◌, All, false, true, IsSome, IsSomeAnd, None};
ghost use Rattle.tp_machine.specs.declared.machine.Machine.{Machine as MachineValue};
ghost use Rattle.tp_schedule.specs.Answers.{IsAlternative, IsLeast, follows_front};
ghost use Rattle.tp_schedule.specs.Plans.{end_of_plan, plan_of, without};
ghost use Rattle.tp_schedule.specs.Spots.Spot.{own};
ghost use Rattle.tp_placing.specs.Boards.{suffix_of};
ghost use Rattle.tp_placing.specs.Settled.{HasLeastPoints};
ghost use Rattle.tp_placing.specs.LoadedBoard.{Stands};
ghost use Rattle.tp_placing.specs.Ticks.{HasLeastTick};
ghost use Rattle.tp_placing.specs.Commits.{CanCommit, IsHeldFrom, IsWrittenFor};

use crate::asked::{OwnActs, plan_by_steps};
use crate::board::Board;
use crate::schedule_times::{write_plan, write_times};
use tp_base::Network;
use tp_machine::Machine;
use tp_schedule::Schedule;

impl<N: Network> Board<N> {
    /// Whether the loaded plans are known to have their least times still: they had them, and none has risen since.
    fn is_settled_still(&self) -> bool
        requires { (m : MachineValue) × Stands N.reading self.now m }
        ensures { result ≡ true
            → All (HasLeastPoints (N.reading.net self.now.net) self.now.plans) self.now.plans }
    {
        if !self.settled || self.marks.is_empty() || self.marks[0].steps > 0 {
            return false;
        }
        !self.net.may_have_risen(self.last)
    }

    /// Writes the asked copy's plan and the times of the loaded plans into the schedule whose live plans the board holds. Plans
    /// that are over by now stay as they are there. The plan has the actions of the choices on the board, and all loaded plans
    /// that are live have the least ticks that keep the holds in their places there. Takes one spare plan for a new copy, and no
    /// memory. Answers whether another plan moved.
    pub fn commit(&self, machine: &Machine, schedule: &mut Schedule) -> bool
        requires stands { Stands N.reading self.now machine.now }
        requires loaded { IsSomeAnd self.now.ask
            (λ ask. IsHeldFrom machine.now schedule.old.plans ask self.now.plans) }
        requires complete { IsSomeAnd self.now.ask
            (λ ask. IsSomeAnd (suffix_of self.now) (CanCommit machine.now self.now.plans ask)) }
        requires spare { IsSomeAnd self.now.ask
            (λ ask. plan_of ask.sheet schedule.old.plans ≡ None → 0 < schedule.old.spare) }
        ensures alternative { IsSomeAnd self.now.ask
            (λ ask. (a : IsAlternative machine.now schedule.old.plans ask schedule.new.plans)
            × HasLeastTick machine.now self.now (own 0) (end_of_plan a.plan)) }
        ensures written { IsSomeAnd self.now.ask
            (λ ask. IsSomeAnd (suffix_of self.now)
            (IsWrittenFor machine.now schedule.old.plans self.now.plans ask
            schedule.new.plans)) }
        ensures least { IsSomeAnd self.now.ask
            (λ ask. IsLeast machine.now ask.now (follows_front ask) schedule.new.plans) }
        ensures unmoved { result ≡ false → IsSomeAnd self.now.ask
            (λ ask. without ask.sheet schedule.new.plans
            ≡ without ask.sheet schedule.old.plans) }
        ensures new_copy { IsSomeAnd self.now.ask
            (λ ask. plan_of ask.sheet schedule.old.plans ≡ None → schedule.new.spare + 1
            ≡ schedule.old.spare) }
        ensures in_flight { IsSomeAnd self.now.ask
            (λ ask. IsSome (plan_of ask.sheet schedule.old.plans) → schedule.new.spare
            ≡ schedule.old.spare) }
    {
        let Some(ask) = self.ask else { unreachable!() };
        let newest = self.steps[self.steps.len() - 1];
        let own = OwnActs {
            count: newest.first.0 - self.last.0,
            start: newest.first,
        };
        let known = self.is_settled_still();
        let moved = write_times(&self.net, &self.plans, &self.firsts, schedule, known);
        let plan = plan_by_steps(&self.net, &self.plans, &self.firsts, &ask, &self.steps, own);
        write_plan(schedule, plan);
        moved
    }
}
