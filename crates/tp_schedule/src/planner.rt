//! What answers asks, as a trait.
ghost use Rattle.std.specs.Prelude.{◌≡◌, ◌≤◌, ℕ, Bool, false, List, IfOk, OnOk, IfErr, Err};
ghost use Rattle.tp_machine.specs.declared.machine.Machine.{Machine};
ghost use Rattle.tp_schedule.specs.declared.parts.Ask.{Ask};
ghost use Rattle.tp_schedule.specs.declared.parts.Plan.{Plan};
ghost use Rattle.tp_schedule.specs.PlannerAnswers.{CanAsk, CanSettle, IsAnswer, IsSettled, PlannerRules, StopsOnlyWhere};
ghost use Rattle.tp_schedule.specs.Plans.{without};
ghost use Rattle.tp_schedule.specs.PlannerAnswers.Deed.{replied, settled};
ghost use Rattle.tp_schedule.specs.PlannerAnswers.Due.{asking, settling};

use crate::parts::{Ask, Halt, Reply};
use crate::schedule::Schedule;
use tp_base::Tick;
use tp_machine::Machine;

/// What answers asks and settles times. After a `Halt` nothing is known of the schedule.
pub trait Planner {
    // that it serves this machine, as it stands
    ghost serves: { Self → Machine → Type 0 };
    // what no call changes of it, whatever the answer
    ghost Lasting: { Type 0 };

    ghost lasting: { Self → Lasting };
    // how often it stopped
    ghost stops: { Self → ℕ };
    // what a Spent says, how a call leads on to the next planner, and how it stops
    ghost rules: { PlannerRules Self };
    // whether its last answer may have moved a plan other than the asked copy's
    ghost moved: { Self → Bool };
    // that these are the plans that its last answer left
    ghost follows: { Self → Machine → List Plan → Type 0 };

    fn ask(&mut self, machine: &Machine, schedule: &mut Schedule, ask: &Ask) -> Result<Reply, Halt>
        requires served { serves self.old machine.now }
        requires can_ask { CanAsk machine.now schedule.old.plans ask.now }
        ensures answer { IfOk result (λ reply.
            IsAnswer (rules.spent self.old) machine.now schedule.old.plans ask.entry.now reply
            schedule.new.plans) }
        ensures step { IfOk result (λ reply.
            rules.steps self.old machine.now schedule.old.plans (replied ask.entry.now reply)
            schedule.new.plans self.new) }
        ensures stopped { result ≡ Err Halt.Stopped → rules.stop_steps self.old machine.now
            schedule.old.plans (asking ask.entry.now) self.new }
        ensures stops_only { IfErr result (StopsOnlyWhere (stops self.old) (stops self.new)) }
        ensures counted { stops self.old ≤ stops self.new }
        ensures still_serves { serves self.new machine.now }
        ensures unmoved { IfOk result (λ reply. moved self.new ≡ false
            → without ask.entry.now.sheet schedule.new.plans
            ≡ without ask.entry.now.sheet schedule.old.plans) }
        ensures follows { IfOk result (λ reply.
            follows self.new machine.now schedule.new.plans) }
        ensures lasts { lasting self.new ≡ lasting self.old };

    /// Answers as `ask` does, on a schedule that is as the last answer left it. So it need not look at plans that it knows.
    fn ask_on(
        &mut self,
        machine: &Machine,
        schedule: &mut Schedule,
        ask: &Ask,
    ) -> Result<Reply, Halt>
        requires served { serves self.old machine.now }
        requires follows { follows self.old machine.now schedule.old.plans }
        requires can_ask { CanAsk machine.now schedule.old.plans ask.now }
        ensures answer { IfOk result (λ reply.
            IsAnswer (rules.spent self.old) machine.now schedule.old.plans ask.entry.now reply
            schedule.new.plans) }
        ensures step { IfOk result (λ reply.
            rules.steps self.old machine.now schedule.old.plans (replied ask.entry.now reply)
            schedule.new.plans self.new) }
        ensures stopped { result ≡ Err Halt.Stopped → rules.stop_steps self.old machine.now
            schedule.old.plans (asking ask.entry.now) self.new }
        ensures stops_only { IfErr result (StopsOnlyWhere (stops self.old) (stops self.new)) }
        ensures counted { stops self.old ≤ stops self.new }
        ensures still_serves { serves self.new machine.now }
        ensures unmoved { IfOk result (λ reply. moved self.new ≡ false
            → without ask.entry.now.sheet schedule.new.plans
            ≡ without ask.entry.now.sheet schedule.old.plans) }
        ensures follows { IfOk result (λ reply.
            follows self.new machine.now schedule.new.plans) }
        ensures lasts { lasting self.new ≡ lasting self.old };

    fn settle(&mut self, machine: &Machine, schedule: &mut Schedule, now: Tick) -> Result<(), Halt>
        requires served { serves self.old machine.now }
        requires can_settle { CanSettle machine.now now schedule.old.plans }
        ensures settles { OnOk result (IsSettled machine.now now schedule.old.plans
            schedule.new.plans) }
        ensures step { OnOk result (
            rules.steps self.old machine.now schedule.old.plans (settled now)
            schedule.new.plans self.new) }
        ensures stopped { result ≡ Err Halt.Stopped → rules.stop_steps self.old machine.now
            schedule.old.plans (settling now) self.new }
        ensures stops_only { IfErr result (StopsOnlyWhere (stops self.old) (stops self.new)) }
        ensures counted { stops self.old ≤ stops self.new }
        ensures still_serves { serves self.new machine.now }
        ensures lasts { lasting self.new ≡ lasting self.old };

    /// Whether the last answer may have moved a plan other than the asked copy's. It may say so where it moved none.
    fn has_moved(&self) -> bool
        ensures { result ≡ moved self.now };
}
