//! The planner.
ghost use Rattle.std.specs.Prelude.{◌≡◌, ◌≤◌, drop, length};
ghost use Rattle.tp_schedule.specs.PlannerAnswers.{HasRisen};

use crate::asides::next_from;
use crate::failure::{Failure, WrongItem};
use crate::settled_times::take_settled;
use crate::told_answer::take_answer;
use std::alloc::Global;
use std::marker::Model;
use tp_base::Tick;
use tp_log::Item;
use tp_machine::Machine;
use tp_schedule::{Ask, Halt, Planner, Reply, Schedule};

/// A planner that takes its answers from the records and trees of one event, in the order of the log. Each answer that it
/// gives stands there and is right. Where they tell no right answer it stops, keeps why, and takes nothing.
#[derive(Drop)]
pub struct Told {
    alloc: Global,
    items: Vec<Item>,
    at: usize,
    stops: u64,
    stop: Option<WrongItem>,
}

impl Model for Told {
    ghost use Rattle.std.specs.Prelude.{◌≡◌, ◌≤◌, MatchOption, length};
    ghost use Rattle.tp_log_planner.specs.ToldAnswers.{ToldValue};

    ghost Value = { ToldValue };

    ghost view = { λ p. record {
      items = p.items.items;
      at = p.at;
      stops = p.stops;
      stop = p.stop;
    } };

    ghost invariant = { λ p. (p.at ≤ length p.items.items)
        × MatchOption p.stop (p.stops ≡ 0) (λ stop. 1 ≤ p.stops) };
}

/// Counts a stop, up to the last count.
fn count_stop(stops: u64) -> u64
    ensures risen { HasRisen stops result }
    ensures at_least { stops ≤ result }
    ensures some { 1 ≤ result }
{
    stops.saturating_add(1)
}

impl Told {
    ghost use Rattle.std.specs.Prelude.{◌-◌, MatchBool, MatchOption, None, Some};
    ghost use Rattle.tp_schedule.specs.declared.parts.Halt.TheVariants.{Memory as NoMemory};
    ghost use Rattle.tp_log_planner.specs.Failures.{is_stop};
    ghost use Rattle.tp_log_planner.specs.Reasons.{IfStop};
    ghost use Rattle.tp_log_planner.specs.ToldAnswers.{HasStopped, ahead, behind_asides};

    /// A planner for the records and trees behind an event, as the log has them. It takes no memory.
    pub fn new(alloc: Global, items: Vec<Item>) -> Told
        ensures items { result.items ≡ items.items }
        ensures at { result.at ≡ 0 }
        ensures stops { result.stops ≡ 0 }
        ensures stop { result.stop ≡ None }
    {
        Told {
            alloc,
            items,
            at: 0,
            stops: 0,
            stop: None,
        }
    }

    /// All items.
    pub fn items(&self) -> &[Item]
        ensures { result.now ≡ self.now.items }
    {
        self.items.as_slice()
    }

    /// How many of the items are taken.
    pub fn at(&self) -> usize
        ensures at { result ≡ self.now.at }
        ensures within { self.now.at ≤ length self.now.items }
    {
        self.at
    }

    /// The number of the first item to come that tells an answer, or that of all items. It is at this one that an answer
    /// or a settling is looked for.
    pub fn next(&self) -> usize
        ensures items { drop result self.now.items ≡ behind_asides (ahead self.now) }
        ensures further { self.now.at ≤ result }
        ensures within { result ≤ length self.now.items }
    {
        next_from(self.items.as_slice(), self.at)
    }

    /// Why it stopped last, if it did.
    pub fn stop(&self) -> Option<WrongItem>
        ensures last { result ≡ self.now.stop }
        ensures counted { MatchOption result (self.now.stops ≡ 0)
            (λ stop. 1 ≤ self.now.stops) }
    {
        self.stop
    }

    /// Gives the items back.
    pub fn give_back(self) -> Vec<Item>
        ensures { result.items ≡ self.items }
    {
        self.items
    }

    /// Keeps why there is no answer, if that isn't want of memory.
    fn halt(&mut self, failure: Failure) -> Halt
        ensures halts { MatchBool (is_stop failure) (HasStopped self.old result self.new)
            ((result ≡ NoMemory) × (self.new ≡ self.old)) }
        ensures kept { IfStop (λ left reason. self.new.stop
            ≡ Some (record { item = length self.old.items - left; reason = reason })) failure }
    {
        match failure {
            Failure::Memory => Halt::Memory,
            Failure::Stop(found) => {
                self.stops = count_stop(self.stops);
                self.stop = Some(WrongItem {
                    item: self.items.len().saturating_sub(found.left),
                    reason: found.reason,
                });
                Halt::Stopped
            }
        }
    }
}

impl Planner for Told {
    ghost use Rattle.std.specs.Prelude.{true, List, IfOk, IfErr, OnOk, OnErr, Err};
    ghost use Rattle.tp_log.specs.declared.item.Item.{Item};
    ghost use Rattle.tp_schedule.specs.PlannerAnswers.{CanAsk, CanSettle, IsAnswer, IsSettled, StopsOnlyWhere};
    ghost use Rattle.tp_schedule.specs.PlannerAnswers.Deed.{replied, settled};
    ghost use Rattle.tp_schedule.specs.PlannerAnswers.Due.{asking, settling};
    ghost use Rattle.tp_schedule.specs.declared.parts.Halt.TheVariants.{Memory as NoMemory, Stopped};
    ghost use Rattle.tp_event_rules.specs.Logs.{spent_on_trust};
    ghost use Rattle.tp_log_planner.specs.Stops.{StopsAt};
    ghost use Rattle.tp_log_planner.specs.ToldAnswers.{TakesOn};

    ghost serves = { λ p machine. Unit {0} };

    ghost Lasting = { List Item };

    ghost lasting = { λ p. p.items };

    ghost stops = { λ p. p.stops };

    ghost rules = { record {
      spent = λ p. spent_on_trust;
      steps = λ p machine plans deed plans' p'. TakesOn p machine plans deed plans' p';
      stop_steps = λ p machine plans due p'. StopsAt p machine plans due p';
    } };

    ghost moved = { λ p. true };

    ghost follows = { λ p machine plans. Unit {0} };

    /// Takes the answer that the items tell. It stops where they tell none that is right.
    fn ask(&mut self, machine: &Machine, schedule: &mut Schedule, ask: &Ask) -> Result<Reply, Halt>
        requires can_ask { CanAsk machine.now schedule.old.plans ask.now }
        ensures answer { IfOk result (λ reply. IsAnswer spent_on_trust machine.now
            schedule.old.plans ask.entry.now reply schedule.new.plans) }
        ensures step { IfOk result (λ reply. TakesOn self.old machine.now schedule.old.plans
            (replied ask.entry.now reply) schedule.new.plans self.new) }
        ensures stopped { result ≡ Err Stopped → StopsAt self.old machine.now schedule.old.plans
            (asking ask.entry.now) self.new }
        ensures stops_only { IfErr result (StopsOnlyWhere self.old.stops self.new.stops) }
        ensures counted { self.old.stops ≤ self.new.stops }
        ensures lasts { self.new.items ≡ self.old.items }

        // After `Memory` nothing has changed.
        ensures memory { result ≡ Err NoMemory → self.new ≡ self.old }
        ensures stays { OnErr result (schedule.new.plans ≡ schedule.old.plans) }
    {
        let next = self.next();
        match take_answer(self.alloc, machine, ask, &self.items[next..], schedule) {
            Ok((reply, taken)) => {
                self.at = next + taken;
                Ok(reply)
            }
            Err(failure) => Err(self.halt(failure)),
        }
    }

    /// Answers an ask on the schedule that the last answer left. It compares the whole schedule each time, as `ask` does.
    fn ask_on(
        &mut self,
        machine: &Machine,
        schedule: &mut Schedule,
        ask: &Ask,
    ) -> Result<Reply, Halt> {
        self.ask(machine, schedule, ask)
    }

    /// Takes the moves that the items tell. It stops where these don't settle the times.
    fn settle(&mut self, machine: &Machine, schedule: &mut Schedule, now: Tick) -> Result<(), Halt>
        requires can_settle { CanSettle machine.now now schedule.old.plans }
        ensures settles { OnOk result (IsSettled machine.now now schedule.old.plans
            schedule.new.plans) }
        ensures step { OnOk result (TakesOn self.old machine.now schedule.old.plans (settled now)
            schedule.new.plans self.new) }
        ensures stopped { result ≡ Err Stopped → StopsAt self.old machine.now schedule.old.plans
            (settling now) self.new }
        ensures stops_only { IfErr result (StopsOnlyWhere self.old.stops self.new.stops) }
        ensures counted { self.old.stops ≤ self.new.stops }
        ensures lasts { self.new.items ≡ self.old.items }

        // After `Memory` nothing has changed.
        ensures memory { result ≡ Err NoMemory → self.new ≡ self.old }
        ensures stays { OnErr result (schedule.new.plans ≡ schedule.old.plans) }
    {
        let next = self.next();
        match take_settled(self.alloc, machine, now, &self.items[next..], schedule) {
            Ok(taken) => {
                self.at = next + taken;
                Ok(())
            }
            Err(failure) => Err(self.halt(failure)),
        }
    }

    /// It doesn't tell, so that the points are held against each other.
    fn has_moved(&self) -> bool {
        true
    }
}
