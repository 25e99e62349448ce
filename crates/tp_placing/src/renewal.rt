//! A board that lives on from ask to ask: it follows the schedule where it can, and is loaded afresh elsewhere.
ghost use Rattle.std.specs.Prelude.{◌≡◌, ◌+◌, [], filter, length, take, true, AllPairs, IfSome, IsSomeAnd, Some};
ghost use Rattle.tp_schedule.specs.LivePlans.{is_live};
ghost use Rattle.tp_schedule.specs.Plans.{IsEarlier, without};
ghost use Rattle.tp_schedule.specs.PlannerAnswers.{CanAsk};
ghost use Rattle.tp_schedule.specs.declared.parts.Origin.TheVariants.{Feeder};
ghost use Rattle.tp_placing.specs.Boards.{past_of};
ghost use Rattle.tp_placing.specs.KeptBoard.{AreFit, HoldsOthers};
ghost use Rattle.tp_placing.specs.Loaded.{CanLoad, IsLoaded};
ghost use Rattle.tp_placing.specs.LoadedNet.{point_count};
ghost use Rattle.tp_placing.specs.Settled.{AreSettled};
ghost use Rattle.tp_placing.specs.LoadedBoard.{IsMadeFor, Stands};
ghost use Rattle.tp_placing.specs.Commits.{IsHeldFrom};

use crate::board::Board;
use crate::live_match::{
    MOST_LIVE, are_later_live, are_live, follow_plans, is_fresh, is_last_behind,
};
use crate::load::start_floor;
use crate::schedule_times::is_settled;
use tp_base::{Network, Tick};
use tp_machine::Machine;
use tp_schedule::{Ask, Origin, Schedule, SheetId};

/// The copy whose plan alone may be new since an ask, where so much is known and the ask was one for a new copy.
fn copy_asked(before: &Ask, known: bool) -> Option<SheetId>
    ensures { IfSome result (λ copy. (known ≡ true) × (before.entry.now.origin ≡ Feeder)
        × (copy ≡ before.entry.now.sheet)) }
{
    if known && before.origin == Origin::Feeder {
        Some(before.sheet)
    } else {
        None
    }
}

/// How many points there can be before a plan more, which has at most 65.
const POINTS: u32 = 16_576;

impl<N: Network> Board<N> {
    /// Adds the last of the plans, behind so many others with which the board is loaded. Answers whether it is loaded with all
    /// of them then: only a live plan is added of which nothing is released, and which stands behind all others.
    fn follow_last(&mut self, machine: &Machine, now: Tick, count: usize) -> bool
        requires made { IsMadeFor self.old.made_for machine.now }
        requires more { length self.old.plans ≡ count + 1 }
        requires can { CanLoad machine.now now (take count self.old.plans) }
        requires live { CanLoad machine.now now
            (filter (is_live machine.now now) self.old.plans) }
        requires loaded { IsLoaded machine.now now (take count self.old.plans)
            (N.reading.net self.old.net) self.old.orders.orders self.old.held self.old.firsts
            self.old.causes }
        requires last { self.old.last.0 ≡ point_count (take count self.old.plans) }
        requires settled { self.old.settled ≡ true
            → AreSettled machine.now now (take count self.old.plans) }
        requires unmarked { past_of N.reading self.old ≡ [] }
        ensures made { self.new.made_for ≡ self.old.made_for }
        ensures plans { self.new.plans ≡ self.old.plans }
        ensures can { result ≡ true → CanLoad machine.now now self.new.plans }
        ensures loaded { result ≡ true → IsLoaded machine.now now self.new.plans
            (N.reading.net self.new.net) self.new.orders.orders self.new.held self.new.firsts
            self.new.causes }
        ensures last { result ≡ true → self.new.last.0 ≡ point_count self.new.plans }
        ensures settled { result ≡ true → self.new.settled ≡ true
            → AreSettled machine.now now self.new.plans }
        ensures steps { self.new.steps ≡ self.old.steps }
        ensures past { past_of N.reading self.new ≡ [] }
        ensures marks { N.reading.max_marks self.new.net ≡ N.reading.max_marks self.old.net }
    {
        if count >= MOST_LIVE || !is_fresh(&self.plans[count], machine, now) {
            return false;
        }
        if !is_last_behind(&self.plans) || !self.add_last(machine, now) {
            return false;
        }
        if self.settled {
            self.settled = is_settled(&self.net, &self.plans, &self.firsts, count);
        }
        true
    }

    /// Follows the live plans of the schedule, where they are those that the board holds, or one more behind them. Answers
    /// whether the board is loaded with them at that moment, perhaps with others that are over by then.
    fn follow(&mut self, machine: &Machine, schedule: &Schedule, now: Tick, known: bool) -> bool
        requires known { known ≡ true → IsSomeAnd self.old.ask
            (λ before. HoldsOthers machine.now before schedule.now.plans self.old.plans) }
        requires made { IsMadeFor self.old.made_for machine.now }
        requires can { CanLoad machine.now now
            (filter (is_live machine.now now) schedule.now.plans) }
        requires stands { Stands N.reading self.old machine.now }
        requires closed { self.old.steps ≡ [] }
        requires unmarked { past_of N.reading self.old ≡ [] }
        ensures made { self.new.made_for ≡ self.old.made_for }
        ensures live { result ≡ true → filter (is_live machine.now now) self.new.plans
            ≡ filter (is_live machine.now now) schedule.now.plans }
        ensures can { result ≡ true → CanLoad machine.now now self.new.plans }
        ensures loaded { result ≡ true → IsLoaded machine.now now self.new.plans
            (N.reading.net self.new.net) self.new.orders.orders self.new.held self.new.firsts
            self.new.causes }
        ensures last { result ≡ true → self.new.last.0 ≡ point_count self.new.plans }
        ensures settled { result ≡ true → self.new.settled ≡ true
            → AreSettled machine.now now self.new.plans }
        ensures closed { self.new.steps ≡ [] }
        ensures past { past_of N.reading self.new ≡ [] }
        ensures marks { N.reading.max_marks self.new.net ≡ N.reading.max_marks self.old.net }
    {
        let Some(before) = self.ask else { return false };
        if before.now == now {
            return self.follow_from(machine, schedule, now, copy_asked(&before, known));
        }
        if now < before.now || !self.move_to(machine, schedule, before.now, now) {
            return false;
        }
        self.follow_from(machine, schedule, now, None)
    }

    /// Follows the live plans of the schedule from a board that is loaded at their moment. If a copy is named, no other plan is
    /// new.
    fn follow_from(
        &mut self,
        machine: &Machine,
        schedule: &Schedule,
        now: Tick,
        known: Option<SheetId>,
    ) -> bool
        requires known { IfSome known (λ copy.
            filter (is_live machine.now now) (without copy schedule.now.plans)
            ≡ filter (is_live machine.now now) self.old.plans) }
        requires made { IsMadeFor self.old.made_for machine.now }
        requires live { CanLoad machine.now now
            (filter (is_live machine.now now) schedule.now.plans) }
        requires can { CanLoad machine.now now self.old.plans }
        requires loaded { IsLoaded machine.now now self.old.plans (N.reading.net self.old.net)
            self.old.orders.orders self.old.held self.old.firsts self.old.causes }
        requires last { self.old.last.0 ≡ point_count self.old.plans }
        requires settled { self.old.settled ≡ true → AreSettled machine.now now self.old.plans }
        requires closed { self.old.steps ≡ [] }
        requires unmarked { past_of N.reading self.old ≡ [] }
        ensures made { self.new.made_for ≡ self.old.made_for }
        ensures live { result ≡ true → filter (is_live machine.now now) self.new.plans
            ≡ filter (is_live machine.now now) schedule.now.plans }
        ensures can { result ≡ true → CanLoad machine.now now self.new.plans }
        ensures loaded { result ≡ true → IsLoaded machine.now now self.new.plans
            (N.reading.net self.new.net) self.new.orders.orders self.new.held self.new.firsts
            self.new.causes }
        ensures last { result ≡ true → self.new.last.0 ≡ point_count self.new.plans }
        ensures settled { result ≡ true → self.new.settled ≡ true
            → AreSettled machine.now now self.new.plans }
        ensures closed { self.new.steps ≡ [] }
        ensures past { past_of N.reading self.new ≡ [] }
        ensures marks { N.reading.max_marks self.new.net ≡ N.reading.max_marks self.old.net }
    {
        let count = self.plans.len();
        if !follow_plans(&mut self.plans, machine, schedule, now, known) {
            return false;
        }
        if self.plans.len() == count {
            return true;
        }
        self.plans.len() == count + 1 && self.follow_last(machine, now, count)
    }

    /// Whether the ask can be put on the plans that the board holds, beside those that are over: either none is over, or they
    /// are of earlier copies, and there is room for the points of a plan more. Where it is to be exact, none is over.
    fn is_fit(&self, machine: &Machine, ask: &Ask, exact: bool) -> bool
        requires in_order { AllPairs IsEarlier self.now.plans }
        requires last { self.now.last.0 ≡ point_count self.now.plans }
        ensures exact { result ≡ true → exact ≡ true
            → filter (is_live machine.now ask.entry.now.now) self.now.plans ≡ self.now.plans }
        ensures fit { result ≡ true → AreFit machine.now ask.entry.now self.now.plans }
    {
        if exact || self.last.0 > POINTS {
            are_live(&self.plans, machine, ask.now)
        } else {
            are_later_live(&self.plans, machine, ask.now, ask.sheet)
        }
    }

    /// Holds the schedule's live plans from now on, to be asked this, as `load` does, or perhaps with others that are over by
    /// now. What the board holds stays where it still fits: no plan but a new one behind all others changed since the ask
    /// before, other than that it was released further. Costs a step for each plan then, or for the new plan alone where the
    /// moment is the same and the others are known to be those that it holds; and elsewhere as much as `load`. Where it is to
    /// be exact, no plan is held that is over. Takes no memory.
    pub fn renew(
        &mut self,
        machine: &Machine,
        schedule: &Schedule,
        ask: &Ask,
        known: bool,
        exact: bool,
    )
        requires known { known ≡ true → IsSomeAnd self.old.ask
            (λ before. HoldsOthers machine.now before schedule.now.plans self.old.plans) }
        requires made { IsMadeFor self.old.made_for machine.now }
        requires can_ask { CanAsk machine.now schedule.now.plans ask.now }
        requires stands { Stands N.reading self.old machine.now }
        requires closed { self.old.steps ≡ [] }
        requires unmarked { past_of N.reading self.old ≡ [] }
        ensures made { self.new.made_for ≡ self.old.made_for }
        ensures held { IsHeldFrom machine.now schedule.now.plans ask.entry.now self.new.plans }
        ensures exact { exact ≡ true → self.new.plans
            ≡ filter (is_live machine.now ask.entry.now.now) schedule.now.plans }
        ensures asked { self.new.ask ≡ Some ask.entry.now }
        ensures closed { self.new.steps ≡ [] }
        ensures stands { Stands N.reading self.new machine.now }
        ensures past { past_of N.reading self.new ≡ [] }
        ensures marks { N.reading.max_marks self.new.net ≡ N.reading.max_marks self.old.net }
    {
        if self.follow(machine, schedule, ask.now, known) && self.is_fit(machine, ask, exact) {
            self.floor = start_floor(machine, ask);
            self.horizon = ask.now + machine.window;
            self.ask = Some(*ask);
            self.limit = None;
        } else {
            self.load(machine, schedule, ask);
        }
    }
}
