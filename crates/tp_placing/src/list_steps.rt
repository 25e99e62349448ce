//! The steps of a choice list on a board: a goal, an action, a place for a hold, the stop.
ghost use Rattle.std.specs.Prelude.{◌≡◌, ℕ, ◌<◌, length, IsSomeAnd, IsFalse, OnOk, OnErr, Some, None};
ghost use Rattle.tp_machine.specs.declared.machine.Machine.{Machine};
ghost use Rattle.tp_constraints.specs.Suffixes.{IsInFlight, with_action, with_goal, with_place, with_stop};
ghost use Rattle.tp_placing.specs.Boards.{content_of, past_of, suffix_of};
ghost use Rattle.tp_placing.specs.Calls.{CanGoOn, CanPlace, HasNoTimes, HasTimes, IsSameLoad};
ghost use Rattle.tp_placing.specs.Reasons.{HasReason};
ghost use Rattle.tp_placing.specs.LoadedBoard.{Stands};

use crate::board::Board;
use crate::candidates::insert_hold;
use crate::causes::STOP;
use crate::edges::{edge_between, lasting, lowest};
use crate::neighbours::{neighbour_edges, neighbours_of, note_neighbours};
use crate::parts::{Change, Step};
use crate::point_index::point_of;
use crate::tray_neighbours::line_edges;
use tp_base::{Late, Network, PointId};
use tp_constraints::{gaps_are_hops, solutions_are_ticks, steps_add_edges};
use tp_machine::{ActId, Machine};
use tp_schedule::Origin;

impl<N: Network> Board<N> {
    /// Sets the first point to the front's end, so that the list is complete, or answers Late where no times are left.
    pub fn stop(&mut self) -> Result<(), Late>
        requires stands { (m : Machine) × Stands N.reading self.old m }
        requires going { IsSomeAnd (suffix_of self.old) (λ x. IsFalse x.stopped) }
        requires flying { IsSomeAnd self.old.ask (λ ask. IsInFlight ask.origin) }
        ensures suffix { OnOk result
            (IsSomeAnd (suffix_of self.old) (λ x. suffix_of self.new ≡ Some (with_stop x))) }
        ensures times { OnOk result
            ((m : Machine) → Stands N.reading self.old m
            → IsSomeAnd (suffix_of self.new) (HasTimes m self.new)) }
        ensures late { OnErr result
            ((m : Machine) → Stands N.reading self.old m
            → IsSomeAnd (suffix_of self.old) (λ x. HasNoTimes m self.old (with_stop x))) }
        ensures shown { OnErr result
            ((m : Machine) → Stands N.reading self.old m
            → IsSomeAnd (suffix_of self.old) (λ x. HasReason N.refutes m self.new
            (with_stop x))) }
        ensures same { OnErr result
            (content_of N.reading self.new ≡ content_of N.reading self.old) }
        ensures stands { (m : Machine) → Stands N.reading self.old m
            → Stands N.reading self.new m }
        ensures past { past_of N.reading self.new ≡ past_of N.reading self.old }
        ensures loaded { IsSameLoad self.old self.new }
        ensures marks { N.reading.max_marks self.new.net ≡ N.reading.max_marks self.old.net }
    {
        gaps_are_hops();
        solutions_are_ticks();
        steps_add_edges();
        self.limit = None;
        let newest = self.steps[self.steps.len() - 1];
        let Some(ask) = self.ask else { unreachable!() };
        let Origin::Front { kept, .. } = ask.origin else {
            unreachable!()
        };
        let end = point_of(&self.plans, &self.firsts, ask.sheet, kept);
        match self.net.require(edge_between(newest.first, end, 0, STOP)) {
            Ok(()) => {}
            Err(Late) => return Err(Late),
        }
        let step = Step {
            change: Change::Stop,
            newest: newest.newest,
            first: newest.first,
        };
        self.steps.push_reserved(step);
        Ok(())
    }

    /// Places the next hold of the newest action at a place of its resource's order, or answers Late where no times are
    /// left.
    pub fn place(&mut self, machine: &Machine, hold: u32, place: u32) -> Result<(), Late>
        requires stands { Stands N.reading self.old machine.now }
        requires next { IsSomeAnd (suffix_of self.old)
            (λ x. CanPlace machine.now self.old.plans x hold place) }
        ensures suffix { OnOk result
            (IsSomeAnd (suffix_of self.old) (λ x. suffix_of self.new ≡ Some
            (with_place place x))) }
        ensures times { OnOk result
            (IsSomeAnd (suffix_of self.new) (HasTimes machine.now self.new)) }
        ensures late { OnErr result
            (IsSomeAnd (suffix_of self.old)
            (λ x. HasNoTimes machine.now self.old (with_place place x))) }
        ensures shown { OnErr result
            (IsSomeAnd (suffix_of self.old)
            (λ x. HasReason N.refutes machine.now self.new (with_place place x))) }
        ensures same { OnErr result
            (content_of N.reading self.new ≡ content_of N.reading self.old) }
        ensures stands { Stands N.reading self.new machine.now }
        ensures past { past_of N.reading self.new ≡ past_of N.reading self.old }
        ensures loaded { IsSameLoad self.old self.new }
        ensures marks { N.reading.max_marks self.new.net ≡ N.reading.max_marks self.old.net }
    {
        gaps_are_hops();
        solutions_are_ticks();
        steps_add_edges();
        let next = self.next_hold(machine, hold);
        let near = neighbours_of(&self.timelines, &self.held, next.hold.rule.resource, place);
        self.limit = None;
        note_neighbours(&mut self.causes, &near, &next.hold, next.tag);
        neighbour_edges(&mut self.edges, &near, &next.hold, next.gap, next.tag);
        match self.net.require_all(&self.edges) {
            Ok(()) => {}
            Err(Late) => return Err(Late),
        }
        insert_hold(
            &mut self.timelines,
            &mut self.held,
            &mut self.steps,
            next.newest,
            next.hold,
            place,
        );
        Ok(())
    }

    /// Opens an action before the others, to start with so much room after the start floor, or answers Late where no times
    /// are left.
    pub fn open_action(&mut self, machine: &Machine, act: ActId, room: u32) -> Result<(), Late>
        requires stands { Stands N.reading self.old machine.now }
        requires known { act.0 < length machine.now.actions }
        requires ready { IsSomeAnd self.old.ask
            (λ ask. IsSomeAnd (suffix_of self.old) (CanGoOn ask)) }
        ensures suffix { OnOk result
            (IsSomeAnd (suffix_of self.old)
            (λ x. suffix_of self.new ≡ Some (with_action act room x))) }
        ensures times { OnOk result
            (IsSomeAnd (suffix_of self.new) (HasTimes machine.now self.new)) }
        ensures late { OnErr result
            (IsSomeAnd (suffix_of self.old)
            (λ x. HasNoTimes machine.now self.old (with_action act room x))) }
        ensures shown { OnErr result
            (IsSomeAnd (suffix_of self.old)
            (λ x. HasReason N.refutes machine.now self.new (with_action act room x))) }
        ensures same { OnErr result
            (content_of N.reading self.new ≡ content_of N.reading self.old) }
        ensures stands { Stands N.reading self.new machine.now }
        ensures past { past_of N.reading self.new ≡ past_of N.reading self.old }
        ensures loaded { IsSameLoad self.old self.new }
        ensures marks { N.reading.max_marks self.new.net ≡ N.reading.max_marks self.old.net }
    {
        gaps_are_hops();
        solutions_are_ticks();
        steps_add_edges();
        self.limit = None;
        let newest = self.steps[self.steps.len() - 1];
        let start = PointId(newest.first.0 + 1);
        let low = lowest(self.floor, room, self.horizon);
        let edges = lasting(machine.actions.get(act.0 as u32), start, newest.first);
        match self.net.extend(low, self.horizon, &edges) {
            Ok(()) => {}
            Err(Late) => return Err(Late),
        }
        let step = Step {
            change: Change::Action { act, room },
            newest: Some(act),
            first: start,
        };
        self.steps.push_reserved(step);
        Ok(())
    }

    /// Opens a goal that wants so much room after the start floor, or answers Late where no times are left.
    pub fn open_goal(&mut self, room: u32) -> Result<(), Late>
        requires stands { (m : Machine) × Stands N.reading self.old m }
        requires closed { suffix_of self.old ≡ None }
        ensures suffix { OnOk result (suffix_of self.new ≡ Some (with_goal room)) }
        ensures times { OnOk result
            ((m : Machine) → Stands N.reading self.old m
            → HasTimes m self.new (with_goal room)) }
        ensures late { OnErr result
            ((m : Machine) → Stands N.reading self.old m
            → HasNoTimes m self.old (with_goal room)) }
        ensures shown { OnErr result
            ((m : Machine) → Stands N.reading self.old m
            → HasReason N.refutes m self.new (with_goal room)) }
        ensures same { OnErr result
            (content_of N.reading self.new ≡ content_of N.reading self.old) }
        ensures stands { (m : Machine) → Stands N.reading self.old m
            → Stands N.reading self.new m }
        ensures past { past_of N.reading self.new ≡ past_of N.reading self.old }
        ensures loaded { IsSameLoad self.old self.new }
        ensures marks { N.reading.max_marks self.new.net ≡ N.reading.max_marks self.old.net }
    {
        gaps_are_hops();
        solutions_are_ticks();
        self.limit = None;
        let Some(ask) = self.ask else { unreachable!() };
        let low = lowest(self.floor, room, self.horizon);
        line_edges(&mut self.edges, &self.plans, &self.firsts, &ask, self.last);
        match self.net.extend(low, self.horizon, &self.edges) {
            Ok(()) => {}
            Err(Late) => return Err(Late),
        }
        let step = Step {
            change: Change::Goal { room },
            newest: None,
            first: self.last,
        };
        self.steps.push_reserved(step);
        Ok(())
    }
}
