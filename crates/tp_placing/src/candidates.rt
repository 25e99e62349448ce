//! The next hold of the newest action, and how it is put at a place of its resource's order.
ghost use Rattle.std.specs.Prelude.{◌≡◌, ℕ, ◌+◌, ◌<◌, ◌≤◌, length, IsSomeAnd, vec_len, vec_capacity};
ghost use Rattle.tp_timelines.specs.Orders.{order_on, total};
ghost use Rattle.tp_placing.specs.Boards.{suffix_of};
ghost use Rattle.tp_placing.specs.Calls.{CanPlace};
ghost use Rattle.tp_placing.specs.Candidates.{HasInserted, IsCandidate};
ghost use Rattle.tp_placing.specs.Causes.{step_causes};
ghost use Rattle.tp_placing.specs.Inside.{most_holds};
ghost use Rattle.tp_placing.specs.LoadedBoard.{Stands};

use crate::board::Board;
use crate::causes::step_tag;
use crate::parts::{Change, Held, Step};
use tp_base::{Network, PointId};
use tp_machine::{Machine, gap_at};
use tp_timelines::Timelines;

/// A hold that may be placed after the newest step: the gap to its neighbours, and the tag of its first edge.
#[derive(Clone, Copy)]
pub(crate) struct Candidate {
    pub(crate) newest: Step,
    pub(crate) hold: Held,
    pub(crate) gap: u32,
    pub(crate) tag: u32,
}

/// Puts a hold into its resource's order and to the holds, and adds the step that did it.
pub(crate) fn insert_hold(
    timelines: &mut Timelines,
    held: &mut Vec<Held>,
    steps: &mut Vec<Step>,
    newest: Step,
    hold: Held,
    place: u32,
)
    requires known { hold.rule.resource.0 < length timelines.old.orders }
    requires within { place ≤ length (order_on timelines.old.orders hold.rule.resource.0) }
    requires capacity { total timelines.old.orders < timelines.old.hold_capacity }
    requires few { vec_len held.old < most_holds }
    requires held_space { vec_len held.old < vec_capacity held.old }
    requires step_space { vec_len steps.old < vec_capacity steps.old }
    ensures inserted { HasInserted newest hold place timelines.old timelines.new
        held.old.items held.new.items steps.old.items steps.new.items }
    ensures held_space { vec_capacity held.new ≡ vec_capacity held.old }
    ensures step_space { vec_capacity steps.new ≡ vec_capacity steps.old }
{
    let id = held.len() as u32;
    let Ok(()) = timelines.insert(hold.rule.resource, place, id) else {
        unreachable!()
    };
    held.push_reserved(hold);
    steps.push_reserved(Step {
        change: Change::Place { place },
        newest: newest.newest,
        first: newest.first,
    });
}

impl<N: Network> Board<N> {
    /// The next hold of the newest action, where its resource's order has a place for it.
    pub(crate) fn next_hold(&self, machine: &Machine, hold: u32) -> Candidate
        requires stands { Stands N.reading self.now machine.now }
        requires next { IsSomeAnd (suffix_of self.now)
            (λ x. (place : ℕ) × CanPlace machine.now self.now.plans x hold place) }
        ensures is { IsCandidate self.now machine.now hold result }
        ensures behind { 5 ≤ result.tag }
        ensures within { result.tag + 1 < step_causes }
    {
        let newest = self.steps[self.steps.len() - 1];
        let Some(act) = newest.newest else {
            unreachable!()
        };
        let hold = Held {
            rule: *machine.actions.get(act.0 as u32).holds.get(hold),
            start: newest.first,
            end: PointId(newest.first.0 - 1),
        };
        Candidate {
            newest,
            hold,
            gap: gap_at(machine, hold.rule.resource),
            tag: step_tag(self.steps.len()),
        }
    }
}
