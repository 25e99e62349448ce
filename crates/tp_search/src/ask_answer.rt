//! The answer to an ask on a schedule: the earliest plan, that there is none, or that the budget is spent.
ghost use Rattle.std.specs.Prelude.{◌≡◌, ◌≢◌, ◌+◌, ◌<◌, ◌≤◌, false, List, None, Some, IfErr, IfOk, IsSome, OnErr};
ghost use Rattle.tp_schedule.specs.PlannerAnswers.{CanAsk, IsAnswer};
ghost use Rattle.tp_schedule.specs.Plans.{plan_of, without};
ghost use Rattle.tp_schedule.specs.SpentBudget.{FewListsOpen};
ghost use Rattle.tp_schedule.specs.declared.parts.Reply.TheVariants.{Never, Planned};
ghost use Rattle.tp_schedule.specs.declared.parts.Plan.{Plan};
ghost use Rattle.tp_placing.specs.Calls.{IsSameLoad};
ghost use Rattle.tp_placing.specs.LoadedBoard.{IsMadeFor};
ghost use Rattle.tp_placing.specs.Commits.{IsHeldFrom, IsLoadedFrom};
ghost use Rattle.tp_routes.specs.Tables.{KeepsRooms};
ghost use Rattle.tp_search.specs.Boards.{IsAtRest};
ghost use Rattle.tp_search.specs.Engines.{HasTree};
ghost use Rattle.tp_search.specs.Trials.{EndsEarliest, IsNoPlan};
ghost use Rattle.tp_search.specs.Workspaces.{IsFor, IsSpentOf, StaysFor};

use crate::bound_trees::show_never;
use crate::trial::{NoPlan, find_plan};
use crate::workspace::Workspace;
use std::alloc::Global;
use tp_base::{Memory, Network, Tick, Undo};
use tp_bounds::BoundTree;
use tp_machine::Machine;
use tp_placing::{Board, boards_have_marks};
use tp_schedule::{Ask, Reply, Schedule};

/// Answers an ask on a schedule: writes the earliest plan into it, or leaves it as it is and tells that there is none, or
/// that the workspace stores too few lists to tell. Where there is none, no more lists are open than it stores. A new copy
/// takes one of the schedule's spare plans. The board is at rest then, and holds the schedule as it was. Takes no memory.
pub fn answer<N: Network>(
    work: &mut Workspace,
    board: &mut Board<N>,
    machine: &Machine,
    schedule: &mut Schedule,
    ask: &Ask,
) -> Reply
    requires work { IsFor work.old machine.now }
    requires board { IsMadeFor board.old.made_for machine.now }
    requires can { CanAsk machine.now schedule.old.plans ask.now }
    requires spare { plan_of ask.now.sheet schedule.old.plans ≡ None → 0 < schedule.old.spare }
    ensures answer { IsAnswer
        (IsSpentOf work.old.nodes) machine.now schedule.old.plans ask.entry.now result
        schedule.new.plans }
    ensures few { result ≡ Never
        → FewListsOpen machine.now schedule.old.plans ask.entry.now work.old.nodes }
    ensures new_copy { result ≡ Planned
        → plan_of ask.entry.now.sheet schedule.old.plans ≡ None
        → schedule.new.spare + 1 ≡ schedule.old.spare }
    ensures in_flight { result ≡ Planned
        → IsSome (plan_of ask.entry.now.sheet schedule.old.plans)
        → schedule.new.spare ≡ schedule.old.spare }
    ensures stays { result ≢ Planned → schedule.new ≡ schedule.old }
    ensures work { StaysFor machine.now work.old work.new }
    ensures board { board.new.made_for ≡ board.old.made_for }
    ensures marks { N.reading.max_marks board.new.net ≡ N.reading.max_marks board.old.net }
    ensures rests { IsAtRest N.reading board.new machine.now }
{
    work.forget();
    board.load(machine, schedule, ask);
    answer_loaded(work, board, machine, schedule, ask).reply
}

/// What an ask is answered, and whether a plan moved other than the asked copy's.
#[derive(Clone, Copy)]
pub(crate) struct Answered {
    pub(crate) reply: Reply,
    pub(crate) moved: bool,
}

/// Answers the ask for which the board is loaded, as `answer` does. The workspace was used last on this machine, if it was.
pub(crate) fn answer_loaded<N: Network>(
    work: &mut Workspace,
    board: &mut Board<N>,
    machine: &Machine,
    schedule: &mut Schedule,
    ask: &Ask,
) -> Answered
    requires work { IsFor work.old machine.now }
    requires rooms { KeepsRooms work.old.rooms machine.now }
    requires held { IsHeldFrom machine.now schedule.old.plans ask.now board.old.plans }
    requires asked { board.old.ask ≡ Some ask.now }
    requires rests { IsAtRest N.reading board.old machine.now }
    requires spare { plan_of ask.now.sheet schedule.old.plans ≡ None → 0 < schedule.old.spare }
    ensures answer { IsAnswer
        (IsSpentOf work.old.nodes) machine.now schedule.old.plans ask.entry.now result.reply
        schedule.new.plans }
    ensures few { result.reply ≡ Never
        → FewListsOpen machine.now schedule.old.plans ask.entry.now work.old.nodes }
    ensures new_copy { result.reply ≡ Planned
        → plan_of ask.entry.now.sheet schedule.old.plans ≡ None
        → schedule.new.spare + 1 ≡ schedule.old.spare }
    ensures in_flight { result.reply ≡ Planned
        → IsSome (plan_of ask.entry.now.sheet schedule.old.plans)
        → schedule.new.spare ≡ schedule.old.spare }
    ensures stays { result.reply ≢ Planned → schedule.new ≡ schedule.old }
    ensures unmoved { result.moved ≡ false → without ask.entry.now.sheet schedule.new.plans
        ≡ without ask.entry.now.sheet schedule.old.plans }
    ensures work { StaysFor machine.now work.old work.new }
    ensures rooms { KeepsRooms work.new.rooms machine.now }
    ensures loaded { IsSameLoad board.old board.new }
    ensures marks { N.reading.max_marks board.new.net ≡ N.reading.max_marks board.old.net }
    ensures rests { IsAtRest N.reading board.new machine.now }
{
    boards_have_marks(board);
    match find_plan(board, work, machine, ask) {
        Ok(trial) => {
            let moved = trial.commit(machine, schedule);
            Answered {
                reply: Reply::Planned,
                moved,
            }
        }
        Err(NoPlan::Never) => Answered {
            reply: Reply::Never,
            moved: false,
        },
        Err(NoPlan::Spent { bound }) => Answered {
            reply: Reply::Spent { bound },
            moved: false,
        },
    }
}

/// The tick at which the earliest plans end of the ask for which the board is loaded, or why there is none. Takes no memory.
pub(crate) fn earliest_end<N: Network>(
    work: &mut Workspace,
    board: &mut Board<N>,
    machine: &Machine,
    ask: &Ask,
) -> Result<Tick, NoPlan>
    requires work { IsFor work.old machine.now }
    requires rooms { KeepsRooms work.old.rooms machine.now }
    requires held { (plans : List Plan)
        × IsHeldFrom machine.now plans ask.now board.old.plans }
    requires asked { board.old.ask ≡ Some ask.now }
    requires rests { IsAtRest N.reading board.old machine.now }
    ensures end { (plans : List Plan)
        → IsHeldFrom machine.now plans ask.entry.now board.old.plans
        → IfOk result (EndsEarliest machine.now plans ask.entry.now) }
    ensures none { (plans : List Plan)
        → IsHeldFrom machine.now plans ask.entry.now board.old.plans
        → IfErr result (IsNoPlan machine.now plans ask.entry.now work.old.nodes) }
    ensures work { StaysFor machine.now work.old work.new }
    ensures rooms { KeepsRooms work.new.rooms machine.now }
    ensures board { board.new.made_for ≡ board.old.made_for }
    ensures marks { N.reading.max_marks board.new.net ≡ N.reading.max_marks board.old.net }
    ensures rests { IsAtRest N.reading board.new machine.now }
{
    boards_have_marks(board);
    match find_plan(board, work, machine, ask) {
        Ok(trial) => {
            let end = trial.end();
            trial.abandon();
            Ok(end)
        }
        Err(none) => Err(none),
    }
}

/// An answer with the tree that proves it, where it is a plan or a none.
#[derive(Drop)]
pub(crate) struct Shown {
    pub(crate) answered: Answered,
    pub(crate) tree: Option<BoundTree>,
}

/// Answers the ask for which the board is loaded, as `answer` does, with a tree that proves a plan earliest, or that there is
/// none. After `Memory` the schedule is as before.
pub(crate) fn answer_with_tree<N: Network>(
    alloc: Global,
    work: &mut Workspace,
    board: &mut Board<N>,
    machine: &Machine,
    schedule: &mut Schedule,
    ask: &Ask,
) -> Result<Shown, Memory>
    requires work { IsFor work.old machine.now }
    requires rooms { KeepsRooms work.old.rooms machine.now }
    requires loaded { IsLoadedFrom machine.now schedule.old.plans ask.now board.old.plans }
    requires asked { board.old.ask ≡ Some ask.now }
    requires rests { IsAtRest N.reading board.old machine.now }
    requires spare { plan_of ask.now.sheet schedule.old.plans ≡ None → 0 < schedule.old.spare }
    ensures answer { IfOk result (λ shown. IsAnswer
        (IsSpentOf work.old.nodes) machine.now schedule.old.plans ask.entry.now shown.answered.reply
        schedule.new.plans) }
    ensures tree { IfOk result (λ shown. HasTree machine.now schedule.old.plans ask.entry.now
        schedule.new.plans shown.answered.reply shown.tree) }
    ensures few { IfOk result (λ shown. shown.answered.reply ≡ Never
        → FewListsOpen machine.now schedule.old.plans ask.entry.now work.old.nodes) }
    ensures unmoved { IfOk result (λ shown. shown.answered.moved ≡ false
        → without ask.entry.now.sheet schedule.new.plans
        ≡ without ask.entry.now.sheet schedule.old.plans) }
    ensures stays { OnErr result (schedule.new ≡ schedule.old) }
    ensures work { StaysFor machine.now work.old work.new }
    ensures rooms { KeepsRooms work.new.rooms machine.now }
    ensures loaded { IsSameLoad board.old board.new }
    ensures marks { N.reading.max_marks board.new.net ≡ N.reading.max_marks board.old.net }
    ensures rests { IsAtRest N.reading board.new machine.now }
{
    boards_have_marks(board);
    match find_plan(board, work, machine, ask) {
        Ok(mut trial) => match trial.show(alloc, work, machine) {
            Ok(tree) => {
                let moved = trial.commit(machine, schedule);
                Ok(Shown {
                    answered: Answered {
                        reply: Reply::Planned,
                        moved,
                    },
                    tree: Some(tree),
                })
            }
            Err(error) => {
                trial.abandon();
                Err(error)
            }
        },
        Err(NoPlan::Never) => match show_never(alloc, work, board, machine, ask) {
            Ok(tree) => Ok(Shown {
                answered: Answered {
                    reply: Reply::Never,
                    moved: false,
                },
                tree: Some(tree),
            }),
            Err(error) => Err(error),
        },
        Err(NoPlan::Spent { bound }) => Ok(Shown {
            answered: Answered {
                reply: Reply::Spent { bound },
                moved: false,
            },
            tree: None,
        }),
    }
}
