//! What a board carried, laid on it again: its changes one after another, and the stop last.
ghost use Rattle.std.specs.Prelude.{◌≡◌, ◌+◌, ◌≤◌, IsSomeAnd};
ghost use Rattle.tp_machine.specs.declared.machine.Machine.{Machine};
ghost use Rattle.tp_placing.specs.Boards.{suffix_of};
ghost use Rattle.tp_placing.specs.LoadedBoard.{Stands};
ghost use Rattle.tp_placing.specs.declared.parts.Change.TheVariants.{Action, Goal, Place};
ghost use Rattle.tp_search.specs.Again.{CanCarryIf, CanLayAgain, CanMake, IsMade, again_by, has_goal, suffix_by};
ghost use Rattle.tp_search.specs.Boards.{IsReady};
ghost use Rattle.tp_search.specs.StoredLists.{IsSameButSteps};

use tp_base::{Late, Network};
use tp_machine::{ActId, Machine};
use tp_placing::{Board, Change};
use tp_schedule::{Ask, Origin};

/// How far a list is laid: not at all, its goal alone, or so many holds of its newest choice too.
#[derive(Clone, Copy)]
pub(crate) enum Reached {
    Nothing,
    Goal,
    Holds(u32),
}

impl Reached {
    fn has_goal(self) -> bool
        ensures { result ≡ has_goal self }
    {
        match self {
            Reached::Nothing => false,
            Reached::Goal | Reached::Holds(_) => true,
        }
    }
}

/// Opens a goal again, unless one is open.
fn goal_again<N: Network>(board: &mut Board<N>, room: u32, reached: Reached) -> Reached
    requires can { (machine : Machine)
        × CanMake N.reading board.old machine (Goal room) reached }
    ensures { (machine : Machine)
        → CanMake N.reading board.old machine (Goal room) reached
        → IsMade N.reading board.old board.new machine
        (Goal room) result }
{
    if reached.has_goal() {
        return reached;
    }
    match board.open_goal(room) {
        Ok(()) => Reached::Goal,
        Err(Late) => unreachable!(),
    }
}

/// Opens an action again, where a goal is open.
fn action_again<N: Network>(
    board: &mut Board<N>,
    machine: &Machine,
    act: ActId,
    room: u32,
    reached: Reached,
) -> Reached
    requires can { CanMake N.reading board.old machine.now (Action act room) reached }
    ensures { IsMade N.reading board.old board.new machine.entry.now
        (Action act room) result }
{
    if !reached.has_goal() {
        return reached;
    }
    match board.open_action(machine, act, room) {
        Ok(()) => Reached::Holds(0),
        Err(Late) => unreachable!(),
    }
}

/// Places a hold again, where an action is open.
fn place_again<N: Network>(
    board: &mut Board<N>,
    machine: &Machine,
    place: u32,
    reached: Reached,
) -> Reached
    requires can { CanMake N.reading board.old machine.now (Place place) reached }
    ensures { IsMade N.reading board.old board.new machine.entry.now
        (Place place) result }
{
    match reached {
        Reached::Nothing => reached,
        Reached::Goal => reached,
        Reached::Holds(hold) => match board.place(machine, hold, place) {
            Ok(()) => Reached::Holds(hold + 1),
            Err(Late) => unreachable!(),
        },
    }
}

/// Makes a change again, but leaves out a stop.
fn change_again<N: Network>(
    board: &mut Board<N>,
    machine: &Machine,
    change: Change,
    reached: Reached,
) -> Reached
    requires can { CanMake N.reading board.old machine.now change reached }
    ensures { IsMade N.reading board.old board.new machine.entry.now change
        result }
{
    match change {
        Change::Goal { room } => goal_again(board, room, reached),
        Change::Action { act, room } => action_again(board, machine, act, room, reached),
        Change::Place { place } => place_again(board, machine, place, reached),
        Change::Stop => reached,
    }
}

/// Makes all changes again but the stop, on a board without choices.
fn changes_again<N: Network>(board: &mut Board<N>, machine: &Machine, ask: &Ask, changes: &[Change])
    requires ready { IsReady N.reading board.old machine.now ask.now }
    requires can { CanCarryIf machine.now board.old.plans ask.now (again_by changes.now) }
    ensures stands { Stands N.reading board.new machine.entry.now }
    ensures suffix { suffix_of board.new ≡ again_by changes.now }
    ensures same { IsSameButSteps N.reading board.old board.new }
{
    let mut reached = Reached::Nothing;
    'changes: for at in 0..changes.len() {
        reached = change_again(board, machine, changes[at], reached);
    }
}

/// Lays the list of these changes, which can be committed, on a board without choices.
pub(crate) fn lay_again<N: Network>(
    board: &mut Board<N>,
    machine: &Machine,
    ask: &Ask,
    changes: &[Change],
)
    requires ready { IsReady N.reading board.old machine.now ask.now }
    requires can { IsSomeAnd (suffix_by changes.now)
        (CanLayAgain machine.now board.old.plans ask.now) }
    ensures stands { Stands N.reading board.new machine.entry.now }
    ensures suffix { suffix_of board.new ≡ suffix_by changes.now }
    ensures same { IsSameButSteps N.reading board.old board.new }
{
    changes_again(board, machine, ask, changes);
    match ask.origin {
        Origin::Feeder => {}
        Origin::Front { .. } => match board.stop() {
            Ok(()) => {}
            Err(Late) => unreachable!(),
        },
    }
}
