//! A schedule as difference constraints: its rules, what each step of a board adds to them, and the network that keeps
//! them, also as the schedule grows and the clock moves. Each call does nothing: its contract is the law.
#![tactic(auto)]

ghost use Rattle.tp_constraints.specs.Hops.{ActionHops, GoalHops, LoadHops, PlaceHops, StopHops};
ghost use Rattle.tp_constraints.specs.Laws.{ActionLaw, GapsLaw, GoalLaw, PlaceLaw, RoomLaw, StopLaw, SuffixLaw};
ghost use Rattle.tp_constraints.specs.Leasts.{BoundLaw, CommitLaw, SettleLaw};
ghost use Rattle.tp_constraints.specs.Nets.{ActionNet, BoardLate, BoardLeast, BoardSolutions, GoalNet, LoadNet, LoadedSolutions, PlaceNet, StopNet};
ghost use Rattle.tp_constraints.specs.Numbers.{TableLaw};
ghost use Rattle.tp_constraints.specs.Supports.{LeastIsSupported, SupportedIsLeast, UnmarkedIsLater};
ghost use Rattle.tp_constraints.specs.Walks.{BeforeHops, BeforeNet, EarlierNet, StandHops, StandNet, StartHops, StartNet, WalkAhead, WalkLate, WalkPlace, WalkShut, WalkSolutions, WalkStart, WalkStep};

mod choice_ways;
mod growth;

pub use choice_ways::{
    complete_ways_are_answers, complete_ways_start, late_lists_stay_shut,
    lists_without_room_stay_shut, open_lists_have_places, steps_make_ways, ways_are_lists,
    ways_open_by_their_times,
};
pub use growth::{moments_move_bounds, plans_are_added};

/// Ticks keep a schedule's shape and its orders exactly where they keep bounds and gaps. Neighbours in an order are
/// enough, since no hold is empty.
pub fn schedules_are_gaps()
    ensures { GapsLaw }
{}

/// Ticks keep a schedule with choices exactly where they keep the bounds and gaps of both. The newest choice may have its first
/// places alone. With true rooms the ticks are those of the choice list.
pub fn suffixes_are_gaps()
    ensures times { SuffixLaw }
    ensures rooms { RoomLaw }
{}

/// A goal that is opened, an action, a place and the stop are each the gaps and bounds that they add.
pub fn steps_add_gaps()
    ensures goal { GoalLaw }
    ensures action { ActionLaw }
    ensures place { PlaceLaw }
    ensures stop { StopLaw }
{}

/// The solutions of a network whose points stand for those of a board are the board's ticks, and its least solution is
/// the least of them.
pub fn solutions_are_ticks()
    ensures board { BoardSolutions }
    ensures loaded { LoadedSolutions }
    ensures late { BoardLate }
    ensures least { BoardLeast }
{}

/// Such a network is made of a schedule's points and gaps, and goes on by the points and edges that each step adds.
pub fn steps_add_edges()
    ensures table { TableLaw }
    ensures load { LoadNet }
    ensures goal { GoalNet }
    ensures action { ActionNet }
    ensures place { PlaceNet }
    ensures stop { StopNet }
{}

/// The least solution makes a least schedule: the alternative of a complete list, whose end is the list's bound, or the
/// schedule settled.
pub fn least_solutions_are_least_schedules()
    ensures commit { CommitLaw }
    ensures bound { BoundLaw }
    ensures settle { SettleLaw }
{}

/// Each gap of a schedule, each that a step adds, and each that stays is a hop that a reason may cite, of the kind that is
/// told with it.
pub fn gaps_are_hops()
    ensures load { LoadHops }
    ensures goal { GoalHops }
    ensures action { ActionHops }
    ensures place { PlaceHops }
    ensures stop { StopHops }
{}

/// A schedule is least exactly where all its points are supported. A point that marks from the least ticks on do not reach
/// can stand one tick earlier.
pub fn supports_are_least_schedules()
    ensures least { SupportedIsLeast }
    ensures supported { LeastIsSupported }
    ensures later { UnmarkedIsLater }
{}

/// The next hold may be placed by a walk from the end of its order: each step adds one gap, to the hold before which it then
/// stands, and none is taken back. Where one leaves no ticks, its place and all before it are late.
pub fn places_are_walks()
    ensures start { WalkStart }
    ensures ahead { WalkAhead }
    ensures step { WalkStep }
    ensures place { WalkPlace }
    ensures late { WalkLate }
{}

/// The network of such a walk: each step adds one edge to it, and it serves all earlier places where it has no solution.
pub fn walks_add_edges()
    ensures start { StartNet }
    ensures before { BeforeNet }
    ensures stand { StandNet }
    ensures earlier { EarlierNet }
    ensures solutions { WalkSolutions }
    ensures shut { WalkShut }
{}

/// Each edge of a walk is a hop that a reason may cite for its place and for each before.
pub fn walks_are_hops()
    ensures start { StartHops }
    ensures before { BeforeHops }
    ensures stand { StandHops }
{}
