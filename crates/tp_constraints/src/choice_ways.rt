//! Ways: the choice lists that a board carries, with the rooms of their states. What each step makes of one, when it is a
//! list that opens, and what alternatives complete ones are. Each call does nothing: its contract is the law.
ghost use Rattle.tp_constraints.specs.Ends.{CompleteEnds, StopEnds};
ghost use Rattle.tp_constraints.specs.WayLaws.{ActionWay, ChildClosed, ChildFull, ChildLate, ChildPlaces, CompleteStart, FirstOnly, GoalClosed, GoalLate, GoalWay, GoingIncomplete, OpenTimes, PlaceBeyond, PlaceWay, StartComplete, StopLate, StopWay, WayList, WayOpens, WayWalk};

/// A way whose newest choice has all its places is a choice list. Its actions lead to the goal from its first state alone.
pub fn ways_are_lists()
    ensures list { WayList }
    ensures walk { WayWalk }
    ensures only { FirstOnly }
{}

/// The list of such a way is open exactly where the way has times, and the least end among them is its bound.
pub fn ways_open_by_their_times()
    ensures opens { WayOpens }
    ensures times { OpenTimes }
{}

/// An opened goal is a way, and each step that a search may take makes one of a way.
pub fn steps_make_ways()
    ensures goal { GoalWay }
    ensures action { ActionWay }
    ensures place { PlaceWay }
    ensures stop { StopWay }
{}

/// Without times no goal opens, nor any list with the first places of a way, nor a stopped list.
pub fn late_lists_stay_shut()
    ensures goal { GoalLate }
    ensures child { ChildLate }
    ensures stop { StopLate }
{}

/// Without room no goal opens, nor a child by an action from states without room, nor one of more than 64 actions.
pub fn lists_without_room_stay_shut()
    ensures goal { GoalClosed }
    ensures child { ChildClosed }
    ensures full { ChildFull }
{}

/// An open list has a place for each hold of its newest choice, each within the order with the places before it.
pub fn open_lists_have_places()
    ensures count { ChildPlaces }
    ensures within { PlaceBeyond }
{}

/// A complete way begins at a start state and can be committed. For a new copy a start state makes it complete, and for
/// one in flight only the stop does.
pub fn complete_ways_start()
    ensures start { CompleteStart }
    ensures complete { StartComplete }
    ensures going { GoingIncomplete }
{}

/// A complete way with times is an alternative that ends as they do, and the stop makes a way end no later.
pub fn complete_ways_are_answers()
    ensures ends { CompleteEnds }
    ensures stop { StopEnds }
{}
