//! What holds of all rooms.
ghost use Rattle.tp_routes.specs.Laws.{StepsKeepRoom};

/// Room of the state to which an allowed action leads is at most room of the state before it plus
/// the action's least duration. The call does nothing: its contract is the law.
pub fn room_law()
    ensures { StepsKeepRoom }
{}
