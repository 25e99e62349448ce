//! The laws of standings. The calls do nothing: their contracts are the laws.

ghost use Rattle.tp_session_standing.specs.Laws.{SoundStandingsGoOn};

/// In the state that a sound standing tells any event can be taken, and the state stands where the standing says.
pub fn sound_standings_go_on()
    ensures { SoundStandingsGoOn }
{}
