//! What holds of farms of sessions. The call does nothing: its contract is the law.

ghost use Rattle.std.specs.Prelude.{ℕ, Bool, List, Option};
ghost use Rattle.tp_program.specs.FarmRuns.{FarmScriptsLawful, FarmStopsLawful, FarmsLawful};
ghost use Rattle.tp_machine.specs.declared.machine.Machine.{Machine};

/// Where sessions answer lines as a farm, from their start, each event is sent where it goes, and the lines with a machine's
/// number before them, without it, are the text of the one log that answers the events that it was sent by a lawful run. So it
/// is with a script that is answered whole, and with the first lines of one where the farm stops.
pub fn farms_are_lawful()
    ensures lines { (machines : List Machine) (budget : Option ℕ) (bounds : Bool)
        → FarmsLawful machines budget bounds }
    ensures whole { (machines : List Machine) (budget : Option ℕ) (bounds : Bool)
        → FarmScriptsLawful machines budget bounds }
    ensures stopped { (machines : List Machine) (budget : Option ℕ) (bounds : Bool)
        → FarmStopsLawful machines budget bounds }
{}
