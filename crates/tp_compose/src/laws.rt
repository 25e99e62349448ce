//! What holds of all racks. The call does nothing: its contract is the law.
ghost use Rattle.std.specs.Prelude.{◌≡◌, ◌↔◌, List, Some};
ghost use Rattle.toml.specs.Data.{Members};
ghost use Rattle.tp_machine.specs.ModuleUse.{action_at};
ghost use Rattle.tp_machine.specs.declared.parts.ActId.{ActId};
ghost use Rattle.tp_machine.specs.declared.parts.Action.{Action};
ghost use Rattle.tp_machine.specs.declared.parts.Sheet.{Sheet};
ghost use Rattle.tp_machine.specs.declared.machine.Machine.{Machine};
ghost use Rattle.tp_compose.specs.Texts.{IsMachineOfRack};
ghost use Rattle.tp_compose.specs.Walks.{Pair, IsPairOf, ArePairsOf, IsWalk, IsNewRoute};

/// Each action of a rack's machine has one pair of a part and an action of its type. A list of
/// actions is a route of a new copy to some tray, with no module out and no feeder empty, exactly
/// where its pairs are a walk of the rack.
pub fn walks_are_routes()
    ensures one_pair { (r : Members) (machine : Machine) → IsMachineOfRack r machine
        → (act : ActId) (a : Action) → action_at machine act.0 ≡ Some a
        → (x : Pair) × IsPairOf r machine act x
        × ((y : Pair) → IsPairOf r machine act y → y ≡ x) }
    ensures routes { (r : Members) (machine : Machine) → IsMachineOfRack r machine
        → (sheet : Sheet) (acts : List ActId) (xs : List Pair) → ArePairsOf r machine acts xs
        → (IsNewRoute machine sheet acts ↔ IsWalk r sheet xs) }
{}
