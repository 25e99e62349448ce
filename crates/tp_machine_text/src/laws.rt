//! What holds of all machine texts. The call does nothing: its contract is the law.
ghost use Rattle.std.specs.Prelude.{◌≡◌, ℕ, List};
ghost use Rattle.toml.specs.Data.{Members};
ghost use Rattle.tp_machine.specs.declared.machine.Machine.{Machine};
ghost use Rattle.tp_machine_text.specs.TheMachine.{IsMachineOf};
ghost use Rattle.tp_machine_text.specs.Texts.{IsMachineText};

/// A text has one machine, and so has a table.
pub fn one_machine()
    ensures of_text { (text : List ℕ) (m n : Machine) → IsMachineText text m
        → IsMachineText text n
        → m ≡ n }
    ensures of_table { (t : Members) (m n : Machine) → IsMachineOf t m
        → IsMachineOf t n → m ≡ n }
{}
