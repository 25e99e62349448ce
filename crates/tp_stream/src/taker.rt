//! What answers lines.

ghost use Rattle.std.specs.Prelude.{◌≡◌, ◌+◌, ◌<◌, ◌≤◌, ◌^◌, ℕ, List, [], length, OnOk, IfErr};
ghost use Rattle.tp_stream.specs.Answers.{IfRefused};

use crate::stop::Refusal;

/// What answers lines: each with a text, which it keeps until it is cleared.
pub trait LineTaker {
    // all that answers depend on, but for the text that is kept
    ghost State: { Type 0 };

    ghost state: { Self → State };

    // the text that is kept
    ghost text: { Self → List ℕ };

    // how many lines more it can be given
    ghost room: { Self → ℕ };

    // a line leads from the one state to the other, with this text
    ghost answers: { State → List ℕ → List ℕ → State → Type 0 };

    // a line is refused in this state
    ghost refuses: { State → List ℕ → Type 0 };

    /// Answers one line, given with its LF; a last line may lack it. After an `Err` it is not called again, and its text
    /// is not looked at.
    fn take_line(&mut self, line: &[u8]) -> Result<(), Refusal>
        requires room { 0 < room self.old }
        requires short { length line.now + 1 < 2 ^ 32 }
        requires clear { text self.old ≡ [] }
        ensures answered { OnOk result (answers (state self.old) line.now
            (text self.new) (state self.new)) }
        ensures counted { OnOk result (room self.old ≤ room self.new + 1) }
        ensures refused { IfErr result (IfRefused (refuses (state self.old) line.now)) };

    /// The text of the last answer.
    fn text(&self) -> &[u8]
        ensures { result.now ≡ text self.now };

    fn clear_text(&mut self)
        ensures cleared { text self.new ≡ [] }
        ensures stays { state self.new ≡ state self.old }
        ensures room { room self.new ≡ room self.old };
}
