//! What can go back to a mark, as a trait.
ghost use Rattle.std.specs.Prelude.{◌≡◌, ℕ, ◌+◌, ◌<◌, ◌≤◌, List, [], ◌∷◌, ◌++◌, length, take, slice_get, Some};

/// The number of a mark in force, counted from the oldest.
#[derive(Clone, Copy, Debug, PartialEq, Eq)]
pub struct Mark(pub u32);

/// An object with content that changes, and that `undo_to` takes back to a mark.
pub trait Undo {
    /// What a mark keeps.
    ghost Content: { Type 0 };

    /// What marks leave alone, as sizes that never change.
    ghost Untouched: { Type 0 };

    ghost content: { Self → Content };

    ghost untouched: { Self → Untouched };

    /// The content at each mark in force, the oldest first.
    ghost past: { Self → List Content };

    /// How many marks can be in force.
    ghost max_marks: { Self → ℕ };

    fn spare_marks(&self) -> u32
        ensures { result + length (past self.now) ≡ max_marks self.now };

    fn mark(&mut self) -> Mark
        requires { length (past self.old) < max_marks self.old }
        ensures number { result.0 ≡ length (past self.old) }
        ensures past { past self.new ≡ past self.old ++ content self.old ∷ [] }
        ensures content { content self.new ≡ content self.old }
        ensures untouched { untouched self.new ≡ untouched self.old }
        ensures capacity { max_marks self.new ≡ max_marks self.old };

    fn undo_to(&mut self, mark: Mark)
        requires { mark.0 < length (past self.old) }
        ensures content { slice_get (past self.old) mark.0 ≡ Some (content self.new) }
        ensures past { past self.new ≡ take mark.0 (past self.old) }
        ensures untouched { untouched self.new ≡ untouched self.old }
        ensures capacity { max_marks self.new ≡ max_marks self.old };
}
