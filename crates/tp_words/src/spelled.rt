//! What one word of a line stands for.

ghost use Rattle.std.specs.Prelude.{◌≡◌, ℕ, List, find};
ghost use Rattle.std.specs.Str.{bytes_eq};

/// What one word of a line stands for, as its first word that says what the line tells.
pub trait Spelled: Copy {
    ghost word: { Self → List ℕ };

    /// Its word.
    fn text(&self) -> &'static [u8]
        ensures { result.now ≡ word self.now };
}

/// The first of these that the word stands for.
pub fn first_spelled<T: Spelled>(all: &[T], word: &[u8]) -> Option<T>
    ensures { result ≡ find (λ one. bytes_eq (T.word one) word.now) all.now }
{
    all.iter().copied().find(|one| one.text() == word)
}
