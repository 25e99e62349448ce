//! A text as lines, each with its LF.
ghost use Rattle.std.specs.Prelude.{◌≡◌, ◌≢◌, ◌<◌, ℕ, List, [], ◌∷◌, ◌++◌, length, MatchOption};
ghost use Rattle.tp_words.specs.Texts.{lines_of};

use crate::split::cut;

/// The first line, with its LF if it has one, and what stands behind it.
pub fn first_line(text: &[u8]) -> (&[u8], &[u8])
    requires { 0 < length text.now }
    ensures lines { lines_of text.now ≡ result.0.now ∷ lines_of result.1.now }
    ensures whole { text.now ≡ result.0.now ++ result.1.now }
    ensures shorter { length result.1.now < length text.now }
{
    match cut(text, b'\n') {
        Some((line, _)) => text.split_at(line.len() + 1),
        None => text.split_at(text.len()),
    }
}

/// What stands before the LF at the end; `None` where the line doesn't end with LF.
pub fn without_newline(line: &[u8]) -> Option<&[u8]>
    ensures { MatchOption result ((text : List ℕ) → line.now ≢ text ++ 10 ∷ [])
        (λ text. line.now ≡ text.now ++ 10 ∷ []) }
{
    line.strip_suffix(b"\n")
}
