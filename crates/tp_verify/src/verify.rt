//! A check, from the words to the line that is written.

ghost use Rattle.std.specs.Prelude.{◌≡◌, ◌↔◌, ℕ, List, Some, None, map, option_map, string_bytes, IfSome, IsSome};
ghost use Rattle.tp_outside.specs.Outside.{Rises, file_at};
ghost use Rattle.tp_verify.specs.Checks.{CheckEnds};
ghost use Rattle.tp_verify.specs.InOrder.{VerifiesInOrder};
ghost use Rattle.tp_verify.specs.Words.{named_by};

use crate::VerifyStatus;
use crate::check::check;
use std::alloc::Global;
use tp_outside::{Shelf, Sink, Source};

/// The name that the words give: one word that does not begin with `-`.
fn name_in(words: &[String]) -> Option<&str>
    ensures { option_map (λ name. name.now) result ≡ named_by (map string_bytes words.now) }
{
    match words {
        [word] if word.as_bytes().first() != Some(&b'-') => Some(word.as_str()),
        _ => None,
    }
}

/// Checks the log of the source on the machine of the text that the words name, given without the program's name, over this
/// outside. The first check that fails ends it: the words; the shelf, the length and the rules of the machine text; then for each
/// line of the log the source, its length, the length of the log, and what the line says.
pub fn verify_main<H: Shelf, S: Source, K: Sink>(
    alloc: Global,
    words: &[String],
    shelf: &mut H,
    source: &mut S,
    sink: &mut K,
) -> VerifyStatus
    // Exactly if the words are not of the form. Then nothing is read or written.
    ensures usage { result ≡ VerifyStatus.Usage
        ↔ (named_by (map string_bytes words.now) ≡ None) }
    ensures unused { result ≡ VerifyStatus.Usage
        → (source.new ≡ source.old) × (sink.new ≡ sink.old) }

    // What each other status says. With `Done` the source was read to its end, what it gave is the text of a log that is lawful with
    // bounds, but for the causes of its budgets, and the sink took the one line of its counts. With `Rejected`, as with any other
    // status, the first lines were those of such a log so far, and nothing is written.
    ensures check { (name : List ℕ) → named_by (map string_bytes words.now) ≡ Some name
        → CheckEnds S.left K.taken (H.known shelf.old) source.old source.new sink.old sink.new
        name result }

    // The outside failed.
    ensures shelf { result ≡ VerifyStatus.Shelf
        → Rises (H.faults shelf.old) (H.faults shelf.new) }
    ensures amiss { result ≡ VerifyStatus.Shelf → IfSome (H.known shelf.old) (λ files.
        IfSome (named_by (map string_bytes words.now)) (λ name. IsSome (file_at files name)
        → Rises (H.amiss shelf.old) (H.amiss shelf.new))) }
    ensures source { result ≡ VerifyStatus.Source
        → Rises (S.faults source.old) (S.faults source.new) }
    ensures sink { result ≡ VerifyStatus.Sink → Rises (K.faults sink.old) (K.faults sink.new) }

    // Nothing else is left open: if the outside did not fail in this call, the words name a machine text, and the log keeps its
    // sizes, then the log was accepted or refused, or memory ran out.
    ensures complete { ¬ Rises (H.faults shelf.old) (H.faults shelf.new)
        → ¬ Rises (S.faults source.old) (S.faults source.new)
        → ¬ Rises (K.faults sink.old) (K.faults sink.new)
        → VerifiesInOrder (map string_bytes words.now) (H.known shelf.old) (S.left source.old)
        result }
{
    match name_in(words) {
        Some(name) => check(alloc, name, shelf, source, sink),
        None => VerifyStatus::Usage,
    }
}
