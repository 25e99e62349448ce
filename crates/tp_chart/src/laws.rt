//! What holds of the names in pictures. The call does nothing: its contract is the law.
ghost use Rattle.std.specs.Prelude.{List, ℕ};
ghost use Rattle.tp_words.specs.Fields.{IsName};
ghost use Rattle.tp_chart.specs.Pictures.{NeedsNoEscape};

/// No byte of a name has a meaning in SVG, so names are written as they are.
pub fn names_need_no_escape()
    ensures { (name : List ℕ) → IsName name → NeedsNoEscape name }
{}
