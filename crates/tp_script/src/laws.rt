//! What holds of all lines and events. The calls do nothing: their contracts are the laws.
ghost use Rattle.std.specs.Prelude.{◌≡◌, ◌↔◌, ℕ, List, [], ◌∷◌, ◌++◌, Some};
ghost use Rattle.tp_script.specs.declared.event.Event.{Event};
ghost use Rattle.tp_script.specs.Script.{IsEvent, event_text, words_of_line};
ghost use Rattle.tp_script.specs.Printed.{IsWhole, IsEchoed};
ghost use Rattle.tp_script.specs.EventReaders.{event_of};

/// A printed event, with its LF, is read again. `Bad` has no line of its own.
pub fn printed_is_read()
    ensures { (e : Event) → IsWhole e → IsEvent (words_of_line (event_text e ++ 10 ∷ [])) e }
{}

/// No line gives two events.
pub fn one_reading()
    ensures { (words : List (List ℕ)) (e f : Event) → IsEvent words e
        → IsEvent words f → e ≡ f }
{}

/// No two events have one text.
pub fn one_text()
    ensures { (e f : Event) → IsEchoed e → IsEchoed f
        → event_text e ≡ event_text f → e ≡ f }
{}

/// Reading gives an event exactly where the grammar does.
pub fn reading_is_grammar()
    ensures { (words : List (List ℕ)) (e : Event) → (event_of words ≡ Some e)
        ↔ IsEvent words e }
{}
