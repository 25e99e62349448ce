//! Names of texts.

ghost use Rattle.std.specs.Prelude.{◌≡◌, ◌≤◌, ◌<◌, ◌^◌, ◌++◌, ◌∷◌, [], false, true, length, decimal, IfOk, OnOk};
ghost use Rattle.tp_base.specs.NameText.{is_name_text};
ghost use Rattle.tp_machine.specs.Rules.{are_names};
ghost use Rattle.tp_machine_text.specs.Words.{is_among};
ghost use Rattle.tp_words.specs.Parts.{words_in};

use std::alloc::Global;
use tp_base::{Memory, Name};
use tp_machine::Names;
use tp_words::{put_number, words};

pub(crate) fn name_of(text: &[u8]) -> Name
    requires { is_name_text text.now ≡ true }
    ensures { result ≡ text.now }
{
    match Name::read(text) {
        Some(name) => name,
        None => unreachable!(),
    }
}

/// The name of a text with a number behind it.
pub(crate) fn numbered(alloc: Global, text: &[u8], number: u32) -> Result<Name, Memory>
    requires { is_name_text (text.now ++ decimal number) ≡ true }
    ensures { IfOk result (λ name. name ≡ text.now ++ decimal number) }
{
    let mut bytes = Vec::new(alloc);
    bytes.extend_from_slice(text)?;
    put_number(&mut bytes, number)?;
    Ok(name_of(&bytes))
}

/// Adds a name that is not there yet.
fn add_name(names: &mut Names, text: &[u8]) -> Result<(), Memory>
    requires room { length names.old < 2 ^ 16 }
    requires named { is_name_text text.now ≡ true }
    requires new { is_among names.old text.now ≡ false }
    ensures { OnOk result (names.new ≡ names.old ++ text.now ∷ []) }
{
    names.add(name_of(text))?;
    Ok(())
}

/// The names that are the words of a text.
#[tactic(auto, using(tp_machine_text::proofs::Fresh::fresh))]
pub(crate) fn names_in(alloc: Global, text: &[u8]) -> Result<Names, Memory>
    requires named { are_names (words_in text.now) ≡ true }
    requires few { length (words_in text.now) < 2 ^ 16 }
    ensures { IfOk result (λ names. names ≡ words_in text.now) }
{
    let texts = words(alloc, text)?;
    let mut names = Names::new(alloc);
    let mut rest = texts.as_slice();
    'names: while let [text, others @ ..] = rest {
        add_name(&mut names, text)?;
        rest = others;
    }
    Ok(names)
}
