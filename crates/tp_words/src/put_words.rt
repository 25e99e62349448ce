//! Words written, each behind a space.
ghost use Rattle.std.specs.Prelude.{◌≡◌, ◌++◌, ◌∷◌, OnOk, decimal};
ghost use Rattle.tp_words.specs.Fields.{IsName};

use crate::numbers::put_number;
use tp_base::{Memory, Name};

/// Writes a space and the word.
pub fn put_word(out: &mut Vec<u8>, word: &[u8]) -> Result<(), Memory>
    ensures { OnOk result (out.new.items ≡ out.old.items ++ 32 ∷ word.now) }
{
    out.push(b' ')?;
    out.extend_from_slice(word)?;
    Ok(())
}

/// The bytes of a name, which are those of a name.
pub fn name_bytes(name: &Name) -> &[u8]
    ensures value { result.now ≡ name.now }
    ensures spelled { IsName name.now }
{
    name.as_bytes()
}

/// Writes a space and the name.
pub fn put_name_word(out: &mut Vec<u8>, name: &Name) -> Result<(), Memory>
    ensures written { OnOk result (out.new.items ≡ out.old.items ++ 32 ∷ name.now) }
    ensures spelled { OnOk result (IsName name.now) }
{
    put_word(out, name_bytes(name))
}

/// Writes a space and the number, without leading zeros.
pub fn put_number_word(out: &mut Vec<u8>, number: u32) -> Result<(), Memory>
    ensures { OnOk result (out.new.items ≡ out.old.items ++ 32 ∷ decimal number) }
{
    out.push(b' ')?;
    put_number(out, number)
}
