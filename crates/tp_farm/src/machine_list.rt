//! The list of a farm's machines.

ghost use Rattle.std.specs.Prelude.{◌≡◌, ◌≤◌, All, None, Some, length, option_map, IfOk, IfErr, IfSome};
ghost use Rattle.tp_farm.specs.Lists.{IfBadName, IsFileName, NoNames, names_of};
ghost use Rattle.tp_words.specs.Parts.{shown};

use std::alloc::{AllocError, Global};
use tp_words::parts;

/// Why a list has no names.
#[derive(Clone, Copy, PartialEq, Eq, Debug)]
pub enum ListFault {
    Memory,
    /// It isn't 1 to 8 lines, each ended by a LF.
    Lines,
    /// The line of this number, counted from 1, is the first that isn't 1 to 255 bytes of UTF-8.
    Name(u32),
}

/// The names of the list, one on a line, each without its LF. None where it isn't 1 to 8 lines, each ended by a LF.
fn split_names(alloc: Global, list: &[u8]) -> Result<Option<Vec<&[u8]>>, AllocError>
    ensures names { IfOk result
        (λ names. option_map (λ v. shown v.items) names ≡ names_of list.entry.now) }
    ensures some { IfOk result (λ names. IfSome names (λ v. 1 ≤ length v.items)) }
    ensures few { IfOk result (λ names. IfSome names (λ v. length v.items ≤ 8)) }
{
    let mut names = parts(alloc, list, b'\n')?;
    let count = names.len();
    if count < 2 || count > 9 || !names[count - 1].is_empty() {
        return Ok(None);
    }
    names.truncate(count - 1);
    Ok(Some(names))
}

/// The name as a text, where it is 1 to 255 bytes of UTF-8.
fn file_name(name: &[u8]) -> Option<&str>
    ensures name { IfSome result (λ text. text.now ≡ name.entry.now) }
    ensures some { IfSome result (λ _. IsFileName name.entry.now) }
    ensures none { result ≡ None → ¬ IsFileName name.entry.now }
{
    if name.is_empty() || name.len() > 255 {
        return None;
    }
    match str::from_utf8(name) {
        Ok(text) => Some(text),
        Err(_) => None,
    }
}

/// The names as texts, or the number of the first that is none.
fn name_texts<'t>(alloc: Global, names: &[&'t [u8]]) -> Result<Vec<&'t str>, ListFault>
    requires { length names.now ≤ 8 }
    ensures texts { IfOk result (λ texts. shown texts.items ≡ shown names.now) }
    ensures good { IfOk result (λ texts. All IsFileName (shown texts.items)) }
    ensures count { IfOk result (λ texts. length texts.items ≡ length names.now) }
    ensures none { IfErr result (IfBadName (shown names.now)) }
{
    let mut texts = Vec::new(alloc);
    for (place, name) in names.iter().enumerate() {
        match file_name(name) {
            Some(text) => {
                match texts.push(text) {
                    Ok(()) => {}
                    Err(_) => return Err(ListFault::Memory),
                }
            }
            None => return Err(ListFault::Name(place as u32 + 1)),
        }
    }
    Ok(texts)
}

/// The names of the list, as texts: 1 to 8, each of 1 to 255 bytes.
pub fn read_list(alloc: Global, list: &[u8]) -> Result<Vec<&str>, ListFault>
    ensures names { IfOk result (λ texts. names_of list.entry.now ≡ Some (shown texts.items)) }
    ensures good { IfOk result (λ texts. All IsFileName (shown texts.items)) }
    ensures some { IfOk result (λ texts. 1 ≤ length texts.items) }
    ensures few { IfOk result (λ texts. length texts.items ≤ 8) }
    ensures none { IfErr result (NoNames list.entry.now) }
{
    match split_names(alloc, list) {
        Ok(Some(names)) => name_texts(alloc, &names),
        Ok(None) => Err(ListFault::Lines),
        Err(_) => Err(ListFault::Memory),
    }
}
