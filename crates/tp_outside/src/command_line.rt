//! The words of the command line.
ghost use Rattle.std.specs.Prelude.{◌≡◌, IfOk, IsUtf8, string_bytes};

use std::alloc::{AllocError, Global};
use std::env::{Env, FillError};

/// As many bytes as most words have.
const FEW_BYTES: usize = 256;

/// More bytes than a word can have.
const MOST_BYTES: usize = 131_072;

/// The word of these bytes. Where they aren't UTF-8 each byte that isn't ASCII becomes a NUL, which no file's name has: such
/// a word names nothing.
fn word_of(alloc: Global, bytes: &[u8]) -> Result<String, AllocError>
    ensures { IfOk result (λ word. IsUtf8 bytes.now → string_bytes word ≡ bytes.now) }
{
    let mut word = String::new(alloc);
    match str::from_utf8(bytes) {
        Ok(text) => word.push_str(text)?,
        Err(_) => {
            for byte in bytes {
                word.push(if byte.is_ascii() {
                    char::from(*byte)
                } else {
                    '\0'
                })?;
            }
        }
    }
    Ok(word)
}

/// The word at a place, if it has no more than so many bytes.
fn word_at(
    alloc: Global,
    env: &impl Env,
    at: usize,
    bytes: usize,
) -> Result<Result<String, FillError>, AllocError> {
    let mut buffer = vec![in alloc; 0u8; bytes]?;
    match env.arg(at, &mut buffer) {
        Ok(length) => Ok(Ok(word_of(alloc, &buffer[..length])?)),
        Err(error) => Ok(Err(error)),
    }
}

/// The words of the command line, without the program's name. A word that is longer than any can be is empty. What an
/// environment gives is nowhere said, so that there is nothing to promise of the words.
pub fn words(alloc: Global, env: &impl Env) -> Result<Vec<String>, AllocError> {
    let mut words = Vec::new(alloc);
    for at in 1..usize::MAX {
        let word = match word_at(alloc, env, at, FEW_BYTES)? {
            Err(FillError::TooLong) => word_at(alloc, env, at, MOST_BYTES)?,
            word => word,
        };
        match word {
            Ok(word) => words.push(word)?,
            Err(FillError::TooLong) => words.push(String::new(alloc))?,
            Err(FillError::NotPresent) => break,
        }
    }
    Ok(words)
}
