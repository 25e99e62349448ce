//! Reading to the end, and writing whole pieces.
ghost use Rattle.std.specs.Prelude.{◌≡◌, ◌≤◌, ◌<◌, ◌+◌, ◌^◌, ℕ, [], ◌++◌, Some, None, length, drop, IfSome, IfOk, IsErrOf, OnOk, OnErr, IsSome};
ghost use Rattle.std.specs.Option.{IsSomeAnd};
ghost use Rattle.tp_outside.specs.declared.transfer.ReadError.{ReadError};
ghost use Rattle.tp_outside.specs.Outside.{Rises, IsCounted, file_at, IsGiven};
ghost use Rattle.tp_outside.specs.PartialTransfer.{IsRead, IsCutShort};

use crate::{Failed, Shelf, Sink, Source};
use std::alloc::{AllocError, AllocFailed, Global};

const CHUNK: usize = 4096;

/// Why a text could not be read.
#[derive(Clone, Copy, Debug, PartialEq, Eq)]
pub enum ReadError {
    Memory,
    Failed,
    TooLong,
}

impl From<AllocError> for ReadError {
    ghost from_gives = { λ _ e. e ≡ ReadError.Memory };

    fn from(_: AllocError) -> Self {
        ReadError::Memory
    }
}

impl<T: Drop> From<AllocFailed<T>> for ReadError {
    ghost from_gives = { λ _ e. e ≡ ReadError.Memory };

    fn from(_: AllocFailed<T>) -> Self {
        ReadError::Memory
    }
}

impl From<Failed> for ReadError {
    ghost from_gives = { λ _ e. e ≡ ReadError.Failed };

    fn from(_: Failed) -> Self {
        ReadError::Failed
    }
}

/// Reads a text of the shelf to its end, where it has at most `limit` bytes.
pub fn read_file<H: Shelf>(
    alloc: Global,
    shelf: &mut H,
    name: &str,
    limit: usize,
) -> Result<Vec<u8>, ReadError>
    requires { limit < 2 ^ 60 }
    ensures bytes { IfOk result (λ text. IfSome (H.known shelf.old)
        (λ files. file_at files name.now ≡ Some text.items)) }
    ensures fits { IfOk result (λ text. length text.items ≤ limit) }
    ensures too_long { IsErrOf result ReadError.TooLong → IfSome (H.known shelf.old) (λ files.
        IsSomeAnd (file_at files name.now) (λ bytes. limit < length bytes)) }
    ensures failed { IsErrOf result ReadError.Failed
        → Rises (H.faults shelf.old) (H.faults shelf.new) }
    ensures amiss { IsErrOf result ReadError.Failed → IfSome (H.known shelf.old) (λ files.
        IsSome (file_at files name.now) → Rises (H.amiss shelf.old) (H.amiss shelf.new)) }
    ensures not_amiss { IfSome (H.known shelf.old)
        (λ _. ¬ IsErrOf result ReadError.Failed → H.amiss shelf.new ≡ H.amiss shelf.old) }
    ensures absent { IfSome (H.known shelf.old) (λ files. file_at files name.now ≡ None →
        IsErrOf result ReadError.Failed × (H.amiss shelf.new ≡ H.amiss shelf.old)) }
    ensures known_stays { H.known shelf.new ≡ H.known shelf.old }
    ensures counted { IsCounted (H.faults shelf.old) (H.faults shelf.new) }
{
    let mut text = Vec::new(alloc);
    let mut chunk = [0u8; CHUNK];
    'pieces: loop {
        let n = shelf.read(name, text.len() as u64, &mut chunk)?;
        if n == 0 {
            return Ok(text);
        }
        if n > limit - text.len() {
            return Err(ReadError::TooLong);
        }
        text.extend_from_slice(&chunk[..n])?;
    }
}

/// Reads a source to its end, where it has at most `limit` bytes more. Of a longer one it takes the
/// first `limit + 1` bytes.
pub fn read_all<S: Source>(
    alloc: Global,
    source: &mut S,
    limit: usize,
) -> Result<Vec<u8>, ReadError>
    requires { limit < 2 ^ 60 }
    ensures bytes { IfOk result (λ text. IfSome (S.left source.old)
        (λ bytes. bytes ≡ text.items)) }
    ensures end { OnOk result (IfSome (S.left source.old) (λ _. S.left source.new ≡ Some [])) }
    ensures fits { IfOk result (λ text. length text.items ≤ limit) }
    ensures too_long { IsErrOf result ReadError.TooLong → IfSome (S.left source.old) (λ bytes.
        (limit < length bytes) × (S.left source.new ≡ Some (drop (limit + 1) bytes))) }
    ensures taken { IfSome (S.left source.old) (IsRead (limit + 1) (S.left source.new)) }
    ensures failed { IsErrOf result ReadError.Failed
        → Rises (S.faults source.old) (S.faults source.new) }
    ensures counted { IsCounted (S.faults source.old) (S.faults source.new) }
{
    let mut text = Vec::new(alloc);
    let mut chunk = [0u8; CHUNK];
    'pieces: while text.len() <= limit {
        let n = read_some(source, &mut chunk, limit + 1 - text.len())?;
        if n == 0 {
            return Ok(text);
        }
        text.extend_from_slice(&chunk[..n])?;
    }
    Err(ReadError::TooLong)
}

/// Reads once, and at most so many bytes.
fn read_some<S: Source>(source: &mut S, into: &mut [u8], most: usize) -> Result<usize, Failed>
    requires { 1 ≤ most }
    ensures within { IfOk result (λ n. (n ≤ length into.new) × (n ≤ most)) }
    ensures given { IfOk result (λ n. IfSome (S.left source.old)
        (IsGiven n into.new (S.left source.new))) }
    ensures kept { OnErr result (S.left source.new ≡ S.left source.old) }
    ensures failed { OnErr result (Rises (S.faults source.old) (S.faults source.new)) }
    ensures counted { IsCounted (S.faults source.old) (S.faults source.new) }
{
    let end = most.min(into.len());
    source.read(&mut into[..end])
}

/// Writes a whole piece.
pub fn write_all<K: Sink>(sink: &mut K, piece: &[u8]) -> Result<(), Failed>
    ensures whole { OnOk result (IfSome (K.taken sink.old)
        (λ before. K.taken sink.new ≡ Some (before ++ piece.now))) }
    ensures part { OnErr result (IfSome (K.taken sink.old)
        (IsCutShort piece.now (K.taken sink.new))) }
    ensures failed { OnErr result (Rises (K.faults sink.old) (K.faults sink.new)) }
    ensures counted { IsCounted (K.faults sink.old) (K.faults sink.new) }
{
    let mut at = 0;
    'pieces: while at < piece.len() {
        at += sink.write(&piece[at..])?;
    }
    Ok(())
}
