//! The shelf of a case: its own text, and the files of the folder.
ghost use Rattle.std.specs.Prelude.{None};

use std::rt::Files;
use tp_outside::{Failed, FileShelf, MemShelf, Shelf};

/// The name of a case's own text.
pub(crate) const TEXT: &str = "text";

/// A text in memory with the name `text`, whose reads may fail at given calls, and the files of
/// the system.
#[derive(Drop)]
pub(crate) struct CaseShelf<R: Files> {
    pub(crate) own: MemShelf,
    pub(crate) files: FileShelf<R>,
    pub(crate) faults: u64,
}

impl<R: Files> Shelf for CaseShelf<R> {
    ghost known = { λ _. None };

    ghost faults = { λ s. s.faults };

    ghost amiss = { λ _. 0 };

    fn read(&mut self, name: &str, at: u64, into: &mut [u8]) -> Result<usize, Failed> {
        let read = if name == TEXT {
            self.own.read(name, at, into)
        } else {
            self.files.read(name, at, into)
        };
        match read {
            Ok(n) => Ok(n),
            Err(_) => {
                self.faults = self.faults.saturating_add(1);
                Err(Failed)
            }
        }
    }
}
