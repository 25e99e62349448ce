//! The files of the system as a shelf.
ghost use Rattle.std.specs.Prelude.{◌≡◌, ◌≤◌, None, length, IfOk};

use crate::calls::next;
use crate::{Failed, Shelf};
use std::alloc::Global;
use std::io::{Read, Seek, SeekFrom};
use std::rt::Files;
use std::{fs, io};

/// The files of the system, by path. They tell no bytes. A file that is read from its start on stays open until another one
/// is read or a call fails. So what is read piece by piece comes out of one file, even where another takes its name.
#[derive(Drop)]
pub struct FileShelf<R: Files> {
    alloc: Global,
    rt: R,
    opened: Option<OpenedFile<R::File>>,
    faults: u64,
}

/// A file that is open, the path that it was opened by, where there was memory for it, and the place that it was read to.
#[derive(Drop)]
struct OpenedFile<F> {
    path: Option<String>,
    file: F,
    place: u64,
}

impl<R: Files> FileShelf<R> {
    /// A shelf of all files that the system opens by their path, with no fault so far.
    pub fn new(alloc: Global, rt: R) -> Self
        ensures { result.faults ≡ 0 }
    {
        FileShelf {
            alloc,
            rt,
            opened: None,
            faults: 0,
        }
    }

    /// Reads the file at this place: the one that is open, where it was opened by this path and its start is past.
    fn read_at(&mut self, path: &str, at: u64, into: &mut [u8]) -> io::Result<usize>
        ensures within { IfOk result (λ n. n ≤ length into.new) }
        ensures counted { self.new.faults ≡ self.old.faults }
    {
        let mut opened = match self.opened.take() {
            Some(opened) if at > 0 && opened.is_of(path) => opened,
            _ => OpenedFile {
                path: String::from_str(self.alloc, path).ok(),
                file: fs::open(&self.rt, path)?,
                place: 0,
            },
        };
        let n = opened.read_at(at, into)?;
        self.opened = Some(opened);
        Ok(n)
    }
}

impl<F: Read + Seek> OpenedFile<F> {
    /// It was opened by this path.
    fn is_of(&self, path: &str) -> bool {
        match &self.path {
            Some(own) => own.as_str() == path,
            None => false,
        }
    }

    /// Reads at this place. A file that can't seek, as a pipe, is read in order.
    fn read_at(&mut self, at: u64, into: &mut [u8]) -> io::Result<usize>
        ensures { IfOk result (λ n. n ≤ length into.new) }
    {
        if at != self.place {
            self.file.seek(SeekFrom::Start(at))?;
            self.place = at;
        }
        let n = self.file.read(into)?;
        self.place = self.place.saturating_add(n as u64);
        Ok(n)
    }
}

impl<R: Files> Shelf for FileShelf<R> {
    ghost known = { λ _. None };

    ghost faults = { λ s. s.faults };

    ghost amiss = { λ _. 0 };

    fn read(&mut self, name: &str, at: u64, into: &mut [u8]) -> Result<usize, Failed> {
        match self.read_at(name, at, into) {
            Ok(n) => Ok(n),
            Err(_) => {
                self.faults = next(self.faults);
                Err(Failed)
            }
        }
    }
}
