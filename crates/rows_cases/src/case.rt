//! A case: what a run of the program is given, and how it must end.

use crate::case_run::Given;
use std::alloc::Global;
use std::test::Fail;

pub(crate) struct Case {
    pub(crate) name: String,
    pub(crate) words: Vec<String>,
    /// The bytes of the shelf's file `text`.
    pub(crate) text: Vec<u8>,
    pub(crate) input: Vec<u8>,
    pub(crate) outside: Outside,
    pub(crate) runs: Runs,
    pub(crate) wanted: Wanted,
    /// Whether later cases may use the output, up to the next case that keeps its own.
    pub(crate) keeps: bool,
}

// For the prover: implicit drops are proved again on every return path.
impl Drop for Case {
    fn drop(self) {
        let Case {
            name: _,
            words: _,
            text: _,
            input: _,
            outside: _,
            runs: _,
            wanted: _,
            keeps: _,
        } = self;
    }
}

/// How many bytes a call moves at most, and the numbers of the calls that fail, counted from 1.
#[derive(Drop)]
pub(crate) struct Outside {
    pub(crate) read_most: u32,
    pub(crate) write_most: u32,
    pub(crate) shelf: Vec<u32>,
    pub(crate) source: Vec<u32>,
    pub(crate) sink: Vec<u32>,
}

/// Which runs a case has.
#[derive(Clone, Copy)]
pub(crate) enum Runs {
    /// One, on the input.
    Once,
    /// One on the input, and two for each place between its lines: one up to there, which is
    /// saved, and one that resumes it.
    Parted,
    /// One for each digit of the input, with the next digit in its place.
    EachDigit,
    /// One for each line of the input, without it.
    EachLine,
}

/// How a case must end.
#[derive(Drop)]
pub(crate) struct Wanted {
    pub(crate) output: Vec<u8>,
    /// The output need only begin so.
    pub(crate) begins: bool,
    /// Lines of bounds are left out of the output before it is compared.
    pub(crate) plain: bool,
    /// The exit status and the line on standard error. Empty if the run must end well.
    pub(crate) status: String,
}

/// A case with this name, no words, no texts and an outside that never fails.
pub(crate) fn new_case(alloc: Global, name: &str) -> Result<Case, Fail> {
    let name = String::from_str(alloc, name)?;
    let outside = Outside {
        read_most: 7,
        write_most: 4096,
        shelf: Vec::new(alloc),
        source: Vec::new(alloc),
        sink: Vec::new(alloc),
    };
    let wanted = Wanted {
        output: Vec::new(alloc),
        begins: false,
        plain: false,
        status: String::new(alloc),
    };
    Ok(Case {
        name,
        words: Vec::new(alloc),
        text: Vec::new(alloc),
        input: Vec::new(alloc),
        outside,
        runs: Runs::Once,
        wanted,
        keeps: false,
    })
}

impl Case {
    /// What the run of the whole input is given.
    pub(crate) fn given(&self) -> Given<'_> {
        self.given_with(&self.input)
    }

    /// What a run is given that has another input.
    pub(crate) fn given_with<'a>(&'a self, input: &'a [u8]) -> Given<'a> {
        Given {
            words: &self.words,
            text: &self.text,
            input,
            outside: &self.outside,
        }
    }
}
