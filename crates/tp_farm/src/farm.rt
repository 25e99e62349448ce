//! A farm of machines.

ghost use Rattle.std.specs.Prelude.{◌≡◌, ◌+◌, ◌<◌, ◌≤◌, ◌^◌, ◌++◌, ℕ, List, [], All, length, vec_len, OnOk};
ghost use Rattle.tp_farm.specs.Farms.{AnswersLine};
ghost use Rattle.tp_farm.specs.Inside.{state_of};
ghost use Rattle.tp_stream.specs.Tellers.{most_events};

use crate::dispatch::{find_whom, send};
use crate::farm_lines::read_address;
use indexmap::IndexMap;
use std::alloc::Global;
use std::marker::Model;
use tp_base::{Memory, Name};
use tp_stream::Teller;

/// Machines side by side, each with a teller of its own. A line is sent to those that it is for, and what they tell is written
/// with the number of the machine before each line. The first has number 1.
#[derive(Drop)]
pub struct Farm<T: Teller> {
    alloc: Global,
    tellers: Vec<T>,
    homes: IndexMap<Name, u32>,
    lines: u32,
}

impl<T: Teller> Model for Farm<T> {
    ghost use Rattle.tp_farm.specs.Inside.{FarmValue, IsFarm};

    ghost Value = { FarmValue T };

    ghost view = { λ f. record {
      tellers = f.tellers.items;
      homes = f.homes.entries;
      lines = f.lines;
    } };

    ghost invariant = { λ f. IsFarm T.text T.answered f.tellers.items f.lines };
}

impl<T: Teller> Farm<T> {
    /// The farm of these tellers, 1 to 8, which have no text and have answered no event yet.
    pub fn new(alloc: Global, tellers: Vec<T>) -> Farm<T>
        requires some { 1 ≤ vec_len tellers }
        requires few { vec_len tellers ≤ 8 }
        requires fresh { All (λ t. (T.text t ≡ []) × (T.answered t ≡ 0)) tellers.items }
        ensures { result ≡ record { tellers = tellers.items; homes = []; lines = 0 } }
    {
        Farm {
            alloc,
            tellers,
            homes: IndexMap::new(alloc),
            lines: 0,
        }
    }

    /// How many lines were done.
    pub fn lines(&self) -> u32
        ensures { result ≡ self.now.lines }
    {
        self.lines
    }

    /// Does one line of a script, given with its LF if it has one, and appends its text. A blank line and a comment have none.
    /// After `Memory` the farm is to be dropped, and `out` may have grown.
    pub fn line(&mut self, line: &[u8], out: &mut Vec<u8>) -> Result<(), Memory>
        requires few { self.old.lines < most_events }
        requires short { length line.now + 1 < 2 ^ 32 }
        ensures told { OnOk result ((told : List ℕ)
            × AnswersLine T.tells T.probes (state_of T.state self.old) line.now told
            (state_of T.state self.new)
            × (out.new.items ≡ out.old.items ++ told)) }
        ensures counted { self.new.lines ≡ self.old.lines + 1 }
    {
        self.lines += 1;
        let address = match read_address(self.alloc, self.tellers.len(), line) {
            Ok(Some(address)) => address,
            Ok(None) => return Ok(()),
            Err(error) => return Err(error),
        };
        match find_whom(self.alloc, &mut self.tellers, &mut self.homes, &address) {
            Ok(whom) => send(&mut self.tellers, whom, &address.event, out),
            Err(error) => Err(error),
        }
    }
}
