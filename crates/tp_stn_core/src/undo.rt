//! The plain network goes back to a mark.
ghost use Rattle.std.specs.Prelude.{◌≡◌, ◌≤◌, length, take, drop, vec_capacity};
ghost use Rattle.tp_stn_core.specs.Saved.{restored, relinked};

use crate::marks::PlainMark;
use crate::plain_net::PlainNet;
use crate::saved_low::{SavedLow, put_back};
use crate::solver::solve;
use std::mem;
use tp_base::{Edge, Mark, Undo};

/// Takes the lists back to a mark.
fn restore(
    lows: &mut Vec<u32>,
    caps: &mut Vec<u32>,
    edges: &mut Vec<Edge>,
    saved: &mut Vec<SavedLow>,
    newest: &mut Vec<usize>,
    mark: &PlainMark,
)
    requires same { length newest.old.items ≡ length lows.old.items }
    requires before { mark.now.saved ≤ length saved.old.items }
    ensures lows { lows.new.items ≡ restored (drop mark.now.saved saved.old.items)
        (take mark.now.points lows.old.items) }
    ensures caps { caps.new.items ≡ take mark.now.points caps.old.items }
    ensures edges { edges.new.items ≡ take mark.now.edges edges.old.items }
    ensures saved { saved.new.items ≡ take mark.now.saved saved.old.items }
    ensures newest { newest.new.items ≡ relinked (drop mark.now.saved saved.old.items)
        (take mark.now.points newest.old.items) }
    ensures lows_capacity { vec_capacity lows.new ≡ vec_capacity lows.old }
    ensures caps_capacity { vec_capacity caps.new ≡ vec_capacity caps.old }
    ensures edges_capacity { vec_capacity edges.new ≡ vec_capacity edges.old }
    ensures saved_capacity { vec_capacity saved.new ≡ vec_capacity saved.old }
    ensures newest_capacity { vec_capacity newest.new ≡ vec_capacity newest.old }
{
    lows.truncate(mark.points as usize);
    newest.truncate(mark.points as usize);
    caps.truncate(mark.points as usize);
    edges.truncate(mark.edges as usize);
    put_back(saved, lows, newest, mark.saved);
}

impl Undo for PlainNet {
    ghost use Rattle.std.specs.Prelude.{ℕ, ◌∷◌, ◌++◌};
    ghost use Rattle.tp_base.specs.Net.{Net};
    ghost use Rattle.tp_stn_core.specs.PlainState.{PlainUntouched, untouched_of};

    ghost Content = { Net };

    ghost Untouched = { PlainUntouched };

    ghost content = { λ n. n.net };

    ghost untouched = { untouched_of };

    ghost past = { λ n. n.past };

    ghost max_marks = { λ n. n.max_marks };

    fn spare_marks(&self) -> u32 {
        self.max_marks - self.marks.len() as u32
    }

    fn mark(&mut self) -> Mark {
        let number = self.marks.len() as u32;
        let mark = PlainMark {
            points: self.lows.len() as u32,
            edges: self.edges.len() as u32,
            saved: self.saved.len(),
        };
        self.marks.push_reserved(mark);
        Mark(number)
    }

    fn undo_to(&mut self, mark: Mark) {
        let place = mark.0 as usize;
        restore(
            &mut self.lows,
            &mut self.caps,
            &mut self.edges,
            &mut self.saved,
            &mut self.newest,
            &self.marks[place],
        );
        self.marks.truncate(place);
        let Ok(()) = solve(&self.lows, &self.caps, &self.edges, &mut self.working) else {
            unreachable!()
        };
        mem::swap(&mut self.times, &mut self.working.times);
    }
}
