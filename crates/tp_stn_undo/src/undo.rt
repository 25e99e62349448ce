//! The live network goes back to its marks.
ghost use Rattle.std.specs.Prelude.{◌≡◌, ℕ, ◌-◌, [], length, take, vec_capacity};
ghost use Rattle.tp_stn_undo.specs.Marks.{IsAt};
ghost use Rattle.tp_stn_undo.specs.Restored.{HasNewest, IsCleared, at_mark};
ghost use Rattle.tp_stn_undo.specs.Stacks.{IsStack};

use crate::changes::Changes;
use crate::link::Link;
use crate::link_lists::unlink;
use crate::live_net::LiveNet;
use crate::marks::LiveMark;
use crate::point_state::PointState;
use tp_base::{Mark, Undo};

/// Takes the lists back to the newest mark.
pub(crate) fn restore(
    states: &mut Vec<PointState>,
    caps: &mut Vec<u32>,
    links: &mut Vec<Link>,
    heads: &mut Vec<u32>,
    marks: &mut Vec<LiveMark>,
    changes: &mut Changes,
)
    requires newest { HasNewest marks.old.items (length links.old.items) }
    requires stack { (edges capacity : ℕ)
        × IsStack marks.old.items changes.old.older (length states.old.items) edges capacity }
    requires rest { changes.old.entries ≡ [] }
    ensures back { IsAt marks.old.items (length marks.old.items - 1) (λ m.
        record {
          states = states.new.items;
          caps = caps.new.items;
          links = links.new.items;
          heads = heads.new.items;
          saved = changes.new.older;
        }
        ≡ at_mark m (record {
          states = states.old.items;
          caps = caps.old.items;
          links = links.old.items;
          heads = heads.old.items;
          saved = changes.old.older;
        })) }
    ensures marks { marks.new.items ≡ take (length marks.old.items - 1) marks.old.items }
    ensures cleared { IsCleared changes.old changes.new }
    ensures states_capacity { vec_capacity states.new ≡ vec_capacity states.old }
    ensures caps_capacity { vec_capacity caps.new ≡ vec_capacity caps.old }
    ensures links_capacity { vec_capacity links.new ≡ vec_capacity links.old }
    ensures heads_capacity { vec_capacity heads.new ≡ vec_capacity heads.old }
    ensures marks_capacity { vec_capacity marks.new ≡ vec_capacity marks.old }
{
    let place = marks.len() - 1;
    let at = marks[place];
    changes.back_to(at.saved, states);
    states.truncate(at.points as usize);
    heads.truncate(at.points as usize);
    caps.truncate(at.points as usize);
    marks.truncate(place);
    unlink(links, heads, at.edges as usize);
}

impl Undo for LiveNet {
    ghost use Rattle.std.specs.Prelude.{ℕ, ◌∷◌, ◌++◌};
    ghost use Rattle.tp_base.specs.Net.{Net};
    ghost use Rattle.tp_stn_undo.specs.LiveState.{LiveUntouched, untouched_of};

    ghost Content = { Net };

    ghost Untouched = { LiveUntouched };

    ghost content = { λ n. n.net };

    ghost untouched = { untouched_of };

    ghost past = { λ n. n.past };

    ghost max_marks = { λ n. n.max_marks };

    fn spare_marks(&self) -> u32 {
        self.max_marks - self.marks.len() as u32
    }

    fn mark(&mut self) -> Mark {
        let number = self.marks.len() as u32;
        let mark = LiveMark {
            points: self.states.len() as u32,
            edges: self.links.len() as u32,
            saved: self.working.changes.saved(),
        };
        self.marks.push_reserved(mark);
        Mark(number)
    }

    fn undo_to(&mut self, mark: Mark) {
        self.back_to(mark.0 as usize);
    }
}
