//! Boards go back to a mark.
use crate::board::Board;
use crate::parts::BoardMark;
use tp_base::{Mark, Network, Undo};

impl<N: Network> Undo for Board<N> {
    ghost use Rattle.std.specs.Prelude.{ℕ, ◌-◌};
    ghost use Rattle.tp_placing.specs.Boards.{BoardContent, BoardUntouched, content_of, untouched_of, past_of};

    ghost Content = { BoardContent };

    ghost Untouched = { BoardUntouched N.Untouched };

    ghost content = { content_of N.reading };

    ghost untouched = { untouched_of N.untouched };

    ghost past = { past_of N.reading };

    ghost max_marks = { λ b. N.reading.max_marks b.net - 1 };

    fn spare_marks(&self) -> u32 {
        self.net.spare_marks() - 1
    }

    fn mark(&mut self) -> Mark {
        let mark = self.net.mark();
        let _line_mark = self.timelines.mark();
        let counts = BoardMark {
            steps: self.steps.len() as u32,
            held: self.held.len() as u32,
        };
        self.marks.push_reserved(counts);
        mark
    }

    fn undo_to(&mut self, mark: Mark) {
        self.net.undo_to(mark);
        self.timelines.undo_to(mark);
        let counts = self.marks[mark.0 as usize];
        self.held.truncate(counts.held as usize);
        self.steps.truncate(counts.steps as usize);
        self.marks.truncate(mark.0 as usize);
    }
}
