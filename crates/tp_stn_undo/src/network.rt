//! The live network as a network.
use crate::live_net::LiveNet;
use crate::lower_bound::lift;
use crate::new_edges::{add_edges, load_edges, push_point};
use crate::point_state::PointState;
use crate::propagation::{Start, spread};
use crate::saved_changes::save_changes;
use tp_base::{Edge, Full, Kept, Late, Network, PointId, Proof, Tick};

impl Network for LiveNet {
    ghost use Rattle.std.specs.Prelude.{ℕ, ◌≡◌};
    ghost use Rattle.std.proofs.Common.{ap};
    ghost use Rattle.tp_base.specs.Kept.{KeptRefutes};
    ghost use Rattle.tp_stn_undo.specs.LiveState.{LiveUntouched, kept_by_marks, live_reading, refutes_by};

    ghost reading = { live_reading };

    ghost refutes = { λ n late. KeptRefutes late n.kept n.path };

    ghost kept_by_marks = { kept_by_marks };

    ghost refutes_by_untouched = { refutes_by };

    ghost points_by_untouched = { λ a b e. ap (λ (x : LiveUntouched). x.points) e };

    ghost edges_by_untouched = { λ a b e. ap (λ (x : LiveUntouched). x.edges) e };

    fn clear(&mut self) {
        self.back_to(0);
        self.states.clear();
        self.caps.clear();
        self.links.clear();
        self.heads.clear();
        self.working.changes.clear();
    }

    fn point(&mut self, low: Tick, cap: Tick) -> Result<PointId, Full> {
        if self.states.len() == self.max_points as usize {
            return Err(Full);
        }
        let number = self.states.len() as u32;
        push_point(low, cap, &mut self.states, &mut self.caps, &mut self.heads);
        Ok(PointId(number))
    }

    fn spare_edges(&self) -> u32 {
        self.max_edges - self.links.len() as u32
    }

    fn require(&mut self, edge: Edge) -> Result<(), Late> {
        self.require_all(&[edge])
    }

    fn require_all(&mut self, edges: &[Edge]) -> Result<(), Late> {
        match add_edges(
            edges,
            &self.caps,
            &mut self.links,
            &mut self.heads,
            &mut self.states,
            &mut self.working,
        ) {
            Ok(()) => {
                save_changes(&self.marks, &mut self.working.changes);
                Ok(())
            }
            Err(kept) => {
                self.kept = kept;
                Err(Late)
            }
        }
    }

    fn extend(&mut self, low: Tick, cap: Tick, edges: &[Edge]) -> Result<(), Late> {
        let count = self.states.len();
        if low > cap {
            self.working.path.clear();
            self.kept = Kept::Chain(PointId(count as u32));
            return Err(Late);
        }
        push_point(low, cap, &mut self.states, &mut self.caps, &mut self.heads);
        match add_edges(
            edges,
            &self.caps,
            &mut self.links,
            &mut self.heads,
            &mut self.states,
            &mut self.working,
        ) {
            Ok(()) => {
                save_changes(&self.marks, &mut self.working.changes);
                Ok(())
            }
            Err(kept) => {
                self.states.truncate(count);
                self.caps.truncate(count);
                self.heads.truncate(count);
                self.kept = kept;
                Err(Late)
            }
        }
    }

    fn load(&mut self, edges: &[Edge]) {
        load_edges(
            edges,
            &self.caps,
            &mut self.links,
            &mut self.heads,
            &mut self.states,
            &mut self.working,
        );
        save_changes(&self.marks, &mut self.working.changes);
    }

    fn raise(&mut self, point: PointId, low: Tick) -> Result<(), Late> {
        let at = point.0 as usize;
        if low > self.caps[at] {
            self.working.path.clear();
            self.kept = Kept::Chain(point);
            return Err(Late);
        }
        lift(
            point,
            low,
            &mut self.states,
            &mut self.working.waiting,
            &mut self.working.changes,
        );
        let start = Start {
            watched: point,
            first: 0,
        };
        match spread(
            &self.caps,
            &self.links,
            &self.heads,
            start,
            &mut self.states,
            &mut self.working,
        ) {
            Ok(()) => {
                save_changes(&self.marks, &mut self.working.changes);
                Ok(())
            }
            Err(kept) => {
                self.working.waiting.clear();
                self.working.changes.put_back(&mut self.states);
                self.kept = kept;
                Err(Late)
            }
        }
    }

    fn set_bounds(&mut self, point: PointId, low: Tick, cap: Tick) {
        let at = point.0 as usize;
        let state = self.states[at];
        self.states[at] = PointState {
            low,
            time: state.time,
            cause: state.cause,
        };
        self.caps[at] = cap;
    }

    fn earliest(&self, point: PointId) -> Tick {
        self.states[point.0 as usize].time
    }

    fn cap(&self, point: PointId) -> Tick {
        self.caps[point.0 as usize]
    }

    fn edge_count(&self) -> u32 {
        self.max_edges - self.spare_edges()
    }

    fn edge(&self, number: u32) -> Edge {
        self.links[number as usize].edge
    }

    fn may_have_risen(&self, end: PointId) -> bool {
        match self.marks.first() {
            Some(mark) => self.working.changes.is_late(mark.saved, end, &self.states),
            None => true,
        }
    }

    fn proof(&self) -> Proof<'_> {
        match self.kept {
            Kept::Nothing => unreachable!(),
            Kept::Chain(first) => Proof::Chain {
                first,
                edges: &self.working.path,
            },
            Kept::Circle => Proof::Circle {
                edges: &self.working.path,
            },
        }
    }
}
