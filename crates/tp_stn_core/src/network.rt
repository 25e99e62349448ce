//! The plain network as a network.
use crate::plain_net::PlainNet;
use crate::saved_low::save;
use crate::solver::solve;
use std::mem;
use tp_base::{Edge, Full, Kept, Late, Network, PointId, Proof, Tick};

impl Network for PlainNet {
    ghost use Rattle.std.specs.Prelude.{ℕ, ◌≡◌};
    ghost use Rattle.std.proofs.Common.{ap};
    ghost use Rattle.tp_base.specs.Kept.{KeptRefutes};
    ghost use Rattle.tp_stn_core.specs.PlainState.{PlainUntouched, kept_by_marks, plain_reading, refutes_by};

    ghost reading = { plain_reading };

    ghost refutes = { λ n late. KeptRefutes late n.kept n.path };

    ghost kept_by_marks = { kept_by_marks };

    ghost refutes_by_untouched = { refutes_by };

    ghost points_by_untouched = { λ a b e. ap (λ (x : PlainUntouched). x.points) e };

    ghost edges_by_untouched = { λ a b e. ap (λ (x : PlainUntouched). x.edges) e };

    fn clear(&mut self) {
        self.lows.clear();
        self.caps.clear();
        self.edges.clear();
        self.times.clear();
        self.saved.clear();
        self.newest.clear();
        self.marks.clear();
    }

    fn point(&mut self, low: Tick, cap: Tick) -> Result<PointId, Full> {
        if self.lows.len() == self.max_points as usize {
            return Err(Full);
        }
        let number = self.lows.len() as u32;
        self.lows.push_reserved(low);
        self.caps.push_reserved(cap);
        self.times.push_reserved(low);
        self.newest.push_reserved(0);
        Ok(PointId(number))
    }

    fn spare_edges(&self) -> u32 {
        self.max_edges - self.edges.len() as u32
    }

    fn require(&mut self, edge: Edge) -> Result<(), Late> {
        self.require_all(&[edge])
    }

    fn require_all(&mut self, edges: &[Edge]) -> Result<(), Late> {
        let count = self.edges.len();
        let Ok(()) = self.edges.extend_from_slice(edges) else {
            unreachable!()
        };
        match solve(&self.lows, &self.caps, &self.edges, &mut self.working) {
            Ok(()) => {
                mem::swap(&mut self.times, &mut self.working.times);
                Ok(())
            }
            Err(kept) => {
                self.edges.truncate(count);
                mem::swap(&mut self.path, &mut self.working.path);
                self.kept = kept;
                Err(Late)
            }
        }
    }

    fn extend(&mut self, low: Tick, cap: Tick, edges: &[Edge]) -> Result<(), Late> {
        let points = self.lows.len();
        if low > cap {
            self.path.clear();
            self.kept = Kept::Chain(PointId(points as u32));
            return Err(Late);
        }
        let count = self.edges.len();
        self.lows.push_reserved(low);
        self.caps.push_reserved(cap);
        self.newest.push_reserved(0);
        let Ok(()) = self.edges.extend_from_slice(edges) else {
            unreachable!()
        };
        match solve(&self.lows, &self.caps, &self.edges, &mut self.working) {
            Ok(()) => {
                mem::swap(&mut self.times, &mut self.working.times);
                Ok(())
            }
            Err(kept) => {
                self.lows.truncate(points);
                self.caps.truncate(points);
                self.newest.truncate(points);
                self.edges.truncate(count);
                mem::swap(&mut self.path, &mut self.working.path);
                self.kept = kept;
                Err(Late)
            }
        }
    }

    fn load(&mut self, edges: &[Edge]) {
        match self.require_all(edges) {
            Ok(()) => {}
            Err(Late) => unreachable!(),
        }
    }

    fn raise(&mut self, point: PointId, low: Tick) -> Result<(), Late> {
        let at = point.0 as usize;
        if low > self.caps[at] {
            self.path.clear();
            self.kept = Kept::Chain(point);
            return Err(Late);
        }
        let old = self.lows[at];
        self.lows[at] = low;
        match solve(&self.lows, &self.caps, &self.edges, &mut self.working) {
            Ok(()) => {
                save(&mut self.saved, &mut self.newest, &self.marks, point, old);
                mem::swap(&mut self.times, &mut self.working.times);
                Ok(())
            }
            Err(kept) => {
                self.lows[at] = old;
                mem::swap(&mut self.path, &mut self.working.path);
                self.kept = kept;
                Err(Late)
            }
        }
    }

    fn set_bounds(&mut self, point: PointId, low: Tick, cap: Tick) {
        let at = point.0 as usize;
        self.lows[at] = low;
        self.caps[at] = cap;
    }

    fn earliest(&self, point: PointId) -> Tick {
        self.times[point.0 as usize]
    }

    fn cap(&self, point: PointId) -> Tick {
        self.caps[point.0 as usize]
    }

    fn edge_count(&self) -> u32 {
        self.max_edges - self.spare_edges()
    }

    fn edge(&self, number: u32) -> Edge {
        self.edges[number as usize]
    }

    fn may_have_risen(&self, _end: PointId) -> bool {
        true
    }

    fn proof(&self) -> Proof<'_> {
        match self.kept {
            Kept::Nothing => unreachable!(),
            Kept::Chain(first) => Proof::Chain {
                first,
                edges: &self.path,
            },
            Kept::Circle => Proof::Circle { edges: &self.path },
        }
    }
}
