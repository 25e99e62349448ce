//! Laws of difference constraints. Each function does nothing: its clauses are the laws.
ghost use Rattle.std.specs.Prelude.{ℕ, List};
ghost use Rattle.tp_base.specs.declared.edges.Edge.{Edge};
ghost use Rattle.tp_base.specs.Net.{Net, HasNoSolution};
ghost use Rattle.tp_base.specs.Refute.{IsLateChain, IsLateCircle};

/// What refutes a net leaves it no solution.
pub fn proofs_refute()
    ensures chain { (net : Net) (first : ℕ) (edges : List Edge) → IsLateChain net first edges
        → HasNoSolution net }
    ensures circle { (net : Net) (edges : List Edge) → IsLateCircle net edges
        → HasNoSolution net }
{}
