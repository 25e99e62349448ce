//! A network that is kept while its schedule grows. No code but laws: each call does nothing, and its contract is the law.
ghost use Rattle.tp_constraints.specs.AddedPlan.{OtherAsk, PlanHops, PlanNet, PlanOrder};
ghost use Rattle.tp_constraints.specs.Moments.{ExactSays, PlanSays, SaysLoaded, ShapeSays};

/// A plan more, behind all others in the order of copies, needs no new network: its points, and edges for its durations, its
/// line and the neighbours of its holds, make the network of the schedule with it. Edges between former neighbours stay.
pub fn plans_are_added()
    ensures order { PlanOrder }
    ensures net { PlanNet }
    ensures hops { PlanHops }
    ensures other_ask { OtherAsk }
{}

/// What the edges of a network say has nothing to do with the moment: at a later one only bounds of points move. It says the same of
/// plans that are released further, or whose points moved while the orders of their holds stayed.
pub fn moments_move_bounds()
    ensures exact { ExactSays }
    ensures loaded { SaysLoaded }
    ensures plan { PlanSays }
    ensures shape { ShapeSays }
{}
