//! Bound trees: what they say, that a tree that is right shows what it claims, and the goal states that it begins with. The calls
//! that take nothing do nothing: their contracts are the laws.
#![tactic(auto)]

ghost use Rattle.tp_bound_laws.specs.Claims.{TreeTells};
ghost use Rattle.tp_bound_laws.specs.Closed.{TreesAreCovers};
ghost use Rattle.tp_bound_laws.specs.Flaws.{FlawlessIsBound};
ghost use Rattle.tp_bound_laws.specs.Laws.{TreeBounds};
ghost use Rattle.tp_bound_laws.specs.Short.{FewHopsMakeShortLines};
ghost use Rattle.tp_bound_laws.specs.Told.{HopsAreAllowed, HopsAreTold};

mod claim;
mod goals;

pub use claim::{Claim, TreeFlaw};
pub use goals::goal_states;

/// Each alternative ends after the limit of a bound tree, and what a tree on the live part is for
/// holds of the whole schedule.
pub fn trees_show_bounds()
    ensures bounds { TreeBounds }
    ensures tells { TreeTells }
{}

/// The nodes that a check takes one by one for what is due are those of the trees there: each closed by dead, chain or
/// loop, or split with exactly the children that are listed there.
pub fn closed_trees_are_bound()
    ensures { TreesAreCovers }
{}

/// The bound trees are those without a flaw.
pub fn flawless_trees_are_bound()
    ensures { FlawlessIsBound }
{}

/// Each hop of a board's reason but a stop and a limit has a name in a tree, is allowed there, and says
/// the same.
pub fn reasons_are_allowed_hops()
    ensures told { HopsAreTold }
    ensures alone { HopsAreAllowed }
{}

/// Where no chain and no loop of a tree has more hops than there can be points, no line of its text
/// is longer than 4,194,304 bytes.
pub fn few_hops_make_short_lines()
    ensures { FewHopsMakeShortLines }
{}
