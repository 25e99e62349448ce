//! How soon a copy can be where: windows of kept points, halves of windows, and labels of ways. Each call does nothing: its contract is the law.
#![tactic(auto)]

ghost use Rattle.tp_windows.specs.Arrays.{ArrayEmpty, ArrayHalves, ArrayHigh, ArrayLow, ArrayNarrows, ArrayWindows};
ghost use Rattle.tp_windows.specs.Halves.{HalvesBegin, HalvesClose, HalvesEnd, HalvesLower, HalvesRefuse, HalvesSplit};
ghost use Rattle.tp_windows.specs.Labels.{BoundLaw, CoverLaw, FrontBegins, FrontBounds, FrontDrops, FrontTakes};
ghost use Rattle.tp_windows.specs.Ways.{GoalsLast};
ghost use Rattle.tp_windows.specs.StepLaws.{RowLaw};
ghost use Rattle.tp_windows.specs.Spans.{FirstGapLaw, GapLaw, LastGapLaw};
ghost use Rattle.tp_windows.specs.Windows.{LowerLimitLaw, NoneLaw, RelaxLaw, SplitLaw, StandLaw, WalkLaw};

mod conflicts;
mod edge_links;
mod front;
mod gaps;
mod halves;
mod kept_rows;
mod pick;
mod ranges;
mod rests;
mod root;
mod sought;
mod span;
mod times;
mod waiting_heap;
mod way;
mod way_search;
mod windows;

pub use gaps::KeptHold;
pub use kept_rows::KeptRows;
pub use pick::Pick;
pub use span::{Span, begins_behind, ends_before, lasts};
pub use times::Link;
pub use windows::{Effort, Walked, Windows};

/// The kept plans may stand at the ticks of each list that ends by the limit, and windows that are relaxed along gaps lose none of them.
pub fn windows_hold_answers()
    ensures stand { StandLaw }
    ensures relax { RelaxLaw }
    ensures lower { LowerLimitLaw }
{}

/// A walk over halves of windows that finds nothing by the limit shows that no alternative ends by it.
pub fn walks_miss_none()
    ensures split { SplitLaw }
    ensures walk { WalkLaw }
    ensures none { NoneLaw }
{}

/// Closed labels cover the route of each complete list in the windows, so no list ends before they reach a goal state.
pub fn ways_cover_routes()
    ensures last { GoalsLast }
    ensures cover { CoverLaw }
    ensures bound { BoundLaw }
{}

/// The labels taken and those that wait miss none: no list ends by what each waiting label needs at least.
pub fn labels_bound_ends()
    ensures begins { FrontBegins }
    ensures drops { FrontDrops }
    ensures takes { FrontTakes }
    ensures bounds { FrontBounds }
{}

/// Arrays of least and greatest times beside a loaded board's network are windows, where no solution leaves them.
pub fn times_are_windows()
    ensures windows { ArrayWindows }
    ensures narrows { ArrayNarrows }
    ensures low { ArrayLow }
    ensures high { ArrayHigh }
    ensures empty { ArrayEmpty }
    ensures halves { ArrayHalves }
{}

/// Each hold of a step stands in the gap of some number, between the first and the last that the windows leave.
pub fn holds_stand_in_gaps()
    ensures gap { GapLaw }
    ensures last { LastGapLaw }
    ensures first { FirstGapLaw }
{}

/// Of halves that wait, told by their conditions, one may be split or closed: where none is left, no alternative ends by the limit.
pub fn halves_wait()
    ensures begin { HalvesBegin }
    ensures lower { HalvesLower }
    ensures split { HalvesSplit }
    ensures close { HalvesClose }
    ensures refuse { HalvesRefuse }
    ensures end { HalvesEnd }
{}

/// Where an action may run, each of its holds stands in a gap of its row.
pub fn rows_hold_steps()
    ensures { RowLaw }
{}
