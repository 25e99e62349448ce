//! The laws of choice lists: why a best-first search finds the earliest plan. Each call does nothing: its contract is
//! the law.
#![tactic(auto)]

ghost use Rattle.tp_choices.specs.Alternatives.{AnswerOpens, CompleteAnswers, TicksFixPlaces};
ghost use Rattle.tp_choices.specs.Frontiers.{FrontierBegins, FrontierBounds, FrontierEnds, FrontierGoesOn, TakenIsEarliest};
ghost use Rattle.tp_choices.specs.LiveParts.{JoinExists, LessAnswers, LiveAnswers, LiveBounds, LiveBoundsAnswers, LiveHasFew, LiveHasNone, LiveIsEarliest, LiveIsLeast, LiveOpens, LiveRetimes, LiveSpends, WholeAnswers, WholeIsLeast, WholeOpens, WholeRetimes};
ghost use Rattle.tp_choices.specs.Parents.{ParentBound, ParentOpens};
ghost use Rattle.tp_choices.specs.Retimings.{LeastAnswers, RetimedTicks, TicksRetime};
ghost use Rattle.tp_choices.specs.Searches.{EndedHasFew, FullSpends, SearchBelow, SearchFronts, SearchReaches};

/// An alternative gives a complete list that opens to its end, and its ticks and actions fix the places.
pub fn answers_are_complete_lists()
    ensures opens { AnswerOpens }
    ensures one { TicksFixPlaces }
{}

/// Ticks of a complete list make an alternative that ends at the same tick.
pub fn complete_lists_are_answers()
    ensures { CompleteAnswers }
{}

/// Leaving out the newest choice, or the stop, leaves an open list whose bound is not greater.
pub fn parents_open_no_later()
    ensures opens { ParentOpens }
    ensures bound { ParentBound }
{}

/// Each answer passes through the frontier of a search that opens lists and keeps their open children.
pub fn answers_pass_the_frontier()
    ensures begins { FrontierBegins }
    ensures goes_on { FrontierGoesOn }
    ensures bounds { FrontierBounds }
    ensures ends { FrontierEnds }
    ensures taken { TakenIsEarliest }
{}

/// The least ticks of a complete list make a least schedule.
pub fn least_ticks_are_least_schedules()
    ensures { LeastAnswers }
{}

/// Ticks that keep a schedule's shape and orders are the points of schedules that differ from it in ticks alone.
pub fn ticks_are_schedules()
    ensures to { TicksRetime }
    ensures back { RetimedTicks }
{}

/// What a search knows of all open lists, that a full store is a spent budget, and that a search that ends has stored all.
pub fn searches_know_open_lists()
    ensures reaches { SearchReaches }
    ensures fronts { SearchFronts }
    ensures below { SearchBelow }
    ensures spends { FullSpends }
    ensures few { EndedHasFew }
{}

/// An alternative, less the plans of other copies, is one on the schedule less those.
pub fn alternatives_need_no_others()
    ensures { LessAnswers }
{}

/// The alternatives of a schedule are those of its live part, joined with what was forgotten.
pub fn live_answers_are_enough()
    ensures whole { WholeAnswers }
    ensures live { LiveAnswers }
    ensures joined { JoinExists }
    ensures earliest { LiveIsEarliest }
    ensures none_before { LiveBoundsAnswers }
    ensures none { LiveHasNone }
{}

/// The open lists of a schedule are those of its live part, with places behind the forgotten holds, and the same bounds.
pub fn live_lists_are_enough()
    ensures whole { WholeOpens }
    ensures live { LiveOpens }
    ensures bounds { LiveBounds }
    ensures spends { LiveSpends }
    ensures few { LiveHasFew }
{}

/// The least times of a schedule are those of its live part.
pub fn live_times_are_enough()
    ensures whole { WholeRetimes }
    ensures live { LiveRetimes }
    ensures whole_least { WholeIsLeast }
    ensures live_least { LiveIsLeast }
{}
