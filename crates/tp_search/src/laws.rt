//! The laws of ways on a board. The call does nothing: its contract is the law.

ghost use Rattle.tp_search.specs.WayLaws.{WayBound, WayCommit};

/// The least end among a way's times is the bound of its list, and a complete way can be committed.
pub fn ways_have_bounds()
    ensures bound { WayBound }
    ensures commit { WayCommit }
{}
