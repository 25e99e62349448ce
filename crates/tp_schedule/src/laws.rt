//! The definitions fit one another. Each call does nothing: its contract is the law.
ghost use Rattle.tp_schedule.specs.Laws.{OrderIsOnly, LegalWithout, OneHolderIsApart, RowIsApart, RoomIsOne, EarliestEndIsOne, StepIsComputed, AllowedIsTested, HeldByHolders, OpenLeavesRoom, RoomOpens};

/// The order of a resource is the only list of its holds that is apart, and neighbours apart means all apart.
pub fn order_law()
    ensures only { OrderIsOnly }
    ensures row { RowIsApart }
{}

/// The holders of a resource, each a copy, the number of its action and a mode, say by whom and in which modes it is held.
pub fn holders_law()
    ensures { HeldByHolders }
{}

/// At most one holder at every tick means holds that are pairwise apart, and a legal schedule less one plan is legal.
pub fn legal_law()
    ensures one_holder { OneHolderIsApart }
    ensures without { LegalWithout }
{}

/// Rooms and earliest ends are unique.
pub fn unique_law()
    ensures room { RoomIsOne }
    ensures end { EarliestEndIsOne }
{}

/// The step that computes is the step as a relation, and the test of an allowed action looks at all modules that it uses.
pub fn action_law()
    ensures step { StepIsComputed }
    ensures allowed { AllowedIsTested }
{}

/// The ticks of an open list leave room of its first state, and ticks that leave it open the list.
pub fn room_law()
    ensures leaves { OpenLeavesRoom }
    ensures opens { RoomOpens }
{}
