//! What forgetting leaves of the stock, as laws.
ghost use Rattle.tp_stock.specs.Laws.{ForgettingKeepsEmpties, ForgettingKeepsStock};

/// Where plans are forgotten and what they took is taken off the refills, the free stock of each feeder is as before. The
/// call does nothing: its contract is the law.
pub fn forgetting_keeps_stock()
    ensures { ForgettingKeepsStock }
{}

/// The same feeders are empty then. The call does nothing: its contract is the law.
pub fn forgetting_keeps_empties()
    ensures { ForgettingKeepsEmpties }
{}
