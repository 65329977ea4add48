//! Laws of graphs and cycles: what follows from the definitions. These functions do nothing; their contracts are the laws.
ghost use Rattle.number_graphs.specs.Laws.{CyclesAreListed, FallingHasNoCycle};

/// Where every edge leads to a lower rank, no number is on a cycle.
pub fn falling_has_no_cycle()
    ensures { FallingHasNoCycle }
{}

/// A number on a cycle has a list of its own.
pub fn cycles_are_listed()
    ensures { CyclesAreListed }
{}
