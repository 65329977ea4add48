//! Laws of filled graphs. They are calls that do nothing when they run.
ghost use Rattle.graph_fill.specs.Laws.{FilledGraphsAreOne, GoodGraphsFillThemselves};

/// Parts have one filled graph.
pub fn filled_graphs_are_one()
    ensures { FilledGraphsAreOne }
{}

/// Where some of a good graph's nodes have their states taken away, the filled graph is that graph again.
pub fn good_graphs_fill_themselves()
    ensures { GoodGraphsFillThemselves }
{}
