//! Laws about graphs that grow by discipline. They are calls that do nothing when they run.
ghost use Rattle.graph_laws.specs.Laws.{DisciplinedGraphsAreGood, DisciplinedGraphsGrow, TreesAreCut};

use grow_laws::{children_grow, growing_states_stand_alike, widenings_grow};

/// Each state of a disciplined graph is one from which a graph can grow, where the root is.
pub fn disciplined_graphs_grow()
    ensures { DisciplinedGraphsGrow }
{
    children_grow();
    growing_states_stand_alike();
    widenings_grow();
}

/// A disciplined graph with no open node is good.
pub fn disciplined_graphs_are_good()
    ensures { DisciplinedGraphsAreGood }
{
    disciplined_graphs_grow();
}

/// In a tree of nodes each cycle has a node of which another one is an instance.
pub fn trees_are_cut()
    ensures { TreesAreCut }
{}
