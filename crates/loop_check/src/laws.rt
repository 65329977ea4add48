//! Laws of graphs that show that no run ends. They are calls that do nothing when they run.
ghost use Rattle.loop_check.specs.Laws.{LoopsNeverEnd};
ghost use Rattle.loop_check.specs.OneVerdict.{LoopsHaveOneVerdict};

use graph_check::graphs_hold_runs;
use input_root::{fitting_states_are_described, fitting_states_are_typed};
use jvm_run::steps_are_typed;

/// Every state that a description fits goes on for ever, if a good graph has the description's initial state at node 0, no `End`
/// node, and no cycle of edges that are no steps.
pub fn loops_never_end()
    ensures { LoopsNeverEnd }
{
    steps_are_typed();
    fitting_states_are_typed();
    fitting_states_are_described();
    graphs_hold_runs();
}

/// A graph and what is given show that no run ends, or there is one first fault, and never both.
pub fn loops_have_one_verdict()
    ensures { LoopsHaveOneVerdict }
{}
