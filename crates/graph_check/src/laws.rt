//! Laws of good graphs. They are calls that do nothing when they run.
ghost use Rattle.graph_check.specs.Laws.{GraphsHoldRuns};
ghost use Rattle.graph_check.specs.OneVerdict.{GraphsHaveOneVerdict};

use abs_match::matches_carry_fitting;
use step_laws::{ends_end, steps_fit_children};

/// A typed state of the machine that fits a node of a good graph ends with its next step, or goes on to a node that this one names,
/// by an edge.
pub fn graphs_hold_runs()
    ensures { GraphsHoldRuns }
{
    ends_end();
    steps_fit_children();
    matches_carry_fitting();
}

/// A graph is good, and its links are one list; or it has one first fault; and never both. So a test that answers the one or the other
/// answers rightly in both directions.
pub fn graphs_have_one_verdict()
    ensures { GraphsHaveOneVerdict }
{}
