//! What reports promise of runs. The laws are calls that do nothing when they run.
ghost use Rattle.throw_report.specs.Laws.{CertifiedRunsEndAsReported, EndNodesThrowObjects, ReportsAreOne, WalksEndAsReported};

use cert_check::graph_check::graphs_hold_runs;
use input_root::{fitting_states_are_described, fitting_states_are_typed};
use jvm_run::steps_are_typed;
use path_rules::walks_meet_rules;

/// A graph has one report.
pub fn reports_are_one()
    ensures { ReportsAreOne }
{}

/// In a good graph the thrown id of an `End` node in throwing mode has an `Obj`.
pub fn end_nodes_throw_objects()
    ensures { EndNodesThrowObjects }
{}

/// A typed state of the machine from which a walk of a good graph begins at node 0 and comes to an `End` node has a run that ends,
/// in one of the ways that the graph's report says.
pub fn walks_end_as_reported()
    ensures { WalksEndAsReported }
{
    graphs_hold_runs();
}

/// Every state that a description fits has a run that ends in one of the ways that the report says, if a certificate shows that runs end.
pub fn certified_runs_end_as_reported()
    ensures { CertifiedRunsEndAsReported }
{
    steps_are_typed();
    fitting_states_are_typed();
    fitting_states_are_described();
    walks_meet_rules();
    graphs_hold_runs();
}
