//! That walks and runs end where a certificate shows it. The laws are calls that do nothing when they run.
ghost use Rattle.cert_check.specs.Laws.{CertifiedWalksEnd, LastNodesEnd, CertifiedRunsEnd, ValidCertificatesEnd};
ghost use Rattle.cert_check.specs.Ready.{ValidIsCertified};

use descent::closed_proofs_end;
use graph_check::graphs_hold_runs;
use input_root::{fitting_states_are_described, fitting_states_are_typed};
use path_rules::{rules_fit, walks_meet_rules};
use plan_links::jvm_run::{runs_are_never_stuck, steps_are_typed};
use plan_links::links_fit;

/// Every walk of typed states that fit is finite, if it begins at node 0 and a certificate shows it: a good graph, cuts on all its
/// cycles, and rules of the paths between them of which no chain is infinite. Where a walk can't be continued, its node says that the
/// run ends.
pub fn certified_walks_end()
    ensures finite { CertifiedWalksEnd }
    ensures last { LastNodesEnd }
{
    steps_are_typed();
    walks_meet_rules();
    graphs_hold_runs();
}

/// Every state that a description fits ends, and none of its runs is stuck, if a certificate shows it: a good graph with the
/// description's initial state at node 0, cuts on all its cycles, and rules of the paths between them of which no chain is infinite.
pub fn certified_runs_end()
    ensures { CertifiedRunsEnd }
{
    steps_are_typed();
    runs_are_never_stuck();
    fitting_states_are_typed();
    fitting_states_are_described();
    walks_meet_rules();
    graphs_hold_runs();
}

/// A valid certificate shows that walks and runs end, where its steps are within the limits of proofs.
pub fn valid_is_certified()
    ensures { ValidIsCertified }
{
    closed_proofs_end();
    links_fit();
    rules_fit();
}

/// Every state that a description fits ends, and none of its runs is stuck, if a valid certificate begins with the description's initial
/// state, and its steps are within the limits of proofs.
pub fn valid_certificates_end()
    ensures { ValidCertificatesEnd }
{
    valid_is_certified();
    certified_runs_end();
}
