//! What bounds promise of runs. The law is a call that does nothing when it runs.
ghost use Rattle.bound_check.specs.Laws.{BoundsHold};

use cert_check::graph_check::graphs_hold_runs;
use cert_check::plan_links::links_fit;
use descent::closed_proofs_end;
use input_root::{fitting_states_are_described, fitting_states_are_typed};
use jvm_run::steps_are_typed;
use path_rules::{rules_fit, walks_meet_rules};
use term_enc::terms_fill_patterns;

/// Every state that a description fits has a run that ends after at most the bound's value of instructions, if a valid certificate begins
/// with the description's initial state, and the bound is that of entries without a fault.
pub fn bounds_hold()
    ensures { BoundsHold }
{
    closed_proofs_end();
    links_fit();
    rules_fit();
    steps_are_typed();
    fitting_states_are_typed();
    fitting_states_are_described();
    walks_meet_rules();
    graphs_hold_runs();
    terms_fill_patterns();
}
