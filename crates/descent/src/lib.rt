//! Proofs that no chain of path rules is infinite: what they are, and the check.
#![tactic(auto)]

mod checking;
mod faults;
mod given;
mod grouping;
mod laws;
mod needs;
mod orders;
mod passing;
mod proof;
mod ranking;
mod reaching;
mod rules;
mod sets;
mod splits;
mod steps;

pub use checking::{check_proof, most_variables};
pub use faults::{DescentFault, StepFault};
pub use given::{given_first, set_of};
pub use grouping::components;
pub use laws::{closed_proofs_end, rankings_keep_laws};
pub use lin_core::{LinFault, RowKind, Scratch, WRow};
pub use orders::{LinearOrder, Order, SizeOrder};
pub use proof::{CutForm, Proof, ProofStep, RankRule, RankStep};
pub use rules::{PathRule, Place, SlotForm};
pub use sets::{all_rules, within};
pub use steps::check_rank_step;
