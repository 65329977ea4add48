//! Certificates: which are valid, why others are refused, the check of one, and that walks and runs end where a certificate shows it.
#![tactic(auto)]

mod checking;
mod cuts;
mod laws;
mod part_faults;
mod refusal;

pub use checking::{check_cert, good_links, rules_between};
pub use graph_check;
pub use graph_check::{abs_expand, step_laws};
pub use laws::{
    certified_runs_end, certified_walks_end, valid_certificates_end, valid_is_certified,
};
pub use plan_links;
pub use refusal::{Cause, Refusal};
