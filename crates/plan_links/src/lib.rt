//! What the links of expansions are: such as the rules of paths take.
#![tactic(auto)]

mod laws;

pub use jvm_run;
pub use laws::links_fit;
