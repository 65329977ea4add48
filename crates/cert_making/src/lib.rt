//! What makes certificates of certificates and of graphs: the newest form of one (`migrate_call`, the command `migrate`), one that no run of a
//! method ends (`loop_search`), and a bound beside one (`bound_search`).
#![tactic(auto)]

pub mod bound_search;
pub mod loop_search;
pub mod migrate_call;
