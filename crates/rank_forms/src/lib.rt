//! The rank step that a form makes: the form of each cut, and for each rule the multipliers that show that it falls.
#![tactic(auto)]

mod building;
mod cut_forms;
mod following;
mod forms;
mod gathering;
mod int_reasons;
mod limits;
mod listing;
mod reasons;
pub mod rule_links;
mod size_reasons;
mod weights;

pub use building::build;
pub use following::{Bound, BoundRow, Followed, follow_steps};
pub use forms::{forms_of, slots_for};
pub use int_reasons::{close_row, follow_ints};
pub use limits::{are_few, are_forms, is_rank_step, is_ranked};
pub use listing::{list_all, needed, or_zero};
pub use size_reasons::follow_size;
pub use weights::ones;
