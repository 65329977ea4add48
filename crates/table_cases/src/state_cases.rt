//! Abstract states, links and children as they stand in the cases of tables, and answers by both forms of pairs.

mod both;
mod states;
mod told;
mod types;

pub use both::{StateAnswers, agreed, answer_by_both, state_in};
pub use states::state;
pub use told::{children, put_child, put_state};
pub use types::ty;
