//! Patterns of ids as the code holds them: where an id is sized, its term as far as known cells tell it.
//!
//! The definition of patterns stands in `abs_cells`; `encode` answers it exactly. The laws say what a pattern tells of the
//! machine's states that an abstract state describes: the term of the id's value, and its size.
#![tactic(auto)]

mod building;
mod counting;
mod encoding;
mod laws;
mod limits;
mod terms;

pub use encoding::encode;
pub use laws::{
    size_variables_are_sized, sizes_are_of_patterns, sizes_are_rows, terms_fill_patterns,
};
pub use limits::MOST_PARTS;
pub use terms::PatternTerm;
