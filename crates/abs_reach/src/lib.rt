//! What ids can reach: the closures over known cells, and what they tell of the regions of a heap.
//!
//! The tests are relations over abstract states (`abs_cells`), and each call here answers one exactly. The laws say that
//! they are sound for every state of the machine that an abstract state describes.
#![tactic(auto)]

pub mod abs_equal;
pub mod abs_sound;
mod dropping;
mod find;
mod heads;
mod laws;
mod marks;
mod meeting;
mod sets;
mod shapes;
mod walk;

pub use dropping::drop_unreached;
pub use find::{cell_of, has_cell, has_reference, is_reference_in, place_of};
pub use heads::{are_same_heads, is_same_head, is_same_mode};
pub use laws::{
    closures_are_ways, dropped_ids_keep_sizes, finite_ids_have_no_cycles,
    known_ids_inside_may_be_in, meeting_regions_may_meet, restricted_states_fit,
    tree_ids_have_trees,
};
pub use marks::{Marks, known_from};
pub use meeting::{may_be_in, may_meet};
pub use sets::{may_be_in_some, may_meet_some, some_may_be_in};
pub use shapes::{is_finite, is_tree};
