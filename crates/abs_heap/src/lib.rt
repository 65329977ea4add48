//! What abstract states become by refinements of an id, by a write of a reference, and by new ids.
#![tactic(auto)]

mod below;
mod cases;
mod children;
mod compatible;
mod crowds;
mod equals;
mod fault;
mod fresh;
mod gaining;
mod instances;
mod items;
mod laws;
mod naming;
mod nulls;
mod objects;
mod putting;
mod renaming;
mod rewriting;
mod shapes;
mod writes;

pub use abs_reach;
pub use cases::refine_class;
pub use equals::refine_equal;
pub use fault::{HeapFault, SplitFault};
pub use items::load_ref;
pub use laws::{
    arrays_go_on, classes_split, equal_splits, int_writes_go_on, items_go_on, null_splits,
    number_writes_go_on, objects_go_on, values_go_on, writes_go_on,
};
pub use nulls::refine_null;
pub use objects::{new_array, new_object};
pub use writes::{put_field, store_ref};
