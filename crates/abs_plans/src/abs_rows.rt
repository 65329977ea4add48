//! The rows of the table of plans: ints, references, static fields, fields, objects and arrays.

mod arrays;
mod fields;
mod objects;
mod references;
mod rows;
mod statics;
mod stops;

pub use arrays::{array_length, load_item, load_number, store_item, store_number};
pub use fields::{read_field, with_id, write_field};
pub use objects::{new_array, new_object};
pub use references::{compare_null, compare_references};
pub use rows::{
    arithmetic, compare_two, compare_zero, constant, goes_to, increment, load, lookup_switch,
    narrowing, negation, no_child, one_step, push_null, reorder, step_if, store, table_switch,
};
pub use statics::{bottom_with, read_static, write_static};
pub use stops::{access_stop, receiver_stop, split_below};
