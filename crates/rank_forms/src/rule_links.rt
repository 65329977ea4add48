//! What the rows of a path rule say of what stands at one place of both its ends.

mod changes;
mod counting;
mod falls;
mod links;
mod multipliers;
mod parts;
mod places;
mod positions;
mod reaching;
mod rising;
mod sizes;
mod steps_down;
mod ties;
mod trails;

pub use changes::more_of;
pub use counting::multipliers_of;
pub use falls::{bounded_table, change_table, size_table, step_table};
pub use links::{Beside, Come, Link, Tie};
pub use multipliers::Multipliers;
pub use parts::{Course, Part, counts_size};
pub use places::first_places;
pub use positions::{is_place, same, slot_at, variable_at, variable_of};
pub use reaching::{by_of, known_of, reach, sum};
pub use rising::longest;
pub use sizes::{has_zero, is_zero, size_constant, size_ties, zero_row};
pub use steps_down::{bounds, fall_ties};
pub use ties::{int_ties, is_bound, is_inequality, negated, with_times};
pub use trails::{count_trail, size_of, trail};
