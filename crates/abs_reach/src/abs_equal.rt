//! Whether two abstract states are the same.

mod cells;
mod frames;
mod states;

pub use states::is_same_state;
