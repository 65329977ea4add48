//! Whether an abstract state is sound: well-formed, and what its cells say is of a world.

mod sound;

pub use sound::{has_int, has_no_int, is_sound};
