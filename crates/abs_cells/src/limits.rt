//! How large an abstract state may be.

/// The most ids that an abstract state may have.
pub const MOST_IDS: usize = 512;
