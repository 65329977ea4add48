//! How large a termination graph may be.

/// The most nodes that a termination graph may have.
pub const MOST_NODES: usize = 20_000;
