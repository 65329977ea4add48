//! How many paths there may be, and how long their rules.

/// The most paths from cut to cut.
pub(crate) const MOST_PATHS: u32 = 4_096;

/// The most rows of a path's rule.
pub(crate) const MOST_RULE_ROWS: usize = 65_536;

/// The most rows of all rules together.
pub(crate) const MOST_ROWS: u64 = 16_777_216;
