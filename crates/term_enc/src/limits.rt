//! How large a pattern may be.

/// How many parts the pattern of a sized id has at most: nulls, arrays, instances and variables, each counted each time that
/// it stands there.
pub const MOST_PARTS: u32 = 4096;
