//! Constant pools of Java class files (JVM specification, SE 8, section 4.4): read exactly as the bytes spell them,
//! asked by index without copies, and written.
#![tactic(auto)]

mod entries;
mod entry;
mod fault;
mod field;
mod laws;
mod pool;
mod reading;
mod rules;
mod writing;

pub use entry::PoolEntry;
pub use fault::PoolFault;
pub use laws::{entries_of_text, one_pool, pool_has_texts, read_is_spelled, written_is_spelled};
pub use pool::Pool;
pub use rules::has_texts;
pub use writing::write_pool;
