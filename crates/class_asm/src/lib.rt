//! Listings, assembled exactly.
//!
//! [`assemble`] gives the bytes of the class file that a listing says, or its first fault. What the lines say stands in
//! `asm_lines`, the constant pool in `asm_pool`, the codes of methods in `asm_codes`.
#![tactic(auto)]

pub mod asm_codes;
pub mod asm_pool;
mod assembly;
mod codes;
mod laws;
mod rules;
mod texts;

pub use asm_lines::AsmFault;
pub use assembly::assemble;
pub use laws::assembled_keeps_rules;
