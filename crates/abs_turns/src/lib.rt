//! Where a state stands, what one step does to it, and the cases of ints: what plans are made of.
#![tactic(auto)]

mod operands;
mod plans;
mod short_rows;
mod shuffles;
mod spot;
mod switches;
mod turns;

pub use code_verify;
pub use jvm_step;
pub use jvm_step::{class_program, class_world, op_forms};
pub use operands::Operand;
pub use plans::{Act, Goal, Plan, Rows, Turn, Write};
pub use short_rows::RowsOver;
pub use shuffles::shuffle;
pub use spot::{Spot, all_ints, with_local};
pub use switches::{lookup_turns, table_turns};
pub use turns::{
    branches, goes_on, is_taken, just, moves, narrowed_to, narrowings, one_narrowed, pushes,
    pushes_to, put, throws, throws_after, turns_narrowing, turns_of,
};
