//! One step of the written machine.
//!
//! What each instruction does to its frame, to the static fields and to the heap stands in `specs/Effects`, and in one table in
//! `specs/Table`; what these effects make of a state, and runs, in `specs/Running`. `start` and `step` run the machine; the other
//! calls do the effects of single instructions.
#![tactic(auto)]

mod after;
mod applying;
mod built_ins;
mod calls;
mod casts;
mod entries;
mod frames;
mod leaves;
mod normal;
mod objects;
mod operands;
mod outcome;
mod perform;
mod reads;
mod shuffles;
mod steps;
mod throwing;
mod tops;
mod writes;

pub use after::After;
pub use calls::{invoke_selected, invokespecial, invokestatic};
pub use casts::{aastore, checkcast, instanceof};
pub use class_program;
pub use class_program::{class_world, code_forms};
pub use frames::{
    aload, arith, astore, goto, iinc, iload, ineg, istore, jump_if, jump_if_ints, jump_if_null,
    jump_if_same, lookupswitch, narrow, push, tableswitch,
};
pub use leaves::{areturn, athrow, ireturn, return_nothing};
pub use objects::{anewarray, new_object, newarray};
pub use op_forms;
pub use outcome::Outcome;
pub use reads::{aaload, arraylength, getfield, getstatic, number_load};
pub use shuffles::shuffle;
pub use steps::{start, step};
pub use writes::{number_store, putfield, putstatic};
