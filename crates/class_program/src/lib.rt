//! The methods that an entry reaches, with their names resolved.
#![tactic(auto)]

mod call_operand;
mod class_operand;
mod closing;
mod field_operand;
mod good;
mod insns;
mod jvm_differs;
mod laws;
mod member_operand;
mod method;
mod op;
mod operand;
mod ops;
mod program;
mod reached;
mod receivers;
mod refusal;
mod runs;
mod selected;
mod selections;
mod signature;
mod slots;
mod static_operand;
mod statics;

pub use class_world;
pub use class_world::code_forms;
pub use insns::Instructions;
pub use laws::closed_instructions_are_good;
pub use op::{Call, FieldRef, FieldUse, Op, StaticUse};
pub use program::{CatchRange, Method, Program, StaticField};
pub use selected::Selected;
pub use slots::Slots;
