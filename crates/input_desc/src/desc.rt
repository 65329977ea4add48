//! Descriptions of a program's inputs.
use abs_cells::lin_core::Interval;
use jvm_values::{Shape, Ty};
use list_views::Seq;

/// What is described of one input: of a parameter of the entry method or of a static field.
#[derive(Drop)]
pub enum Input {
    /// An int of the interval.
    Int(Interval),
    /// A reference to an object of this type or one below it, whose region has this shape; or null, where the flag is set.
    /// The type is its own erasure.
    Ref(Ty, bool, Shape),
}

/// What is described of a program's inputs: the parameters of the entry method and then the static fields, numbered from 0.
#[derive(Drop)]
pub struct Desc {
    /// The inputs.
    pub inputs: Seq<Input>,
    /// Pairs of different reference inputs that may be one object.
    pub same: Seq<(u32, u32)>,
    /// Pairs of different reference inputs from which one object may be reached.
    pub share: Seq<(u32, u32)>,
}
