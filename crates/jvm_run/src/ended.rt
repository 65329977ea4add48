//! How a run of so many steps ends.
use jvm_values::Value;

/// How a run of so many steps ended.
#[derive(Clone, Copy, PartialEq, Eq)]
pub enum Ended {
    /// The steps are all done, and the run goes on.
    Out,
    /// The first frame's method returned, with a value or with none.
    Returned(Option<Value>),
    /// No frame takes an object that was thrown, which has this number.
    Threw(u32),
}
