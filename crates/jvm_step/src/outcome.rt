//! What a step came to.
use jvm_values::Value;

/// What a step of the machine came to. Where a state is none that the rules speak of, nothing is said of it.
#[derive(Clone, Copy)]
pub enum Outcome {
    /// The run goes on from the state.
    Going,
    /// The entry has returned, with a value or none.
    Returned(Option<Value>),
    /// The entry has ended with the object of this number, which nothing caught.
    Threw(u32),
}
