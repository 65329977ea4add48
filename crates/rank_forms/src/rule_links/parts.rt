//! The parts of a form: what stands at places, each so many times.
use descent::Place;

/// By which links a part is followed along a rule.
#[derive(Clone, Copy, PartialEq, Eq)]
pub enum Course {
    /// An int by the equations of its links.
    Ints,
    /// An int, or its negative, step by step.
    Steps,
    /// An int, or its negative, in whichever way it falls by more.
    Either,
    /// A size.
    Sizes,
}

/// So many times what stands at a place.
#[derive(Clone, Copy, PartialEq, Eq)]
pub struct Part {
    /// The place.
    pub place: Place,
    /// How many times.
    pub times: i64,
    /// By which links it is followed.
    pub course: Course,
}

/// Whether a size is counted.
pub fn counts_size(course: Course) -> bool {
    match course {
        Course::Sizes => true,
        Course::Ints => false,
        Course::Steps => false,
        Course::Either => false,
    }
}
