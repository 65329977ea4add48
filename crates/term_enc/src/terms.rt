//! Patterns.

use abs_cells::Id;

/// The term of an id's value as far as known cells tell it.
#[derive(Drop)]
pub enum PatternTerm {
    /// Null.
    Null,
    /// An array.
    Leaf,
    /// An instance of the class of this number, with the patterns of its fields that are references.
    Node(u32, Vec<PatternTerm>),
    /// The term of this id's value.
    Var(Id),
}
