//! Shapes of the part of a heap that a value reaches, and its term.

/// A property of all objects that a value reaches, itself included.
#[derive(Clone, Copy, PartialEq, Eq)]
pub enum Shape {
    /// One path leads to each object.
    Tree,
    /// No path leads back to its start.
    Dag,
    /// Nothing is said.
    Any,
}

/// The unfolding of a heap from a value whose region has no cycle.
#[derive(Drop)]
pub enum Term {
    /// Null.
    Null,
    /// An array.
    Leaf,
    /// An instance of the class of this number, with the terms of its fields that are references.
    Node(u32, Vec<Term>),
}
