//! What an edge to a child says beside its two states.
use abs_cells::Id;
use abs_cells::lin_core::RowKind;
use abs_cells::list_views::Seq;

/// The state at which a row reads an id's int.
#[derive(Clone, Copy, PartialEq, Eq)]
pub enum Side {
    /// The state that the edge leaves.
    Before,
    /// The child.
    After,
}

/// Something known of the ints of an edge's two states: the sum of the terms and the constant is as the kind says. A term
/// is a side, an int id of the state on that side, and its coefficient.
#[derive(PartialEq, Drop)]
pub struct LinkRow {
    /// What is known of the value.
    pub kind: RowKind,
    /// The ids with their coefficients.
    pub terms: Seq<(Side, Id, i64)>,
    /// The constant that is added.
    pub constant: i64,
}

/// What an edge to a child says beside its two states. An id that both have stands for one value.
#[derive(PartialEq, Drop)]
pub struct Link {
    /// What is known of the ints.
    pub rows: Seq<LinkRow>,
    /// An id that the child no longer has, since it stands for the object of another one: the id that goes, and the one
    /// that stays.
    pub merged: Option<(Id, Id)>,
    /// Whether the machine makes one step; else the child describes the same states, or some of them.
    pub step: bool,
}

/// The links of a graph: for each node one for each of its children, in their order.
#[derive(Drop)]
pub struct Links {
    /// The links of each node.
    pub nodes: Seq<Seq<Link>>,
}
