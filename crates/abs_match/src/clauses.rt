//! Why one state is no instance of another, and the clauses that are asked of each id.

/// The first clause that fails.
#[derive(Clone, Copy, PartialEq, Eq)]
pub struct MatchFault {
    /// The clause: 0 of the map, 1 of positions, 2 of the mode, 3 of cells, 4 of pairs with one object, 5 of pairs that
    /// share, 6 of shapes.
    pub clause: u8,
    /// The least id of the other state of which it doesn't hold, or 0 where it fails for no id alone.
    pub id: u16,
}

/// The clauses that are asked of each id alone.
#[derive(Clone, Copy, PartialEq, Eq)]
pub(crate) enum IdClause {
    /// The image's cell is under the id's.
    Cells,
    /// The id is a pair with each other one that may have its object.
    Aliases,
    /// The id shares with each other one whose region its own may meet.
    Sharing,
    /// The image is of the id's shape.
    Shapes,
}

/// The sorts of cells of which an id's partners may be.
#[derive(Clone, Copy, PartialEq, Eq)]
pub(crate) enum OtherSort {
    /// References, `Null` too.
    NoInt,
    /// References whose class or kind is known exactly.
    Known,
    /// References of which the type and the region's shape are known.
    Hazy,
}
