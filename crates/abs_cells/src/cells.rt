//! Cells: what an abstract state knows of the value of an id.
ghost use Rattle.std.specs.Prelude.{◌≡◌};
ghost use Rattle.abs_cells.specs.Cells.{is_known, is_hazy, is_reference, is_int, is_null, can_be_null, shape_of, sort_test};

use crate::ids::{Id, Ids};
use jvm_values::{Kind, Shape, Ty};
use lin_core::Interval;

/// What is known of the value that an id stands for.
///
/// `Obj` and `Nums` are *known* cells, `Refs` and `Unk` are *hazy* ones: of a hazy id's object more is not known than its
/// type and the shape of its region.
#[derive(Drop)]
pub enum Cell {
    /// An int of the interval.
    Int(Interval),
    /// Null.
    Null,
    /// An instance of exactly the class of this number, whose fields have the values of these ids.
    Obj(u32, Ids),
    /// An array of numbers of this kind, whose length is the value of this id.
    Nums(Kind, Id),
    /// An array of references whose element type is this type or one below it, whose length is the value of this id, and
    /// whose region has this shape.
    Refs(Ty, Id, Shape),
    /// An object of this type or one below it, whose region has this shape; or null, where the flag is set.
    Unk(Ty, bool, Shape),
}

/// A sort of cells.
#[derive(Clone, Copy, PartialEq, Eq)]
pub enum CellSort {
    /// Every cell.
    Any,
    /// The cells of references, `Null` apart.
    Reference,
    /// The cells whose object's class or kind is known exactly.
    Known,
    /// The cells of whose object the type and the shape of its region are known.
    Hazy,
    /// The hazy cells whose region may have a cycle.
    MayCycle,
    /// The hazy cells whose region may be no tree.
    MayBeNoTree,
}

impl Cell {
    /// Whether the class or kind of the object is known exactly.
    pub fn is_known(&self) -> bool
        ensures { result ≡ is_known self.now }
    {
        matches!(self, Cell::Obj(_, _) | Cell::Nums(_, _))
    }

    /// Whether of the object its type and its region's shape are known.
    pub fn is_hazy(&self) -> bool
        ensures { result ≡ is_hazy self.now }
    {
        matches!(self, Cell::Refs(_, _, _) | Cell::Unk(_, _, _))
    }

    /// Whether this is the cell of a reference that is not `Null`.
    pub fn is_reference(&self) -> bool
        ensures { result ≡ is_reference self.now }
    {
        self.is_known() || self.is_hazy()
    }

    /// The shape of the region of a hazy cell's object.
    pub fn shape(&self) -> Option<Shape>
        ensures { result ≡ shape_of self.now }
    {
        match self {
            Cell::Refs(_, _, shape) => Some(*shape),
            Cell::Unk(_, _, shape) => Some(*shape),
            Cell::Int(_) | Cell::Null | Cell::Obj(_, _) | Cell::Nums(_, _) => None,
        }
    }

    /// Whether this is the cell of an int.
    pub fn is_int(&self) -> bool
        ensures { result ≡ is_int self.now }
    {
        matches!(self, Cell::Int(_))
    }

    /// Whether the cell is `Null`.
    pub fn is_null(&self) -> bool
        ensures { result ≡ is_null self.now }
    {
        matches!(self, Cell::Null)
    }

    /// Whether the cell may describe null.
    pub fn can_be_null(&self) -> bool
        ensures { result ≡ can_be_null self.now }
    {
        match self {
            Cell::Null => true,
            Cell::Unk(_, nullable, _) => *nullable,
            Cell::Int(_) | Cell::Obj(_, _) | Cell::Nums(_, _) | Cell::Refs(_, _, _) => false,
        }
    }

    /// Whether the cell is of a sort.
    pub fn is_of(&self, sort: CellSort) -> bool
        ensures { result ≡ sort_test sort self.now }
    {
        match sort {
            CellSort::Any => true,
            CellSort::Reference => self.is_reference(),
            CellSort::Known => self.is_known(),
            CellSort::Hazy => self.is_hazy(),
            CellSort::MayCycle => matches!(self.shape(), Some(Shape::Any)),
            CellSort::MayBeNoTree => matches!(self.shape(), Some(Shape::Dag | Shape::Any)),
        }
    }
}
