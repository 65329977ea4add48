//! What becomes of an abstract state, as data.
use crate::short_rows::RowsOver;
use abs_cells::list_views::Seq;
use abs_cells::{AbsFrame, Cell, Id};
use jvm_values::{Slot, Ty};

/// A write of a reference.
#[derive(Clone, Copy)]
pub struct Write {
    /// The id of the object.
    pub object: Id,
    /// Its field; none for an item of an array.
    pub field: Option<u32>,
    /// The id that is written.
    pub value: Id,
}

/// What a step does to ids and pairs.
#[derive(Drop)]
pub enum Act {
    /// Nothing.
    Nothing,
    /// A fresh id has this cell, which names no ids.
    Makes(Cell),
    /// A reference is written.
    Writes(Write),
    /// A fresh id stands for an item of this array of references.
    Item(Id),
    /// A fresh id stands for a new instance of this class.
    Object(u32),
    /// A fresh id stands for a new array of these items, whose length is this id's int.
    Array(Slot, Id),
}

/// Where the fresh id goes.
#[derive(Clone, Copy)]
pub enum Goal {
    /// Nowhere.
    Nowhere,
    /// On the running frame's stack.
    OnStack,
    /// Into this local of the running frame.
    InLocal(u16),
    /// Into this local of the bottom frame, where the static fields' ids follow the locals.
    InBottom(usize),
    /// Into a field of a known id.
    InField(Id, u32),
    /// It is thrown.
    Thrown,
}

/// The rows of a step's link.
#[derive(Drop)]
pub enum Rows {
    /// None.
    Nothing,
    /// These, over the operands and the fresh id.
    Over(RowsOver),
}

/// One step.
#[derive(Drop)]
pub struct Turn {
    /// The ids whose cells become others.
    pub changed: Seq<(Id, Cell)>,
    /// The frames after the step, the running call's last.
    pub frames: Seq<AbsFrame>,
    /// The thrown id after the step.
    pub throwing: Option<Id>,
    /// What it does to ids.
    pub act: Act,
    /// Where the fresh id goes.
    pub goal: Goal,
    /// The rows of its link.
    pub rows: Rows,
}

/// What becomes of a state.
#[derive(Drop)]
pub enum Plan {
    /// The run ends with the next step.
    Ends,
    /// A child for each of these steps, in order.
    Steps(Seq<Turn>),
    /// This id is null, or it is not.
    ByNull(Id),
    /// This id's object is of one class below the type, or of another one.
    ByClass(Id, Ty),
    /// Two ids are one object, or two.
    ByEqual(Id, Id),
}
