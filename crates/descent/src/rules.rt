//! Path rules: what every walk along a path says of the values at its two ends.
use lin_core::WRow;
use list_views::Seq;

/// A position of a frame of a state.
#[derive(Clone, Copy, PartialEq, Eq)]
pub struct Place {
    /// The frame, the bottom one being 0.
    pub frame: u32,
    /// Whether it is a stack entry; else it is a local.
    pub stack: bool,
    /// The number of the stack entry, from the bottom, or of the local.
    pub index: u32,
}

/// The int or the size that an id has at an end of a rule, as a sum over the rule's variables.
#[derive(PartialEq, Drop)]
pub struct SlotForm {
    /// The id.
    pub id: u16,
    /// Whether it is the id's size; else it is the id's int.
    pub size: bool,
    /// The positions at which the cut's state has the id.
    pub places: Seq<Place>,
    /// The variables with their coefficients, each variable above the one before.
    pub terms: Seq<(u32, i64)>,
    /// The constant that is added.
    pub constant: i64,
    /// The multiples of class weights that are added.
    pub weights: Seq<(u32, i64)>,
}

/// A rule from one cut to the next: rows over variables of its own, and the slots of both ends in these variables.
#[derive(PartialEq, Drop)]
pub struct PathRule {
    /// The cut at which it starts.
    pub from: u32,
    /// The cut at which it ends.
    pub to: u32,
    /// The number of variables; each is below it.
    pub vars: u32,
    /// What is known of the variables.
    pub rows: Seq<WRow>,
    /// The slots at the start.
    pub first: Seq<SlotForm>,
    /// The slots at the end.
    pub last: Seq<SlotForm>,
}
