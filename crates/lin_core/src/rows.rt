//! Rows: what is known of some whole-number variables, and what is to be shown of them.
use list_views::Seq;

/// What a row says of its value.
#[derive(Clone, Copy, PartialEq, Eq)]
pub enum RowKind {
    /// The value is at least 0.
    AtLeastZero,
    /// The value is 0.
    IsZero,
}

/// Something known: the sum of the terms, the constant and the multiples of class weights is as the kind says. A term is
/// a variable and its coefficient. The weights of classes are given beside the rows, where a combination is made; a class
/// without a weight has 0.
#[derive(PartialEq, Drop)]
pub struct WRow {
    /// What is known of the value.
    pub kind: RowKind,
    /// The variables with their coefficients, each variable above the one before.
    pub terms: Seq<(u32, i64)>,
    /// The constant that is added.
    pub constant: i64,
    /// The multiples of class weights that are added: a class by its number, and how often its weight counts.
    pub weights: Seq<(u32, i64)>,
}

/// Something to be shown: that the sum of the terms and the constant is at least 0.
#[derive(PartialEq, Drop)]
pub struct Target {
    /// The variables with their coefficients, each variable above the one before.
    pub terms: Seq<(u32, i64)>,
    /// The constant that is added.
    pub constant: i128,
}
