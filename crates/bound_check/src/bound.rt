//! Bounds on the instructions of runs.
use list_views::Seq;

/// A form over the inputs: a constant, multiples of ints and multiples of sizes, where classes have the listed weights. Inputs are
/// numbered from 0, the parameters before the static fields.
#[derive(Drop)]
pub struct RootForm {
    /// The constant.
    pub constant: i64,
    /// Inputs with the multiples of their ints.
    pub ints: Seq<(u16, i64)>,
    /// Inputs with the multiples of their sizes.
    pub sizes: Seq<(u16, i64)>,
    /// Classes with their weights; a class that isn't listed has 0.
    pub weights: Seq<(u32, i64)>,
}

/// A bound: with `F` the value of a term's form for a state, at most `steps * (constant + sum of number * max(0, F + 1)) + 1`
/// instructions.
#[derive(Drop)]
pub struct Bound {
    /// The most instructions between two cuts, or from a cut to the end.
    pub steps: u64,
    /// One more than how many rules are taken at most once in all.
    pub constant: u64,
    /// For each rank step, rising, how many rules go with one that it counts, that one included, and its form.
    pub terms: Seq<(u64, RootForm)>,
}
