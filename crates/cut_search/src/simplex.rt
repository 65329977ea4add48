//! The simplex method by exact fractions.

mod fractions;
mod tableau;

pub use fractions::{Fraction, common_of};
pub use tableau::Tableau;
