//! The search for a bound beside a certificate, by the certificate's own forms. Nothing is claimed of what it finds.

mod call;
mod carrying;
mod falls;
mod finding;
mod limits;
mod lines;
mod stop;
mod sums;
mod writing;

pub use call::{Found, bound_for};
pub use finding::find;
