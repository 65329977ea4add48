//! What is said of the ways in which runs end.
use list_views::Seq;

/// How the runs of a graph can end.
#[derive(PartialEq, Drop)]
pub struct Report {
    /// Whether one can return.
    pub returns: bool,
    /// The numbers of the classes of which an object can be thrown that nothing catches, rising.
    pub throws: Seq<u32>,
}
