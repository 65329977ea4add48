//! Links: what the rows of a path say of one variable by another.

/// From one variable to another one. Of an int link, the second is the first and a number more; of a size link or a fall link, the
/// first is the second and at least a number more.
#[derive(Clone, Copy, PartialEq, Eq)]
pub struct Link {
    /// The first variable.
    pub from: u32,
    /// The second variable.
    pub to: u32,
    /// The number: what an int link adds, what the others fall by at least.
    pub by: i64,
}

/// A variable beside a link's two, which is a number.
#[derive(Clone, Copy, PartialEq, Eq)]
pub struct Beside {
    /// The row that it is at least its number.
    pub least: usize,
    /// The row that it is at most its number.
    pub most: usize,
    /// Its coefficient in the link's row.
    pub times: i64,
}

/// A link with the rows that say it.
#[derive(Clone, Copy, PartialEq, Eq)]
pub struct Tie {
    /// The link.
    pub link: Link,
    /// Its row, by number.
    pub row: usize,
    /// Whether the row is taken back, with -1.
    pub back: bool,
    /// A third variable of the row, if it has one.
    pub beside: Option<Beside>,
}

/// How a variable is come to from a first one.
#[derive(Clone, Copy, PartialEq, Eq)]
pub struct Come {
    /// What the links that lead there add up to.
    pub by: i64,
    /// The last of the ties that lead there; none at the first one.
    pub last: Option<Tie>,
}
