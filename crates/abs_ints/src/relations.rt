//! Relations between two ints.
ghost use Rattle.std.specs.Prelude.{◌≡◌};
ghost use Rattle.abs_ints.specs.Comparing.{related, standing_so, exchanged, row_of};

use crate::cases::{IntCase, ShortRow, Way};
use crate::few::Few;
use crate::int_intervals::{above, below, from, up_to};
use lin_core::Interval;

/// How two ints stand to each other.
#[derive(Clone, Copy, PartialEq, Eq)]
pub enum Relation {
    /// They are equal.
    Equal,
    /// The left one is below the right one.
    Below,
    /// The left one is at most the right one.
    AtMost,
    /// The left one is above the right one.
    Above,
    /// The left one is at least the right one.
    AtLeast,
}

impl Relation {
    /// The case in which the relation stands between an int of `a` and one of `b`, or None where it is not possible.
    pub(crate) fn case(self, way: Way, a: Interval, b: Interval) -> Option<IntCase>
        ensures { result ≡ related self way a b }
    {
        IntCase::between(
            way,
            self.left_part(a, b),
            self.exchanged().left_part(b, a),
            Few::one(self.row()),
        )
    }

    /// The ints of `a` that stand so to some int of `b`.
    fn left_part(self, a: Interval, b: Interval) -> Option<Interval>
        ensures { result ≡ standing_so self a b }
    {
        match self {
            Relation::Equal => a.meet(b),
            Relation::Below => below(a, b),
            Relation::AtMost => up_to(a, b),
            Relation::Above => above(a, b),
            Relation::AtLeast => from(a, b),
        }
    }

    /// How the right int stands to the left one.
    fn exchanged(self) -> Relation
        ensures { result ≡ exchanged self }
    {
        match self {
            Relation::Equal => Relation::Equal,
            Relation::Below => Relation::Above,
            Relation::AtMost => Relation::AtLeast,
            Relation::Above => Relation::Below,
            Relation::AtLeast => Relation::AtMost,
        }
    }

    /// The row that says the relation.
    fn row(self) -> ShortRow
        ensures { result ≡ row_of self }
    {
        match self {
            Relation::Equal => ShortRow::is_zero(1, -1, 0, 0),
            Relation::Below => ShortRow::at_least_zero(-1, 1, 0, -1),
            Relation::AtMost => ShortRow::at_least_zero(-1, 1, 0, 0),
            Relation::Above => ShortRow::at_least_zero(1, -1, 0, -1),
            Relation::AtLeast => ShortRow::at_least_zero(1, -1, 0, 0),
        }
    }
}
