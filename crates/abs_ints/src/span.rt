//! Intervals of exact results.
ghost use Rattle.std.specs.Prelude.{◌≡◌, ◌*ℤ◌};
ghost use Rattle.abs_ints.specs.IntIntervals.{meet_of, sum_of, difference_of, just, multiples_of, join_of, hull_of, are_ints, ints_or_all};
ghost use Rattle.abs_ints.specs.Sums.{reached_by, turn_of};

use crate::cases::Way;
use crate::int_intervals::all;
use lin_core::Interval;
use std::marker::Model;

/// The whole numbers from `lo` to `hi`, if any.
#[derive(Clone, Copy)]
pub(crate) struct Wide {
    lo: i64,
    hi: i64,
}

impl Model for Wide {
    ghost use Rattle.lin_core.specs.Intervals.{Bounds};

    ghost Value = { Bounds };

    ghost view = { λ wide. record { lo = wide.lo; hi = wide.hi } };

    ghost inverse = { λ bounds. record { lo = bounds.lo; hi = bounds.hi } };
}

impl Wide {
    /// The whole numbers from `lo` to `hi`.
    pub(crate) fn new(lo: i64, hi: i64) -> Wide
        ensures { result ≡ record { lo = lo; hi = hi } }
    {
        Wide { lo, hi }
    }

    /// The ints of `interval` that lie in it, or None where there are none.
    pub(crate) fn part_of(self, interval: Interval) -> Option<Interval>
        ensures { result ≡ meet_of interval self }
    {
        let lo = i64::from(interval.lo()).max(self.lo);
        let hi = i64::from(interval.hi()).min(self.hi);
        if lo <= hi {
            Interval::new(lo as i32, hi as i32)
        } else {
            None
        }
    }
}

impl Wide {
    /// The products of the least number of `a` with those of `b`.
    pub(crate) fn multiples_by_lo(a: Interval, b: Interval) -> Wide
        ensures { result ≡ multiples_of a.lo b }
    {
        let low = product(a.lo(), b.lo());
        let high = product(a.lo(), b.hi());
        Wide {
            lo: low.min(high),
            hi: low.max(high),
        }
    }

    /// The products of the greatest number of `a` with those of `b`.
    pub(crate) fn multiples_by_hi(a: Interval, b: Interval) -> Wide
        ensures { result ≡ multiples_of a.hi b }
    {
        let low = product(a.hi(), b.lo());
        let high = product(a.hi(), b.hi());
        Wide {
            lo: low.min(high),
            hi: low.max(high),
        }
    }

    /// From the least to the greatest number of both.
    pub(crate) fn join(self, other: Wide) -> Wide
        ensures { result ≡ join_of self other }
    {
        Wide {
            lo: self.lo.min(other.lo),
            hi: self.hi.max(other.hi),
        }
    }

    /// From the least to the greatest product of the ends of both intervals.
    pub(crate) fn hull(a: Interval, b: Interval) -> Wide
        ensures { result ≡ hull_of a b }
    {
        Wide::multiples_by_lo(a, b).join(Wide::multiples_by_hi(a, b))
    }

    /// Whether its ends are ints.
    pub(crate) fn are_ints(self) -> bool
        ensures { result ≡ are_ints self }
    {
        -2_147_483_648 <= self.lo && self.hi <= 2_147_483_647
    }

    /// The interval, if its ends are ints, else all ints. None where it is empty.
    pub(crate) fn ints_or_all(self) -> Option<Interval>
        ensures { result ≡ ints_or_all self }
    {
        if self.are_ints() {
            self.part_of(all()?)
        } else {
            all()
        }
    }
}

/// The exact product of two ints.
fn product(x: i32, y: i32) -> i64
    ensures { result ≡ x *ℤ y }
{
    i64::from(x) * i64::from(y)
}

/// The whole numbers from `lo` to `hi`, both at most 2^40 in size: ints, and exact sums and differences of ints.
#[derive(Clone, Copy)]
pub(crate) struct Span {
    lo: i64,
    hi: i64,
}

impl Model for Span {
    ghost use Rattle.std.specs.Prelude.{◌≤ℤ◌, pos, negsuc};
    ghost use Rattle.lin_core.specs.Intervals.{Bounds};

    ghost Value = { Bounds };

    ghost view = { λ span. record { lo = span.lo; hi = span.hi } };

    ghost invariant = { λ span. (negsuc 1099511627775 ≤ℤ span.lo) × (span.lo ≤ℤ pos 1099511627776) × (negsuc 1099511627775 ≤ℤ span.hi) × (span.hi ≤ℤ pos 1099511627776) };

    ghost inverse = { λ bounds. record { lo = bounds.lo; hi = bounds.hi } };
}

impl Span {
    /// The ints of an interval.
    pub(crate) fn of(interval: Interval) -> Span
        ensures { result ≡ interval }
    {
        Span {
            lo: i64::from(interval.lo()),
            hi: i64::from(interval.hi()),
        }
    }

    /// The exact results that are wrapped in this way: the ints, or those 2^32 above or below them.
    pub(crate) fn reached_by(way: Way) -> Span
        ensures { result ≡ reached_by way }
    {
        match way {
            Way::Over => Span {
                lo: 2_147_483_648,
                hi: 6_442_450_943,
            },
            Way::Under => Span {
                lo: -6_442_450_944,
                hi: -2_147_483_649,
            },
            _ => Span {
                lo: -2_147_483_648,
                hi: 2_147_483_647,
            },
        }
    }

    /// How far the exact results that are wrapped in this way lie above the ints.
    pub(crate) fn turn(way: Way) -> Span
        ensures { result ≡ just (turn_of way) }
    {
        match way {
            Way::Over => Span {
                lo: 4_294_967_296,
                hi: 4_294_967_296,
            },
            Way::Under => Span {
                lo: -4_294_967_296,
                hi: -4_294_967_296,
            },
            _ => Span { lo: 0, hi: 0 },
        }
    }

    /// The sums of the numbers of both.
    pub(crate) fn plus(self, other: Span) -> Wide
        ensures { result ≡ sum_of self other }
    {
        Wide {
            lo: self.lo + other.lo,
            hi: self.hi + other.hi,
        }
    }

    /// The differences of the numbers of both.
    pub(crate) fn minus(self, other: Span) -> Wide
        ensures { result ≡ difference_of self other }
    {
        Wide {
            lo: self.lo - other.hi,
            hi: self.hi - other.lo,
        }
    }

    /// The numbers that both have, or None where they have none in common.
    pub(crate) fn meet(self, other: Wide) -> Option<Span>
        ensures { result ≡ meet_of self other }
    {
        let lo = self.lo.max(other.lo);
        let hi = self.hi.min(other.hi);
        if lo <= hi {
            Some(Span { lo, hi })
        } else {
            None
        }
    }
}
