//! Intervals of ints.
ghost use Rattle.std.specs.Prelude.{◌≡◌, ◌≤ℤ◌, ℤ, IsNone, IfSome, ◌↔◌};
ghost use Rattle.std.specs.Int.{int_max, int_min};
ghost use Rattle.lin_core.specs.Intervals.{Bounds, interval_of, IsIn};

use std::marker::Model;

/// The ints from `lo` to `hi`, both included. `lo` is at most `hi`.
#[derive(Clone, Copy, PartialEq, Eq)]
pub struct Interval {
    lo: i32,
    hi: i32,
}

impl Model for Interval {
    ghost use Rattle.std.specs.Prelude.{◌≤ℤ◌};
    ghost use Rattle.lin_core.specs.Intervals.{Bounds};

    ghost Value = { Bounds };

    ghost view = { λ interval. record { lo = interval.lo; hi = interval.hi } };

    ghost invariant = { λ interval. interval.lo ≤ℤ interval.hi };

    ghost inverse = { λ bounds. record { lo = bounds.lo; hi = bounds.hi } };
}

impl Interval {
    /// The ints from `lo` to `hi`, or None exactly where `lo` is above `hi`.
    pub fn new(lo: i32, hi: i32) -> Option<Interval>
        ensures { result ≡ interval_of lo hi }
    {
        if lo <= hi {
            Some(Interval { lo, hi })
        } else {
            None
        }
    }

    /// The least int of the interval.
    pub fn lo(&self) -> i32
        ensures value { result ≡ self.now.lo }
        ensures ordered { self.now.lo ≤ℤ self.now.hi }
    {
        self.lo
    }

    /// The greatest int of the interval.
    pub fn hi(&self) -> i32
        ensures value { result ≡ self.now.hi }
        ensures ordered { self.now.lo ≤ℤ self.now.hi }
    {
        self.hi
    }

    /// The ints that both intervals have, or None exactly where they have none in common.
    pub fn meet(self, other: Interval) -> Option<Interval>
        ensures value { result ≡ interval_of (int_max self.lo other.lo) (int_min self.hi other.hi) }
        ensures common { IfSome result (λ both. (n : ℤ) → IsIn n both ↔ (IsIn n self × IsIn n other)) }
        ensures apart { IsNone result ↔ ((n : ℤ) → ¬ (IsIn n self × IsIn n other)) }
    {
        Interval::new(self.lo.max(other.lo), self.hi.min(other.hi))
    }
}
