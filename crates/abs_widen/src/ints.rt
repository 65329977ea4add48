//! Widened bounds of ints.
ghost use Rattle.std.specs.Prelude.{◌≡◌, ◌≤ℤ◌};
ghost use Rattle.lin_core.specs.Intervals.{interval_of};
ghost use Rattle.abs_widen.specs.Rows.{bound_below, bound_above, widened_lo, widened_hi};

use lin_core::Interval;

/// The greatest of the bounds that a widening gives which is at most an int.
fn bound_below(n: i32) -> i32
    ensures value { result ≡ bound_below n }
    ensures low { result ≤ℤ n }
{
    if n >= i32::MAX {
        i32::MAX
    } else if n >= i32::MAX - 1 {
        i32::MAX - 1
    } else if n >= 0 {
        0
    } else if n >= i32::MIN + 1 {
        i32::MIN + 1
    } else {
        i32::MIN
    }
}

/// The least of them that is at least an int.
fn bound_above(n: i32) -> i32
    ensures value { result ≡ bound_above n }
    ensures high { n ≤ℤ result }
{
    if n <= i32::MIN {
        i32::MIN
    } else if n <= i32::MIN + 1 {
        i32::MIN + 1
    } else if n <= 0 {
        0
    } else if n <= i32::MAX - 1 {
        i32::MAX - 1
    } else {
        i32::MAX
    }
}

/// The old lower bound, unless the new one is below it.
fn widened_lo(old: Interval, new: Interval) -> i32
    ensures value { result ≡ widened_lo old.lo new.lo }
    ensures low { result ≤ℤ old.lo }
    ensures ordered { old.lo ≤ℤ old.hi }
{
    if old.lo() <= new.lo() {
        old.lo()
    } else {
        bound_below(new.lo())
    }
}

/// The old upper bound, unless the new one is above it.
fn widened_hi(old: Interval, new: Interval) -> i32
    ensures value { result ≡ widened_hi old.hi new.hi }
    ensures high { old.hi ≤ℤ result }
{
    if new.hi() <= old.hi() {
        old.hi()
    } else {
        bound_above(new.hi())
    }
}

/// An interval's widening by another one.
pub(crate) fn widened(old: Interval, new: Interval) -> Option<Interval>
    ensures value { result ≡ interval_of (widened_lo old.lo new.lo) (widened_hi old.hi new.hi) }
    ensures order { widened_lo old.lo new.lo ≤ℤ widened_hi old.hi new.hi }
{
    Interval::new(widened_lo(old, new), widened_hi(old, new))
}
