//! Parts of intervals.
ghost use Rattle.std.specs.Prelude.{◌≡◌};
ghost use Rattle.abs_ints.specs.Bits.{is_natural};
ghost use Rattle.abs_ints.specs.IntIntervals.{all_ints, is_single, below_of, up_to_of, above_of, from_of};

use lin_core::Interval;

/// All ints.
pub(crate) fn all() -> Option<Interval>
    ensures { result ≡ Some all_ints }
{
    Interval::new(i32::MIN, i32::MAX)
}

/// Whether an interval has one number alone.
pub(crate) fn is_single(a: Interval) -> bool
    ensures { result ≡ is_single a }
{
    a.lo() == a.hi()
}

/// Whether no number of an interval is below 0.
pub(crate) fn is_natural(a: Interval) -> bool
    ensures { result ≡ is_natural a }
{
    0 <= a.lo()
}

/// The ints of `a` that are below some int of `b`, or None where there are none.
pub(crate) fn below(a: Interval, b: Interval) -> Option<Interval>
    ensures { result ≡ below_of a b }
{
    let limit = b.hi().checked_sub(1)?;
    Interval::new(a.lo(), a.hi().min(limit))
}

/// The ints of `a` that are at most some int of `b`, or None where there are none.
pub(crate) fn up_to(a: Interval, b: Interval) -> Option<Interval>
    ensures { result ≡ up_to_of a b }
{
    Interval::new(a.lo(), a.hi().min(b.hi()))
}

/// The ints of `a` that are above some int of `b`, or None where there are none.
pub(crate) fn above(a: Interval, b: Interval) -> Option<Interval>
    ensures { result ≡ above_of a b }
{
    let limit = b.lo().checked_add(1)?;
    Interval::new(a.lo().max(limit), a.hi())
}

/// The ints of `a` that are at least some int of `b`, or None where there are none.
pub(crate) fn from(a: Interval, b: Interval) -> Option<Interval>
    ensures { result ≡ from_of a b }
{
    Interval::new(a.lo().max(b.lo()), a.hi())
}
