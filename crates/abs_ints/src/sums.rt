//! Sums and differences of abstract ints.
ghost use Rattle.std.specs.Prelude.{◌≡◌};
ghost use Rattle.abs_ints.specs.IntIntervals.{all_ints, meet_of};
ghost use Rattle.abs_ints.specs.Sums.{wrapped_by, sum_row, difference_row, sum_case, difference_case, sum_cases, difference_cases};

use crate::cases::{IntCase, ShortRow, Way};
use crate::few::Few;
use crate::span::Span;
use lin_core::Interval;

/// The cases of a sum: the exact one is an int, or above all ints, or below all ints.
pub(crate) fn sums(a: Interval, b: Interval) -> Few<IntCase>
    ensures { result ≡ sum_cases a b }
{
    Few::of(
        sum_case(Way::Inside, a, b),
        sum_case(Way::Over, a, b),
        sum_case(Way::Under, a, b),
    )
}

/// The cases of a difference, likewise.
pub(crate) fn differences(a: Interval, b: Interval) -> Few<IntCase>
    ensures { result ≡ difference_cases a b }
{
    Few::of(
        difference_case(Way::Inside, a, b),
        difference_case(Way::Over, a, b),
        difference_case(Way::Under, a, b),
    )
}

/// The case of a sum that is wrapped in this way, or None where no exact sum is.
fn sum_case(way: Way, a: Interval, b: Interval) -> Option<IntCase>
    ensures { result ≡ sum_case way a b }
{
    let (left, right) = (Span::of(a), Span::of(b));
    let exact = Span::reached_by(way).meet(left.plus(right))?;
    IntCase::with(
        way,
        exact.minus(right).part_of(a),
        exact.minus(left).part_of(b),
        wrapped(way, exact),
        Few::one(sum_row(way)),
    )
}

/// The case of a difference that is wrapped in this way, or None where no exact difference is.
fn difference_case(way: Way, a: Interval, b: Interval) -> Option<IntCase>
    ensures { result ≡ difference_case way a b }
{
    let (left, right) = (Span::of(a), Span::of(b));
    let exact = Span::reached_by(way).meet(left.minus(right))?;
    IntCase::with(
        way,
        exact.plus(right).part_of(a),
        left.minus(exact).part_of(b),
        wrapped(way, exact),
        Few::one(difference_row(way)),
    )
}

/// The ints that exact results are wrapped to in this way.
fn wrapped(way: Way, exact: Span) -> Option<Interval>
    ensures { result ≡ meet_of all_ints (wrapped_by way exact) }
{
    let all = Interval::new(i32::MIN, i32::MAX)?;
    exact.minus(Span::turn(way)).part_of(all)
}

/// The row that says that the result is the sum of the operands, wrapped in this way.
fn sum_row(way: Way) -> ShortRow
    ensures { result ≡ sum_row way }
{
    match way {
        Way::Over => ShortRow::is_zero(-1, -1, 1, 4_294_967_296),
        Way::Under => ShortRow::is_zero(-1, -1, 1, -4_294_967_296),
        _ => ShortRow::is_zero(-1, -1, 1, 0),
    }
}

/// The row that says that the result is the difference of the operands, wrapped in this way.
fn difference_row(way: Way) -> ShortRow
    ensures { result ≡ difference_row way }
{
    match way {
        Way::Over => ShortRow::is_zero(-1, 1, 1, 4_294_967_296),
        Way::Under => ShortRow::is_zero(-1, 1, 1, -4_294_967_296),
        _ => ShortRow::is_zero(-1, 1, 1, 0),
    }
}
