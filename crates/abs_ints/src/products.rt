//! Products of abstract ints.
ghost use Rattle.std.specs.Prelude.{◌≡◌, [], if◌then◌else◌};
ghost use Rattle.abs_ints.specs.IntIntervals.{are_ints};
ghost use Rattle.abs_ints.specs.Products.{times_left, times_right, factor_rows, product_cases};

use crate::cases::{IntCase, ShortRow};
use crate::few::Few;
use crate::int_intervals::is_single;
use crate::span::Wide;
use lin_core::{Interval, RowKind};

/// The case of a product.
pub(crate) fn products(a: Interval, b: Interval) -> Few<IntCase>
    ensures { result ≡ product_cases a b }
{
    let hull = Wide::hull(a, b);
    Few::maybe(IntCase::inside(a, b, hull.ints_or_all(), rows(hull, a, b)))
}

/// The row, where no product is wrapped.
fn rows(hull: Wide, a: Interval, b: Interval) -> Few<ShortRow>
    ensures { result ≡ (if are_ints hull then factor_rows a b else []) }
{
    if hull.are_ints() {
        factor_rows(a, b)
    } else {
        Few::none()
    }
}

/// The row that says the product, where one operand is a single number.
fn factor_rows(a: Interval, b: Interval) -> Few<ShortRow>
    ensures { result ≡ factor_rows a b }
{
    if is_single(b) {
        Few::one(times_left(b))
    } else if is_single(a) {
        Few::one(times_right(a))
    } else {
        Few::none()
    }
}

/// The row that says that the result is the least number of `b` times the left operand.
fn times_left(b: Interval) -> ShortRow
    ensures { result ≡ times_left b.lo }
{
    ShortRow {
        kind: RowKind::IsZero,
        left: -i64::from(b.lo()),
        right: 0,
        result: 1,
        constant: 0,
    }
}

/// The row that says that the result is the least number of `a` times the right operand.
fn times_right(a: Interval) -> ShortRow
    ensures { result ≡ times_right a.lo }
{
    ShortRow {
        kind: RowKind::IsZero,
        left: 0,
        right: -i64::from(a.lo()),
        result: 1,
        constant: 0,
    }
}
