//! Cases of an operation on abstract ints.
ghost use Rattle.std.specs.Prelude.{◌≡◌};
ghost use Rattle.abs_ints.specs.Cases.{case_between, case_with, inside, at_least_zero, is_zero};

use crate::few::Few;
use lin_core::{Interval, RowKind};

/// Where the machine goes on after an operation on ints.
#[derive(Clone, Copy, PartialEq, Eq)]
pub enum Way {
    /// The operator gives a result. For a sum or a difference, the exact one is an int.
    Inside,
    /// The exact sum or difference is above all ints, and the result is 2^32 below it.
    Over,
    /// The exact sum or difference is below all ints, and the result is 2^32 above it.
    Under,
    /// The divisor is 0, and there is no result.
    Zero,
    /// The condition holds.
    Taken,
    /// The condition does not hold.
    Next,
}

/// Something known of the two operands and the result: a sum of multiples of them and a constant is as the kind says.
#[derive(Clone, Copy, PartialEq, Eq)]
pub struct ShortRow {
    /// What is known of the sum.
    pub kind: RowKind,
    /// The multiple of the left operand.
    pub left: i64,
    /// The multiple of the right operand.
    pub right: i64,
    /// The multiple of the result.
    pub result: i64,
    /// The constant that is added.
    pub constant: i64,
}

impl ShortRow {
    /// The sum of these multiples and the constant is at least 0.
    pub(crate) fn at_least_zero(
        left: i64,
        right: i64,
        result_multiple: i64,
        constant: i64,
    ) -> ShortRow
        ensures { result ≡ at_least_zero left right result_multiple constant }
    {
        ShortRow {
            kind: RowKind::AtLeastZero,
            left,
            right,
            result: result_multiple,
            constant,
        }
    }

    /// The sum of these multiples and the constant is 0.
    pub(crate) fn is_zero(left: i64, right: i64, result_multiple: i64, constant: i64) -> ShortRow
        ensures { result ≡ is_zero left right result_multiple constant }
    {
        ShortRow {
            kind: RowKind::IsZero,
            left,
            right,
            result: result_multiple,
            constant,
        }
    }
}

/// One case of an operation on two abstract ints.
#[derive(Drop)]
pub struct IntCase {
    /// What the left operand is narrowed to.
    pub left: Interval,
    /// What the right operand is narrowed to.
    pub right: Interval,
    /// Where the result lies. None where there is no new result: after a comparison, a division by 0, and a narrowing
    /// that leaves its operand as it is.
    pub result: Option<Interval>,
    /// What is known of the operands and the result.
    pub rows: Few<ShortRow>,
    /// Where the machine goes on.
    pub way: Way,
}

impl IntCase {
    /// The case without a result, or None where an operand's interval is empty.
    pub(crate) fn between(
        way: Way,
        left: Option<Interval>,
        right: Option<Interval>,
        rows: Few<ShortRow>,
    ) -> Option<IntCase>
        ensures { result ≡ case_between way left right rows }
    {
        Some(IntCase {
            left: left?,
            right: right?,
            result: None,
            rows,
            way,
        })
    }

    /// The case with a result, or None where one of the three intervals is empty.
    pub(crate) fn with(
        way: Way,
        left: Option<Interval>,
        right: Option<Interval>,
        result_in: Option<Interval>,
        rows: Few<ShortRow>,
    ) -> Option<IntCase>
        ensures { result ≡ case_with way left right result_in rows }
    {
        Some(IntCase {
            left: left?,
            right: right?,
            result: Some(result_in?),
            rows,
            way,
        })
    }

    /// The case of an operator that leaves its operands as they are, or None where the result's interval is empty.
    pub(crate) fn inside(
        a: Interval,
        b: Interval,
        result_in: Option<Interval>,
        rows: Few<ShortRow>,
    ) -> Option<IntCase>
        ensures { result ≡ inside a b result_in rows }
    {
        IntCase::with(Way::Inside, Some(a), Some(b), result_in, rows)
    }
}
