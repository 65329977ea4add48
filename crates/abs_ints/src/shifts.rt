//! Shifts of abstract ints.
ghost use Rattle.std.specs.Prelude.{◌≡◌, ◌-◌, ◌<◌, ◌^◌, ◌*ℤ◌, ◌-ℤ◌, ◌≤ℤ◌, neg_ℤ, pos, negsuc, [], ◌∷◌, if◌then◌else◌};
ghost use Rattle.jvm_values.specs.Ints.{shift_count};
ghost use Rattle.lin_core.specs.Intervals.{interval_of};
ghost use Rattle.abs_ints.specs.Cases.{at_least_zero};
ghost use Rattle.abs_ints.specs.Divisions.{dividend_rows};
ghost use Rattle.abs_ints.specs.IntIntervals.{are_ints, multiples_of};
ghost use Rattle.abs_ints.specs.Products.{times_left};
ghost use Rattle.abs_ints.specs.Shifts.{power_of, shift_left_cases, shifted_right_by, shifted_right_rows, shifted_right};
ghost use Rattle.abs_ints.specs.Shifts.{shift_right_case, shift_right_cases, zeros_case, shift_zeros_cases};

use crate::cases::{IntCase, ShortRow};
use crate::divisions::dividend_rows;
use crate::few::Few;
use crate::int_intervals::{all, is_natural, is_single};
use crate::span::Wide;
use lin_core::{Interval, RowKind};

/// How far the least number of `b` shifts: its low five bits.
fn count(b: Interval) -> u32
    ensures value { result ≡ shift_count b.lo }
    ensures below { result < 32 }
{
    b.lo().cast_unsigned() % 32
}

/// 2 to the power of `count`.
fn power(count: u32) -> i64
    requires { count < 32 }
    ensures value { result ≡ pos (2 ^ count) }
    ensures bound { result ≤ℤ pos 2147483648 }
{
    (1u64 << count) as i64
}

/// `x` times 2 to the power of `count`.
fn times_power(x: i32, count: u32) -> i64
    requires { count < 32 }
    ensures { result ≡ pos (2 ^ count) *ℤ x }
{
    power(count) * i64::from(x)
}

/// The ints of `a` times 2 to the power of how far the least number of `b` shifts.
fn shifted_left(a: Interval, b: Interval) -> Wide
    ensures { result ≡ multiples_of (power_of b) a }
{
    let count = count(b);
    let low = times_power(a.lo(), count);
    let high = times_power(a.hi(), count);
    Wide::new(low.min(high), low.max(high))
}

/// The case of a shift to the left: a product with a power of two, or anything where the power is not known.
pub(crate) fn left_shifts(a: Interval, b: Interval) -> Few<IntCase>
    ensures { result ≡ shift_left_cases a b }
{
    if is_single(b) {
        let shifted = shifted_left(a, b);
        Few::maybe(IntCase::inside(a, b, shifted.ints_or_all(), left_rows(shifted, b)))
    } else {
        Few::maybe(IntCase::inside(a, b, all(), Few::none()))
    }
}

/// The row of a shift to the left, where no product is wrapped.
fn left_rows(shifted: Wide, b: Interval) -> Few<ShortRow>
    ensures { result ≡ (if are_ints shifted then times_left (power_of b) ∷ [] else []) }
{
    if shifted.are_ints() {
        Few::one(power_row(b))
    } else {
        Few::none()
    }
}

/// The row that says that the result is the power times the left operand.
fn power_row(b: Interval) -> ShortRow
    ensures { result ≡ times_left (power_of b) }
{
    ShortRow {
        kind: RowKind::IsZero,
        left: -power(count(b)),
        right: 0,
        result: 1,
        constant: 0,
    }
}

/// The case of a shift to the right: a quotient by a power of two, rounded down.
pub(crate) fn right_shifts(a: Interval, b: Interval) -> Few<IntCase>
    ensures { result ≡ shift_right_cases a b }
{
    Few::maybe(right_shift(a, b))
}

/// The same as an option.
fn right_shift(a: Interval, b: Interval) -> Option<IntCase>
    ensures { result ≡ shift_right_case a b }
{
    if is_single(b) {
        IntCase::inside(a, b, shifted_right_by(a, count(b)), right_rows(b))
    } else {
        IntCase::inside(a, b, shifted_right(a), dividend_rows(a))
    }
}

/// Where a shift to the right by `count` leads.
fn shifted_right_by(a: Interval, count: u32) -> Option<Interval>
    requires { count < 32 }
    ensures { result ≡ shifted_right_by a count }
{
    Interval::new(a.lo() >> count, a.hi() >> count)
}

/// Where a shift to the right by any count leads.
fn shifted_right(a: Interval) -> Option<Interval>
    ensures { result ≡ shifted_right a }
{
    Interval::new(a.lo().min(0), a.hi().max(-1))
}

/// The rows of a shift to the right by a single count.
fn right_rows(b: Interval) -> Few<ShortRow>
    ensures { result ≡ shifted_right_rows (power_of b) }
{
    Few::two(low_row(b), high_row(b))
}

/// The row that says that the power times the result is at most the left operand.
fn low_row(b: Interval) -> ShortRow
    ensures { result ≡ at_least_zero (pos 1) (pos 0) (neg_ℤ (power_of b)) (pos 0) }
{
    ShortRow {
        kind: RowKind::AtLeastZero,
        left: 1,
        right: 0,
        result: -power(count(b)),
        constant: 0,
    }
}

/// The row that says that the power times the result is above the left operand less the power.
fn high_row(b: Interval) -> ShortRow
    ensures { result ≡ at_least_zero (negsuc 0) (pos 0) (power_of b) (power_of b -ℤ pos 1) }
{
    let power = power(count(b));
    ShortRow {
        kind: RowKind::AtLeastZero,
        left: -1,
        right: 0,
        result: power,
        constant: power - 1,
    }
}

/// The case of a shift to the right with zeros.
pub(crate) fn zero_shifts(a: Interval, b: Interval) -> Few<IntCase>
    ensures { result ≡ shift_zeros_cases a b }
{
    if is_natural(a) {
        Few::maybe(right_shift(a, b))
    } else if is_single(b) {
        Few::maybe(zeros_case(a, b, count(b)))
    } else {
        Few::maybe(IntCase::inside(a, b, all(), Few::none()))
    }
}

/// The case of a shift with zeros by `count`, where some left operand is below 0.
fn zeros_case(a: Interval, b: Interval, count: u32) -> Option<IntCase>
    requires { count < 32 }
    ensures { result ≡ zeros_case a b count }
{
    if count == 0 {
        IntCase::inside(a, b, Some(a), Few::one(ShortRow::is_zero(-1, 0, 1, 0)))
    } else {
        IntCase::inside(a, b, bits_left(count), Few::none())
    }
}

/// The ints whose highest `count` bits are 0.
fn bits_left(count: u32) -> Option<Interval>
    requires room { count < 32 }
    requires positive { 0 < count }
    ensures { result ≡ interval_of (pos 0) (pos (2 ^ (32 - count)) -ℤ pos 1) }
{
    let bits = 32 - count;
    Interval::new(0, ((1u64 << bits) - 1) as i32)
}
