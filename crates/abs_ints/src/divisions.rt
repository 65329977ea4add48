//! Quotients and remainders of abstract ints.
ghost use Rattle.std.specs.Prelude.{◌≡◌, ◌-◌, ◌-ℤ◌, ◌≤ℤ◌, pos, negsuc, neg_ℤ, if◌then◌else◌};
ghost use Rattle.std.specs.Ordering.{int_eq};
ghost use Rattle.std.specs.Option.{option_and_then};
ghost use Rattle.abs_ints.specs.Divisions.{divisors_of, are_positive, size_of, zero_case, least_quotient, greatest_quotient};
ghost use Rattle.abs_ints.specs.Divisions.{may_wrap, quotients_of, quotient_rows, quotient_cases, least_remainder};
ghost use Rattle.abs_ints.specs.Divisions.{greatest_remainder, remainders_of, dividend_rows, remainder_rows, remainder_cases};
ghost use Rattle.abs_ints.specs.Cases.{inside, at_least_zero};

use crate::cases::{IntCase, ShortRow, Way};
use crate::few::Few;
use crate::int_intervals::{all, is_natural, is_single};
use crate::span::Wide;
use lin_core::{Interval, RowKind};

/// The cases of a quotient: by the divisors that are not 0, then by 0.
pub(crate) fn quotients(a: Interval, b: Interval) -> Few<IntCase>
    ensures { result ≡ quotient_cases a b }
{
    Few::of(quotient_case(a, b), zero_case(a, b), None)
}

/// The case of a quotient by a divisor that is not 0.
fn quotient_case(a: Interval, b: Interval) -> Option<IntCase>
    ensures { result ≡ option_and_then (λ d. inside a d (quotients_of a d) (quotient_rows a b d)) (divisors_of b) }
{
    let divisors = divisors(b)?;
    IntCase::inside(
        a,
        divisors,
        quotients_in(a, divisors),
        quotient_rows(a, b, divisors),
    )
}

/// The cases of a remainder: by the divisors that are not 0, then by 0.
pub(crate) fn remainders(a: Interval, b: Interval) -> Few<IntCase>
    ensures { result ≡ remainder_cases a b }
{
    Few::of(remainder_case(a, b), zero_case(a, b), None)
}

/// The case of a remainder by a divisor that is not 0.
fn remainder_case(a: Interval, b: Interval) -> Option<IntCase>
    ensures { result ≡ option_and_then (λ d. inside a d (remainders_of a d) (remainder_rows a d)) (divisors_of b) }
{
    let divisors = divisors(b)?;
    IntCase::inside(
        a,
        divisors,
        remainders_in(a, divisors),
        remainder_rows(a, divisors),
    )
}

/// The divisors without 0 where it is an end, or None where there are no others.
fn divisors(b: Interval) -> Option<Interval>
    ensures { result ≡ divisors_of b }
{
    Interval::new(least_divisor(b), greatest_divisor(b))
}

/// The least divisor, or 1 where that is 0.
fn least_divisor(b: Interval) -> i32
    ensures { result ≡ (if int_eq b.lo (pos 0) then pos 1 else b.lo) }
{
    let lo = b.lo();
    if lo == 0 { 1 } else { lo }
}

/// The greatest divisor, or -1 where that is 0.
fn greatest_divisor(b: Interval) -> i32
    ensures { result ≡ (if int_eq b.hi (pos 0) then negsuc 0 else b.hi) }
{
    let hi = b.hi();
    if hi == 0 { -1 } else { hi }
}

/// The division by 0, or None where 0 is no divisor.
pub(crate) fn zero_case(a: Interval, b: Interval) -> Option<IntCase>
    ensures { result ≡ zero_case a b }
{
    let zero = Interval::new(0, 0)?;
    IntCase::between(Way::Zero, Some(a), b.meet(zero), Few::none())
}

/// Whether all divisors are above 0.
fn are_positive(d: Interval) -> bool
    ensures { result ≡ are_positive d }
{
    1 <= d.lo()
}

/// The greatest size of an int of an interval.
fn size(a: Interval) -> u32
    ensures { result ≡ size_of a }
{
    a.lo().unsigned_abs().max(a.hi().unsigned_abs())
}

/// Where the quotients lie.
fn quotients_in(a: Interval, d: Interval) -> Option<Interval>
    ensures { result ≡ quotients_of a d }
{
    if are_positive(d) {
        Interval::new(least_quotient(a, d), greatest_quotient(a, d))
    } else if may_wrap(a, d) {
        all()
    } else {
        up_to_size(a).part_of(all()?)
    }
}

/// The numbers that are no greater in size than an int of `a`.
fn up_to_size(a: Interval) -> Wide
    ensures { result ≡ record { lo = neg_ℤ (pos (size_of a)); hi = pos (size_of a) } }
{
    let size = i64::from(size(a));
    Wide::new(-size, size)
}

/// Whether the least int is divided by -1.
fn may_wrap(a: Interval, d: Interval) -> bool
    ensures { result ≡ may_wrap a d }
{
    a.lo() == i32::MIN && d.lo() <= -1 && -1 <= d.hi()
}

/// The least quotient, by divisors above 0.
fn least_quotient(a: Interval, d: Interval) -> i32
    requires { pos 1 ≤ℤ d.lo }
    ensures { result ≡ least_quotient a.lo d }
{
    let lo = a.lo();
    if lo < 0 { lo / d.lo() } else { lo / d.hi() }
}

/// The greatest quotient, by divisors above 0.
fn greatest_quotient(a: Interval, d: Interval) -> i32
    requires { pos 1 ≤ℤ d.lo }
    ensures { result ≡ greatest_quotient a.hi d }
{
    let hi = a.hi();
    if hi < 0 { hi / d.hi() } else { hi / d.lo() }
}

/// The rows of a quotient.
fn quotient_rows(a: Interval, b: Interval, d: Interval) -> Few<ShortRow>
    ensures { result ≡ quotient_rows a b d }
{
    if !(are_positive(d) && is_natural(a)) {
        Few::none()
    } else if is_single(b) {
        Few::two(least_divisor_row(d), divisor_row(b))
    } else {
        Few::one(least_divisor_row(d))
    }
}

/// The row that says that the least divisor times the result is at most the dividend.
fn least_divisor_row(d: Interval) -> ShortRow
    ensures { result ≡ at_least_zero (pos 1) (pos 0) (neg_ℤ d.lo) (pos 0) }
{
    ShortRow {
        kind: RowKind::AtLeastZero,
        left: 1,
        right: 0,
        result: -i64::from(d.lo()),
        constant: 0,
    }
}

/// The row that says that the one divisor times the result is above the dividend less the divisor.
fn divisor_row(b: Interval) -> ShortRow
    ensures { result ≡ at_least_zero (negsuc 0) (pos 0) b.lo (b.lo -ℤ pos 1) }
{
    let divisor = i64::from(b.lo());
    ShortRow {
        kind: RowKind::AtLeastZero,
        left: -1,
        right: 0,
        result: divisor,
        constant: divisor - 1,
    }
}

/// Where the remainders lie.
fn remainders_in(a: Interval, d: Interval) -> Option<Interval>
    ensures { result ≡ remainders_of a d }
{
    let size = size(d).saturating_sub(1);
    Interval::new(least_remainder(a, size), greatest_remainder(a, size))
}

/// The least remainder of at most that size.
fn least_remainder(a: Interval, size: u32) -> i32
    ensures { result ≡ least_remainder a.lo size }
{
    let lo = a.lo();
    if lo < 0 {
        i64::from(lo).max(-i64::from(size)) as i32
    } else {
        0
    }
}

/// The greatest remainder of at most that size.
fn greatest_remainder(a: Interval, size: u32) -> i32
    ensures { result ≡ greatest_remainder a.hi size }
{
    let hi = a.hi();
    if hi < 0 {
        0
    } else {
        i64::from(hi).min(i64::from(size)) as i32
    }
}

/// The row that says that the result is at most the dividend, where no dividend is below 0.
pub(crate) fn dividend_rows(a: Interval) -> Few<ShortRow>
    ensures { result ≡ dividend_rows a }
{
    if is_natural(a) {
        Few::one(ShortRow::at_least_zero(1, 0, -1, 0))
    } else {
        Few::none()
    }
}

/// The rows of a remainder.
fn remainder_rows(a: Interval, d: Interval) -> Few<ShortRow>
    ensures { result ≡ remainder_rows a d }
{
    if !are_positive(d) {
        Few::none()
    } else if is_natural(a) {
        Few::two(
            ShortRow::at_least_zero(0, 1, -1, -1),
            ShortRow::at_least_zero(1, 0, -1, 0),
        )
    } else {
        Few::one(ShortRow::at_least_zero(0, 1, -1, -1))
    }
}
