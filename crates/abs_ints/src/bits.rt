//! Operators on the bits of abstract ints.
ghost use Rattle.std.specs.Prelude.{◌≡◌, pos};
ghost use Rattle.std.specs.Int.{int_max};
ghost use Rattle.abs_ints.specs.IntIntervals.{all_ints, meet_of};
ghost use Rattle.abs_ints.specs.Bits.{and_case, and_cases, ones_over, or_cases, xor_cases};

use crate::cases::{IntCase, ShortRow};
use crate::few::Few;
use crate::int_intervals::{all, is_natural};
use crate::span::Wide;
use lin_core::Interval;

/// The case of the bits that both have.
pub(crate) fn ands(a: Interval, b: Interval) -> Few<IntCase>
    ensures { result ≡ and_cases a b }
{
    Few::maybe(and_case(a, b))
}

/// The same as an option.
fn and_case(a: Interval, b: Interval) -> Option<IntCase>
    ensures { result ≡ and_case a b }
{
    let below_left = ShortRow::at_least_zero(1, 0, -1, 0);
    let below_right = ShortRow::at_least_zero(0, 1, -1, 0);
    if is_natural(a) && is_natural(b) {
        IntCase::inside(
            a,
            b,
            Interval::new(0, a.hi().min(b.hi())),
            Few::two(below_left, below_right),
        )
    } else if is_natural(a) {
        IntCase::inside(a, b, Interval::new(0, a.hi()), Few::one(below_left))
    } else if is_natural(b) {
        IntCase::inside(a, b, Interval::new(0, b.hi()), Few::one(below_right))
    } else {
        IntCase::inside(a, b, all(), Few::none())
    }
}

/// The number that is all ones and as long as the longer of the greatest ints.
fn ones_over(a: Interval, b: Interval) -> i64
    ensures { result ≡ ones_over a b }
{
    let longer = a.hi().max(b.hi()).cast_unsigned();
    let length = 32 - longer.leading_zeros();
    ((1u64 << length) - 1) as i64
}

/// The greater of the least ints.
fn greater_low(a: Interval, b: Interval) -> i64
    ensures { result ≡ int_max a.lo b.lo }
{
    i64::from(a.lo().max(b.lo()))
}

/// The ints from the greater of the least ints to that number.
fn or_interval(a: Interval, b: Interval) -> Option<Interval>
    ensures { result ≡ meet_of all_ints (record { lo = int_max a.lo b.lo; hi = ones_over a b }) }
{
    Wide::new(greater_low(a, b), ones_over(a, b)).part_of(all()?)
}

/// The ints from 0 to that number.
fn xor_interval(a: Interval, b: Interval) -> Option<Interval>
    ensures { result ≡ meet_of all_ints (record { lo = pos 0; hi = ones_over a b }) }
{
    Wide::new(0, ones_over(a, b)).part_of(all()?)
}

/// The case of the bits that one of them has.
pub(crate) fn ors(a: Interval, b: Interval) -> Few<IntCase>
    ensures { result ≡ or_cases a b }
{
    if is_natural(a) && is_natural(b) {
        let rows = Few::two(
            ShortRow::at_least_zero(-1, 0, 1, 0),
            ShortRow::at_least_zero(0, -1, 1, 0),
        );
        Few::maybe(IntCase::inside(a, b, or_interval(a, b), rows))
    } else {
        Few::maybe(IntCase::inside(a, b, all(), Few::none()))
    }
}

/// The case of the bits that exactly one of them has.
pub(crate) fn xors(a: Interval, b: Interval) -> Few<IntCase>
    ensures { result ≡ xor_cases a b }
{
    if is_natural(a) && is_natural(b) {
        Few::maybe(IntCase::inside(a, b, xor_interval(a, b), Few::none()))
    } else {
        Few::maybe(IntCase::inside(a, b, all(), Few::none()))
    }
}
