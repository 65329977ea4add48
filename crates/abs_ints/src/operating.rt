//! Operators on abstract ints.
ghost use Rattle.std.specs.Prelude.{◌≡◌, ℤ};
ghost use Rattle.std.specs.List.{Any};
ghost use Rattle.lin_core.specs.Intervals.{IsIn};
ghost use Rattle.jvm_values.specs.Ints.{int_result};
ghost use Rattle.abs_ints.specs.Falling.{FallsUnder};
ghost use Rattle.abs_ints.specs.Operating.{operated, single_case};

use crate::bits::{ands, ors, xors};
use crate::cases::IntCase;
use crate::divisions::{quotients, remainders, zero_case};
use crate::few::Few;
use crate::int_intervals::is_single;
use crate::narrowings::narrowings;
use crate::products::products;
use crate::shifts::{left_shifts, right_shifts, zero_shifts};
use crate::sums::{differences, sums};
use jvm_values::IntOp;
use lin_core::Interval;

/// The cases of an operator on an int of `a` and one of `b` (JVM specification, section 6.5): with a result, wrapped from
/// above or from below where the operator is a sum or a difference, and the division by 0. Each narrows the operands to
/// what it allows, has the interval of the result, and rows that are known of the three. Two single ints are computed, but
/// for sums, differences and narrowings.
pub fn operate(op: IntOp, a: Interval, b: Interval) -> Few<IntCase>
    ensures table { result ≡ operated op a b }
    ensures covers { (left right : ℤ) → IsIn left a → IsIn right b → Any (FallsUnder op left right) result }
{
    let (_a_lo, _a_hi, _b_lo, _b_hi) = (a.lo(), a.hi(), b.lo(), b.hi());
    cases(op, a, b)
}

/// The cases of the table.
fn cases(op: IntOp, a: Interval, b: Interval) -> Few<IntCase>
    ensures { result ≡ operated op a b }
{
    match op {
        IntOp::Add => sums(a, b),
        IntOp::Sub => differences(a, b),
        IntOp::Narrow(kind) => narrowings(kind, a, b),
        _ if is_single(a) && is_single(b) => Few::maybe(single_case(op, a, b)),
        IntOp::Mul => products(a, b),
        IntOp::Div => quotients(a, b),
        IntOp::Rem => remainders(a, b),
        IntOp::Shl => left_shifts(a, b),
        IntOp::Shr => right_shifts(a, b),
        IntOp::Ushr => zero_shifts(a, b),
        IntOp::And => ands(a, b),
        IntOp::Or => ors(a, b),
        IntOp::Xor => xors(a, b),
    }
}

/// The case of two single ints: the machine's own result, or the division by 0.
fn single_case(op: IntOp, a: Interval, b: Interval) -> Option<IntCase>
    ensures { result ≡ single_case a b (int_result op a.lo b.lo) }
{
    match op.apply(a.lo(), b.lo()) {
        None => zero_case(a, b),
        Some(n) => IntCase::inside(a, b, Interval::new(n, n), Few::none()),
    }
}
