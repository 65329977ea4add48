//! Narrowings of abstract ints.
ghost use Rattle.std.specs.Prelude.{◌≡◌};
ghost use Rattle.abs_ints.specs.Narrowings.{are_of_kind, narrow_cases};

use crate::cases::{IntCase, Way};
use crate::few::Few;
use jvm_values::Kind;
use lin_core::Interval;

/// The case of a narrowing to a kind.
pub(crate) fn narrowings(kind: Kind, a: Interval, b: Interval) -> Few<IntCase>
    ensures { result ≡ narrow_cases kind a b }
{
    if are_of_kind(kind, a) {
        Few::maybe(IntCase::between(Way::Inside, Some(a), Some(b), Few::none()))
    } else {
        Few::maybe(IntCase::inside(
            a,
            b,
            Interval::new(kind.least(), kind.greatest()),
            Few::none(),
        ))
    }
}

/// Whether all numbers of an interval are of a kind.
fn are_of_kind(kind: Kind, a: Interval) -> bool
    ensures { result ≡ are_of_kind kind a }
{
    kind.least() <= a.lo() && a.hi() <= kind.greatest()
}
