//! Comparisons of two abstract ints.
ghost use Rattle.std.specs.Prelude.{◌≡◌, ℤ, true};
ghost use Rattle.std.specs.List.{Any};
ghost use Rattle.lin_core.specs.Intervals.{IsIn};
ghost use Rattle.abs_ints.specs.Comparing.{compared, cases_between, cases_of_one, FallsBetween};

use crate::cases::{IntCase, Way};
use crate::few::Few;
use crate::relations::Relation;
use jvm_values::Cond;
use lin_core::Interval;

/// The cases of a condition between an int of `a` and one of `b`: the relations that it consists of, then those that
/// break it, each where it is possible (JVM specification, section 6.5, `if_icmp<cond>`). A case narrows both intervals
/// to what the relation allows, and its row says the relation. With `same` both are one int, and the one case says
/// nothing more of it.
pub fn compare(cond: Cond, same: bool, a: Interval, b: Interval) -> Few<IntCase>
    ensures table { result ≡ compared cond same a b }
    ensures covers { (left right : ℤ) → IsIn left a → IsIn right b → (same ≡ true → left ≡ right)
        → Any (FallsBetween cond left right) result }
{
    cases(cond, same, a, b)
}

/// The cases of the table.
fn cases(cond: Cond, same: bool, a: Interval, b: Interval) -> Few<IntCase>
    ensures { result ≡ compared cond same a b }
{
    if same {
        case_of_one(cond, a, b)
    } else {
        cases_between(cond, a, b)
    }
}

/// The cases between two ints.
fn cases_between(cond: Cond, a: Interval, b: Interval) -> Few<IntCase>
    ensures { result ≡ cases_between cond a b }
{
    match cond {
        Cond::Eq => Few::of(
            Relation::Equal.case(Way::Taken, a, b),
            Relation::Below.case(Way::Next, a, b),
            Relation::Above.case(Way::Next, a, b),
        ),
        Cond::Ne => Few::of(
            Relation::Below.case(Way::Taken, a, b),
            Relation::Above.case(Way::Taken, a, b),
            Relation::Equal.case(Way::Next, a, b),
        ),
        Cond::Lt => Few::of(
            Relation::Below.case(Way::Taken, a, b),
            Relation::AtLeast.case(Way::Next, a, b),
            None,
        ),
        Cond::Ge => Few::of(
            Relation::AtLeast.case(Way::Taken, a, b),
            Relation::Below.case(Way::Next, a, b),
            None,
        ),
        Cond::Gt => Few::of(
            Relation::Above.case(Way::Taken, a, b),
            Relation::AtMost.case(Way::Next, a, b),
            None,
        ),
        Cond::Le => Few::of(
            Relation::AtMost.case(Way::Taken, a, b),
            Relation::Above.case(Way::Next, a, b),
            None,
        ),
    }
}

/// The one case between an int and itself.
fn case_of_one(cond: Cond, a: Interval, b: Interval) -> Few<IntCase>
    ensures { result ≡ cases_of_one cond a b }
{
    Few::one(IntCase {
        left: a,
        right: b,
        result: None,
        rows: Few::none(),
        way: if cond.holds(0, 0) {
            Way::Taken
        } else {
            Way::Next
        },
    })
}
