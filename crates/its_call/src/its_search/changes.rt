//! How much variables, and forms of them, change along a rule.
ghost use Rattle.std.specs.Prelude.{◌≡◌, ◌<◌, ◌≤◌, ◌^◌, ◌+◌, ◌*◌, length, IfSome, unsigned_abs};
ghost use Rattle.std.specs.List.{All};
ghost use Rattle.lin_core.specs.Weights.{AreRows};
ghost use Rattle.its_call.specs.its_search.Changes.{change_by, change_in, change_of_row, change_of, added, form_change, IsUnit, IsUnitTerm};

use descent::{RowKind, WRow};

/// What two coefficients and a constant say of the change of a variable.
fn change_by(one: &i64, other: &i64, constant: &i64) -> Option<i64>
    requires { unsigned_abs constant.now ≤ 2 ^ 40 }
    ensures change { result ≡ change_by one.now other.now constant.now }
    ensures small { IfSome result (λ change. unsigned_abs change ≤ 2 ^ 40) }
{
    if *one == -1 && *other == 1 {
        Some(0 - *constant)
    } else if *one == 1 && *other == -1 {
        Some(*constant)
    } else {
        None
    }
}

/// What two terms and a constant say of the change of a variable.
fn change_in(count: u32, variable: u32, terms: &[(u32, i64)], constant: &i64) -> Option<i64>
    requires few { count ≤ 256 }
    requires one { variable < count }
    requires constant { unsigned_abs constant.now ≤ 2 ^ 40 }
    ensures change { result ≡ change_in count variable terms.now constant.now }
    ensures small { IfSome result (λ change. unsigned_abs change ≤ 2 ^ 40) }
{
    let (one, rest) = terms.split_first()?;
    let (other, more) = rest.split_first()?;
    if more.is_empty() && one.0 == variable && other.0 == count + variable {
        change_by(&one.1, &other.1, constant)
    } else {
        None
    }
}

/// What a row says of the change of a variable, if it is an equation of this variable alone, before the rule and after it.
pub(crate) fn change_of_row(count: u32, variable: u32, row: &WRow) -> Option<i64>
    requires few { count ≤ 256 }
    requires one { variable < count }
    requires constant { unsigned_abs row.now.constant ≤ 2 ^ 40 }
    ensures change { result ≡ change_of_row count variable row.now.kind row.now.terms row.now.constant }
    ensures small { IfSome result (λ change. unsigned_abs change ≤ 2 ^ 40) }
{
    match row.kind {
        RowKind::AtLeastZero => None,
        RowKind::IsZero => change_in(count, variable, row.terms.as_slice(), &row.constant),
    }
}

/// The change of a variable by the first row that says it.
fn change_of(count: u32, variable: u32, rows: &[WRow]) -> Option<i64>
    requires few { count ≤ 256 }
    requires one { variable < count }
    requires rows { AreRows (count + count) rows.now }
    ensures change { result ≡ change_of count variable rows.now }
    ensures small { IfSome result (λ change. unsigned_abs change ≤ 2 ^ 40) }
{
    for row in rows {
        if let Some(change) = change_of_row(count, variable, row) {
            return Some(change);
        }
    }
    None
}

/// So many times a change, and another one.
fn added(times: &i64, change: Option<i64>, rest: Option<i64>) -> Option<i64>
    requires unit { IsUnit times.now }
    requires change { IfSome change (λ c. unsigned_abs c ≤ 2 ^ 40) }
    requires rest { IfSome rest (λ c. unsigned_abs c ≤ 2 ^ 41) }
    ensures sum { result ≡ added times.now change rest }
    ensures small { IfSome rest (λ r. IfSome result (λ c. unsigned_abs c ≤ unsigned_abs r + 2 ^ 40)) }
{
    let change = change?;
    let rest = rest?;
    if *times == 1 {
        Some(change + rest)
    } else {
        Some(rest - change)
    }
}

/// The change of a form of at most two terms.
#[tactic(auto, using(crate::proofs::Plain::first_unit, crate::proofs::Plain::other_units))]
pub(crate) fn form_change(count: u32, rows: &[WRow], form: &[(u32, i64)]) -> Option<i64>
    requires few { count ≤ 256 }
    requires units { All (IsUnitTerm count) form.now }
    requires short { length form.now ≤ 2 }
    requires rows { AreRows (count + count) rows.now }
    ensures change { result ≡ form_change count rows.now form.now }
    ensures small { IfSome result (λ change. unsigned_abs change ≤ length form.now * 2 ^ 40) }
{
    match form.split_first() {
        None => Some(0),
        Some((term, rest)) => added(
            &term.1,
            change_of(count, term.0, rows),
            form_change(count, rows, rest),
        ),
    }
}
