//! The rank steps of plain forms of systems.
ghost use Rattle.std.specs.Prelude.{◌≡◌, ◌≤◌, ◌+◌, ◌^◌, ◌-ℤ◌, ◌*ℤ◌, pos, length, true, Some, IfOk, map, unsigned_abs};
ghost use Rattle.std.specs.List.{All};
ghost use Rattle.lin_core.specs.Weights.{AreRows};
ghost use Rattle.rank_forms.specs.RankSteps.{IsRankStep};
ghost use Rattle.its_front.specs.Systems.{IsSystemRule};
ghost use Rattle.its_call.specs.its_search.Changes.{IsUnit, IsUnitTerm};
ghost use Rattle.its_call.specs.its_search.Forms.{IsPlainForm, ranks};
ghost use Rattle.its_call.specs.its_search.inner.Tried.{IsCounted};
ghost use Rattle.its_call.specs.its_search.inner.Following.{IsFit, follow_each, first_coefficient, reason_from, reasons_of, bound_from};
ghost use Rattle.its_call.specs.its_search.inner.Following.{followed_of, part_of};

use crate::its_search::changes::{change_of_row, form_change};
use crate::its_search::plain_forms::is_bound;
use descent::{PathRule, Place, RankStep, WRow};
use list_views::Seq;
use rank_forms::{Bound, Followed, forms_of, list_all, needed, or_zero};
use std::alloc::{AllocError, Global};

/// The coefficient of the first term.
fn first_coefficient(terms: &[(u32, i64)]) -> i64
    ensures { result ≡ first_coefficient terms.now }
{
    match terms.split_first() {
        Some((term, _)) => term.1,
        None => 0,
    }
}

/// A number that is 1 or -1, or its negative.
fn unit_times(times: &i64, number: &i64) -> i64
    requires times { IsUnit times.now }
    requires number { IsUnit number.now }
    ensures { result ≡ times.now *ℤ number.now }
{
    if *times == 1 { *number } else { 0 - *number }
}

/// The row that says how much a variable changes, with its multiplier.
#[tactic(auto, using(crate::proofs::Reasons::unit_first))]
fn reason_of(count: u32, rows: &[WRow], term: &(u32, i64)) -> Option<(u32, i64)>
    requires few { count ≤ 256 }
    requires term { IsUnitTerm count term.now }
    requires rows { AreRows (count + count) rows.now }
    requires short { length rows.now ≤ 65536 }
    ensures { result ≡ reason_from count term.now 0 rows.now }
{
    for (n, row) in rows.iter().enumerate() {
        if change_of_row(count, term.0, row).is_some() {
            let first = first_coefficient(row.terms.as_slice());
            return Some((n as u32, unit_times(&term.1, &first)));
        }
    }
    None
}

/// The rows that say how much a form changes, with their multipliers.
#[tactic(auto, using(crate::proofs::Plain::begins, crate::proofs::Plain::goes_on, crate::proofs::Plain::stops))]
fn reasons_of(
    alloc: Global,
    count: u32,
    rows: &[WRow],
    form: &[(u32, i64)],
) -> Result<Option<Seq<(u32, i64)>>, AllocError>
    requires few { count ≤ 256 }
    requires units { All (IsUnitTerm count) form.now }
    requires rows { AreRows (count + count) rows.now }
    requires short { length rows.now ≤ 65536 }
    ensures { IfOk result (λ reasons. reasons ≡ reasons_of count rows.now form.now) }
{
    let mut reasons = Seq::new(alloc);
    for term in form {
        match reason_of(count, rows, term) {
            Some(reason) => reasons.push(reason)?,
            None => return Ok(None),
        }
    }
    Ok(Some(reasons))
}

/// A row that bounds a form, by number.
fn bound_of(alloc: Global, form: &[(u32, i64)], rows: &[WRow]) -> Result<Option<Bound>, AllocError>
    requires { length rows.now ≤ 65536 }
    ensures { IfOk result (λ bound. bound ≡ bound_from form.now 0 rows.now) }
{
    for (n, row) in rows.iter().enumerate() {
        if is_bound(form, row) {
            return Ok(Some(Bound {
                rows: Seq::from_slice(alloc, &[(n as u32, 1)])?,
                base: row.constant,
            }));
        }
    }
    Ok(None)
}

/// What falls by so much, where it changes so.
fn opposite(change: &i64) -> i64
    requires { unsigned_abs change.now ≤ 2 ^ 41 }
    ensures { result ≡ pos 0 -ℤ change.now }
{
    0 - *change
}

/// What a form falls by along a rule, with the rows that show it.
#[tactic(auto, using(crate::proofs::Plain::plain_units, crate::proofs::Plain::plain_short))]
fn followed_of(
    alloc: Global,
    count: u32,
    form: &[(u32, i64)],
    rule: &PathRule,
) -> Result<Option<Followed>, AllocError>
    requires few { count ≤ 256 }
    requires plain { IsPlainForm count form.now }
    requires rule { IsSystemRule count rule.now }
    ensures { IfOk result (λ followed. followed ≡ followed_of count form.now rule.now.rows) }
{
    let rows = rule.rows.as_slice();
    let Some(change) = form_change(count, rows, form) else {
        return Ok(None);
    };
    let Some(fall) = reasons_of(alloc, count, rows, form)? else {
        return Ok(None);
    };
    let bound = bound_of(alloc, form, rows)?;
    Ok(Some(Followed {
        falls: opposite(&change),
        fall,
        bound,
    }))
}

/// The same along a rule on which the form never rises.
#[tactic(auto, using(crate::proofs::Shown::is_followed))]
fn followed_along(
    alloc: Global,
    count: u32,
    form: &[(u32, i64)],
    rule: &PathRule,
) -> Result<Followed, AllocError>
    requires few { count ≤ 256 }
    requires plain { IsPlainForm count form.now }
    requires rule { IsSystemRule count rule.now }
    requires fits { IsFit count form.now rule.now }
    ensures { IfOk result (λ followed. followed_of count form.now rule.now.rows ≡ Some followed) }
{
    match followed_of(alloc, count, form, rule)? {
        Some(followed) => Ok(followed),
        None => unreachable!(),
    }
}

/// The same along each of the rules.
#[tactic(auto, using(crate::proofs::Plain::begins, crate::proofs::Plain::goes_on))]
fn follow_all(
    alloc: Global,
    count: u32,
    form: &[(u32, i64)],
    rules: &[PathRule],
) -> Result<Seq<Followed>, AllocError>
    requires plain { IsPlainForm count form.now }
    requires rules { IsCounted rules.now count }
    requires fits { All (IsFit count form.now) rules.now }
    ensures { IfOk result (λ all. follow_each count form.now rules.now ≡ Some all) }
{
    let mut all = Seq::new(alloc);
    for rule in rules {
        all.push(followed_along(alloc, count, form, rule)?)?;
    }
    Ok(all)
}

/// The places of a form's variables, with their coefficients.
fn parts_of(alloc: Global, form: &[(u32, i64)]) -> Result<Seq<(Place, i64)>, AllocError>
    ensures { IfOk result (λ parts. parts ≡ map part_of form.now) }
{
    let mut parts = Seq::with_capacity(alloc, form.len())?;
    for term in form {
        let place = Place {
            frame: 0,
            stack: false,
            index: term.0,
        };
        parts.push((place, term.1))?;
    }
    Ok(parts)
}

/// The rank step of a plain form that ranks the rules.
///
/// # Errors
///
/// Want of memory.
#[tactic(auto, using(crate::proofs::Shown::step_is, crate::proofs::Shown::all_fit_of))]
pub(crate) fn step_of(
    alloc: Global,
    count: u32,
    rules: &[PathRule],
    form: &[(u32, i64)],
) -> Result<RankStep, AllocError>
    requires some { length rules.now ≤ 4096 }
    requires rules { IsCounted rules.now count }
    requires plain { IsPlainForm count form.now }
    requires ranks { ranks count rules.now form.now ≡ true }
    ensures { IfOk result (IsRankStep rules.now) }
{
    let all = follow_all(alloc, count, form, rules)?;
    let constant = or_zero(needed(all.as_slice()));
    let parts = parts_of(alloc, form)?;
    let forms = forms_of(alloc, rules, false, parts.as_slice(), &constant)?;
    let listed = list_all(alloc, all.as_slice())?;
    Ok(RankStep {
        size: false,
        weights: Seq::new(alloc),
        forms,
        rules: listed,
    })
}
