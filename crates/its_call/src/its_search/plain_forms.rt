//! The search for plain forms of systems.
ghost use Rattle.std.specs.Prelude.{◌≡◌, ◌⊎◌, ◌<◌, ◌≤◌, ◌+◌, ◌∷◌, [], pos, negsuc, IfOk};
ghost use Rattle.std.specs.List.{All, list_all, list_any};
ghost use Rattle.lin_core.specs.Weights.{AreRows};
ghost use Rattle.its_front.specs.Systems.{IsSystemRule};
ghost use Rattle.its_call.specs.its_search.Changes.{form_change};
ghost use Rattle.its_call.specs.its_search.Forms.{IsPlainForm, same_terms, is_inequality, is_bound, has_bound, is_fall, falls, keeps, fits, ranks};
ghost use Rattle.its_call.specs.its_search.inner.Tried.{IsCounted, Tells, IsSingle, IsDifference, IsDifferenceFrom, BeginsWith, IsAny};

use crate::its_search::changes::form_change;
use descent::{PathRule, RowKind, WRow};
use list_views::Seq;
use std::alloc::{AllocError, Global};

/// Whether two forms are the same.
fn same_terms(one: &[(u32, i64)], other: &[(u32, i64)]) -> bool
    ensures { result ≡ same_terms one.now other.now }
{
    match one.split_first() {
        None => other.is_empty(),
        Some((term, rest)) => match other.split_first() {
            None => false,
            Some((again, more)) => {
                term.0 == again.0 && term.1 == again.1 && same_terms(rest, more)
            }
        },
    }
}

/// Whether a row says that something is at least 0.
fn is_inequality(kind: RowKind) -> bool
    ensures { result ≡ is_inequality kind }
{
    match kind {
        RowKind::AtLeastZero => true,
        RowKind::IsZero => false,
    }
}

/// Whether a row says that a constant plus the form is at least 0.
pub(crate) fn is_bound(form: &[(u32, i64)], row: &WRow) -> bool
    ensures { result ≡ is_bound form.now row.now }
{
    is_inequality(row.kind) && same_terms(row.terms.as_slice(), form)
}

/// Whether a row bounds the form.
fn has_bound(form: &[(u32, i64)], rows: &[WRow]) -> bool
    ensures { result ≡ has_bound form.now rows.now }
{
    rows.iter().any(|row| is_bound(form, row))
}

/// Whether a form falls that changes so.
pub(crate) fn is_fall(change: Option<i64>) -> bool
    ensures { result ≡ is_fall change }
{
    match change {
        None => false,
        Some(change) => !(0 <= change),
    }
}

/// Whether a form never rises that changes so.
fn keeps(change: Option<i64>) -> bool
    ensures { result ≡ keeps change }
{
    match change {
        None => false,
        Some(change) => change <= 0,
    }
}

/// Whether the form never rises on the rule.
#[tactic(auto, using(crate::proofs::Plain::plain_units, crate::proofs::Plain::plain_short))]
fn fits(count: u32, form: &[(u32, i64)], rule: &PathRule) -> bool
    requires few { count ≤ 256 }
    requires plain { IsPlainForm count form.now }
    requires rule { IsSystemRule count rule.now }
    ensures { result ≡ fits count form.now rule.now }
{
    keeps(form_change(count, rule.rows.as_slice(), form))
}

/// Whether the form falls on the rule, and a row bounds it.
#[tactic(auto, using(crate::proofs::Plain::plain_units, crate::proofs::Plain::plain_short))]
pub(crate) fn falls(count: u32, form: &[(u32, i64)], rule: &PathRule) -> bool
    requires few { count ≤ 256 }
    requires plain { IsPlainForm count form.now }
    requires rule { IsSystemRule count rule.now }
    ensures { result ≡ falls count form.now rule.now }
{
    let rows = rule.rows.as_slice();
    is_fall(form_change(count, rows, form)) && has_bound(form, rows)
}

/// Whether the form rises on none of the rules.
fn all_fit(count: u32, form: &[(u32, i64)], rules: &[PathRule]) -> bool
    requires plain { IsPlainForm count form.now }
    requires rules { IsCounted rules.now count }
    ensures { result ≡ list_all (fits count form.now) rules.now }
{
    for rule in rules {
        if !fits(count, form, rule) {
            return false;
        }
    }
    true
}

/// Whether the form falls on one of the rules, where a row bounds it.
fn some_falls(count: u32, form: &[(u32, i64)], rules: &[PathRule]) -> bool
    requires plain { IsPlainForm count form.now }
    requires rules { IsCounted rules.now count }
    ensures { result ≡ list_any (falls count form.now) rules.now }
{
    for rule in rules {
        if falls(count, form, rule) {
            return true;
        }
    }
    false
}

/// Whether the form ranks the rules.
fn ranks(count: u32, rules: &[PathRule], form: &[(u32, i64)]) -> bool
    requires plain { IsPlainForm count form.now }
    requires rules { IsCounted rules.now count }
    ensures { result ≡ ranks count rules.now form.now }
{
    all_fit(count, form, rules) && some_falls(count, form, rules)
}

/// The form, if it ranks the rules.
#[tactic(auto, using(crate::proofs::Trying::tells_not))]
fn tried(
    alloc: Global,
    count: u32,
    rules: &[PathRule],
    form: &[(u32, i64)],
) -> Result<Option<Seq<(u32, i64)>>, AllocError>
    requires plain { IsPlainForm count form.now }
    requires rules { IsCounted rules.now count }
    ensures { IfOk result (Tells count rules.now (λ other. other ≡ form.now)) }
{
    if ranks(count, rules, form) {
        Ok(Some(Seq::from_slice(alloc, form)?))
    } else {
        Ok(None)
    }
}

/// The difference of two variables, either way, if it ranks the rules.
#[tactic(auto, using(crate::proofs::Plain::rising_plain, crate::proofs::Plain::falling_plain, crate::proofs::Trying::difference_cover))]
fn difference(
    alloc: Global,
    count: u32,
    rules: &[PathRule],
    one: u32,
    other: u32,
) -> Result<Option<Seq<(u32, i64)>>, AllocError>
    requires order { one < other }
    requires within { other < count }
    requires rules { IsCounted rules.now count }
    ensures { IfOk result (Tells count rules.now (IsDifference one other)) }
{
    if let Some(form) = tried(alloc, count, rules, &[(one, 1), (other, -1)])? {
        return Ok(Some(form));
    }
    tried(alloc, count, rules, &[(one, -1), (other, 1)])
}

/// A difference of a variable and a later one that ranks the rules.
#[tactic(auto, using(crate::proofs::Trying::none_below, crate::proofs::Trying::more_below, crate::proofs::Trying::all_below, crate::proofs::Trying::tells_some))]
fn differences(
    alloc: Global,
    count: u32,
    rules: &[PathRule],
    one: u32,
) -> Result<Option<Seq<(u32, i64)>>, AllocError>
    requires within { one < count }
    requires rules { IsCounted rules.now count }
    ensures { IfOk result (Tells count rules.now (IsDifferenceFrom one)) }
{
    for other in one + 1..count {
        if let Some(form) = difference(alloc, count, rules, one, other)? {
            return Ok(Some(form));
        }
    }
    Ok(None)
}

/// A variable or its negative, if it ranks the rules.
#[tactic(auto, using(crate::proofs::Plain::variable_plain, crate::proofs::Plain::negative_plain, crate::proofs::Trying::single_cover))]
fn single(
    alloc: Global,
    count: u32,
    rules: &[PathRule],
    one: u32,
) -> Result<Option<Seq<(u32, i64)>>, AllocError>
    requires within { one < count }
    requires rules { IsCounted rules.now count }
    ensures { IfOk result (Tells count rules.now (IsSingle one)) }
{
    if let Some(form) = tried(alloc, count, rules, &[(one, 1)])? {
        return Ok(Some(form));
    }
    tried(alloc, count, rules, &[(one, -1)])
}

/// A plain form that begins with a variable and ranks the rules.
#[tactic(auto, using(crate::proofs::Trying::beginning_cover))]
fn beginning(
    alloc: Global,
    count: u32,
    rules: &[PathRule],
    one: u32,
) -> Result<Option<Seq<(u32, i64)>>, AllocError>
    requires within { one < count }
    requires rules { IsCounted rules.now count }
    ensures { IfOk result (Tells count rules.now (BeginsWith one)) }
{
    if let Some(form) = single(alloc, count, rules, one)? {
        return Ok(Some(form));
    }
    differences(alloc, count, rules, one)
}

/// A plain form that ranks the rules; None only where none does.
///
/// # Errors
///
/// Want of memory.
#[tactic(auto, using(crate::proofs::Trying::begins_none, crate::proofs::Trying::begins_more, crate::proofs::Trying::begins_all, crate::proofs::Trying::tells_some))]
pub(crate) fn plain_form(
    alloc: Global,
    count: u32,
    rules: &[PathRule],
) -> Result<Option<Seq<(u32, i64)>>, AllocError>
    requires { IsCounted rules.now count }
    ensures { IfOk result (Tells count rules.now IsAny) }
{
    for one in 0..count {
        if let Some(form) = beginning(alloc, count, rules, one)? {
            return Ok(Some(form));
        }
    }
    Ok(None)
}
