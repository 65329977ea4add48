//! The rank steps of plain forms.
ghost use Rattle.std.specs.Prelude.{◌≡◌, ◌∷◌, [], None, Some, IfOk, IfSome, pos};
ghost use Rattle.descent.specs.Conditions.{AreRules};
ghost use Rattle.rank_forms.specs.Graphs.{ArePlainRules};
ghost use Rattle.rank_search.specs.Plain.{LowersBy, NoPlainForm, RanksSize};
ghost use Rattle.rank_forms.specs.RankSteps.{IsRankStep};
ghost use Rattle.rank_search.specs.inner.Candidates.{IsTold};
ghost use Rattle.rank_forms.specs.Reasons.{TellsEach, TellsInts};
ghost use Rattle.rank_forms.specs.rule_links.Ties.{IsMoved};
ghost use Rattle.rank_forms.specs.SizeReasons.{TellsSizeAt};

use crate::searching::PlainForm;
use descent::{PathRule, Place, RankStep};
use list_views::Seq;
use rank_forms::{Followed, follow_ints, follow_size, forms_of, list_all, needed, ones, or_zero};
use std::alloc::{AllocError, Global};

/// What a form of ints falls by along each of the rules.
fn follow_all_ints(
    alloc: Global,
    rules: &[PathRule],
    form: &[(Place, i64)],
) -> Result<Option<Seq<Followed>>, AllocError>
    ensures { IfOk result (λ found. TellsEach (TellsInts form.now) rules.now found) }
{
    let mut all = Seq::new(alloc);
    for rule in rules {
        match follow_ints(alloc, rule, form)? {
            Some(followed) => all.push(followed)?,
            None => return Ok(None),
        }
    }
    Ok(Some(all))
}

/// What the size at a place falls by along each of the rules.
fn follow_all_sizes(
    alloc: Global,
    rules: &[PathRule],
    place: &Place,
) -> Result<Option<Seq<Followed>>, AllocError>
    requires { AreRules rules.now }
    ensures { IfOk result (λ found. TellsEach (TellsSizeAt place.now) rules.now found) }
{
    let mut all = Seq::new(alloc);
    for rule in rules {
        match follow_size(alloc, rule, place)? {
            Some(followed) => all.push(followed)?,
            None => return Ok(None),
        }
    }
    Ok(Some(all))
}

/// The step of what a form of ints falls by.
fn ints_step_of(
    alloc: Global,
    rules: &[PathRule],
    form: &[(Place, i64)],
    all: &[Followed],
) -> Result<RankStep, AllocError>
    requires rules { ArePlainRules rules.now }
    requires form { LowersBy IsMoved rules.now form.now }
    requires followed { TellsEach (TellsInts form.now) rules.now (Some all.now) }
    ensures { IfOk result (λ step. IsRankStep rules.now step) }
{
    let constant = or_zero(needed(all));
    let forms = forms_of(alloc, rules, false, form, &constant)?;
    let listed = list_all(alloc, all)?;
    Ok(RankStep {
        size: false,
        weights: Seq::new(alloc),
        forms,
        rules: listed,
    })
}

/// The step of a form of ints that never rises on the rules and falls on one.
fn ints_step(
    alloc: Global,
    rules: &[PathRule],
    form: &[(Place, i64)],
) -> Result<Option<RankStep>, AllocError>
    requires rules { ArePlainRules rules.now }
    requires form { LowersBy IsMoved rules.now form.now }
    ensures found { IfOk result (λ found. IfSome found (λ step. IsRankStep rules.now step)) }
    ensures none { IfOk result (λ found. found ≡ None → NoPlainForm rules.now) }
{
    match follow_all_ints(alloc, rules, form)? {
        Some(all) => Ok(Some(ints_step_of(alloc, rules, form, all.as_slice())?)),
        None => Ok(None),
    }
}

/// The size at a place.
fn one_part(alloc: Global, place: &Place) -> Result<Seq<(Place, i64)>, AllocError>
    ensures { IfOk result (λ part. part ≡ (place.now, pos 1) ∷ []) }
{
    Seq::from_slice(alloc, &[(*place, 1)])
}

/// The step of what a size falls by.
fn size_step_of(
    alloc: Global,
    rules: &[PathRule],
    place: &Place,
    all: &[Followed],
) -> Result<RankStep, AllocError>
    requires rules { ArePlainRules rules.now }
    requires form { RanksSize rules.now place.now }
    requires followed { TellsEach (TellsSizeAt place.now) rules.now (Some all.now) }
    ensures { IfOk result (λ step. IsRankStep rules.now step) }
{
    let constant = or_zero(needed(all));
    let part = one_part(alloc, place)?;
    let forms = forms_of(alloc, rules, true, part.as_slice(), &constant)?;
    let weights = ones(alloc, rules)?;
    let listed = list_all(alloc, all)?;
    Ok(RankStep {
        size: true,
        weights,
        forms,
        rules: listed,
    })
}

/// The step of a size that ranks the rules.
fn size_step(
    alloc: Global,
    rules: &[PathRule],
    place: &Place,
) -> Result<Option<RankStep>, AllocError>
    requires rules { ArePlainRules rules.now }
    requires form { RanksSize rules.now place.now }
    ensures found { IfOk result (λ found. IfSome found (λ step. IsRankStep rules.now step)) }
    ensures none { IfOk result (λ found. found ≡ None → NoPlainForm rules.now) }
{
    match follow_all_sizes(alloc, rules, place)? {
        Some(all) => Ok(Some(size_step_of(alloc, rules, place, all.as_slice())?)),
        None => Ok(None),
    }
}

/// The step of a plain form that was found.
///
/// # Errors
///
/// Want of memory, which also answers a number of more than 64 bits.
pub(crate) fn plain_step(
    alloc: Global,
    rules: &[PathRule],
    form: &PlainForm,
) -> Result<Option<RankStep>, AllocError>
    requires rules { ArePlainRules rules.now }
    requires form { IsTold rules.now form.now }
    ensures found { IfOk result (λ found. IfSome found (λ step. IsRankStep rules.now step)) }
    ensures none { IfOk result (λ found. found ≡ None → NoPlainForm rules.now) }
{
    match form {
        PlainForm::Ints(terms) => ints_step(alloc, rules, terms.as_slice()),
        PlainForm::Size(place) => size_step(alloc, rules, place),
    }
}
