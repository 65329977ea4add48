//! The rank step of an int, or of its negative, that falls step by step.
ghost use Rattle.std.specs.Prelude.{◌≡◌, ◌∷◌, [], None, IfOk, IfSome};
ghost use Rattle.rank_forms.specs.Forms.{AreFollowed, TellsAll};
ghost use Rattle.rank_forms.specs.Graphs.{ArePathRules};
ghost use Rattle.rank_forms.specs.RankSteps.{IsRankStep};
ghost use Rattle.rank_search.specs.Stepwise.{NoStepwiseForm, StepwiseRanks};
ghost use Rattle.rank_forms.specs.rule_links.FallLinks.{sign};

use crate::searching::StepwiseForm;
use descent::{PathRule, Place, RankStep};
use list_views::Seq;
use rank_forms::{Followed, follow_steps, forms_of, list_all, needed, or_zero};
use std::alloc::{AllocError, Global};

/// What is followed along each of the rules; None where no steps lead along one of them.
fn follow_all(
    alloc: Global,
    rules: &[PathRule],
    negative: bool,
    place: &Place,
) -> Result<Option<Seq<Followed>>, AllocError>
    requires { ArePathRules rules.now }
    ensures { IfOk result (λ found. TellsAll negative rules.now place.now found) }
{
    let mut all = Seq::new(alloc);
    for rule in rules {
        match follow_steps(alloc, rule, negative, place)? {
            Some(followed) => all.push(followed)?,
            None => return Ok(None),
        }
    }
    Ok(Some(all))
}

/// How often an int counts.
fn sign(negative: bool) -> i64
    ensures { result ≡ sign negative }
{
    if negative { -1 } else { 1 }
}

/// The int at a place, or its negative.
fn one_part(alloc: Global, place: &Place, negative: bool) -> Result<Seq<(Place, i64)>, AllocError>
    ensures { IfOk result (λ part. part ≡ (place.now, sign negative) ∷ []) }
{
    Seq::from_slice(alloc, &[(*place, sign(negative))])
}

/// The step of what is followed along each rule.
fn step_of(
    alloc: Global,
    rules: &[PathRule],
    negative: bool,
    place: &Place,
    all: &[Followed],
) -> Result<RankStep, AllocError>
    requires rules { ArePathRules rules.now }
    requires form { StepwiseRanks rules.now negative place.now }
    requires followed { AreFollowed negative rules.now place.now all.now }
    ensures { IfOk result (λ step. IsRankStep rules.now step) }
{
    let constant = or_zero(needed(all));
    let part = one_part(alloc, place, negative)?;
    let forms = forms_of(alloc, rules, false, part.as_slice(), &constant)?;
    let listed = list_all(alloc, all)?;
    Ok(RankStep {
        size: false,
        weights: Seq::new(alloc),
        forms,
        rules: listed,
    })
}

/// The step of a stepwise form that ranks the rules.
///
/// # Errors
///
/// Want of memory, which also answers a number of more than 64 bits.
pub(crate) fn step_rank(
    alloc: Global,
    rules: &[PathRule],
    form: &StepwiseForm,
) -> Result<Option<RankStep>, AllocError>
    requires rules { ArePathRules rules.now }
    requires form { StepwiseRanks rules.now form.now.negative form.now.place }
    ensures found { IfOk result (λ found. IfSome found (λ step. IsRankStep rules.now step)) }
    ensures none { IfOk result (λ found. found ≡ None → NoStepwiseForm rules.now) }
{
    match follow_all(alloc, rules, form.negative, &form.place)? {
        Some(all) => Ok(Some(step_of(alloc, rules, form.negative, &form.place, all.as_slice())?)),
        None => Ok(None),
    }
}
