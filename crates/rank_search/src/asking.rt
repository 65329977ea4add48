//! The rank steps of plain forms and of linear ones.
ghost use Rattle.std.specs.Prelude.{◌≡◌, None, IfOk, IfSome};
ghost use Rattle.descent.specs.Conditions.{AreRules};
ghost use Rattle.rank_forms.specs.Graphs.{ArePathRules, ArePlainRules};
ghost use Rattle.rank_search.specs.Plain.{NoPlainForm};
ghost use Rattle.rank_forms.specs.RankSteps.{IsRankStep};
ghost use Rattle.rank_search.specs.Stepwise.{NoStepwiseForm};

use crate::plain_steps::plain_step;
use crate::searching::{stepwise_form, told_form};
use crate::several::several;
use crate::stepping::step_rank;
use descent::{PathRule, RankStep};
use rank_forms::rule_links::Part;
use rank_forms::{build, is_rank_step};
use std::alloc::{AllocError, Global};

/// The step of these parts, if it is one that a closed proof takes.
pub(crate) fn shown(
    alloc: Global,
    rules: &[PathRule],
    parts: &[Part],
) -> Result<Option<RankStep>, AllocError>
    requires { AreRules rules.now }
    ensures { IfOk result (λ found. IfSome found (λ step. IsRankStep rules.now step)) }
{
    let Some(step) = build(alloc, rules, parts)? else {
        return Ok(None);
    };
    if is_rank_step(alloc, rules, &step)? {
        Ok(Some(step))
    } else {
        Ok(None)
    }
}

/// A rank step of a plain form, which a closed proof takes for all of the rules, and which removes at least one of them. None
/// only where no plain form ranks the rules.
///
/// # Errors
///
/// Want of memory, which also answers a number of more than 64 bits.
pub fn plain(alloc: Global, rules: &[PathRule]) -> Result<Option<RankStep>, AllocError>
    requires rules { ArePlainRules rules.now }
    ensures found { IfOk result (λ found. IfSome found (λ step. IsRankStep rules.now step)) }
    ensures none { IfOk result (λ found. found ≡ None → NoPlainForm rules.now) }
{
    match told_form(alloc, rules)? {
        Some(form) => plain_step(alloc, rules, &form),
        None => Ok(None),
    }
}

/// A step of a form over several places, where no stepwise form ranks the rules.
fn told_several(alloc: Global, rules: &[PathRule]) -> Result<Option<RankStep>, AllocError>
    requires rules { AreRules rules.now }
    requires none { NoStepwiseForm rules.now }
    ensures found { IfOk result (λ found. IfSome found (λ step. IsRankStep rules.now step)) }
    ensures none { IfOk result (λ found. found ≡ None → NoStepwiseForm rules.now) }
{
    several(alloc, rules)
}

/// A rank step that a closed proof takes for all of the rules, and which removes at least one of them: of a stepwise form, or, where
/// none ranks the rules, of a form over several places, which is searched by exact fractions of whole numbers of at most 128
/// bits. None only where no stepwise form ranks the rules.
///
/// # Errors
///
/// Want of memory, which also answers a number of more than 64 bits.
pub fn linear(alloc: Global, rules: &[PathRule]) -> Result<Option<RankStep>, AllocError>
    requires rules { ArePathRules rules.now }
    ensures found { IfOk result (λ found. IfSome found (λ step. IsRankStep rules.now step)) }
    ensures none { IfOk result (λ found. found ≡ None → NoStepwiseForm rules.now) }
{
    match stepwise_form(alloc, rules)? {
        Some(form) => step_rank(alloc, rules, &form),
        None => told_several(alloc, rules),
    }
}
