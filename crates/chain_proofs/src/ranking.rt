//! Rank steps for sets of rules.
ghost use Rattle.std.specs.Prelude.{◌≡◌, ◌<◌, All, IfOk, Some, length, slice_get};
ghost use Rattle.std.specs.List.{AllZip};
ghost use Rattle.descent.specs.Steps.{rule_of};
ghost use Rattle.chain_proofs.specs.Dealt.{Rises};
ghost use Rattle.chain_proofs.specs.Sets.{AreOwn, IsAsked};
ghost use Rattle.chain_proofs.specs.inner.Sets.{IsRenumbered, IsStepOver, RanksOr};

use crate::forms::Forms;
use crate::splitting::number_at;
use descent::{PathRule, RankRule, RankStep};
use list_views::Seq;
use std::alloc::{AllocError, Global};

/// A listed rule, which is named by its place in a set, named by its number.
fn renumbered(set: &[u32], listed: RankRule) -> RankRule
    requires { rule_of listed < length set.now }
    ensures { IsRenumbered set.now listed result }
{
    match listed {
        RankRule::Weak { rule, fall } => RankRule::Weak {
            rule: number_at(set, rule),
            fall,
        },
        RankRule::Strict { rule, fall, bound } => RankRule::Strict {
            rule: number_at(set, rule),
            fall,
            bound,
        },
    }
}

/// Listed rules so.
fn all_renumbered(
    alloc: Global,
    set: &[u32],
    listed: Seq<RankRule>,
) -> Result<Seq<RankRule>, AllocError>
    requires { All (λ one. rule_of one < length set.now) listed }
    ensures { IfOk result (λ rules. AllZip (IsRenumbered set.now) listed rules) }
{
    let mut rules = Seq::new(alloc);
    for one in listed.into_vec() {
        rules.push(renumbered(set, one))?;
    }
    Ok(rules)
}

/// A step for the rules of a set, which it names by their places, as one that names them by their numbers.
fn step_over(alloc: Global, set: &[u32], step: RankStep) -> Result<RankStep, AllocError>
    requires { All (λ one. rule_of one < length set.now) step.rules }
    ensures { IfOk result (λ over. IsStepOver set.now step over) }
{
    let RankStep {
        size,
        weights,
        forms,
        rules,
    } = step;
    Ok(RankStep {
        size,
        weights,
        forms,
        rules: all_renumbered(alloc, set, rules)?,
    })
}

/// A rank step for the rules of a set; None only where the search says that no form ranks them.
///
/// # Errors
///
/// Want of memory.
pub(crate) fn rank_step<F: Forms>(
    alloc: Global,
    forms: &F,
    rules: &[PathRule],
    set: &[u32],
    own: &[PathRule],
) -> Result<Option<RankStep>, AllocError>
    requires asked { IsAsked F.asks rules.now }
    requires rise { Rises 0 set.now }
    requires own { AreOwn rules.now set.now own.now }
    ensures { IfOk result (RanksOr F.none rules.now set.now own.now) }
{
    match forms.step(alloc, own)? {
        Some(step) => Ok(Some(step_over(alloc, set, step)?)),
        None => Ok(None),
    }
}
