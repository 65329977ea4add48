//! Proofs that leave out rules which nothing can take.
ghost use Rattle.std.specs.Prelude.{IfOk, IfSome, length};
ghost use Rattle.descent.specs.Conditions.{AreRules};
ghost use Rattle.rank_forms.specs.Graphs.{ArePlainRules};
ghost use Rattle.rank_forms.specs.RankSteps.{IsRankStep};

use crate::dead::dead_rules;
use chain_proofs::{Forms, PathForms, Proved, prove_by};
use descent::{PathRule, Proof, RankStep};
use list_views::Seq;
use rank_forms::is_rank_step;
use rank_search::are_plain_rules;
use std::alloc::{AllocError, Global};

/// A rank step of the form that is 0 everywhere, which removes rules that nothing can take, if there are some.
fn dead_step(alloc: Global, rules: &[PathRule]) -> Result<Option<RankStep>, AllocError>
    requires { AreRules rules.now }
    ensures { IfOk result (λ found. IfSome found (λ step. IsRankStep rules.now step)) }
{
    let Some(listed) = dead_rules(alloc, rules)? else {
        return Ok(None);
    };
    let step = RankStep {
        size: false,
        weights: Seq::new(alloc),
        forms: Seq::new(alloc),
        rules: listed,
    };
    if is_rank_step(alloc, rules, &step)? {
        Ok(Some(step))
    } else {
        Ok(None)
    }
}

/// Forms for paths, after the rules that nothing can take are gone.
#[derive(Clone, Copy)]
pub struct LiveForms;

impl Forms for LiveForms {
    ghost use Rattle.rank_forms.specs.Graphs.{ArePlainRules};
    ghost use Rattle.chain_proofs.specs.Stuck.{HasNoForm};
    ghost use Rattle.chain_proofs.specs.lemmas.Few.{few_enough};

    ghost asks = { λ rules. ArePlainRules rules };

    ghost none = { λ rules. HasNoForm rules };

    ghost few = { λ rules are. few_enough (length rules) are.paths.few };

    fn step(&self, alloc: Global, rules: &[PathRule]) -> Result<Option<RankStep>, AllocError> {
        match dead_step(alloc, rules)? {
            Some(step) => Ok(Some(step)),
            None => PathForms.step(alloc, rules),
        }
    }
}

/// A proof that no chain of rules is infinite, if it is found.
fn proof_of_plain(alloc: Global, rules: &[PathRule]) -> Result<Option<Proof>, AllocError>
    requires { ArePlainRules rules.now }
{
    match prove_by(alloc, &LiveForms, rules)? {
        Proved::Whole(proof) => Ok(Some(proof)),
        Proved::Stuck(_, _) => Ok(None),
    }
}

/// Whether one of the rules contradicts itself.
fn has_dead(alloc: Global, rules: &[PathRule]) -> Result<bool, AllocError> {
    Ok(dead_rules(alloc, rules)?.is_some())
}

/// A proof that no chain of the rules is infinite, or None. Nothing is said of it: a check is to tell whether it is one. Where these are
/// the rules of the first graph, of which no proof was found, one is looked for only if some rule contradicts itself.
///
/// # Errors
///
/// Want of memory.
pub fn proof_of(alloc: Global, rules: &[PathRule], first: bool) -> Result<Option<Proof>, AllocError>
    requires { AreRules rules.now }
{
    if !are_plain_rules(rules) {
        return Ok(None);
    }
    if first && !has_dead(alloc, rules)? {
        return Ok(None);
    }
    proof_of_plain(alloc, rules)
}
