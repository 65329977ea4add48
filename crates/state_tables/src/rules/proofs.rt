//! Proofs as they stand in a case.
use anyhow::{Result, bail};
use descent::{CutForm, Proof, ProofStep, RankRule, RankStep};
use json_view::View;
use list_views::Seq;
use std::alloc::Global;
use table_cases::json_cases::{count, integer, item, natural, naturals, word};
use table_cases::rule_cases::{multiples, pairs};

/// A proof: a list of steps.
pub fn proof(alloc: Global, list: &View<'_, '_>) -> Result<Proof> {
    let mut steps = Seq::new(alloc);
    for n in 0..count(alloc, list)? {
        steps.push(step(alloc, &item(alloc, list, n)?)?)?;
    }
    Ok(Proof { steps })
}

fn step(alloc: Global, parts: &View<'_, '_>) -> Result<ProofStep> {
    match word(alloc, parts, 0)? {
        "empty" => Ok(ProofStep::Empty),
        "split" => split(alloc, parts),
        "rank" => ranked(alloc, parts),
        "dead" => dead(alloc, parts),
        _ => bail!("a step is wanted"),
    }
}

fn split(alloc: Global, parts: &View<'_, '_>) -> Result<ProofStep> {
    let groups = groups(alloc, &item(alloc, parts, 1)?)?;
    let steps = named(alloc, &item(alloc, parts, 2)?)?;
    Ok(ProofStep::Split {
        parts: groups,
        steps,
    })
}

fn ranked(alloc: Global, parts: &View<'_, '_>) -> Result<ProofStep> {
    let rest = natural(alloc, parts, 5)?;
    let step = rank(alloc, parts)?;
    Ok(ProofStep::Rank { step, rest })
}

fn dead(alloc: Global, parts: &View<'_, '_>) -> Result<ProofStep> {
    let rule = natural(alloc, parts, 1)?;
    let rest = natural(alloc, parts, 3)?;
    let multipliers = pairs(alloc, parts, 2)?;
    Ok(ProofStep::Dead {
        rule,
        multipliers,
        rest,
    })
}

fn groups(alloc: Global, list: &View<'_, '_>) -> Result<Seq<Seq<u32>>> {
    let mut parts = Seq::new(alloc);
    for n in 0..count(alloc, list)? {
        parts.push(naturals(alloc, list, n)?)?;
    }
    Ok(parts)
}

fn named(alloc: Global, list: &View<'_, '_>) -> Result<Seq<Option<u32>>> {
    let mut steps = Seq::new(alloc);
    for n in 0..count(alloc, list)? {
        let step = if integer(alloc, list, n)? < 0 {
            None
        } else {
            Some(natural(alloc, list, n)?)
        };
        steps.push(step)?;
    }
    Ok(steps)
}

fn rank(alloc: Global, parts: &View<'_, '_>) -> Result<RankStep> {
    Ok(RankStep {
        size: word(alloc, parts, 1)? == "size",
        weights: pairs(alloc, parts, 2)?,
        forms: forms(alloc, &item(alloc, parts, 3)?)?,
        rules: listed(alloc, &item(alloc, parts, 4)?)?,
    })
}

/// A list of forms.
pub fn forms(alloc: Global, list: &View<'_, '_>) -> Result<Seq<CutForm>> {
    let mut forms = Seq::new(alloc);
    for n in 0..count(alloc, list)? {
        forms.push(form(alloc, &item(alloc, list, n)?)?)?;
    }
    Ok(forms)
}

fn form(alloc: Global, parts: &View<'_, '_>) -> Result<CutForm> {
    let cut = natural(alloc, parts, 0)?;
    let constant = integer(alloc, parts, 1)?;
    let ints = multiples(alloc, parts, 2)?;
    let sizes = multiples(alloc, parts, 3)?;
    Ok(CutForm {
        cut,
        constant,
        ints,
        sizes,
    })
}

fn listed(alloc: Global, list: &View<'_, '_>) -> Result<Seq<RankRule>> {
    let mut rules = Seq::new(alloc);
    for n in 0..count(alloc, list)? {
        rules.push(listed_rule(alloc, &item(alloc, list, n)?)?)?;
    }
    Ok(rules)
}

fn listed_rule(alloc: Global, parts: &View<'_, '_>) -> Result<RankRule> {
    let rule = natural(alloc, parts, 0)?;
    let fall = pairs(alloc, parts, 2)?;
    if word(alloc, parts, 1)? == "weak" {
        return Ok(RankRule::Weak { rule, fall });
    }
    Ok(RankRule::Strict {
        rule,
        fall,
        bound: pairs(alloc, parts, 3)?,
    })
}
