//! Steps of proofs.
ghost use Rattle.std.specs.Prelude.{◌≡◌, IfOk};
ghost use Rattle.serde_json.specs.View.{view};
ghost use Rattle.descent.specs.declared.proof.RankRule.TheVariants.{Weak, Strict};
ghost use Rattle.cert_form.specs.cert_write.Data.{rule, order_word, split, rank, dead};

use crate::cert_write::lists::{Written, list, together, word};
use descent::{CutForm, ProofStep, RankRule, RankStep};
use list_views::Seq;
use serde_json::Value;
use std::alloc::{AllocError, Global};

impl Written<()> for Seq<u32> {
    ghost use Rattle.cert_form.specs.cert_write.Data.{naturals};

    ghost written = { λ _. naturals };

    fn value(&self, alloc: Global, _: &()) -> Result<Value, AllocError> {
        list(alloc, &(), self.as_slice())
    }
}

impl Written<()> for CutForm {
    ghost use Rattle.cert_form.specs.cert_write.Data.{form};

    ghost written = { λ _. form };

    fn value(&self, alloc: Global, _: &()) -> Result<Value, AllocError> {
        let ints = list(alloc, &(), self.ints.as_slice())?;
        let sizes = list(alloc, &(), self.sizes.as_slice())?;
        together(
            alloc,
            [
                Value::from(self.cut),
                Value::from(self.constant),
                ints,
                sizes,
            ],
        )
    }
}

impl Written<()> for RankRule {
    ghost use Rattle.cert_form.specs.cert_write.Data.{rule};

    ghost written = { λ _. rule };

    fn value(&self, alloc: Global, _: &()) -> Result<Value, AllocError> {
        match self {
            RankRule::Weak { rule, fall } => weak(alloc, *rule, fall.as_slice()),
            RankRule::Strict { rule, fall, bound } => {
                strict(alloc, *rule, fall.as_slice(), bound.as_slice())
            }
        }
    }
}

/// A rule along which forms don't rise.
fn weak(alloc: Global, number: u32, fall: &[(u32, i64)]) -> Result<Value, AllocError>
    ensures { IfOk result (λ v. view v ≡ rule (Weak number fall.now)) }
{
    let fall = list(alloc, &(), fall)?;
    let kind = word(alloc, "weak")?;
    together(alloc, [Value::from(number), kind, fall])
}

/// A rule along which forms fall, with their bound.
fn strict(
    alloc: Global,
    number: u32,
    fall: &[(u32, i64)],
    bound: &[(u32, i64)],
) -> Result<Value, AllocError>
    ensures { IfOk result (λ v. view v ≡ rule (Strict number fall.now bound.now)) }
{
    let fall = list(alloc, &(), fall)?;
    let bound = list(alloc, &(), bound)?;
    let kind = word(alloc, "strict")?;
    together(alloc, [Value::from(number), kind, fall, bound])
}

/// The word of an order.
fn order_word(size: bool) -> &'static str
    ensures { result.now ≡ order_word size }
{
    if size { "size" } else { "linear" }
}

/// A split of the rules.
fn split(alloc: Global, parts: &[Seq<u32>], steps: &[Option<u32>]) -> Result<Value, AllocError>
    ensures { IfOk result (λ v. view v ≡ split parts.now steps.now) }
{
    let parts = list(alloc, &(), parts)?;
    let steps = list(alloc, &(), steps)?;
    let kind = word(alloc, "split")?;
    together(alloc, [kind, parts, steps])
}

/// A rank step.
fn rank(alloc: Global, step: &RankStep, rest: u32) -> Result<Value, AllocError>
    ensures { IfOk result (λ v. view v ≡ rank step.now rest) }
{
    let weights = list(alloc, &(), step.weights.as_slice())?;
    let forms = list(alloc, &(), step.forms.as_slice())?;
    let rules = list(alloc, &(), step.rules.as_slice())?;
    let kind = word(alloc, "rank")?;
    let order = word(alloc, order_word(step.size))?;
    together(
        alloc,
        [kind, order, weights, forms, rules, Value::from(rest)],
    )
}

/// A dead rule.
fn dead(
    alloc: Global,
    rule: u32,
    multipliers: &[(u32, i64)],
    rest: u32,
) -> Result<Value, AllocError>
    ensures { IfOk result (λ v. view v ≡ dead rule multipliers.now rest) }
{
    let multipliers = list(alloc, &(), multipliers)?;
    let kind = word(alloc, "dead")?;
    together(
        alloc,
        [kind, Value::from(rule), multipliers, Value::from(rest)],
    )
}

impl Written<()> for ProofStep {
    ghost use Rattle.cert_form.specs.cert_write.Data.{step};

    ghost written = { λ _. step };

    fn value(&self, alloc: Global, _: &()) -> Result<Value, AllocError> {
        match self {
            ProofStep::Empty => {
                let kind = word(alloc, "empty")?;
                together(alloc, [kind])
            }
            ProofStep::Split { parts, steps } => split(alloc, parts.as_slice(), steps.as_slice()),
            ProofStep::Rank { step, rest } => rank(alloc, step, *rest),
            ProofStep::Dead {
                rule,
                multipliers,
                rest,
            } => dead(alloc, *rule, multipliers.as_slice(), *rest),
        }
    }
}
