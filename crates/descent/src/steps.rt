//! What a step of a proof breaks for its set.
ghost use Rattle.std.specs.Prelude.{◌≡◌, ◌≤◌, Some, None, IfOk, All, slice_get, if◌then◌else◌};
ghost use Rattle.descent.specs.declared.faults.DescentFault.TheVariants.{NotCovered};
ghost use Rattle.std.specs.Result.{result_err};
ghost use Rattle.lin_core.specs.Sums.{variables};
ghost use Rattle.descent.specs.Conditions.{AreFew, AreRules, IsListed, IsRanked, IsRule, IsStep};
ghost use Rattle.descent.specs.Conditions.{AreOver};
ghost use Rattle.descent.specs.Splits.{has};
ghost use Rattle.descent.specs.Steps.{rule_of, listed_fault, rank_fault, ranking_of, ranking_fault, dead_at, step_fault};

use crate::faults::DescentFault;
use crate::needs::dead;
use crate::orders::{LinearOrder, Order, SizeOrder};
use crate::proof::{ProofStep, RankRule, RankStep};
use crate::rules::PathRule;
use crate::sets::{has, rule_at};
use crate::splits::split_fault;
use lin_core::Scratch;
use std::alloc::{AllocError, Global};

/// The number of a listed rule.
fn rule_of(listed: &RankRule) -> u32
    ensures { result ≡ rule_of listed.now }
{
    match listed {
        RankRule::Weak { rule, fall: _ } => *rule,
        RankRule::Strict {
            rule,
            fall: _,
            bound: _,
        } => *rule,
    }
}

/// That a rule is as it is listed, else what is missing.
fn is_as_listed<O: Order>(
    order: &O,
    listed: &RankRule,
    rule: &PathRule,
    scratch: &mut Scratch,
) -> Result<(), DescentFault>
    requires ready { O.is_ready order.now }
    requires rule { IsRule rule.now }
    requires few { IsListed listed.now }
    requires room { rule.now.vars ≤ variables scratch.old }
    ensures fault { result_err result ≡ listed_fault (O.weak_says order.now) (O.strict_says order.now) (O.bounded_says order.now)
        listed.now (Some rule.now) }
    ensures over { variables scratch.new ≡ variables scratch.old }
{
    match listed {
        RankRule::Weak { rule: number, fall } => {
            order.weak(*number, rule, fall.as_slice(), scratch)
        }
        RankRule::Strict {
            rule: number,
            fall,
            bound,
        } => {
            order.strict(*number, rule, fall.as_slice(), scratch)?;
            order.bounded(*number, rule, bound.as_slice(), scratch)
        }
    }
}

/// That the rule of a number is there and is as it is listed, else what is missing.
fn is_listed<O: Order>(
    order: &O,
    rules: &[PathRule],
    number: u32,
    listed: &RankRule,
    scratch: &mut Scratch,
) -> Result<(), DescentFault>
    requires ready { O.is_ready order.now }
    requires rules { AreRules rules.now }
    requires few { IsListed listed.now }
    requires room { AreOver (variables scratch.old) rules.now }
    ensures fault { result_err result ≡ listed_fault (O.weak_says order.now) (O.strict_says order.now) (O.bounded_says order.now)
        listed.now (slice_get rules.now number) }
    ensures over { variables scratch.new ≡ variables scratch.old }
{
    match rule_at(rules, number) {
        Some(rule) => is_as_listed(order, listed, rule, scratch),
        None => Err(DescentFault::NotCovered {
            rule: rule_of(listed),
        }),
    }
}

/// That the set and the listed rules are the same, and each is as it is listed; else the fault of the least rule. It costs
/// as many steps as the set, the multipliers and the slots of the rules have entries.
fn rank_fault<O: Order>(
    order: &O,
    rules: &[PathRule],
    set: &[u32],
    listed: &[RankRule],
    scratch: &mut Scratch,
) -> Result<(), DescentFault>
    requires ready { O.is_ready order.now }
    requires rules { AreRules rules.now }
    requires few { All IsListed listed.now }
    requires room { AreOver (variables scratch.old) rules.now }
    ensures fault { result_err result ≡ rank_fault (O.weak_says order.now) (O.strict_says order.now) (O.bounded_says order.now)
        rules.now set.now listed.now }
    ensures over { variables scratch.new ≡ variables scratch.old }
{
    for (n, rule) in set.iter().enumerate() {
        let Some(one) = listed.get(n) else {
            return Err(DescentFault::NotCovered { rule: *rule });
        };
        let number = rule_of(one);
        if *rule < number {
            return Err(DescentFault::NotCovered { rule: *rule });
        }
        if number < *rule {
            return Err(DescentFault::NotCovered { rule: number });
        }
        is_listed(order, rules, *rule, one, scratch)?;
    }
    match listed.get(set.len()) {
        Some(one) => Err(DescentFault::NotCovered { rule: rule_of(one) }),
        None => Ok(()),
    }
}

/// That a rank step holds for a set of rules, which is a rising list of their numbers; else its first fault. The scratch is for at
/// least the variables of each rule. It costs as many steps as the set, the multipliers and the slots of the rules have
/// entries.
///
/// # Errors
///
/// [`DescentFault::NotCovered`] with the least rule that is in the set and not listed or the other way round; else, for the
/// least rule that isn't as it is listed, the fault that [`Order`]'s calls give. What is left in the scratch says nothing.
pub fn check_rank_step(
    rules: &[PathRule],
    set: &[u32],
    step: &RankStep,
    scratch: &mut Scratch,
) -> Result<(), DescentFault>
    requires rules { AreRules rules.now }
    requires step { IsRanked step.now }
    requires room { AreOver (variables scratch.old) rules.now }
    ensures fault { result_err result ≡ ranking_fault (ranking_of step.now) rules.now set.now step.now.rules }
    ensures over { variables scratch.new ≡ variables scratch.old }
{
    let forms = step.forms.as_slice();
    let listed = step.rules.as_slice();
    if step.size {
        let order = SizeOrder {
            weights: step.weights.as_slice(),
            forms,
        };
        rank_fault(&order, rules, set, listed, scratch)
    } else {
        rank_fault(&LinearOrder { forms }, rules, set, listed, scratch)
    }
}

/// That a rule of the set can never be taken, else what is missing.
fn dead_step(
    rules: &[PathRule],
    set: &[u32],
    number: u32,
    multipliers: &[(u32, i64)],
    scratch: &mut Scratch,
) -> Result<(), DescentFault>
    requires rules { AreRules rules.now }
    requires few { AreFew multipliers.now }
    requires room { AreOver (variables scratch.old) rules.now }
    ensures fault { result_err result ≡ (if has set.now number then dead_at number (slice_get rules.now number) multipliers.now else
        Some (NotCovered number)) }
    ensures over { variables scratch.new ≡ variables scratch.old }
{
    if !has(set, number) {
        return Err(DescentFault::NotCovered { rule: number });
    }
    match rule_at(rules, number) {
        Some(rule) => dead(number, rule, multipliers, scratch),
        None => Err(DescentFault::NotCovered { rule: number }),
    }
}

/// The fault of a result, if it has one.
fn fault_of(answer: Result<(), DescentFault>) -> Option<DescentFault>
    ensures { result ≡ result_err answer }
{
    match answer {
        Ok(()) => None,
        Err(fault) => Some(fault),
    }
}

/// What a step breaks first for its set.
///
/// # Errors
///
/// Want of memory.
pub(crate) fn step_fault(
    alloc: Global,
    rules: &[PathRule],
    set: &[u32],
    step: &ProofStep,
    scratch: &mut Scratch,
) -> Result<Option<DescentFault>, AllocError>
    requires rules { AreRules rules.now }
    requires step { IsStep step.now }
    requires room { AreOver (variables scratch.old) rules.now }
    ensures fault { IfOk result (λ fault. fault ≡ step_fault rules.now set.now step.now) }
    ensures over { variables scratch.new ≡ variables scratch.old }
{
    match step {
        ProofStep::Empty => match set.get(0) {
            Some(rule) => Ok(Some(DescentFault::NotCovered { rule: *rule })),
            None => Ok(None),
        },
        ProofStep::Split { parts, steps } => {
            split_fault(alloc, rules, set, parts.as_slice(), steps.as_slice())
        }
        ProofStep::Rank { step, rest: _ } => Ok(fault_of(check_rank_step(
            rules, set, step, scratch,
        ))),
        ProofStep::Dead {
            rule,
            multipliers,
            rest: _,
        } => Ok(fault_of(dead_step(rules, set, *rule, multipliers.as_slice(), scratch))),
    }
}
