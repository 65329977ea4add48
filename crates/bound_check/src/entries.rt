//! The first fault of the entries of a bound.
ghost use Rattle.std.specs.Prelude.{◌≡◌, ◌≤◌, ◌++◌, true, None, Some, All, IfOk, MatchOption, OnOk, length, slice_get};
ghost use Rattle.std.specs.Option.{option_or};
ghost use Rattle.std.specs.Result.{result_err};
ghost use Rattle.lin_core.specs.Sums.{variables};
ghost use Rattle.descent.specs.Conditions.{AreForms, AreRules, AreSteps, IsRanked, IsRule};
ghost use Rattle.descent.specs.Conditions.{AreOver};
ghost use Rattle.descent.specs.Rankings.{weak_fault};
ghost use Rattle.descent.specs.Splits.{has};
ghost use Rattle.descent.specs.Steps.{given_first, set_of};
ghost use Rattle.bound_text.specs.Limits.{AreLimited, IsLimitedEntry, HasFewRows};
ghost use Rattle.bound_check.specs.Parts.{given_from, rank_at, set_at};
ghost use Rattle.bound_check.specs.Entries.{whole_forms, whole_ranking, lists_rise, fall_of, told, rule_fault, outer_fault};
ghost use Rattle.bound_check.specs.Entries.{rules_fault, lists_fault};
ghost use Rattle.bound_check.specs.Entries.{entry_fault, entry_fault_by, entries_fault, is_named, is_covered, missing_from, bound_fault};

use crate::fault::BoundFault;
use crate::lists::{are_good_lists, has, is_above};
use bound_text::{BoundEntry, BoundRule};
use descent::{
    CutForm, DescentFault, LinearOrder, Order, PathRule, ProofStep, RankStep, Scratch, SizeOrder,
};
use list_views::Seq;
use std::alloc::{AllocError, Global};

/// The multipliers of a rule, the first that are listed; a rule that isn't listed has none.
fn fall_of(rules: &[BoundRule], rule: u32) -> &[(u32, i64)]
    ensures { result.now ≡ fall_of rule rules.now }
{
    for listed in rules {
        if listed.rule == rule {
            return listed.fall.as_slice();
        }
    }
    &[]
}

/// What is not shown of a rule, as a fault of an entry.
fn told(entry: u32, rule: u32, answer: Result<(), DescentFault>) -> Option<BoundFault>
    ensures { result ≡ told entry rule (result_err answer) }
{
    match answer {
        Ok(()) => None,
        Err(DescentFault::Lin(fault)) => Some(BoundFault::Lin { entry, fault }),
        Err(_) => Some(BoundFault::NotWeak { entry, rule }),
    }
}

/// What is not shown of a rule by an order of the whole form.
#[tactic(auto, using(crate::proofs::Limited::few_falls))]
fn rule_fault<O: Order>(
    order: &O,
    n: u32,
    entry: &BoundEntry,
    number: u32,
    rule: &PathRule,
    scratch: &mut Scratch,
) -> Option<BoundFault>
    requires ready { O.is_ready order.now }
    requires rule { IsRule rule.now }
    requires few { All HasFewRows entry.now.rules }
    requires room { rule.now.vars ≤ variables scratch.old }
    ensures fault { result ≡ rule_fault (O.weak_says order.now) n entry.now number rule.now }
    ensures over { variables scratch.new ≡ variables scratch.old }
{
    let fall = fall_of(entry.rules.as_slice(), number);
    told(n, number, order.weak(number, rule, fall, scratch))
}

/// The same for a rule outside a set; nothing is asked of one in it.
fn outer_fault<O: Order>(
    order: &O,
    n: u32,
    set: &[u32],
    entry: &BoundEntry,
    number: u32,
    rule: &PathRule,
    scratch: &mut Scratch,
) -> Option<BoundFault>
    requires ready { O.is_ready order.now }
    requires rule { IsRule rule.now }
    requires few { All HasFewRows entry.now.rules }
    requires room { rule.now.vars ≤ variables scratch.old }
    ensures fault { result ≡ outer_fault (O.weak_says order.now) n set.now entry.now number rule.now }
    ensures over { variables scratch.new ≡ variables scratch.old }
{
    if has(set, number) {
        None
    } else {
        rule_fault(order, n, entry, number, rule, scratch)
    }
}

/// The first of the rules outside a set of which it isn't shown that the whole form never rises on it. It costs as many steps as the
/// set for each rule, and the multipliers and slots of the rules outside it.
fn rules_fault<O: Order>(
    order: &O,
    n: u32,
    set: &[u32],
    entry: &BoundEntry,
    rules: &[PathRule],
    scratch: &mut Scratch,
) -> Option<BoundFault>
    requires ready { O.is_ready order.now }
    requires rules { AreRules rules.now }
    requires count { length rules.now ≤ 4294967295 }
    requires few { All HasFewRows entry.now.rules }
    requires room { AreOver (variables scratch.old) rules.now }
    ensures fault { result ≡ rules_fault (O.weak_says order.now) n set.now entry.now 0 rules.now }
    ensures over { variables scratch.new ≡ variables scratch.old }
{
    for (number, rule) in rules.iter().enumerate() {
        let fault = outer_fault(order, n, set, entry, number as u32, rule, scratch);
        if fault.is_some() {
            return fault;
        }
    }
    None
}

/// A copy of a form.
fn copied(alloc: Global, form: &CutForm) -> Result<CutForm, AllocError>
    ensures { IfOk result (λ copy. copy ≡ form.now) }
{
    Ok(CutForm {
        cut: form.cut,
        constant: form.constant,
        ints: Seq::from_slice(alloc, form.ints.as_slice())?,
        sizes: Seq::from_slice(alloc, form.sizes.as_slice())?,
    })
}

/// Adds copies of forms.
fn add_copies(alloc: Global, forms: &mut Seq<CutForm>, more: &[CutForm]) -> Result<(), AllocError>
    ensures { OnOk result (forms.new ≡ forms.old ++ more.now) }
{
    for form in more {
        forms.push(copied(alloc, form)?)?;
    }
    Ok(())
}

/// A step's own forms and those that are added.
fn whole_forms(
    alloc: Global,
    step: &RankStep,
    entry: &BoundEntry,
) -> Result<Seq<CutForm>, AllocError>
    ensures { IfOk result (λ forms. forms ≡ whole_forms step.now entry.now) }
{
    let mut forms = Seq::new(alloc);
    add_copies(alloc, &mut forms, step.forms.as_slice())?;
    add_copies(alloc, &mut forms, entry.forms.as_slice())?;
    Ok(forms)
}

/// The first of the rules outside a set of which it isn't shown that a step's whole form never rises on it.
#[tactic(auto, using(crate::proofs::Limited::whole_good))]
fn whole_fault(
    alloc: Global,
    rules: &[PathRule],
    n: u32,
    set: &[u32],
    step: &RankStep,
    entry: &BoundEntry,
    scratch: &mut Scratch,
) -> Result<Option<BoundFault>, AllocError>
    requires rules { AreRules rules.now }
    requires count { length rules.now ≤ 4294967295 }
    requires step { IsRanked step.now }
    requires entry { IsLimitedEntry entry.now }
    requires rise { lists_rise entry.now ≡ true }
    requires room { AreOver (variables scratch.old) rules.now }
    ensures fault { IfOk result
        (λ fault. fault ≡ rules_fault (weak_fault (whole_ranking step.now entry.now)) n set.now entry.now 0 rules.now) }
    ensures over { variables scratch.new ≡ variables scratch.old }
{
    let whole = whole_forms(alloc, step, entry)?;
    let forms = whole.as_slice();
    if step.size {
        let weights = step.weights.as_slice();
        Ok(rules_fault(&SizeOrder { weights, forms }, n, set, entry, rules, scratch))
    } else {
        Ok(rules_fault(&LinearOrder { forms }, n, set, entry, rules, scratch))
    }
}

/// The first fault of an entry for its step and the step's set, the naming of the step aside.
#[tactic(auto, using(crate::proofs::Limited::good_rise))]
fn lists_fault(
    alloc: Global,
    rules: &[PathRule],
    n: u32,
    set: &[u32],
    step: &RankStep,
    entry: &BoundEntry,
    scratch: &mut Scratch,
) -> Result<Option<BoundFault>, AllocError>
    requires rules { AreRules rules.now }
    requires count { length rules.now ≤ 4294967295 }
    requires step { IsRanked step.now }
    requires entry { IsLimitedEntry entry.now }
    requires room { AreOver (variables scratch.old) rules.now }
    ensures fault { IfOk result (λ fault. fault ≡ lists_fault rules.now n set.now step.now entry.now) }
    ensures over { variables scratch.new ≡ variables scratch.old }
{
    if are_good_lists(rules, set, step, entry) {
        whole_fault(alloc, rules, n, set, step, entry, scratch)
    } else {
        Ok(Some(BoundFault::BadList { entry: n }))
    }
}

/// The rank step of a number.
pub(crate) fn rank_at(steps: &[ProofStep], number: u32) -> Option<&RankStep>
    ensures { MatchOption result (rank_at steps.now number ≡ None) (λ step. rank_at steps.now number ≡ Some step.now) }
{
    match steps.get(number as usize) {
        Some(ProofStep::Rank { step, rest: _ }) => Some(step),
        _ => None,
    }
}

/// The set that a step was given.
fn set_at(given: &[Option<Seq<u32>>], number: u32) -> Option<&[u32]>
    ensures { MatchOption result (set_of (slice_get given.now number) ≡ None)
        (λ set. set_of (slice_get given.now number) ≡ Some set.now) }
{
    match given.get(number as usize) {
        Some(Some(set)) => Some(set.as_slice()),
        _ => None,
    }
}

/// The first fault of an entry, where `before` is the step of the entry before.
#[tactic(auto, using(crate::proofs::Limited::step_ranked))]
fn entry_fault(
    alloc: Global,
    rules: &[PathRule],
    steps: &[ProofStep],
    given: &[Option<Seq<u32>>],
    n: u32,
    before: Option<u32>,
    entry: &BoundEntry,
    scratch: &mut Scratch,
) -> Result<Option<BoundFault>, AllocError>
    requires rules { AreRules rules.now }
    requires count { length rules.now ≤ 4294967295 }
    requires steps { AreSteps steps.now }
    requires entry { IsLimitedEntry entry.now }
    requires room { AreOver (variables scratch.old) rules.now }
    ensures fault { IfOk result
        (λ fault. fault ≡ entry_fault_by rules.now n before entry.now (rank_at steps.now entry.now.step)
        (set_of (slice_get given.now entry.now.step))) }
    ensures over { variables scratch.new ≡ variables scratch.old }
{
    let refused = BoundFault::NotRank {
        entry: n,
        step: entry.step,
    };
    let Some(step) = rank_at(steps, entry.step) else {
        return Ok(Some(refused));
    };
    let Some(set) = set_at(given, entry.step) else {
        return Ok(Some(refused));
    };
    if is_above(before, entry.step) {
        lists_fault(alloc, rules, n, set, step, entry, scratch)
    } else {
        Ok(Some(refused))
    }
}

/// The first fault of the entries.
fn entries_fault(
    alloc: Global,
    rules: &[PathRule],
    steps: &[ProofStep],
    given: &[Option<Seq<u32>>],
    entries: &[BoundEntry],
    scratch: &mut Scratch,
) -> Result<Option<BoundFault>, AllocError>
    requires rules { AreRules rules.now }
    requires count { length rules.now ≤ 4294967295 }
    requires steps { AreSteps steps.now }
    requires given { given.now ≡ given_from 0 (given_first (length rules.now) (length steps.now)) steps.now }
    requires entries { AreLimited entries.now }
    requires few { length entries.now ≤ 4294967295 }
    requires room { AreOver (variables scratch.old) rules.now }
    ensures fault { IfOk result (λ fault. fault ≡ entries_fault rules.now steps.now 0 None entries.now) }
{
    let mut before = None;
    for (n, entry) in entries.iter().enumerate() {
        let fault = entry_fault(alloc, rules, steps, given, n as u32, before, entry, scratch)?;
        if fault.is_some() {
            return Ok(fault);
        }
        before = Some(entry.step);
    }
    Ok(None)
}

/// Whether an entry names a step.
fn is_named(step: u32, entries: &[BoundEntry]) -> bool
    ensures { result ≡ is_named step entries.now }
{
    for entry in entries {
        if entry.step == step {
            return true;
        }
    }
    false
}

/// Whether a step is no rank step, or an entry names it.
fn is_covered(entries: &[BoundEntry], steps: &[ProofStep], n: u32) -> bool
    ensures { result ≡ is_covered entries.now steps.now n }
{
    rank_at(steps, n).is_none() || is_named(n, entries)
}

/// The least rank step that no entry names, as a fault.
#[tactic(auto, using(crate::proofs::Missing::one_covered, crate::proofs::Missing::one_missing, crate::proofs::Missing::none_missing))]
fn missing(entries: &[BoundEntry], steps: &[ProofStep]) -> Option<BoundFault>
    requires { length steps.now ≤ 4294967295 }
    ensures { result ≡ missing_from entries.now steps.now 0 steps.now }
{
    for n in 0..steps.len() as u32 {
        if !is_covered(entries, steps, n) {
            return Some(BoundFault::Missing { step: n });
        }
    }
    None
}

/// The first fault of the entries of a bound, for the rules and steps of a proof: the first of the entries, and after them the least
/// rank step without one. The scratch is for at least the variables of each rule.
///
/// # Errors
///
/// Want of memory.
pub(crate) fn bound_fault(
    alloc: Global,
    rules: &[PathRule],
    steps: &[ProofStep],
    given: &[Option<Seq<u32>>],
    entries: &[BoundEntry],
    scratch: &mut Scratch,
) -> Result<Option<BoundFault>, AllocError>
    requires rules { AreRules rules.now }
    requires count { length rules.now ≤ 4294967295 }
    requires steps { AreSteps steps.now }
    requires step_count { length steps.now ≤ 4294967295 }
    requires given { given.now ≡ given_from 0 (given_first (length rules.now) (length steps.now)) steps.now }
    requires entries { AreLimited entries.now }
    requires few { length entries.now ≤ 4294967295 }
    requires room { AreOver (variables scratch.old) rules.now }
    ensures { IfOk result (λ fault. fault ≡ bound_fault rules.now steps.now entries.now) }
{
    match entries_fault(alloc, rules, steps, given, entries, scratch)? {
        Some(fault) => Ok(Some(fault)),
        None => Ok(missing(entries, steps)),
    }
}
