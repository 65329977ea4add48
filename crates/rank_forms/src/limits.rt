//! Whether a step is one that a closed proof takes.
ghost use Rattle.std.specs.Prelude.{◌≡◌, ◌≤◌, ◌^◌, [], All, IsTrue, IfOk, length, unsigned_abs, None};
ghost use Rattle.lin_core.specs.Rows.{RiseFrom};
ghost use Rattle.lin_core.specs.Weights.{AreWeights, IsWeight};
ghost use Rattle.descent.specs.Conditions.{AreFew, AreForms, AreMultiples, AreRules, IsForm, IsListed, IsRanked};
ghost use Rattle.descent.specs.Steps.{numbers_from, ranking_fault, ranking_of};
ghost use Rattle.rank_forms.specs.RankSteps.{FormsRise, HaveNoSizes, IsCutOf, IsLinear, IsRankStep, has_strict, is_strict};

use descent::{
    CutForm, PathRule, RankRule, RankStep, Scratch, all_rules, check_rank_step, most_variables,
};
use std::alloc::{AllocError, Global};

/// Whether the ids rise.
fn ids_rise(entries: &[(u16, i64)]) -> bool
    ensures { IsTrue result → RiseFrom 0 65536 entries.now }
{
    let mut low = 0;
    for (id, _) in entries {
        if u32::from(*id) < low {
            return false;
        }
        low = u32::from(*id) + 1;
    }
    true
}

fn is_small(entry: &(u16, i64)) -> bool
    ensures { IsTrue result → unsigned_abs entry.now.1 ≤ 2 ^ 31 }
{
    entry.1.unsigned_abs() <= 1 << 31
}

fn are_small(entries: &[(u16, i64)]) -> bool
    ensures { IsTrue result → All (λ entry. unsigned_abs entry.1 ≤ 2 ^ 31) entries.now }
{
    entries.iter().all(|entry| is_small(entry))
}

fn are_multiples(entries: &[(u16, i64)]) -> bool
    ensures { IsTrue result → AreMultiples entries.now }
{
    ids_rise(entries) && are_small(entries)
}

fn is_form(form: &CutForm) -> bool
    ensures { IsTrue result → IsForm form.now }
{
    form.constant.unsigned_abs() <= 1 << 40
        && are_multiples(form.ints.as_slice())
        && are_multiples(form.sizes.as_slice())
}

/// Whether the numbers of the forms are within their limits: constants of at most 2^40 in size, rising ids with multiples of at most
/// 2^31 in size.
pub fn are_forms(forms: &[CutForm]) -> bool
    ensures { IsTrue result → AreForms forms.now }
{
    forms.iter().all(|form| is_form(form))
}

fn is_weight(weight: &(u32, i64)) -> bool
    ensures { IsTrue result → IsWeight weight.now }
{
    0 <= weight.1 && weight.1 <= 65535
}

fn are_weights(weights: &[(u32, i64)]) -> bool
    ensures { IsTrue result → AreWeights weights.now }
{
    weights.iter().all(|weight| is_weight(weight))
}

/// Whether there are few enough multipliers: at most 65,536.
pub fn are_few(multipliers: &[(u32, i64)]) -> bool
    ensures few { IsTrue result → AreFew multipliers.now }
    ensures only { AreFew multipliers.now → IsTrue result }
{
    multipliers.len() <= 65536
}

fn is_listed(listed: &RankRule) -> bool
    ensures { IsTrue result → IsListed listed.now }
{
    match listed {
        RankRule::Weak { rule: _, fall } => are_few(fall.as_slice()),
        RankRule::Strict {
            rule: _,
            fall,
            bound,
        } => are_few(fall.as_slice()) && are_few(bound.as_slice()),
    }
}

fn are_listed(listed: &[RankRule]) -> bool
    ensures { IsTrue result → All IsListed listed.now }
{
    listed.iter().all(|one| is_listed(one))
}

/// Whether the numbers of a step are within their limits: those of forms, weights from 0 to 65,535, and at most 65,536 multipliers a
/// rule and list.
pub fn is_ranked(step: &RankStep) -> bool
    ensures { IsTrue result → IsRanked step.now }
{
    are_forms(step.forms.as_slice())
        && are_weights(step.weights.as_slice())
        && are_listed(step.rules.as_slice())
}

/// Whether the cuts rise.
fn cuts_rise(forms: &[CutForm]) -> bool
    ensures { IsTrue result → FormsRise 0 forms.now }
{
    let mut low: u64 = 0;
    for form in forms {
        if u64::from(form.cut) < low {
            return false;
        }
        low = u64::from(form.cut) + 1;
    }
    true
}

/// Whether a rule starts or ends at the cut.
fn is_cut(rules: &[PathRule], cut: u32) -> bool
    ensures { IsTrue result → IsCutOf rules.now cut }
{
    for rule in rules {
        if rule.from == cut || rule.to == cut {
            return true;
        }
    }
    false
}

/// Whether each form is one of a cut at which a rule starts or ends.
fn are_own(rules: &[PathRule], forms: &[CutForm]) -> bool
    ensures { IsTrue result → All (λ form. IsCutOf rules.now form.cut) forms.now }
{
    forms.iter().all(|form| is_cut(rules, form.cut))
}

/// Whether the classes rise.
fn classes_rise(weights: &[(u32, i64)]) -> bool
    ensures { IsTrue result → RiseFrom 0 4294967296 weights.now }
{
    let mut low: u64 = 0;
    for (class, _) in weights {
        if u64::from(*class) < low {
            return false;
        }
        low = u64::from(*class) + 1;
    }
    true
}

/// Whether the form has no sizes.
fn has_no_sizes(form: &CutForm) -> bool
    ensures { IsTrue result → form.now.sizes ≡ [] }
{
    form.sizes.is_empty()
}

/// Whether no form has sizes.
fn have_no_sizes(forms: &[CutForm]) -> bool
    ensures { IsTrue result → HaveNoSizes forms.now }
{
    for form in forms {
        if !has_no_sizes(form) {
            return false;
        }
    }
    true
}

/// Whether no class has a weight.
fn has_no_weights(step: &RankStep) -> bool
    ensures { IsTrue result → step.now.weights ≡ [] }
{
    step.weights.is_empty()
}

/// Whether there are neither weights nor sizes where sizes don't count.
fn is_linear(step: &RankStep) -> bool
    ensures { IsTrue result → IsLinear step.now }
{
    if step.size {
        return true;
    }
    has_no_weights(step) && have_no_sizes(step.forms.as_slice())
}

fn is_strict(listed: &RankRule) -> bool
    ensures { result ≡ is_strict listed.now }
{
    match listed {
        RankRule::Weak { rule: _, fall: _ } => false,
        RankRule::Strict {
            rule: _,
            fall: _,
            bound: _,
        } => true,
    }
}

/// Whether a rule is listed on which the form falls.
fn has_strict(listed: &[RankRule]) -> bool
    ensures { result ≡ has_strict listed.now }
{
    for one in listed {
        if is_strict(one) {
            return true;
        }
    }
    false
}

/// Whether the check of a step takes it.
fn is_taken(alloc: Global, rules: &[PathRule], step: &RankStep) -> Result<bool, AllocError>
    requires rules { AreRules rules.now }
    requires step { IsRanked step.now }
    ensures { IfOk result (λ taken. IsTrue taken → ranking_fault (ranking_of step.now) rules.now (numbers_from 0 (length rules.now))
        step.now.rules ≡ None) }
{
    let Ok(count) = u32::try_from(rules.len()) else {
        return Ok(false);
    };
    let set = all_rules(alloc, count)?;
    let mut scratch = Scratch::new(alloc, most_variables(rules))?;
    match check_rank_step(rules, set.as_slice(), step, &mut scratch) {
        Ok(()) => Ok(true),
        Err(_fault) => Ok(false),
    }
}

/// Whether a step is within its limits, has forms of cuts of the rules alone and a strict rule, and is taken by `check_rank_step` for all of the rules.
///
/// # Errors
///
/// Want of memory.
pub fn is_rank_step(alloc: Global, rules: &[PathRule], step: &RankStep) -> Result<bool, AllocError>
    requires { AreRules rules.now }
    ensures { IfOk result (λ is. IsTrue is → IsRankStep rules.now step.now) }
{
    if !is_ranked(step) {
        return Ok(false);
    }
    let keeps = cuts_rise(step.forms.as_slice())
        && are_own(rules, step.forms.as_slice())
        && classes_rise(step.weights.as_slice())
        && is_linear(step)
        && has_strict(step.rules.as_slice());
    if !keeps {
        return Ok(false);
    }
    is_taken(alloc, rules, step)
}
