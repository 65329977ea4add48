//! Whether the lists of an entry are as they must be.
ghost use Rattle.std.specs.Prelude.{◌≡◌, slice_get};
ghost use Rattle.std.specs.List.{list_all};
ghost use Rattle.descent.specs.Splits.{has};
ghost use Rattle.bound_check.specs.Entries.{is_above, rises, keys, form_rises, lists_rise, is_end_of, is_own_cut, are_good_lists};
ghost use Rattle.bound_check.specs.inner.Words.{form_cuts, rule_numbers, lists_cut, ends_at, spares_cuts, spares_rules};

use bound_text::{BoundEntry, BoundRule};
use descent::{CutForm, PathRule, RankStep};

/// Whether a number is above the one before, if there is one.
pub(crate) fn is_above(before: Option<u32>, number: u32) -> bool
    ensures { result ≡ is_above before number }
{
    match before {
        Some(before) => before < number,
        None => true,
    }
}

/// Whether the ids of multiples rise.
fn keys_rise(entries: &[(u16, i64)]) -> bool
    ensures { result ≡ rises (keys entries.now) }
{
    let mut before = None;
    for (id, _) in entries {
        let id = u32::from(*id);
        if !is_above(before, id) {
            return false;
        }
        before = Some(id);
    }
    true
}

/// Whether the ids of a form rise.
fn form_rises(form: &CutForm) -> bool
    ensures { result ≡ form_rises form.now }
{
    keys_rise(form.ints.as_slice()) && keys_rise(form.sizes.as_slice())
}

/// Whether the cuts of forms rise.
fn cuts_rise(forms: &[CutForm]) -> bool
    ensures { result ≡ rises (form_cuts forms.now) }
{
    let mut before = None;
    for form in forms {
        if !is_above(before, form.cut) {
            return false;
        }
        before = Some(form.cut);
    }
    true
}

/// Whether the ids of each form rise.
fn forms_rise(forms: &[CutForm]) -> bool
    ensures { result ≡ list_all form_rises forms.now }
{
    for form in forms {
        if !form_rises(form) {
            return false;
        }
    }
    true
}

/// Whether the numbers of rules rise.
fn rules_rise(rules: &[BoundRule]) -> bool
    ensures { result ≡ rises (rule_numbers rules.now) }
{
    let mut before = None;
    for rule in rules {
        if !is_above(before, rule.rule) {
            return false;
        }
        before = Some(rule.rule);
    }
    true
}

/// Whether the lists of an entry rise.
fn lists_rise(entry: &BoundEntry) -> bool
    ensures { result ≡ lists_rise entry.now }
{
    cuts_rise(entry.forms.as_slice())
        && forms_rise(entry.forms.as_slice())
        && rules_rise(entry.rules.as_slice())
}

/// Whether a rule is in a set.
pub(crate) fn has(set: &[u32], rule: u32) -> bool
    ensures { result ≡ has set.now rule }
{
    for other in set {
        if *other == rule {
            return true;
        }
    }
    false
}

/// Whether the rule of a number starts or ends at a cut.
fn is_end_of(rules: &[PathRule], number: u32, cut: u32) -> bool
    ensures { result ≡ is_end_of cut (slice_get rules.now number) }
{
    match rules.get(number as usize) {
        Some(rule) => rule.from == cut || rule.to == cut,
        None => false,
    }
}

/// Whether a rule of a set starts or ends at a cut.
fn ends_at(rules: &[PathRule], set: &[u32], cut: u32) -> bool
    ensures { result ≡ ends_at rules.now set.now cut }
{
    for number in set {
        if is_end_of(rules, *number, cut) {
            return true;
        }
    }
    false
}

/// Whether a form is listed for a cut.
fn lists_cut(forms: &[CutForm], cut: u32) -> bool
    ensures { result ≡ lists_cut forms.now cut }
{
    for form in forms {
        if form.cut == cut {
            return true;
        }
    }
    false
}

/// Whether a step lists a form for a cut, or a rule of its set starts or ends there.
fn is_own_cut(rules: &[PathRule], set: &[u32], step: &RankStep, cut: u32) -> bool
    ensures { result ≡ is_own_cut rules.now set.now step.now cut }
{
    lists_cut(step.forms.as_slice(), cut) || ends_at(rules, set, cut)
}

/// Whether none of the forms is for such a cut.
fn spares_cuts(rules: &[PathRule], set: &[u32], step: &RankStep, forms: &[CutForm]) -> bool
    ensures { result ≡ spares_cuts rules.now set.now step.now forms.now }
{
    for form in forms {
        if is_own_cut(rules, set, step, form.cut) {
            return false;
        }
    }
    true
}

/// Whether none of the listed rules is in a set.
fn spares_rules(set: &[u32], listed: &[BoundRule]) -> bool
    ensures { result ≡ spares_rules set.now listed.now }
{
    for rule in listed {
        if has(set, rule.rule) {
            return false;
        }
    }
    true
}

/// Whether the lists of an entry are as they must be: they rise, and name neither a cut that the step lists or at which a rule of its set
/// starts or ends, nor a rule of the set.
pub(crate) fn are_good_lists(
    rules: &[PathRule],
    set: &[u32],
    step: &RankStep,
    entry: &BoundEntry,
) -> bool
    ensures { result ≡ are_good_lists rules.now set.now step.now entry.now }
{
    lists_rise(entry)
        && spares_cuts(rules, set, step, entry.forms.as_slice())
        && spares_rules(set, entry.rules.as_slice())
}
