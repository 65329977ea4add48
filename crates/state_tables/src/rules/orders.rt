//! Calls of both orders on a rule.
ghost use Rattle.std.specs.Prelude.{◌≡◌, ◌≤◌};
ghost use Rattle.lin_core.specs.Sums.{variables};
ghost use Rattle.descent.specs.Conditions.{AreFew, AreForms, IsRule};

use crate::rules::answers::fault_text;
use crate::rules::limits::{are_few, are_forms};
use crate::rules::proofs::forms;
use anyhow::{Result, bail};
use descent::{CutForm, DescentFault, LinearOrder, Order, PathRule, Scratch, SizeOrder};
use json_view::View;
use serde_json::Value;
use std::alloc::Global;
use table_cases::json_cases::item;
use table_cases::rule_cases::{is_rule, pairs, rules};
use table_cases::said;

/// What `weak`, `strict` and `bounded` of both orders answer, on the first of the rules, which has number 7. The second value has the
/// forms and the multipliers; no class has a weight.
pub fn shown(alloc: Global, list: &Value, parts: &Value) -> Result<String> {
    let rules = rules(alloc, &View::root(list))?;
    let parts = View::root(parts);
    let forms = forms(alloc, &item(alloc, &parts, 0)?)?;
    let multipliers = pairs(alloc, &parts, 1)?;
    let Some(rule) = rules.first() else {
        bail!("a rule is wanted");
    };
    of_rule(alloc, rule, forms.as_slice(), multipliers.as_slice())
}

fn of_rule(
    alloc: Global,
    rule: &PathRule,
    forms: &[CutForm],
    multipliers: &[(u32, i64)],
) -> Result<String> {
    if !is_rule(rule) {
        bail!("a number of the rule is past its limit");
    }
    of_forms(alloc, rule, forms, multipliers)
}

fn of_forms(
    alloc: Global,
    rule: &PathRule,
    forms: &[CutForm],
    multipliers: &[(u32, i64)],
) -> Result<String>
    requires { IsRule rule.now }
{
    if !are_forms(forms) {
        bail!("a number of the forms is past its limit");
    }
    of_multipliers(alloc, rule, forms, multipliers)
}

fn of_multipliers(
    alloc: Global,
    rule: &PathRule,
    forms: &[CutForm],
    multipliers: &[(u32, i64)],
) -> Result<String>
    requires rule { IsRule rule.now }
    requires forms { AreForms forms.now }
{
    if !are_few(multipliers) {
        bail!("there are too many multipliers");
    }
    by_both(alloc, rule, forms, multipliers)
}

fn by_both(
    alloc: Global,
    rule: &PathRule,
    forms: &[CutForm],
    multipliers: &[(u32, i64)],
) -> Result<String>
    requires rule { IsRule rule.now }
    requires forms { AreForms forms.now }
    requires few { AreFew multipliers.now }
{
    let mut scratch = Scratch::new(alloc, rule.vars)?;
    let ints = LinearOrder { forms };
    let by_ints = by(alloc, &ints, rule, multipliers, &mut scratch)?;
    let sizes = SizeOrder {
        weights: &[],
        forms,
    };
    let by_sizes = by(alloc, &sizes, rule, multipliers, &mut scratch)?;
    Ok(format!(in alloc; "{by_ints}; {by_sizes}")?)
}

/// What one order answers.
fn by<O: Order>(
    alloc: Global,
    order: &O,
    rule: &PathRule,
    multipliers: &[(u32, i64)],
    scratch: &mut Scratch,
) -> Result<String>
    requires ready { O.is_ready order.now }
    requires rule { IsRule rule.now }
    requires few { AreFew multipliers.now }
    requires room { rule.now.vars ≤ variables scratch.old }
    ensures over { variables scratch.new ≡ variables scratch.old }
{
    let weak = order.weak(7, rule, multipliers, scratch);
    let strict = order.strict(7, rule, multipliers, scratch);
    let bounded = order.bounded(7, rule, multipliers, scratch);
    let weak = text(alloc, weak)?;
    let strict = text(alloc, strict)?;
    let bounded = text(alloc, bounded)?;
    Ok(format!(in alloc; "{weak}, {strict}, {bounded}")?)
}

fn text(alloc: Global, answer: std::result::Result<(), DescentFault>) -> Result<String> {
    match answer {
        Ok(()) => said(alloc, "OK"),
        Err(fault) => Ok(fault_text(alloc, fault)?),
    }
}
