//! `proof`: rules and a proof of them; the answer is OK or the first fault. `components`: the cuts of rules; the answer is the
//! classes of rules that reach each other, each by its first rule. Two more are made by hand: `orders` calls both orders, and `steps`
//! checks a proof of so many rank steps without rules. `read`, which is for measuring alone, reads a case of `proof` and tests its
//! limits.
ghost use Rattle.descent.specs.Conditions.{AreRules, AreSteps};

use crate::rules::limits::are_steps;
use crate::rules::{orders, proofs};
use anyhow::{Context, Result, bail};
use descent::{
    DescentFault, LinFault, PathRule, Proof, ProofStep, RankStep, StepFault, check_proof,
    components,
};
use json_view::View;
use list_views::Seq;
use serde_json::Value;
use std::alloc::{AllocError, Global};
use table_cases::json_cases::value;
use table_cases::rule_cases::{are_rules, ends, rules};
use table_cases::{Case, put_number, put_numbered, said};

/// The answer to a case.
pub fn answer(alloc: Global, case: &Case<'_>) -> Result<String> {
    match case.table() {
        "components" => classes(alloc, &value(alloc, case.text(0)?)?),
        "steps" => walked(alloc, &value(alloc, case.text(0)?)?),
        table => with_two(alloc, table, case.text(0)?, case.text(1)?),
    }
}

/// The answer to a case with two values.
fn with_two(alloc: Global, table: &str, first: &str, second: &str) -> Result<String> {
    let first = value(alloc, first)?;
    let second = value(alloc, second)?;
    match table {
        "proof" => checked(alloc, &first, &second, true),
        "orders" => orders::shown(alloc, &first, &second),
        "read" => checked(alloc, &first, &second, false),
        _ => bail!("the table is not known"),
    }
}

fn checked(alloc: Global, list: &Value, proof: &Value, is_tested: bool) -> Result<String> {
    let rules = rules(alloc, &View::root(list))?;
    let proof = proofs::proof(alloc, &View::root(proof))?;
    told(alloc, rules.as_slice(), &proof, is_tested)
}

/// The answer to a proof of rules.
fn told(alloc: Global, rules: &[PathRule], proof: &Proof, is_tested: bool) -> Result<String> {
    if !are_rules(rules) {
        bail!("a number of the rules is past its limit");
    }
    of_rules(alloc, rules, proof, is_tested)
}

fn of_rules(alloc: Global, rules: &[PathRule], proof: &Proof, is_tested: bool) -> Result<String>
    requires { AreRules rules.now }
{
    if !are_steps(proof.steps.as_slice()) {
        bail!("a number of the proof is past its limit");
    }
    if is_tested {
        tested(alloc, rules, proof)
    } else {
        said(alloc, "OK")
    }
}

fn tested(alloc: Global, rules: &[PathRule], proof: &Proof) -> Result<String>
    requires rules { AreRules rules.now }
    requires steps { AreSteps proof.now.steps }
{
    match check_proof(alloc, rules, proof) {
        Ok(()) => said(alloc, "OK"),
        Err(StepFault::At { step, fault }) => refused(alloc, step, fault),
        Err(StepFault::Memory) => bail!("out of memory"),
    }
}

fn refused(alloc: Global, step: u32, fault: DescentFault) -> Result<String> {
    let mut line = fault_text(alloc, fault)?;
    put_numbered(&mut line, " step=", i64::from(step))?;
    Ok(line)
}

/// A fault in words.
pub fn fault_text(alloc: Global, fault: DescentFault) -> Result<String, AllocError> {
    let mut line = String::from_str(alloc, fault_name(fault))?;
    put_fields(&mut line, fault)?;
    Ok(line)
}

fn fault_name(fault: DescentFault) -> &'static str {
    match fault {
        DescentFault::NotCovered { .. } => "NotCovered",
        DescentFault::BackEdge { .. } => "BackEdge",
        DescentFault::NotWeak { .. } => "NotWeak",
        DescentFault::NotStrict { .. } => "NotStrict",
        DescentFault::NotBounded { .. } => "NotBounded",
        DescentFault::Loops { .. } => "Loops",
        DescentFault::Lin(LinFault::BadIndex { .. }) => "BadIndex",
        DescentFault::Lin(LinFault::NegativeMultiplier { .. }) => "NegativeMultiplier",
        DescentFault::Lin(LinFault::Limit { .. }) => "Limit",
        DescentFault::BadStep => "BadStep",
    }
}

fn put_fields(line: &mut String, fault: DescentFault) -> Result<(), AllocError> {
    match fault {
        DescentFault::NotCovered { rule } => put_field(line, " rule=", rule),
        DescentFault::BackEdge { from, to } => put_edge(line, from, to),
        DescentFault::NotWeak { rule } => put_field(line, " rule=", rule),
        DescentFault::NotStrict { rule } => put_field(line, " rule=", rule),
        DescentFault::NotBounded { rule } => put_field(line, " rule=", rule),
        DescentFault::Loops { rule } => put_field(line, " rule=", rule),
        DescentFault::Lin(fault) => put_field(line, " n=", place_of(fault)),
        DescentFault::BadStep => Ok(()),
    }
}

fn place_of(fault: LinFault) -> u32 {
    match fault {
        LinFault::BadIndex { n } => n,
        LinFault::NegativeMultiplier { n } => n,
        LinFault::Limit { n } => n,
    }
}

fn put_edge(line: &mut String, from: u32, to: u32) -> Result<(), AllocError> {
    put_field(line, " from=", from)?;
    put_field(line, " to=", to)
}

fn put_field(line: &mut String, name: &str, number: u32) -> Result<(), AllocError> {
    put_numbered(line, name, i64::from(number))
}

/// A proof of so many rank steps without rules, each of which names the next, and an empty step.
fn walked(alloc: Global, number: &Value) -> Result<String> {
    let steps = links(alloc, count(alloc, &View::root(number))?)?;
    told(alloc, &[], &Proof { steps }, true)
}

fn count(alloc: Global, number: &View<'_, '_>) -> Result<u32> {
    let count = number
        .int(alloc, 0, 1 << 20)
        .ok()
        .context("a number is wanted")?;
    u32::try_from(count).ok().context("the number is too large")
}

fn links(alloc: Global, count: u32) -> Result<Seq<ProofStep>> {
    let mut steps = Seq::new(alloc);
    for n in 0..count {
        steps.push(link(alloc, n + 1))?;
    }
    steps.push(ProofStep::Empty)?;
    Ok(steps)
}

fn link(alloc: Global, rest: u32) -> ProofStep {
    let step = RankStep {
        size: false,
        weights: Seq::new(alloc),
        forms: Seq::new(alloc),
        rules: Seq::new(alloc),
    };
    ProofStep::Rank { step, rest }
}

/// The classes of the rules with these cuts.
fn classes(alloc: Global, cuts: &Value) -> Result<String> {
    let rules = ends(alloc, &View::root(cuts))?;
    let classes = components(alloc, rules.as_slice())?;
    let mut text = String::from_str(alloc, "[")?;
    for rule in 0..rules.len() {
        put_begun(&mut text, classes.as_slice(), rule)?;
    }
    text.push(']')?;
    Ok(text)
}

/// Puts the classes whose first rule is this one at the end of a text.
fn put_begun(text: &mut String, classes: &[Seq<u32>], rule: usize) -> Result<(), AllocError> {
    for class in classes {
        if begins_with(class.as_slice(), rule) {
            if text.len() > 1 {
                text.push(',')?;
            }
            put_class(text, class)?;
        }
    }
    Ok(())
}

/// Whether the first of the numbers is this one.
fn begins_with(class: &[u32], rule: usize) -> bool {
    match class.first() {
        Some(first) => *first as usize == rule,
        None => false,
    }
}

/// Puts the rules of a class at the end of a text.
fn put_class(text: &mut String, class: &Seq<u32>) -> Result<(), AllocError> {
    let mut begin = '[';
    for rule in class.as_slice() {
        text.push(begin)?;
        put_number(text, i64::from(*rule))?;
        begin = ',';
    }
    text.push(']')
}
