//! The check of a proof.
ghost use Rattle.std.specs.Prelude.{◌≡◌, ◌≤◌, ℕ, Option, Some, None, OnOk, length, slice_get};
ghost use Rattle.lin_core.specs.Sums.{variables};
ghost use Rattle.descent.specs.declared.faults.StepFault.{StepFault};
ghost use Rattle.descent.specs.Chains.{ChainsEnd, NoInfiniteChain};
ghost use Rattle.descent.specs.Conditions.{AreRules, AreSteps, IsStep};
ghost use Rattle.descent.specs.Conditions.{AreOver};
ghost use Rattle.descent.specs.inner.Handing.{GoesOn};
ghost use Rattle.descent.specs.Steps.{Given, try_step, set_of, proof_fault, Refuses};

use crate::faults::{DescentFault, StepFault};
use crate::given::{given_first, hand_on, set_of};
use crate::proof::{Proof, ProofStep};
use crate::rules::PathRule;
use crate::steps::step_fault;
use lin_core::Scratch;
use list_views::Seq;
use std::alloc::Global;

/// The number of variables of the rule that has most.
pub fn most_variables(rules: &[PathRule]) -> u32
    ensures over { AreOver result rules.now }
    ensures least { (count : ℕ) → AreOver count rules.now → result ≤ count }
{
    let mut most = 0;
    for rule in rules {
        if rule.vars > most {
            most = rule.vars;
        }
    }
    most
}

/// Tests one step for the set that it was given, and gives the sets that it leaves to the steps that it names.
fn try_step(
    alloc: Global,
    rules: &[PathRule],
    number: u32,
    step: &ProofStep,
    given: &mut Vec<Option<Seq<u32>>>,
    scratch: &mut Scratch,
) -> Result<(), StepFault>
    requires rules { AreRules rules.now }
    requires step { IsStep step.now }
    requires room { AreOver (variables scratch.old) rules.now }
    ensures answer { (next : Given → Option StepFault)
        → GoesOn result (try_step rules.now number step.now given.old.items (set_of (slice_get given.old.items number)) next)
        (next given.new.items) }
    ensures over { variables scratch.new ≡ variables scratch.old }
{
    let Some(set) = set_of(alloc, given, number)? else {
        return Err(StepFault::At {
            step: number,
            fault: DescentFault::BadStep,
        });
    };
    if !hand_on(alloc, number, set.as_slice(), step, given)? {
        return Err(StepFault::At {
            step: number,
            fault: DescentFault::BadStep,
        });
    }
    match step_fault(alloc, rules, set.as_slice(), step, scratch)? {
        Some(fault) => Err(StepFault::At {
            step: number,
            fault,
        }),
        None => Ok(()),
    }
}

/// Tests the steps one after another.
fn walk(
    alloc: Global,
    rules: &[PathRule],
    count: u32,
    steps: &[ProofStep],
    scratch: &mut Scratch,
) -> Result<(), StepFault>
    requires rules { AreRules rules.now }
    requires count { length rules.now ≡ count }
    requires steps { AreSteps steps.now }
    requires some { 1 ≤ length steps.now }
    requires few { length steps.now ≤ 4294967295 }
    requires room { AreOver (variables scratch.old) rules.now }
    ensures { Refuses result (proof_fault rules.now steps.now) }
{
    let mut given = given_first(alloc, count, steps.len())?;
    for (n, step) in steps.iter().enumerate() {
        try_step(alloc, rules, n as u32, step, &mut given, scratch)?;
    }
    Ok(())
}

/// Tests the steps, of which there may be none.
fn check_steps(alloc: Global, rules: &[PathRule], steps: &[ProofStep]) -> Result<(), StepFault>
    requires rules { AreRules rules.now }
    requires steps { AreSteps steps.now }
    ensures answer { Refuses result (proof_fault rules.now steps.now) }
    ensures ends { OnOk result (ChainsEnd rules.now) }
    ensures no_infinite { OnOk result (NoInfiniteChain rules.now) }
{
    if steps.is_empty() {
        return Err(StepFault::At {
            step: 0,
            fault: DescentFault::BadStep,
        });
    }
    if steps.len() > u32::MAX as usize || rules.len() > u32::MAX as usize {
        return Err(StepFault::Memory);
    }
    let mut scratch = Scratch::new(alloc, most_variables(rules))?;
    walk(alloc, rules, rules.len() as u32, steps, &mut scratch)
}

/// Whether a proof is closed for the rules, which are numbered from 0: every step holds for the set of rules that it takes.
/// Then no chain of the rules is infinite. Steps are walked by number, and a set is copied once for the step that takes it.
///
/// # Errors
///
/// The first step that breaks a rule, with the rule that it breaks first: a bad naming of steps comes before all others, and
/// else the faults come by the rules' numbers. Want of memory, which also answers more rules or steps than 32 bits count.
pub fn check_proof(alloc: Global, rules: &[PathRule], proof: &Proof) -> Result<(), StepFault>
    requires rules { AreRules rules.now }
    requires steps { AreSteps proof.now.steps }
    ensures answer { Refuses result (proof_fault rules.now proof.now.steps) }
    ensures ends { OnOk result (ChainsEnd rules.now) }
    ensures no_infinite { OnOk result (NoInfiniteChain rules.now) }
{
    check_steps(alloc, rules, proof.steps.as_slice())
}
