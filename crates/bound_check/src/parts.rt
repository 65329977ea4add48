//! The sets that the steps of a proof are given, and how many parts no step takes.
ghost use Rattle.std.specs.Prelude.{◌≡◌, ◌≤◌, ◌<◌, ◌+◌, Some, IfOk, OnOk, length, slice_get, slice_set, slice_index_or};
ghost use Rattle.std.specs.List.{filter_map};
ghost use Rattle.descent.specs.Steps.{given_first, set_of, leaves, part_left, parts_left, same_option, weak_ones, without};
ghost use Rattle.bound_check.specs.Parts.{handed, given_on, given_from, untaken_from};
ghost use Rattle.bound_check.specs.inner.Words.{Hands, untaken_of_step, untaken_of_parts};

use descent::{ProofStep, RankRule, given_first, set_of, within};
use list_views::Seq;
use std::alloc::{AllocError, Global};

/// Gives a set to a step, if it is there.
fn hand(step: u32, set: Seq<u32>, given: &mut Vec<Option<Seq<u32>>>)
    ensures { given.new.items ≡ slice_set given.old.items step (Some set) }
{
    let place = step as usize;
    if place < given.len() {
        given[place] = Some(set);
    }
}

/// The rules that are listed as weak.
fn weak_ones(alloc: Global, rules: &[RankRule]) -> Result<Seq<u32>, AllocError>
    ensures { IfOk result (λ set. set ≡ weak_ones rules.now) }
{
    let mut set = Seq::new(alloc);
    for listed in rules {
        if let RankRule::Weak { rule, .. } = listed {
            set.push(*rule)?;
        }
    }
    Ok(set)
}

/// The set without a rule.
fn without(alloc: Global, rule: u32, set: &[u32]) -> Result<Seq<u32>, AllocError>
    ensures { IfOk result (λ less. less ≡ without rule set.now) }
{
    let mut less = Seq::new(alloc);
    for other in set {
        if *other != rule {
            less.push(*other)?;
        }
    }
    Ok(less)
}

/// Gives the rules of a part to the step that takes it, if one does.
fn hand_part(
    alloc: Global,
    set: &[u32],
    part: &[u32],
    step: Option<u32>,
    given: &mut Vec<Option<Seq<u32>>>,
) -> Result<(), AllocError>
    ensures { OnOk result (Hands (part_left set.now part.now step) given.old.items given.new.items) }
{
    if let Some(step) = step {
        hand(step, within(alloc, part, set)?, given);
    }
    Ok(())
}

/// Gives the parts of a split to the steps that take them.
fn hand_parts(
    alloc: Global,
    set: &[u32],
    parts: &[Seq<u32>],
    steps: &[Option<u32>],
    given: &mut Vec<Option<Seq<u32>>>,
) -> Result<(), AllocError>
    ensures { OnOk result
        (given.new.items ≡ handed (filter_map same_option (parts_left set.now parts.now steps.now)) given.old.items) }
{
    for (n, part) in parts.iter().enumerate() {
        let Some(step) = steps.get(n) else {
            return Ok(());
        };
        hand_part(alloc, set, part.as_slice(), *step, given)?;
    }
    Ok(())
}

/// Gives the sets that a step leaves to the steps that it names.
fn hand_on(
    alloc: Global,
    set: &[u32],
    step: &ProofStep,
    given: &mut Vec<Option<Seq<u32>>>,
) -> Result<(), AllocError>
    ensures { OnOk result (given.new.items ≡ handed (leaves set.now step.now) given.old.items) }
{
    match step {
        ProofStep::Empty => Ok(()),
        ProofStep::Split { parts, steps } => {
            hand_parts(alloc, set, parts.as_slice(), steps.as_slice(), given)
        }
        ProofStep::Rank { step, rest } => {
            let left = weak_ones(alloc, step.rules.as_slice())?;
            hand(*rest, left, given);
            Ok(())
        }
        ProofStep::Dead {
            rule,
            multipliers: _,
            rest,
        } => {
            let left = without(alloc, *rule, set)?;
            hand(*rest, left, given);
            Ok(())
        }
    }
}

/// Gives what a step leaves to the steps that it names, if it was given a set.
fn hand_set(
    alloc: Global,
    number: u32,
    step: &ProofStep,
    given: &mut Vec<Option<Seq<u32>>>,
) -> Result<(), AllocError>
    ensures { OnOk result
        (given.new.items ≡ given_on step.now given.old.items (set_of (slice_get given.old.items number))) }
{
    match set_of(alloc, given, number)? {
        Some(set) => hand_on(alloc, set.as_slice(), step, given),
        None => Ok(()),
    }
}

/// The set of each step of a proof for so many rules, if it is given one. Sets are copied once for the steps that take them.
///
/// # Errors
///
/// Want of memory, which also answers more steps than 32 bits count.
pub fn given_sets(
    alloc: Global,
    rules: u32,
    steps: &[ProofStep],
) -> Result<Vec<Option<Seq<u32>>>, AllocError>
    ensures { IfOk result (λ given. given.items ≡ given_from 0 (given_first rules (length steps.now)) steps.now) }
{
    if steps.is_empty() {
        return Ok(Vec::new(alloc));
    }
    if steps.len() > u32::MAX as usize {
        return Err(AllocError);
    }
    let mut given = given_first(alloc, rules, steps.len())?;
    for (n, step) in steps.iter().enumerate() {
        hand_set(alloc, n as u32, step, &mut given)?;
    }
    Ok(given)
}

/// The sum of two counts.
///
/// # Errors
///
/// Want of memory answers a sum that passes 64 bits.
pub(crate) fn added(count: u64, more: u64) -> Result<u64, AllocError>
    ensures { IfOk result (λ sum. sum ≡ count + more) }
{
    match count.checked_add(more) {
        Some(sum) => Ok(sum),
        None => Err(AllocError),
    }
}

/// The count of a step, among the counts of all; a step that isn't there has 0.
pub(crate) fn count_of(counts: &[u64], step: u32) -> u64
    ensures { result ≡ slice_index_or counts.now step 0 }
{
    match counts.get(step as usize) {
        Some(count) => *count,
        None => 0,
    }
}

/// How many parts no step takes of a split's, and of those of the steps that take its other parts.
fn untaken_of_parts(counts: &[u64], steps: &[Option<u32>]) -> Result<u64, AllocError>
    ensures { IfOk result (λ count. count ≡ untaken_of_parts counts.now steps.now) }
{
    let mut count = 0;
    for step in steps {
        let more = match step {
            Some(step) => count_of(counts, *step),
            None => 1,
        };
        count = added(count, more)?;
    }
    Ok(count)
}

/// How many stand in a step and in the steps that its sets are left to.
fn untaken_of_step(counts: &[u64], step: &ProofStep) -> Result<u64, AllocError>
    ensures { IfOk result (λ count. count ≡ untaken_of_step counts.now step.now) }
{
    match step {
        ProofStep::Empty => Ok(0),
        ProofStep::Split { parts: _, steps } => untaken_of_parts(counts, steps.as_slice()),
        ProofStep::Rank { step: _, rest } => Ok(count_of(counts, *rest)),
        ProofStep::Dead {
            rule: _,
            multipliers: _,
            rest,
        } => Ok(count_of(counts, *rest)),
    }
}

/// For each step of a proof, how many parts that no step takes stand in it and in the steps that its sets are left to.
///
/// # Errors
///
/// Want of memory, which also answers counts that pass 64 bits.
#[tactic(auto, using(crate::proofs::Counting::none_counted, crate::proofs::Counting::one_counted, crate::proofs::Counting::all_counted))]
pub(crate) fn untaken(alloc: Global, steps: &[ProofStep]) -> Result<Vec<u64>, AllocError>
    ensures { IfOk result (λ counts. counts.items ≡ untaken_from 0 steps.now) }
{
    let mut counts = vec![in alloc; 0; steps.len()]?;
    let mut left = steps.len();
    while left > 0 {
        left -= 1;
        let count = untaken_of_step(counts.as_slice(), &steps[left])?;
        counts[left] = count;
    }
    Ok(counts)
}
