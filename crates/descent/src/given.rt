//! The sets that steps are given, by the steps' numbers.
ghost use Rattle.std.specs.Prelude.{◌≡◌, ◌≤◌, List, Option, Some, None, IfOk, slice_get};
ghost use Rattle.std.specs.List.{filter_map};
ghost use Rattle.descent.specs.inner.Handing.{Gives, IsHanded};
ghost use Rattle.descent.specs.Steps.{given_first, is_free, give, set_of, leaves, part_left, parts_left, same_option};

use crate::proof::ProofStep;
use crate::sets::{all_rules, weak_ones, within, without};
use list_views::Seq;
use std::alloc::{AllocError, Global};

/// The sets of so many steps as a proof begins: step 0 is given all rules, and the other steps have no set yet.
///
/// # Errors
///
/// Want of memory.
pub fn given_first(
    alloc: Global,
    rules: u32,
    steps: usize,
) -> Result<Vec<Option<Seq<u32>>>, AllocError>
    requires { 1 ≤ steps }
    ensures { IfOk result (λ given. given.items ≡ given_first rules steps) }
{
    let mut given = Vec::new(alloc);
    given.push(Some(all_rules(alloc, rules)?))?;
    for _n in 1..steps {
        given.push(None)?;
    }
    Ok(given)
}

/// A copy of the set that a step was given, if it was given one.
///
/// # Errors
///
/// Want of memory.
pub fn set_of(
    alloc: Global,
    given: &[Option<Seq<u32>>],
    number: u32,
) -> Result<Option<Seq<u32>>, AllocError>
    ensures { IfOk result (λ set. set ≡ set_of (slice_get given.now number)) }
{
    match given.get(number as usize) {
        Some(Some(set)) => Ok(Some(Seq::from_slice(alloc, set.as_slice())?)),
        _ => Ok(None),
    }
}

/// Whether a step is there and has no set yet.
fn is_free(given: &[Option<Seq<u32>>], step: u32) -> bool
    ensures { result ≡ is_free (slice_get given.now step) }
{
    match given.get(step as usize) {
        Some(None) => true,
        _ => false,
    }
}

/// Gives a set to a step, where step `number` may name it, and says whether it may.
fn give(number: u32, step: u32, set: Seq<u32>, given: &mut Vec<Option<Seq<u32>>>) -> bool
    ensures { Gives number (Some (step, set)) result given.old.items given.new.items }
{
    if step <= number || !is_free(given, step) {
        return false;
    }
    given[step as usize] = Some(set);
    true
}

/// Gives the rules of a part to the step that takes it, if one does.
fn give_part(
    alloc: Global,
    number: u32,
    set: &[u32],
    part: &[u32],
    step: Option<u32>,
    given: &mut Vec<Option<Seq<u32>>>,
) -> Result<bool, AllocError>
    ensures { IfOk result (λ done. Gives number (part_left set.now part.now step) done given.old.items given.new.items) }
{
    match step {
        Some(step) => Ok(give(number, step, within(alloc, part, set)?, given)),
        None => Ok(true),
    }
}

/// Gives the parts of a split to the steps that take them.
fn give_parts(
    alloc: Global,
    number: u32,
    set: &[u32],
    parts: &[Seq<u32>],
    steps: &[Option<u32>],
    given: &mut Vec<Option<Seq<u32>>>,
) -> Result<bool, AllocError>
    ensures { IfOk result
        (λ done. IsHanded done (give number (filter_map same_option (parts_left set.now parts.now steps.now)) given.old.items)
        given.new.items) }
{
    for (n, part) in parts.iter().enumerate() {
        let Some(step) = steps.get(n) else {
            return Ok(true);
        };
        if !give_part(alloc, number, set, part.as_slice(), *step, given)? {
            return Ok(false);
        }
    }
    Ok(true)
}

/// Gives the sets that a step leaves to the steps that it names, and says whether it may name them.
///
/// # Errors
///
/// Want of memory.
pub(crate) fn hand_on(
    alloc: Global,
    number: u32,
    set: &[u32],
    step: &ProofStep,
    given: &mut Vec<Option<Seq<u32>>>,
) -> Result<bool, AllocError>
    ensures { IfOk result (λ done. IsHanded done (give number (leaves set.now step.now) given.old.items) given.new.items) }
{
    match step {
        ProofStep::Empty => Ok(true),
        ProofStep::Split { parts, steps } => give_parts(
            alloc,
            number,
            set,
            parts.as_slice(),
            steps.as_slice(),
            given,
        ),
        ProofStep::Rank { step, rest } => Ok(give(
            number,
            *rest,
            weak_ones(alloc, step.rules.as_slice())?,
            given,
        )),
        ProofStep::Dead {
            rule,
            multipliers: _,
            rest,
        } => Ok(give(number, *rest, without(alloc, *rule, set)?, given)),
    }
}
