//! Whether a set of rules is divided into parts as a split says.
ghost use Rattle.std.specs.Prelude.{◌≡◌, Some, None, IfOk, filter, if◌then◌else◌};
ghost use Rattle.descent.specs.inner.Placed.{lesser, lower_among, back_among, loop_among};
ghost use Rattle.descent.specs.Splits.{is_misplaced, least, uncovered, is_below, is_lone, loops_at, edge_fault, loop_fault, split_fault};

use crate::faults::DescentFault;
use crate::passing::passes;
use crate::rules::PathRule;
use crate::sets::{has, is_followed, place_in, placed, stands_in};
use list_views::Seq;
use std::alloc::{AllocError, Global};

/// Whether the rule is in the set and doesn't stand exactly once in the parts, or the other way round.
fn is_misplaced(set: &[u32], parts: &[Seq<u32>], rule: u32) -> bool
    ensures { result ≡ is_misplaced set.now parts.now rule }
{
    if has(set, rule) {
        place_in(parts, rule).is_none()
    } else {
        stands_in(parts, rule)
    }
}

/// The lesser of two rules, of which the first may be missing.
fn lesser(least: Option<u32>, rule: u32) -> u32
    ensures { lesser least (Some rule) ≡ Some result }
{
    match least {
        Some(other) if other <= rule => other,
        _ => rule,
    }
}

/// The lesser of a rule that may be missing and one more, where this one is misplaced.
fn with_misplaced(set: &[u32], parts: &[Seq<u32>], least: Option<u32>, rule: u32) -> Option<u32>
    ensures { result ≡ (if is_misplaced set.now parts.now rule then lesser least (Some rule) else least) }
{
    if is_misplaced(set, parts, rule) {
        Some(lesser(least, rule))
    } else {
        least
    }
}

/// The least misplaced rule of a list and one more that may be there.
fn least_misplaced(
    set: &[u32],
    parts: &[Seq<u32>],
    rules: &[u32],
    found: Option<u32>,
) -> Option<u32>
    ensures { result ≡ lesser found (least (filter (is_misplaced set.now parts.now) rules.now)) }
{
    let mut least = found;
    for rule in rules {
        least = with_misplaced(set, parts, least, *rule);
    }
    least
}

/// The least rule that is in the set and doesn't stand exactly once in the parts, or the other way round.
fn uncovered(set: &[u32], parts: &[Seq<u32>]) -> Option<u32>
    ensures { result ≡ uncovered set.now parts.now }
{
    let mut least = least_misplaced(set, parts, set, None);
    for part in parts {
        least = least_misplaced(set, parts, part.as_slice(), least);
    }
    least
}

/// Whether the one place is below the other.
fn is_below(place: Option<usize>, other: Option<usize>) -> bool
    ensures { result ≡ is_below place other }
{
    match (place, other) {
        (Some(low), Some(high)) => low < high,
        _ => false,
    }
}

/// The first of these rules that follows the rule and stands in a lower part.
fn lower_one(
    rules: &[PathRule],
    placed: &[(u32, Option<usize>)],
    rule: u32,
    place: Option<usize>,
) -> Option<u32>
    ensures { result ≡ lower_among rules.now rule place placed.now }
{
    for (next, there) in placed {
        if is_followed(rules, rule, *next) && is_below(*there, place) {
            return Some(*next);
        }
    }
    None
}

/// The first rule that is followed by one of a lower part.
fn back_edge(rules: &[PathRule], placed: &[(u32, Option<usize>)]) -> Option<DescentFault>
    ensures { result ≡ back_among rules.now placed.now placed.now }
{
    for (rule, place) in placed {
        if let Some(to) = lower_one(rules, placed, *rule, *place) {
            return Some(DescentFault::BackEdge { from: *rule, to });
        }
    }
    None
}

/// Whether the part has one rule, and this one doesn't follow itself.
fn is_lone(rules: &[PathRule], rule: u32, part: &[u32]) -> bool
    ensures { result ≡ is_lone rules.now rule part.now }
{
    part.len() == 1 && !is_followed(rules, rule, rule)
}

/// Whether the rule stands in a part that no step takes, and isn't alone there or follows itself.
fn loops_at(
    rules: &[PathRule],
    parts: &[Seq<u32>],
    steps: &[Option<u32>],
    rule: u32,
    place: Option<usize>,
) -> bool
    ensures { result ≡ loops_at rules.now parts.now steps.now rule place }
{
    let Some(place) = place else {
        return false;
    };
    match parts.get(place) {
        Some(part) => match steps.get(place) {
            Some(None) => !is_lone(rules, rule, part.as_slice()),
            _ => false,
        },
        None => false,
    }
}

/// The first rule that loops.
fn first_loop(
    rules: &[PathRule],
    parts: &[Seq<u32>],
    steps: &[Option<u32>],
    placed: &[(u32, Option<usize>)],
) -> Option<u32>
    ensures { result ≡ loop_among rules.now parts.now steps.now placed.now }
{
    for (rule, place) in placed {
        if loops_at(rules, parts, steps, *rule, *place) {
            return Some(*rule);
        }
    }
    None
}

/// The fault of the first edge that leads back, or else of the first rule that loops.
fn order_fault(
    rules: &[PathRule],
    parts: &[Seq<u32>],
    steps: &[Option<u32>],
    placed: &[(u32, Option<usize>)],
) -> Option<DescentFault>
    ensures { result ≡ edge_fault (back_among rules.now placed.now placed.now)
        (loop_fault (loop_among rules.now parts.now steps.now placed.now)) }
{
    if let Some(fault) = back_edge(rules, placed) {
        return Some(fault);
    }
    match first_loop(rules, parts, steps, placed) {
        Some(rule) => Some(DescentFault::Loops { rule }),
        None => None,
    }
}

/// The first fault of a split of the set into parts with these steps. Where one walk over the parts shows that the split
/// holds, it costs no more than that walk; else it costs as many steps as the set and the parts have pairs of rules.
///
/// # Errors
///
/// Want of memory.
pub(crate) fn split_fault(
    alloc: Global,
    rules: &[PathRule],
    set: &[u32],
    parts: &[Seq<u32>],
    steps: &[Option<u32>],
) -> Result<Option<DescentFault>, AllocError>
    ensures { IfOk result (λ fault. fault ≡ split_fault rules.now set.now parts.now steps.now) }
{
    if passes(alloc, rules, set, parts, steps)? {
        return Ok(None);
    }
    if let Some(rule) = uncovered(set, parts) {
        return Ok(Some(DescentFault::NotCovered { rule }));
    }
    let placed = placed(alloc, parts, set)?;
    Ok(order_fault(rules, parts, steps, placed.as_slice()))
}
