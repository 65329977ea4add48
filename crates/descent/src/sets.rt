//! Sets of rules and parts of them. A set is the list of its rules' numbers, rising.
ghost use Rattle.std.specs.Prelude.{◌≡◌, ◌&&◌, Some, None, IfOk, MatchOption, slice_get, filter, ◌+◌};
ghost use Rattle.descent.specs.inner.Placed.{placed_of};
ghost use Rattle.descent.specs.Splits.{has, stands_in, stands_once, place_in, is_followed};
ghost use Rattle.descent.specs.Steps.{numbers_from, weak_ones, without};

use crate::proof::RankRule;
use crate::rules::PathRule;
use list_views::Seq;
use std::alloc::{AllocError, Global};

/// Whether a rule is in a set.
pub(crate) fn has(set: &[u32], rule: u32) -> bool
    ensures { result ≡ has set.now rule }
{
    for other in set {
        if *other == rule {
            return true;
        }
    }
    false
}

/// Whether the rule stands in some part.
pub(crate) fn stands_in(parts: &[Seq<u32>], rule: u32) -> bool
    ensures { result ≡ stands_in parts.now rule }
{
    for part in parts {
        if has(part.as_slice(), rule) {
            return true;
        }
    }
    false
}

/// Whether the rule stands exactly once in the part.
pub(crate) fn stands_once(part: &[u32], rule: u32) -> bool
    ensures { result ≡ stands_once part.now rule }
{
    for (n, other) in part.iter().enumerate() {
        if *other == rule {
            return !has(&part[n + 1..], rule);
        }
    }
    false
}

/// The part in which the rule stands, where it stands exactly once in all parts.
pub(crate) fn place_in(parts: &[Seq<u32>], rule: u32) -> Option<usize>
    ensures { result ≡ place_in parts.now rule }
{
    for (n, part) in parts.iter().enumerate() {
        if has(part.as_slice(), rule) {
            return if stands_once(part.as_slice(), rule) && !stands_in(&parts[n + 1..], rule) {
                Some(n)
            } else {
                None
            };
        }
    }
    None
}

/// The rule of a number, if it is there.
pub(crate) fn rule_at(rules: &[PathRule], number: u32) -> Option<&PathRule>
    ensures { MatchOption result (slice_get rules.now number ≡ None) (λ rule. slice_get rules.now number ≡ Some rule.now) }
{
    rules.get(number as usize)
}

/// Whether the first rule ends at the cut at which the second starts.
pub(crate) fn is_followed(rules: &[PathRule], rule: u32, next: u32) -> bool
    ensures { result ≡ is_followed rules.now rule next }
{
    match rules.get(rule as usize) {
        Some(before) => match rules.get(next as usize) {
            Some(after) => before.to == after.from,
            None => false,
        },
        None => false,
    }
}

/// The set of all rules, where there are `count` rules.
///
/// # Errors
///
/// Want of memory.
pub fn all_rules(alloc: Global, count: u32) -> Result<Seq<u32>, AllocError>
    ensures { IfOk result (λ set. set ≡ numbers_from 0 count) }
{
    let mut set = Seq::new(alloc);
    for rule in 0..count {
        set.push(rule)?;
    }
    Ok(set)
}

/// The rules that are listed as weak.
pub(crate) fn weak_ones(alloc: Global, rules: &[RankRule]) -> Result<Seq<u32>, AllocError>
    ensures { IfOk result (λ set. set ≡ weak_ones rules.now) }
{
    let mut set = Seq::new(alloc);
    for listed in rules {
        if let RankRule::Weak { rule, .. } = listed {
            set.push(*rule)?;
        }
    }
    Ok(set)
}

/// The set without a rule.
pub(crate) fn without(alloc: Global, rule: u32, set: &[u32]) -> Result<Seq<u32>, AllocError>
    ensures { IfOk result (λ less. less ≡ without rule set.now) }
{
    let mut less = Seq::new(alloc);
    for other in set {
        if *other != rule {
            less.push(*other)?;
        }
    }
    Ok(less)
}

/// The rules of the set that stand in the part.
///
/// # Errors
///
/// Want of memory.
pub fn within(alloc: Global, part: &[u32], set: &[u32]) -> Result<Seq<u32>, AllocError>
    ensures { IfOk result (λ less. less ≡ filter (has part.now) set.now) }
{
    let mut less = Seq::new(alloc);
    for rule in set {
        if has(part, *rule) {
            less.push(*rule)?;
        }
    }
    Ok(less)
}

/// Each rule of the set, with where it stands.
pub(crate) fn placed(
    alloc: Global,
    parts: &[Seq<u32>],
    set: &[u32],
) -> Result<Seq<(u32, Option<usize>)>, AllocError>
    ensures { IfOk result (λ placed. placed ≡ placed_of parts.now set.now) }
{
    let mut placed = Seq::new(alloc);
    for rule in set {
        placed.push((*rule, place_in(parts, *rule)))?;
    }
    Ok(placed)
}
