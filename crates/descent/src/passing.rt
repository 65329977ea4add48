//! A split that holds, found by one walk over its parts.
ghost use Rattle.std.specs.Prelude.{◌≡◌, ◌≤◌, ◌&&◌, None, IfOk, IsTrue, false, get_or, slice_get, length};
ghost use Rattle.descent.specs.inner.Marking.{IsDone, mark_all, take_part, take_all, all_off, ends_marked, enters, mark_start};
ghost use Rattle.descent.specs.inner.Marking.{mark_starts, flow, is_light, all_light};
ghost use Rattle.descent.specs.Splits.{split_fault};

use crate::rules::PathRule;
use crate::sets::is_followed;
use list_views::Seq;
use std::alloc::{AllocError, Global};

/// Whether there is a mark at a number.
fn is_marked(marks: &[bool], number: u32) -> bool
    ensures { result ≡ get_or marks.now number false }
{
    match marks.get(number as usize) {
        Some(mark) => *mark,
        None => false,
    }
}

/// Marks each rule of a set, where the marks reach so far.
fn mark_all(set: &[u32], marks: &mut Vec<bool>) -> bool
    ensures { IsDone result (mark_all set.now marks.old.items) marks.new.items }
{
    for rule in set {
        let number = *rule as usize;
        if number >= marks.len() {
            return false;
        }
        marks[number] = true;
    }
    true
}

/// Takes the marks of a part's rules away, where each has one.
fn take_part(part: &[u32], marks: &mut Vec<bool>) -> bool
    ensures { IsDone result (take_part part.now marks.old.items) marks.new.items }
{
    for rule in part {
        if !is_marked(marks.as_slice(), *rule) {
            return false;
        }
        marks[*rule as usize] = false;
    }
    true
}

/// Takes the marks of all parts' rules away, where each has one.
fn take_all(parts: &[Seq<u32>], marks: &mut Vec<bool>) -> bool
    ensures { IsDone result (take_all parts.now marks.old.items) marks.new.items }
{
    for part in parts {
        if !take_part(part.as_slice(), marks) {
            return false;
        }
    }
    true
}

/// Whether no rule of the set has a mark.
fn all_off(set: &[u32], marks: &[bool]) -> bool
    ensures { result ≡ all_off set.now marks.now }
{
    for rule in set {
        if is_marked(marks, *rule) {
            return false;
        }
    }
    true
}

/// Whether the rule is there and ends at a marked cut.
fn ends_marked(rules: &[PathRule], number: u32, marks: &[bool]) -> bool
    ensures { result ≡ ends_marked (slice_get rules.now number) marks.now }
{
    match rules.get(number as usize) {
        Some(rule) => is_marked(marks, rule.to),
        None => false,
    }
}

/// Whether a rule of the part ends at a marked cut.
fn enters(rules: &[PathRule], part: &[u32], marks: &[bool]) -> bool
    ensures { result ≡ enters rules.now part.now marks.now }
{
    for number in part {
        if ends_marked(rules, *number, marks) {
            return true;
        }
    }
    false
}

/// Marks the cut at which a rule starts, where the rule is there and the marks reach so far.
fn mark_start(rules: &[PathRule], number: u32, marks: &mut Vec<bool>) -> bool
    ensures { IsDone result (mark_start (slice_get rules.now number) marks.old.items) marks.new.items }
{
    let Some(rule) = rules.get(number as usize) else {
        return false;
    };
    let cut = rule.from as usize;
    if cut >= marks.len() {
        return false;
    }
    marks[cut] = true;
    true
}

/// Marks the cuts at which the rules of a part start, where the rules are there and the marks reach so far.
fn mark_starts(rules: &[PathRule], part: &[u32], marks: &mut Vec<bool>) -> bool
    ensures { IsDone result (mark_starts rules.now part.now marks.old.items) marks.new.items }
{
    for number in part {
        if !mark_start(rules, *number, marks) {
            return false;
        }
    }
    true
}

/// Whether no rule of a part ends at a cut at which one of an earlier part starts. The cuts are marked on the way.
fn flow(rules: &[PathRule], parts: &[Seq<u32>], marks: &mut Vec<bool>) -> bool
    ensures { IsDone result (flow rules.now parts.now marks.old.items) marks.new.items }
{
    for part in parts {
        if enters(rules, part.as_slice(), marks.as_slice()) {
            return false;
        }
        if !mark_starts(rules, part.as_slice(), marks) {
            return false;
        }
    }
    true
}

/// Whether the part has at most one rule, and this one doesn't follow itself.
fn is_light(rules: &[PathRule], part: &[u32]) -> bool
    ensures { result ≡ is_light rules.now part.now }
{
    match part {
        [] => true,
        [only] => !is_followed(rules, *only, *only),
        _ => false,
    }
}

/// Whether each part that no step takes has at most one rule, and this one doesn't follow itself.
fn all_light(rules: &[PathRule], parts: &[Seq<u32>], steps: &[Option<u32>]) -> bool
    ensures { result ≡ all_light rules.now parts.now steps.now }
{
    for (n, part) in parts.iter().enumerate() {
        match steps.get(n) {
            Some(None) => {
                if !is_light(rules, part.as_slice()) {
                    return false;
                }
            }
            Some(Some(_step)) => {}
            None => return true,
        }
    }
    true
}

/// How many marks the rules of a set want, where it rises and its rules are there: one more than the last.
fn rule_span(rules: &[PathRule], set: &[u32]) -> usize
    ensures { result ≤ length rules.now }
{
    match set.last() {
        Some(rule) if (*rule as usize) < rules.len() => *rule as usize + 1,
        _ => 0,
    }
}

/// How many marks the cuts want at which the rules start, of which a million are made at most.
fn cut_span(rules: &[PathRule], set: &[u32]) -> usize
    ensures { result ≤ 1048576 }
{
    let mut span = 0;
    for number in set {
        if let Some(rule) = rules.get(*number as usize) {
            let cut = rule.from as usize;
            if cut >= span && cut < 1048576 {
                span = cut + 1;
            }
        }
    }
    span
}

/// Whether one walk over the parts shows that a split of the set holds. It costs as many steps as the set and the parts have
/// rules, and the greatest cut at which one starts. Where cuts have numbers from a million on, or the set doesn't rise, it
/// may say no of a split that holds.
///
/// # Errors
///
/// Want of memory.
pub(crate) fn passes(
    alloc: Global,
    rules: &[PathRule],
    set: &[u32],
    parts: &[Seq<u32>],
    steps: &[Option<u32>],
) -> Result<bool, AllocError>
    ensures { IfOk result (λ passes. IsTrue passes → split_fault rules.now set.now parts.now steps.now ≡ None) }
{
    let mut open = vec![in alloc; false; rule_span(rules, set)]?;
    if !mark_all(set, &mut open) || !take_all(parts, &mut open) || !all_off(set, open.as_slice()) {
        return Ok(false);
    }
    let mut starts = vec![in alloc; false; cut_span(rules, set)]?;
    if !flow(rules, parts, &mut starts) {
        return Ok(false);
    }
    Ok(all_light(rules, parts, steps))
}
