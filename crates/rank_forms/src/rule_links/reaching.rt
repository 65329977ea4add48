//! The variables that a variable is tied to by links, and what they have more.
ghost use Rattle.std.specs.Prelude.{◌≡◌, ◌<◌, ◌+ℤ◌, ℕ, suc, ℤ, None, Some, SomeIff, FitsSigned, IfOk, get_or, replicate};
ghost use Rattle.std.specs.Int.{w64};
ghost use Rattle.rank_forms.specs.declared.rule_links.links.Come.{Come};
ghost use Rattle.rank_forms.specs.rule_links.Ties.{IsReached, moves, step, relaxed, any_moves, by_of, span_from, IsFinished};
ghost use Rattle.rank_forms.specs.rule_links.inner.Searching.{AreBelow};

use crate::rule_links::links::{Come, Tie};
use std::alloc::{AllocError, Global};

/// One more than the greatest of a number and the variables to which ties lead.
pub(crate) fn span(ties: &[Tie], first: u32) -> usize
    ensures value { result ≡ span_from (suc first) ties.now }
    ensures first { first < result }
    ensures ties { AreBelow ties.now result }
{
    let mut span = first as usize + 1;
    for tie in ties {
        let to = tie.link.to as usize;
        if to >= span {
            span = to + 1;
        }
    }
    span
}

/// What is known of a variable.
pub fn known_of(known: &[Option<Come>], variable: u32) -> Option<Come>
    ensures { result ≡ get_or known.now variable None }
{
    match known.get(variable as usize) {
        Some(come) => *come,
        None => None,
    }
}

/// Whether a tie leads from a known variable to one that isn't known yet.
fn moves(tie: &Tie, known: &[Option<Come>]) -> bool
    ensures { result ≡ moves tie.now known.now }
{
    match known_of(known, tie.link.from) {
        Some(_come) => match known_of(known, tie.link.to) {
            Some(_other) => false,
            None => (tie.link.to as usize) < known.len(),
        },
        None => false,
    }
}

/// What a variable has more, if it is known.
pub fn by_of(come: Option<Come>) -> i64
    ensures { result ≡ by_of come }
{
    match come {
        Some(come) => come.by,
        None => 0,
    }
}

/// The sum of two numbers, where it is one of 64 bits.
pub fn sum(one: &i64, other: &i64) -> Option<i64>
    ensures { SomeIff result (FitsSigned w64 (one.now +ℤ other.now)) (one.now +ℤ other.now) }
{
    one.checked_add(*other)
}

/// Goes on along a tie, if it leads from a known variable to one that isn't known yet; and says whether it does.
fn go_on(tie: &Tie, known: &mut Vec<Option<Come>>) -> Result<bool, AllocError>
    ensures { IfOk result (λ moved. (moved ≡ moves tie.now known.old.items) × (known.new.items ≡ step tie.now known.old.items)) }
{
    if !moves(tie, known.as_slice()) {
        return Ok(false);
    }
    let before = by_of(known_of(known.as_slice(), tie.link.from));
    let Some(by) = sum(&before, &tie.link.by) else {
        return Err(AllocError);
    };
    known[tie.link.to as usize] = Some(Come {
        by,
        last: Some(*tie),
    });
    Ok(true)
}

/// Goes on along each tie once, and says whether one led to a variable that wasn't known.
fn pass(ties: &[Tie], known: &mut Vec<Option<Come>>) -> Result<bool, AllocError>
    ensures { IfOk result (λ moved. (moved ≡ any_moves ties.now known.old.items) × (known.new.items ≡ relaxed ties.now known.old.items)) }
{
    let mut any = false;
    for tie in ties {
        let moved = go_on(tie, known)?;
        any = any || moved;
    }
    Ok(any)
}

/// So many variables of which nothing is known.
pub(crate) fn none_known(alloc: Global, count: usize) -> Result<Vec<Option<Come>>, AllocError>
    ensures { IfOk result (λ known. known.items ≡ replicate count None) }
{
    let mut known = Vec::new(alloc);
    for _n in 0..count {
        known.push(None)?;
    }
    Ok(known)
}

/// For each variable that links lead to from the first one, the last of these links and what it has more than the first one.
/// Where several lists of links lead there, one of them counts.
///
/// # Errors
///
/// Want of memory, which also answers a number of more than 64 bits.
pub fn reach(alloc: Global, ties: &[Tie], first: u32) -> Result<Vec<Option<Come>>, AllocError>
    ensures sound { IfOk result (λ known. (variable : ℕ) (come : Come) → get_or known.items variable None ≡ Some come
        → IsReached ties.now first variable come.by) }
    ensures complete { IfOk result (λ known. (variable : ℕ) (by : ℤ) → IsReached ties.now first variable by → (come : Come)
        × (get_or known.items variable None ≡ Some come)) }
    ensures finished { IfOk result (λ known. IsFinished ties.now first known.items) }
{
    let mut known = none_known(alloc, span(ties, first))?;
    known[first as usize] = Some(Come { by: 0, last: None });
    let mut any = true;
    while any {
        any = pass(ties, &mut known)?;
    }
    Ok(known)
}
