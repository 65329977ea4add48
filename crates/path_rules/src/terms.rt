//! Terms in any order, collected into rising ones.
ghost use Rattle.std.specs.Prelude.{◌≡◌, ◌≤◌, ◌<◌, ◌+◌, ◌^◌, ◌++◌, ℕ, ℤ, ◌+ℤ◌, [], take, drop, length, OnOk, IfOk, unsigned_abs};
ghost use Rattle.std.specs.Prelude.{slice_get, slice_index_or};
ghost use Rattle.lin_core.specs.Weights.{total_size};
ghost use Rattle.term_enc.specs.Sizes.{unless_zero, with_term};
ghost use Rattle.path_rules.specs.inner.Building.{is_term_of};

use list_views::Seq;
use std::alloc::{AllocError, Global};

/// Adds a term behind the others, unless its number is 0.
fn push_term(terms: &mut Seq<(u32, i64)>, variable: u32, number: i64) -> Result<(), AllocError>
    ensures { OnOk result (terms.new ≡ terms.old ++ unless_zero variable number []) }
{
    if number != 0 {
        terms.push((variable, number))?;
    }
    Ok(())
}

/// The place of the first term whose variable is not below `variable`.
fn place_among(terms: &[(u32, i64)], variable: u32) -> usize
    ensures split { (number : ℤ) → with_term (variable, number) terms.now ≡ take result terms.now ++ with_term (variable, number)
        (drop result terms.now) }
    ensures next { (d : ℕ × ℤ) → result < length terms.now → variable ≤ (slice_index_or terms.now result d).0 }
    ensures few { result ≤ length terms.now }
{
    let mut place = 0;
    while place < terms.len() && terms[place].0 < variable {
        place += 1;
    }
    place
}

/// The sum of two numbers.
fn sum_of(number: &i64, other: &i64) -> i64
    requires { unsigned_abs number.now + unsigned_abs other.now ≤ 2 ^ 62 }
    ensures { result ≡ number.now +ℤ other.now }
{
    *number + *other
}

/// A term, unless its number is 0, between the terms in front of a place and those from another place on.
fn between(
    alloc: Global,
    terms: &[(u32, i64)],
    place: usize,
    variable: u32,
    number: &i64,
    next: usize,
) -> Result<Seq<(u32, i64)>, AllocError>
    requires place { place ≤ length terms.now }
    requires next { next ≤ length terms.now }
    ensures { IfOk result (λ all. all ≡ (take place terms.now ++ unless_zero variable number.now []) ++ drop next terms.now) }
{
    let mut all = Seq::from_slice(alloc, &terms[..place])?;
    push_term(&mut all, variable, *number)?;
    all.extend_from_slice(&terms[next..])?;
    Ok(all)
}

/// Whether the term at a place is one of a variable.
fn is_at(terms: &[(u32, i64)], place: usize, variable: u32) -> bool
    ensures { result ≡ is_term_of variable (slice_get terms.now place) }
{
    match terms.get(place) {
        Some(term) => term.0 == variable,
        None => false,
    }
}

/// Rising terms with one more.
#[tactic(auto, using(crate::proofs::Collecting::at_within, crate::proofs::Collecting::term_same, crate::proofs::Collecting::term_new, crate::proofs::Collecting::same_fits))]
pub(crate) fn with_term(
    alloc: Global,
    terms: &[(u32, i64)],
    term: &(u32, i64),
) -> Result<Seq<(u32, i64)>, AllocError>
    requires { unsigned_abs term.now.1 + total_size terms.now ≤ 2 ^ 62 }
    ensures { IfOk result (λ sum. sum ≡ with_term term.now terms.now) }
{
    let place = place_among(terms, term.0);
    if is_at(terms, place, term.0) {
        let sum = sum_of(&term.1, &terms[place].1);
        return between(alloc, terms, place, term.0, &sum, place + 1);
    }
    between(alloc, terms, place, term.0, &term.1, place)
}
