//! The rows of rules.
ghost use Rattle.std.specs.Prelude.{◌≡◌, ◌<◌, ◌≤◌, ◌++◌, ◌∷◌, [], pos, true, false, length, replicate, Some, None, IfOk, OnOk};
ghost use Rattle.std.specs.Prelude.{IsTrue, MatchBool, slice_get, slice_set, if◌then◌else◌};
ghost use Rattle.std.specs.Ordering.{int_eq};
ghost use Rattle.its_front.specs.Faults.{Gives};
ghost use Rattle.its_front.specs.Terms.{value_number, number_in, numbered_term, numbered, is_free, placed, coefficients};
ghost use Rattle.its_front.specs.Rows.{table_of, row_in, row_of};

use crate::fault::ItsFault;
use crate::names::Names;
use crate::text_lines::Number;
use crate::words::{Term, ranged};
use descent::{RowKind, WRow};
use list_views::Seq;
use std::alloc::{AllocError, Global};

/// The greatest coefficient, by its size.
const MOST_COEFFICIENT: u64 = 1 << 31;

/// The greatest constant, by its size.
const MOST_CONSTANT: u64 = 1 << 40;

/// The number of the value of a variable, of so many.
fn value_number(count: u32, after: bool, number: u32) -> u32
    requires few { count ≤ 256 }
    requires one { number < count }
    ensures { result ≡ value_number count after number }
{
    if after { count + number } else { number }
}

/// The number of the value of which a term is a multiple; None where no variable has the name.
#[tactic(auto, using(crate::proofs::Placing::place_within))]
fn number_in(vars: &Names<'_>, count: u32, term: &Term<'_>) -> Option<u32>
    requires count { length vars.now ≡ count }
    requires few { count ≤ 256 }
    ensures { result ≡ number_in vars.now term.now }
{
    let place = vars.find(term.name.as_slice())?;
    Some(value_number(count, term.after, place))
}

/// A term by its variable's number.
fn numbered_term(vars: &Names<'_>, count: u32, term: &Term<'_>) -> Option<(u32, Number)>
    requires count { length vars.now ≡ count }
    requires few { count ≤ 256 }
    ensures { result ≡ numbered_term vars.now term.now }
{
    let number = number_in(vars, count, term)?;
    Some((number, term.times))
}

/// The terms by their variables' numbers; None where a name is no variable's.
#[tactic(auto, using(crate::proofs::Gathered::begins, crate::proofs::Gathered::goes_on, crate::proofs::Gathered::stops))]
fn numbered(
    alloc: Global,
    vars: &Names<'_>,
    count: u32,
    terms: &[Term<'_>],
) -> Result<Option<Seq<(u32, Number)>>, AllocError>
    requires count { length vars.now ≡ count }
    requires few { count ≤ 256 }
    ensures { IfOk result (λ found. found ≡ numbered vars.now terms.now) }
{
    let mut found = Seq::new(alloc);
    for term in terms {
        let Some(one) = numbered_term(vars, count, term) else {
            return Ok(None);
        };
        found.push(one)?;
    }
    Ok(Some(found))
}

/// A table of so many free places.
fn free_table(alloc: Global, count: u32) -> Result<Vec<Option<Number>>, AllocError>
    ensures { IfOk result (λ table. table.items ≡ replicate count None) }
{
    let mut table = Vec::new(alloc);
    for _n in 0..count {
        table.push(None)?;
    }
    Ok(table)
}

/// Whether a place of the table is there and free.
fn is_free(table: &[Option<Number>], number: u32) -> bool
    ensures { result ≡ is_free (slice_get table.now number) }
{
    match table.get(number as usize) {
        Some(None) => true,
        _ => false,
    }
}

/// Puts a term to its place; false where that is taken.
fn place_one(table: &mut Vec<Option<Number>>, term: &(u32, Number)) -> bool
    ensures placed { MatchBool result (table.new.items ≡ slice_set table.old.items term.now.0 (Some term.now.1))
        (is_free (slice_get table.old.items term.now.0) ≡ false) }
    ensures free { IsTrue result → is_free (slice_get table.old.items term.now.0) ≡ true }
{
    if !is_free(table, term.0) {
        return false;
    }
    table[term.0 as usize] = Some(term.1);
    true
}

/// Puts each term to its place; false where one is taken.
fn placed(table: &mut Vec<Option<Number>>, terms: &[(u32, Number)]) -> bool
    ensures { placed table.old.items terms.now ≡ (if result then Some table.new.items else None) }
{
    for term in terms {
        if !place_one(table, term) {
            return false;
        }
    }
    true
}

/// Puts a term behind others, where its coefficient isn't 0.
fn push_term(terms: &mut Seq<(u32, i64)>, place: usize, coefficient: i64) -> Result<(), AllocError>
    ensures { OnOk result (terms.new ≡ (if int_eq coefficient (pos 0) then terms.old else terms.old ++ (place, coefficient) ∷ [])) }
{
    if coefficient == 0 {
        return Ok(());
    }
    let Ok(number) = u32::try_from(place) else {
        return Err(AllocError);
    };
    terms.push((number, coefficient))?;
    Ok(())
}

/// The coefficients of a table without those that are 0; None where one is out of range.
#[tactic(auto, using(crate::proofs::Gathered::begins, crate::proofs::Gathered::more_terms))]
fn coefficients(
    alloc: Global,
    table: &[Option<Number>],
) -> Result<Option<Seq<(u32, i64)>>, AllocError>
    ensures { IfOk result (λ found. found ≡ coefficients 0 table.now) }
{
    let mut found = Seq::new(alloc);
    for (n, place) in table.iter().enumerate() {
        if let Some(times) = place {
            let Some(coefficient) = ranged(MOST_COEFFICIENT, *times) else {
                return Ok(None);
            };
            push_term(&mut found, n, coefficient)?;
        }
    }
    Ok(Some(found))
}

/// The row of a constant and of terms in a table.
#[tactic(auto, unfolding(crate::specs::Rows::row_in))]
fn row_in(
    alloc: Global,
    line: usize,
    kind: RowKind,
    constant: Number,
    table: &[Option<Number>],
) -> Result<WRow, ItsFault>
    ensures { Gives (λ row. row) result (row_in line kind constant table.now) }
{
    let Some(constant) = ranged(MOST_CONSTANT, constant) else {
        return Err(ItsFault::OutOfRange { line });
    };
    let Some(terms) = coefficients(alloc, table)? else {
        return Err(ItsFault::OutOfRange { line });
    };
    Ok(WRow {
        kind,
        terms,
        constant,
        weights: Seq::new(alloc),
    })
}

/// The table of numbered terms.
fn table_of(
    alloc: Global,
    line: usize,
    count: u32,
    terms: &[(u32, Number)],
) -> Result<Vec<Option<Number>>, ItsFault>
    requires { count ≤ 256 }
    ensures { Gives (λ table. table.items) result (table_of line count terms.now) }
{
    let mut table = free_table(alloc, count + count)?;
    if placed(&mut table, terms) {
        Ok(table)
    } else {
        Err(ItsFault::DuplicateVariable { line })
    }
}

/// The row that a constant and terms say.
///
/// # Errors
///
/// Its first fault: a name that no variable has, a variable that stands twice, a number out of range; or want of memory.
#[tactic(auto, unfolding(crate::specs::Rows::row_of))]
pub(crate) fn row_of(
    alloc: Global,
    vars: &Names<'_>,
    line: usize,
    kind: RowKind,
    constant: Number,
    terms: &[Term<'_>],
) -> Result<WRow, ItsFault>
    requires { length vars.now ≤ 256 }
    ensures { Gives (λ row. row) result (row_of vars.now line kind (constant, terms.now)) }
{
    let count = vars.len() as u32;
    let Some(terms) = numbered(alloc, vars, count, terms)? else {
        return Err(ItsFault::UnknownVariable { line });
    };
    let table = table_of(alloc, line, count, terms.as_slice())?;
    row_in(alloc, line, kind, constant, table.as_slice())
}
