//! Why multiples of ints fall along a rule, by the equations of its links.
ghost use Rattle.std.specs.Prelude.{◌≡◌, ◌++◌, ◌∷◌, ◌*ℤ◌, ◌-ℤ◌, [], pos, IfOk, IfSome, OnOk};
ghost use Rattle.rank_forms.specs.Reasons.{TellsForm, TellsInt, TellsIntAt, TellsInts, beside_entries, both_of, close_from};
ghost use Rattle.rank_forms.specs.Reasons.{followed_of, int_entries, int_made, int_tie_entries, is_close, often, side, signed};
ghost use Rattle.rank_forms.specs.Reasons.{taken_out};

use crate::following::{BoundRow, Followed};
use crate::reasons::{Reasons, both, followed_by, reasons_of};
use crate::rule_links::{
    Beside, Come, Tie, int_ties, is_bound, known_of, negated, reach, trail, variable_at,
};
use descent::{PathRule, Place};
use lin_core::WRow;
use list_views::Seq;
use std::alloc::{AllocError, Global};

/// On which side so many times an int is bounded.
fn side(times: &i64) -> i64
    ensures { result ≡ side times.now }
{
    if *times < 0 { -1 } else { 1 }
}

/// How often the row of the bound counts.
fn often(times: &i64) -> Option<i64>
    ensures { IfSome result (λ n. n ≡ often times.now) }
{
    if *times < 0 {
        negated(times)
    } else {
        Some(*times)
    }
}

/// The product of two numbers, where it is one of 64 bits.
fn product(one: &i64, other: &i64) -> Option<i64>
    ensures { IfSome result (λ product. product ≡ one.now *ℤ other.now) }
{
    one.checked_mul(*other)
}

/// Whether a row bounds a variable with a constant of at most 2^31 in size.
fn is_close(row: &WRow, variable: u32, times: &i64) -> bool
    ensures { result ≡ is_close variable times.now row.now }
{
    is_bound(row, variable, times) && !(row.constant.unsigned_abs() > 2147483648)
}

/// The first row that says of the variable alone that so many times it and a constant of at most 2^31 in size is at least 0.
pub fn close_row(rows: &[WRow], variable: u32, times: &i64) -> Option<BoundRow>
    ensures { result ≡ close_from variable times.now 0 rows.now }
{
    for (n, row) in rows.iter().enumerate() {
        if is_close(row, variable, times) {
            return Some(BoundRow {
                row: n,
                base: row.constant,
            });
        }
    }
    None
}

/// How often the equation of a tie counts.
fn signed(times: &i64, back: bool) -> Option<i64>
    ensures { IfSome result (λ n. n ≡ signed times.now back) }
{
    if back { negated(times) } else { Some(*times) }
}

/// Adds a row so many times.
fn add_row(row: usize, times: &i64, entries: &mut Seq<(usize, i64)>) -> Result<(), AllocError>
    ensures { OnOk result (entries.new ≡ entries.old ++ (row, times.now) ∷ []) }
{
    entries.push((row, *times))?;
    Ok(())
}

/// Adds the row that takes out the variable beside, which stands so many times there.
fn take_out(
    beside: &Beside,
    product: &i64,
    entries: &mut Seq<(usize, i64)>,
) -> Result<(), AllocError>
    ensures { OnOk result (entries.new ≡ entries.old ++ taken_out beside.now product.now) }
{
    if *product > 0 {
        return add_row(beside.most, product, entries);
    }
    let Some(less) = negated(product) else {
        return Err(AllocError);
    };
    add_row(beside.least, &less, entries)
}

/// Adds the row of what is beside.
fn add_beside(
    beside: Option<Beside>,
    times: &i64,
    entries: &mut Seq<(usize, i64)>,
) -> Result<(), AllocError>
    ensures { OnOk result (entries.new ≡ entries.old ++ beside_entries beside times.now) }
{
    let Some(beside) = beside else {
        return Ok(());
    };
    let Some(product) = product(times, &beside.times) else {
        return Err(AllocError);
    };
    take_out(&beside, &product, entries)
}

/// Adds the rows of a tie.
fn add_tie(times: &i64, tie: &Tie, entries: &mut Seq<(usize, i64)>) -> Result<(), AllocError>
    ensures { OnOk result (entries.new ≡ entries.old ++ int_tie_entries times.now tie.now) }
{
    let Some(often) = signed(times, tie.back) else {
        return Err(AllocError);
    };
    add_row(tie.row, &often, entries)?;
    add_beside(tie.beside, &often, entries)
}

/// The rows of a trail.
fn int_entries(alloc: Global, times: &i64, ties: &[Tie]) -> Result<Seq<(usize, i64)>, AllocError>
    ensures { IfOk result (λ entries. entries ≡ int_entries times.now ties.now) }
{
    let mut entries = Seq::new(alloc);
    for tie in ties {
        add_tie(times, tie, &mut entries)?;
    }
    Ok(entries)
}

/// What so many times an int falls by that has so much more.
fn falls_by(times: &i64, by: &i64) -> Option<i64>
    ensures { IfSome result (λ falls. falls ≡ pos 0 -ℤ times.now *ℤ by.now) }
{
    let Some(more) = product(times, by) else {
        return None;
    };
    negated(&more)
}

/// A row so many times.
fn one_row(alloc: Global, row: usize, times: &i64) -> Result<Seq<(usize, i64)>, AllocError>
    ensures { IfOk result (λ list. list ≡ (row, times.now) ∷ []) }
{
    let mut list = Seq::new(alloc);
    list.push((row, *times))?;
    Ok(list)
}

/// Why so many times an int falls, by what is known and the row that bounds it.
fn int_made(
    alloc: Global,
    come: &Come,
    row: &BoundRow,
    times: &i64,
    known: &[Option<Come>],
    finish: u32,
) -> Result<Reasons, AllocError>
    ensures { IfOk result (λ reasons. reasons ≡ int_made come.now row.now times.now known.now finish) }
{
    let Some(falls) = falls_by(times, &come.by) else {
        return Err(AllocError);
    };
    let Some(often) = often(times) else {
        return Err(AllocError);
    };
    let Some(base) = product(&often, &row.base) else {
        return Err(AllocError);
    };
    let path = trail(alloc, known, finish)?;
    let fall = int_entries(alloc, times, path.as_slice())?;
    let bound = one_row(alloc, row.row, &often)?;
    Ok(reasons_of(&falls, fall, &base, bound))
}

/// Why so many times an int falls from one variable to another one; None where no links lead there or nothing bounds it.
fn int_between(
    alloc: Global,
    rows: &[WRow],
    ties: &[Tie],
    start: u32,
    finish: u32,
    times: &i64,
) -> Result<Option<Reasons>, AllocError>
    ensures { IfOk result (λ found. TellsInt rows.now ties.now start finish times.now found) }
{
    let known = reach(alloc, ties, start)?;
    let Some(come) = known_of(known.as_slice(), finish) else {
        return Ok(None);
    };
    let Some(row) = close_row(rows, start, &side(times)) else {
        return Ok(None);
    };
    Ok(Some(int_made(alloc, &come, &row, times, known.as_slice(), finish)?))
}

/// Why so many times the int at a place falls along a rule.
fn int_at(
    alloc: Global,
    rule: &PathRule,
    ties: &[Tie],
    term: &(Place, i64),
) -> Result<Option<Reasons>, AllocError>
    ensures { IfOk result (λ found. TellsIntAt rule.now ties.now term.now found) }
{
    let Some(start) = variable_at(rule.first.as_slice(), false, &term.0) else {
        return Ok(None);
    };
    let Some(finish) = variable_at(rule.last.as_slice(), false, &term.0) else {
        return Ok(None);
    };
    int_between(alloc, rule.rows.as_slice(), ties, start, finish, &term.1)
}

/// The reasons of two forms together.
fn both_of(
    alloc: Global,
    one: &Option<Reasons>,
    other: &Option<Reasons>,
) -> Result<Option<Reasons>, AllocError>
    ensures { IfOk result (λ found. found ≡ both_of one.now other.now) }
{
    let Some(one) = one else {
        return Ok(None);
    };
    let Some(other) = other else {
        return Ok(None);
    };
    Ok(Some(both(alloc, one, other)?))
}

/// Why a sum of multiples of two ints falls along a rule.
fn two_at(
    alloc: Global,
    rule: &PathRule,
    ties: &[Tie],
    one: &(Place, i64),
    other: &(Place, i64),
) -> Result<Option<Reasons>, AllocError>
    ensures { IfOk result (λ found. TellsForm rule.now ties.now (one.now ∷ other.now ∷ []) found) }
{
    let a = int_at(alloc, rule, ties, one)?;
    let b = int_at(alloc, rule, ties, other)?;
    both_of(alloc, &a, &b)
}

/// Why a form of ints falls along a rule.
fn form_at(
    alloc: Global,
    rule: &PathRule,
    ties: &[Tie],
    form: &[(Place, i64)],
) -> Result<Option<Reasons>, AllocError>
    ensures { IfOk result (λ found. TellsForm rule.now ties.now form.now found) }
{
    match form {
        [one] => int_at(alloc, rule, ties, one),
        [one, other] => two_at(alloc, rule, ties, one, other),
        _ => Ok(None),
    }
}

/// The multipliers of a rule of so many rows, if there are reasons.
pub(crate) fn followed_of(
    alloc: Global,
    rows: usize,
    reasons: &Option<Reasons>,
) -> Result<Option<Followed>, AllocError>
    ensures { IfOk result (λ found. found ≡ followed_of rows reasons.now) }
{
    match reasons {
        Some(reasons) => Ok(Some(followed_by(alloc, rows, reasons)?)),
        None => Ok(None),
    }
}

/// What a form of one or two ints falls by along a rule; None where no variable stands alone at one of its places at one of the
/// rule's ends, no links lead along it, or nothing bounds it, and of a form of none or of three or more.
///
/// # Errors
///
/// Want of memory, which also answers a number of more than 64 bits.
pub fn follow_ints(
    alloc: Global,
    rule: &PathRule,
    form: &[(Place, i64)],
) -> Result<Option<Followed>, AllocError>
    ensures { IfOk result (λ found. TellsInts form.now rule.now found) }
{
    let ties = int_ties(alloc, rule.rows.as_slice())?;
    let reasons = form_at(alloc, rule, ties.as_slice(), form)?;
    followed_of(alloc, rule.rows.len(), &reasons)
}
