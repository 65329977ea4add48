//! Trails: the links by which a variable was come to, and the multipliers that they stand for.
ghost use Rattle.std.specs.Prelude.{◌≡◌, IfOk, length};
ghost use Rattle.rank_forms.specs.rule_links.Ties.{last_of, trail_from};

use crate::rule_links::links::{Beside, Come, Tie};
use crate::rule_links::multipliers::Multipliers;
use crate::rule_links::parts::{Course, Part};
use crate::rule_links::reaching::known_of;
use crate::rule_links::sizes::zero_row;
use descent::WRow;
use list_views::Seq;
use std::alloc::{AllocError, Global};

/// The last tie by which a variable was come to.
fn last_of(come: Option<Come>) -> Option<Tie>
    ensures { result ≡ last_of come }
{
    match come {
        Some(come) => come.last,
        None => None,
    }
}

/// The ties that lead to a variable from the one that all are known from, the last first.
///
/// # Errors
///
/// Want of memory.
pub fn trail(alloc: Global, known: &[Option<Come>], finish: u32) -> Result<Seq<Tie>, AllocError>
    ensures { IfOk result (λ ties. ties ≡ trail_from (length known.now) known.now finish) }
{
    let mut ties = Seq::new(alloc);
    let mut at = finish;
    for _n in 0..known.len() {
        let Some(tie) = last_of(known_of(known, at)) else {
            return Ok(ties);
        };
        ties.push(tie)?;
        at = tie.link.from;
    }
    Ok(ties)
}

/// Counts the row that a variable beside a link is at most its number, or at least that, so that it drops out.
fn count_beside(beside: Option<Beside>, times: i64, into: &mut Multipliers) {
    if let Some(beside) = beside {
        match times.checked_mul(beside.times) {
            Some(product) => {
                if product > 0 {
                    into.add(beside.most, product);
                } else {
                    into.take(beside.least, product);
                }
            }
            None => into.lose(),
        }
    }
}

/// Counts the rows of a link between ints so many times.
fn count_int(tie: &Tie, times: i64, into: &mut Multipliers) {
    if tie.back {
        into.take(tie.row, times);
        match times.checked_neg() {
            Some(less) => count_beside(tie.beside, less, into),
            None => into.lose(),
        }
    } else {
        into.add(tie.row, times);
        count_beside(tie.beside, times, into);
    }
}

/// Counts the row of a fall link so many times.
fn count_step(tie: &Tie, times: i64, into: &mut Multipliers) {
    if tie.back {
        into.take(tie.row, times);
    } else {
        into.add(tie.row, times);
    }
}

/// The row of a number.
fn row_at(rows: &[WRow], n: usize) -> Option<&WRow> {
    rows.get(n)
}

/// Counts a part of a size so often as it drops out: once less where it is the one to which the link leads.
fn count_part(rows: &[WRow], tie: &Tie, term: &(u32, i64), times: i64, into: &mut Multipliers) {
    if term.0 == tie.link.from {
        return;
    }
    let less = if term.0 == tie.link.to { 1 } else { 0 };
    let Some(sum) = term.1.checked_add(less) else {
        into.lose();
        return;
    };
    if sum == 0 {
        return;
    }
    if let Some(row) = zero_row(rows, term.0) {
        match sum.checked_neg() {
            Some(often) => into.add_product(row, often, times),
            None => into.lose(),
        }
    }
}

/// Counts the rows of a link between sizes so many times.
fn count_size(rows: &[WRow], tie: &Tie, times: i64, into: &mut Multipliers) {
    if tie.back {
        into.take(tie.row, times);
        return;
    }
    into.add(tie.row, times);
    if let Some(row) = row_at(rows, tie.row) {
        for term in row.terms.as_slice() {
            count_part(rows, tie, term, times, into);
        }
    }
}

/// How often a step counts: the size of a part's multiple.
pub fn size_of(times: i64) -> i64 {
    if times < 0 {
        match times.checked_neg() {
            Some(size) => size,
            None => i64::MAX,
        }
    } else {
        times
    }
}

/// Counts the rows of a trail, as often as a part counts.
pub fn count_trail(rows: &[WRow], part: &Part, ties: &[Tie], into: &mut Multipliers) {
    for tie in ties {
        match part.course {
            Course::Ints => count_int(tie, part.times, into),
            Course::Steps => count_step(tie, size_of(part.times), into),
            Course::Either => count_step(tie, size_of(part.times), into),
            Course::Sizes => count_size(rows, tie, part.times, into),
        }
    }
}
