//! Why a form falls along a rule, and why it is bounded where the rule starts: rows, each with how often it counts.
ghost use Rattle.std.specs.Prelude.{◌≡◌, ◌++◌, IfOk};
ghost use Rattle.rank_forms.specs.rule_links.Counting.{multipliers_of};
ghost use Rattle.rank_forms.specs.Reasons.{both_reasons, followed_by};

use crate::following::{Bound, Followed, made};
use crate::rule_links::{multipliers_of, sum};
use list_views::Seq;
use std::alloc::{AllocError, Global};

/// Why a form falls along a rule, and why it is bounded where the rule starts.
#[derive(PartialEq, Drop)]
pub struct Reasons {
    /// What it falls by at least.
    pub falls: i64,
    /// The rows that show it, each with how often it counts.
    pub fall: Seq<(usize, i64)>,
    /// What has to be added so that it is at least 0 at the start.
    pub base: i64,
    /// The rows that show that.
    pub bound: Seq<(usize, i64)>,
}

/// One list after another one.
fn appended(
    alloc: Global,
    one: &[(usize, i64)],
    other: &[(usize, i64)],
) -> Result<Seq<(usize, i64)>, AllocError>
    ensures { IfOk result (λ list. list ≡ one.now ++ other.now) }
{
    let mut list = Seq::new(alloc);
    list.extend_from_slice(one)?;
    list.extend_from_slice(other)?;
    Ok(list)
}

/// The parts together.
pub(crate) fn reasons_of(
    falls: &i64,
    fall: Seq<(usize, i64)>,
    base: &i64,
    bound: Seq<(usize, i64)>,
) -> Reasons
    ensures { result ≡ record { falls = falls.now; fall = fall; base = base.now; bound = bound } }
{
    Reasons {
        falls: *falls,
        fall,
        base: *base,
        bound,
    }
}

/// Why the sum of two forms falls.
///
/// # Errors
///
/// Want of memory, which also answers a number of more than 64 bits.
pub(crate) fn both(alloc: Global, one: &Reasons, other: &Reasons) -> Result<Reasons, AllocError>
    ensures { IfOk result (λ both. both ≡ both_reasons one.now other.now) }
{
    let Some(falls) = sum(&one.falls, &other.falls) else {
        return Err(AllocError);
    };
    let Some(base) = sum(&one.base, &other.base) else {
        return Err(AllocError);
    };
    let fall = appended(alloc, one.fall.as_slice(), other.fall.as_slice())?;
    let bound = appended(alloc, one.bound.as_slice(), other.bound.as_slice())?;
    Ok(reasons_of(&falls, fall, &base, bound))
}

/// The bound of these multipliers.
fn bound_by(base: &i64, rows: Seq<(u32, i64)>) -> Bound
    ensures { result ≡ record { rows = rows; base = base.now } }
{
    Bound { rows, base: *base }
}

/// The multipliers of a rule of so many rows.
///
/// # Errors
///
/// Want of memory, which also answers a number of more than 64 bits.
pub(crate) fn followed_by(
    alloc: Global,
    rows: usize,
    reasons: &Reasons,
) -> Result<Followed, AllocError>
    ensures { IfOk result (λ followed. followed ≡ followed_by rows reasons.now) }
{
    let fall = multipliers_of(alloc, rows, reasons.fall.as_slice())?;
    let bound = multipliers_of(alloc, rows, reasons.bound.as_slice())?;
    Ok(made(&reasons.falls, fall, Some(bound_by(&reasons.base, bound))))
}
