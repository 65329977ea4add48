//! How the rules of a step are listed, and the constant that its forms need.
ghost use Rattle.std.specs.Prelude.{◌≡◌, None, Some, IfOk, MatchOption};
ghost use Rattle.rank_forms.specs.Forms.{base_of_bound, greater_of, list_from, listed_as, needed, or_zero, strict_bound};

use crate::following::{Bound, Followed};
use descent::RankRule;
use list_views::Seq;
use std::alloc::{AllocError, Global};

/// The bound, where there is a fall.
fn strict_bound(followed: &Followed) -> Option<&Bound>
    ensures { MatchOption result (strict_bound followed.now ≡ None) (λ bound. strict_bound followed.now ≡ Some bound.now) }
{
    if followed.falls > 0 {
        followed.bound.as_ref()
    } else {
        None
    }
}

/// What the bound needs, where there is a fall.
fn base_of(followed: &Followed) -> Option<i64>
    ensures { result ≡ base_of_bound (strict_bound followed.now) }
{
    match strict_bound(followed) {
        Some(bound) => Some(bound.base),
        None => None,
    }
}

/// The greater of two numbers that may be there.
fn greater_of(best: Option<i64>, base: Option<i64>) -> Option<i64>
    ensures { result ≡ greater_of best base }
{
    match (best, base) {
        (_, None) => best,
        (None, Some(base)) => Some(base),
        (Some(most), Some(base)) => if most < base { Some(base) } else { Some(most) },
    }
}

/// The greatest constant that a rule needs on which there is a fall with a bound; None where there is none.
pub fn needed(all: &[Followed]) -> Option<i64>
    ensures { result ≡ needed None all.now }
{
    let mut best = None;
    for followed in all {
        best = greater_of(best, base_of(followed));
    }
    best
}

/// The number, or 0 where there is none.
pub fn or_zero(number: Option<i64>) -> i64
    ensures { result ≡ or_zero number }
{
    match number {
        Some(number) => number,
        None => 0,
    }
}

/// How a rule is listed.
fn listed_as(alloc: Global, number: u32, followed: &Followed) -> Result<RankRule, AllocError>
    ensures { IfOk result (λ listed. listed ≡ listed_as number followed.now) }
{
    let fall = Seq::from_slice(alloc, followed.fall.as_slice())?;
    match strict_bound(followed) {
        Some(bound) => Ok(RankRule::Strict {
            rule: number,
            fall,
            bound: Seq::from_slice(alloc, bound.rows.as_slice())?,
        }),
        None => Ok(RankRule::Weak { rule: number, fall }),
    }
}

/// The rules as they are listed.
///
/// # Errors
///
/// Want of memory, which also answers more than 2^32 rules.
pub fn list_all(alloc: Global, all: &[Followed]) -> Result<Seq<RankRule>, AllocError>
    ensures { IfOk result (λ list. list ≡ list_from 0 all.now) }
{
    let mut list = Seq::new(alloc);
    for (n, followed) in all.iter().enumerate() {
        let Ok(number) = u32::try_from(n) else {
            return Err(AllocError);
        };
        list.push(listed_as(alloc, number, followed)?)?;
    }
    Ok(list)
}
