//! How ints change along rules.
ghost use Rattle.std.specs.Prelude.{◌≡◌, IfOk};
ghost use Rattle.rank_forms.specs.rule_links.inner.Searching.{IsDifference, AreIntTies};
ghost use Rattle.rank_forms.specs.rule_links.Ties.{TellsChange, TellChanges, more_of};

use crate::rule_links::links::{Come, Tie};
use crate::rule_links::positions::variable_at;
use crate::rule_links::reaching::{known_of, reach};
use crate::rule_links::ties::int_ties;
use descent::{PathRule, Place};
use list_views::Seq;
use std::alloc::{AllocError, Global};

/// What a variable that is known has more.
pub fn more_of(come: Option<Come>) -> Option<i64>
    ensures { result ≡ more_of come }
{
    match come {
        Some(come) => Some(come.by),
        None => None,
    }
}

/// What one variable has more than another one, where links lead there.
fn difference(
    alloc: Global,
    ties: &[Tie],
    start: u32,
    finish: u32,
) -> Result<Option<i64>, AllocError>
    ensures { IfOk result (λ more. IsDifference ties.now start finish more) }
{
    let known = reach(alloc, ties, start)?;
    Ok(more_of(known_of(known.as_slice(), finish)))
}

/// How the int at a place changes along a rule.
fn change_at(
    alloc: Global,
    rule: &PathRule,
    ties: &[Tie],
    place: &Place,
) -> Result<Option<i64>, AllocError>
    requires { AreIntTies rule.now.rows ties.now }
    ensures { IfOk result (λ change. TellsChange rule.now place.now change) }
{
    let Some(start) = variable_at(rule.first.as_slice(), false, place) else {
        return Ok(None);
    };
    let Some(finish) = variable_at(rule.last.as_slice(), false, place) else {
        return Ok(None);
    };
    difference(alloc, ties, start, finish)
}

/// How the ints at these places change along a rule.
fn changes_at(
    alloc: Global,
    rule: &PathRule,
    ties: &[Tie],
    places: &[Place],
) -> Result<Seq<Option<i64>>, AllocError>
    requires { AreIntTies rule.now.rows ties.now }
    ensures { IfOk result (λ changes. TellChanges rule.now places.now changes) }
{
    let mut changes = Seq::new(alloc);
    for place in places {
        changes.push(change_at(alloc, rule, ties, place)?)?;
    }
    Ok(changes)
}

/// How the ints at these places change along a rule, of which the links are found once.
///
/// # Errors
///
/// Want of memory, which also answers a number of more than 64 bits.
pub(crate) fn changes_of(
    alloc: Global,
    rule: &PathRule,
    places: &[Place],
) -> Result<Seq<Option<i64>>, AllocError>
    ensures { IfOk result (λ changes. TellChanges rule.now places.now changes) }
{
    let ties = int_ties(alloc, rule.rows.as_slice())?;
    changes_at(alloc, rule, ties.as_slice(), places)
}
