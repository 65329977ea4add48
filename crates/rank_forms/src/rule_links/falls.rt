//! What sizes and ints fall by along rules.
ghost use Rattle.std.specs.Prelude.{◌≡◌, List, [], get_or, None, Some, IfOk, false, true, if◌then◌else◌};
ghost use Rattle.std.specs.List.Sorted.{IsNonDecreasingBy};
ghost use Rattle.descent.specs.Conditions.{AreRules, IsRule};
ghost use Rattle.rank_forms.specs.declared.rule_links.links.Tie.{Tie};
ghost use Rattle.rank_forms.specs.rule_links.Falls.{AreRising, IsTableOf, TellAll, TellsSize, TellsSteps};
ghost use Rattle.rank_forms.specs.rule_links.inner.Rising.{IsLongestTo, TellsWays};
ghost use Rattle.rank_forms.specs.rule_links.inner.Rising.{bounded_fall, starts_bounded};
ghost use Rattle.rank_forms.specs.rule_links.Ties.{IsTable};

use crate::rule_links::changes::{changes_of, more_of};
use crate::rule_links::links::Tie;
use crate::rule_links::positions::variable_at;
use crate::rule_links::reaching::known_of;
use crate::rule_links::rising::longest;
use crate::rule_links::sizes::size_ties;
use crate::rule_links::steps_down::{fall_ties, has_bound};
use descent::{PathRule, Place};
use list_views::Seq;
use std::alloc::{AllocError, Global};

/// The most that a list of links from one variable to another one adds up to, if there is a list.
fn fall_between(
    alloc: Global,
    ties: &[Tie],
    start: u32,
    finish: u32,
) -> Result<Option<i64>, AllocError>
    requires order { IsNonDecreasingBy (λ (tie : Tie). tie.link.from) ties.now }
    requires rising { AreRising ties.now }
    ensures { IfOk result (λ fall. IsLongestTo ties.now start finish fall) }
{
    let known = longest(alloc, ties, start)?;
    Ok(more_of(known_of(known.as_slice(), finish)))
}

/// What stands at a place falls by at least this along a rule, by these links.
fn fall_at(
    alloc: Global,
    rule: &PathRule,
    size: bool,
    ties: &[Tie],
    place: &Place,
) -> Result<Option<i64>, AllocError>
    requires order { IsNonDecreasingBy (λ (tie : Tie). tie.link.from) ties.now }
    requires rising { AreRising ties.now }
    ensures { IfOk result (λ fall. TellsWays size ties.now rule.now place.now fall) }
{
    let Some(start) = variable_at(rule.first.as_slice(), size, place) else {
        return Ok(None);
    };
    let Some(finish) = variable_at(rule.last.as_slice(), size, place) else {
        return Ok(None);
    };
    fall_between(alloc, ties, start, finish)
}

/// The same at each of these places.
fn falls_at(
    alloc: Global,
    rule: &PathRule,
    size: bool,
    ties: &[Tie],
    places: &[Place],
) -> Result<Seq<Option<i64>>, AllocError>
    requires order { IsNonDecreasingBy (λ (tie : Tie). tie.link.from) ties.now }
    requires rising { AreRising ties.now }
    ensures { IfOk result (λ falls. TellAll (TellsWays size ties.now rule.now) places.now falls) }
{
    let mut falls = Seq::new(alloc);
    for place in places {
        falls.push(fall_at(alloc, rule, size, ties, place)?)?;
    }
    Ok(falls)
}

/// What the sizes at these places fall by along a rule, of which the links are found once.
fn all_size_falls(
    alloc: Global,
    rule: &PathRule,
    places: &[Place],
) -> Result<Seq<Option<i64>>, AllocError>
    requires { IsRule rule.now }
    ensures { IfOk result (λ falls. TellAll (TellsSize rule.now) places.now falls) }
{
    let ties = size_ties(alloc, rule.rows.as_slice(), rule.vars)?;
    falls_at(alloc, rule, true, ties.as_slice(), places)
}

/// The same, where no link is found for no place.
fn size_falls_of(
    alloc: Global,
    rule: &PathRule,
    places: &[Place],
) -> Result<Seq<Option<i64>>, AllocError>
    requires { IsRule rule.now }
    ensures { IfOk result (λ falls. TellAll (TellsSize rule.now) places.now falls) }
{
    match places {
        [] => Ok(Seq::new(alloc)),
        _ => all_size_falls(alloc, rule, places),
    }
}

/// What the ints at these places, or their negatives, fall by along a rule, of which the links are found once.
fn step_falls_of(
    alloc: Global,
    negative: bool,
    rule: &PathRule,
    places: &[Place],
) -> Result<Seq<Option<i64>>, AllocError>
    ensures { IfOk result (λ falls. TellAll (TellsSteps false negative rule.now) places.now falls) }
{
    let ties = fall_ties(alloc, negative, rule.rows.as_slice())?;
    falls_at(alloc, rule, false, ties.as_slice(), places)
}

/// Whether a row bounds the int at a place where the rule starts.
fn starts_bounded(negative: bool, rule: &PathRule, place: &Place) -> bool
    ensures { result ≡ starts_bounded negative rule.now place.now }
{
    match variable_at(rule.first.as_slice(), false, place) {
        Some(start) => has_bound(negative, start, rule.rows.as_slice()),
        None => false,
    }
}

/// A fall, where the start is bounded.
fn bounded_fall(negative: bool, rule: &PathRule, place: &Place, fall: Option<i64>) -> Option<i64>
    ensures { result ≡ bounded_fall negative rule.now place.now fall }
{
    if starts_bounded(negative, rule, place) {
        fall
    } else {
        None
    }
}

/// What was found for a number.
fn found_at(falls: &[Option<i64>], n: usize) -> Option<i64>
    ensures { result ≡ get_or falls.now n None }
{
    match falls.get(n) {
        Some(fall) => *fall,
        None => None,
    }
}

/// Of what the ints at these places fall by, what counts: that where the start is bounded.
fn bounded_of(
    alloc: Global,
    negative: bool,
    rule: &PathRule,
    places: &[Place],
    falls: &[Option<i64>],
) -> Result<Seq<Option<i64>>, AllocError>
    requires { TellAll (TellsSteps false negative rule.now) places.now falls.now }
    ensures { IfOk result (λ bounded. TellAll (TellsSteps true negative rule.now) places.now bounded) }
{
    let mut bounded = Seq::new(alloc);
    for (n, place) in places.iter().enumerate() {
        bounded.push(bounded_fall(negative, rule, place, found_at(falls, n)))?;
    }
    Ok(bounded)
}

/// How the ints at these places change along each rule.
///
/// # Errors
///
/// Want of memory, which also answers a number of more than 64 bits.
pub fn change_table(
    alloc: Global,
    rules: &[PathRule],
    places: &[Place],
) -> Result<Seq<Seq<Option<i64>>>, AllocError>
    ensures { IfOk result (λ table. IsTable rules.now places.now table) }
{
    let mut table = Seq::new(alloc);
    for rule in rules {
        table.push(changes_of(alloc, rule, places)?)?;
    }
    Ok(table)
}

/// What the sizes at these places fall by along each rule.
///
/// # Errors
///
/// Want of memory, which also answers a number of more than 64 bits.
pub fn size_table(
    alloc: Global,
    rules: &[PathRule],
    places: &[Place],
) -> Result<Seq<Seq<Option<i64>>>, AllocError>
    requires { AreRules rules.now }
    ensures { IfOk result (λ table. IsTableOf TellsSize rules.now places.now table) }
{
    let mut table = Seq::new(alloc);
    for rule in rules {
        table.push(size_falls_of(alloc, rule, places)?)?;
    }
    Ok(table)
}

/// What the ints at these places, or their negatives, fall by along each rule.
///
/// # Errors
///
/// Want of memory, which also answers a number of more than 64 bits.
pub fn step_table(
    alloc: Global,
    negative: bool,
    rules: &[PathRule],
    places: &[Place],
) -> Result<Seq<Seq<Option<i64>>>, AllocError>
    ensures { IfOk result (λ table. IsTableOf (TellsSteps false negative) rules.now places.now table) }
{
    let mut table = Seq::new(alloc);
    for rule in rules {
        table.push(step_falls_of(alloc, negative, rule, places)?)?;
    }
    Ok(table)
}

/// The list of a table for a number; past its end the empty one.
fn list_at(table: &[Seq<Option<i64>>], n: usize) -> &[Option<i64>]
    ensures { result.now ≡ get_or table.now n [] }
{
    match table.get(n) {
        Some(list) => list.as_slice(),
        None => &[],
    }
}

/// The same table without what ints fall by on rules where no row bounds their start.
///
/// # Errors
///
/// Want of memory.
pub fn bounded_table(
    alloc: Global,
    negative: bool,
    rules: &[PathRule],
    places: &[Place],
    table: &[Seq<Option<i64>>],
) -> Result<Seq<Seq<Option<i64>>>, AllocError>
    requires { IsTableOf (TellsSteps false negative) rules.now places.now table.now }
    ensures { IfOk result (λ bounded. IsTableOf (TellsSteps true negative) rules.now places.now bounded) }
{
    let mut bounded = Seq::new(alloc);
    for (n, rule) in rules.iter().enumerate() {
        bounded.push(bounded_of(alloc, negative, rule, places, list_at(table, n))?)?;
    }
    Ok(bounded)
}
