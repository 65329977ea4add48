//! The search for plain and for stepwise forms.
ghost use Rattle.std.specs.Prelude.{◌≡◌, ◌<◌, false, true, None, Some, IfOk, IfSome, slice_get, length};
ghost use Rattle.descent.specs.Conditions.{AreRules};
ghost use Rattle.descent.specs.declared.rules.Place.{Place};
ghost use Rattle.rank_search.specs.Plain.{LowersBy, NoPlainForm, RanksSize};
ghost use Rattle.rank_search.specs.Stepwise.{NoStepwiseForm, StepwiseRanks};
ghost use Rattle.rank_search.specs.Found.{IsFound};
ghost use Rattle.rank_forms.specs.rule_links.Ties.{IsMoved, IsTable};
ghost use Rattle.rank_search.specs.inner.Candidates.{IsOneFound, IsSumFound, NoOne, IsTold, NoInts, NoSize, NoSteps};
ghost use Rattle.rank_forms.specs.rule_links.Falls.{ArePlacesOf, IsTableOf, TellsSize, TellsSteps};

use crate::candidates::{Candidate, first_falling, one_int, sum_of_two};
use descent::{PathRule, Place};
use list_views::Seq;
use rank_forms::rule_links::{bounded_table, change_table, first_places, size_table, step_table};
use std::alloc::{AllocError, Global};

/// A plain form: it is the same at every cut of the rules.
#[derive(PartialEq, Drop)]
pub enum PlainForm {
    /// One or two places with the multiples of their ints.
    Ints(Seq<(Place, i64)>),
    /// The size at a place.
    Size(Place),
}

/// A stepwise form: the int at a place of every cut of the rules, or its negative.
#[derive(Clone, Copy, PartialEq, Eq)]
pub struct StepwiseForm {
    /// Whether the negative is meant.
    pub negative: bool,
    /// The place.
    pub place: Place,
}

/// The place of a number.
fn place_at(places: &[Place], n: usize) -> Place
    requires { n < length places.now }
    ensures { slice_get places.now n ≡ Some result }
{
    places[n]
}

/// The form of one place.
fn one_term(
    alloc: Global,
    rules: &[PathRule],
    places: &[Place],
    table: &[Seq<Option<i64>>],
    form: &Candidate,
) -> Result<Seq<(Place, i64)>, AllocError>
    requires table { IsTable rules.now places.now table.now }
    requires found { IsOneFound table.now (length places.now) form.now }
    ensures { IfOk result (λ terms. LowersBy IsMoved rules.now terms) }
{
    let mut terms = Seq::new(alloc);
    terms.push((place_at(places, form.one), form.times))?;
    Ok(terms)
}

/// The form of two places.
fn two_terms(
    alloc: Global,
    rules: &[PathRule],
    places: &[Place],
    table: &[Seq<Option<i64>>],
    form: &Candidate,
) -> Result<Seq<(Place, i64)>, AllocError>
    requires table { IsTable rules.now places.now table.now }
    requires found { IsSumFound table.now (length places.now) form.now }
    ensures { IfOk result (λ terms. LowersBy IsMoved rules.now terms) }
{
    let mut terms = Seq::new(alloc);
    terms.push((place_at(places, form.one), form.times))?;
    terms.push((place_at(places, form.other), form.more))?;
    Ok(terms)
}

/// The first form of two ints that a table shows, where it shows none of one.
fn sum_in(
    alloc: Global,
    rules: &[PathRule],
    places: &[Place],
    table: &[Seq<Option<i64>>],
) -> Result<Option<Seq<(Place, i64)>>, AllocError>
    requires places { ArePlacesOf rules.now false places.now }
    requires table { IsTable rules.now places.now table.now }
    requires one { NoOne table.now (length places.now) }
    ensures found { IfOk result (λ found. IfSome found (λ form. LowersBy IsMoved rules.now form)) }
    ensures none { IfOk result (λ found. found ≡ None → NoInts rules.now) }
{
    match sum_of_two(table, places.len())? {
        Some(form) => Ok(Some(two_terms(alloc, rules, places, table, &form)?)),
        None => Ok(None),
    }
}

/// The first form of ints that a table shows.
fn ints_in(
    alloc: Global,
    rules: &[PathRule],
    places: &[Place],
    table: &[Seq<Option<i64>>],
) -> Result<Option<Seq<(Place, i64)>>, AllocError>
    requires places { ArePlacesOf rules.now false places.now }
    requires table { IsTable rules.now places.now table.now }
    ensures found { IfOk result (λ found. IfSome found (λ form. LowersBy IsMoved rules.now form)) }
    ensures none { IfOk result (λ found. found ≡ None → NoInts rules.now) }
{
    match one_int(table, places.len())? {
        Some(form) => Ok(Some(one_term(alloc, rules, places, table, &form)?)),
        None => sum_in(alloc, rules, places, table),
    }
}

/// The first form of ints that ranks the rules.
fn int_form(alloc: Global, rules: &[PathRule]) -> Result<Option<Seq<(Place, i64)>>, AllocError>
    ensures found { IfOk result (λ found. IfSome found (λ form. LowersBy IsMoved rules.now form)) }
    ensures none { IfOk result (λ found. found ≡ None → NoInts rules.now) }
{
    let places = first_places(alloc, rules, false)?;
    let table = change_table(alloc, rules, places.as_slice())?;
    ints_in(alloc, rules, places.as_slice(), table.as_slice())
}

/// The first size that a table shows.
fn size_in(
    rules: &[PathRule],
    places: &[Place],
    table: &[Seq<Option<i64>>],
) -> Result<Option<Place>, AllocError>
    requires places { ArePlacesOf rules.now true places.now }
    requires table { IsTableOf TellsSize rules.now places.now table.now }
    ensures found { IfOk result (λ found. IfSome found (λ place. RanksSize rules.now place)) }
    ensures none { IfOk result (λ found. found ≡ None → NoSize rules.now) }
{
    match first_falling(table, table, places.len())? {
        Some(one) => Ok(Some(place_at(places, one))),
        None => Ok(None),
    }
}

/// The first size that ranks the rules.
fn size_form(alloc: Global, rules: &[PathRule]) -> Result<Option<Place>, AllocError>
    requires { AreRules rules.now }
    ensures found { IfOk result (λ found. IfSome found (λ place. RanksSize rules.now place)) }
    ensures none { IfOk result (λ found. found ≡ None → NoSize rules.now) }
{
    let places = first_places(alloc, rules, true)?;
    let table = size_table(alloc, rules, places.as_slice())?;
    size_in(rules, places.as_slice(), table.as_slice())
}

/// The first int, or negative of one, that tables show.
fn steps_in(
    negative: bool,
    rules: &[PathRule],
    places: &[Place],
    weak: &[Seq<Option<i64>>],
    strict: &[Seq<Option<i64>>],
) -> Result<Option<Place>, AllocError>
    requires places { ArePlacesOf rules.now false places.now }
    requires weak { IsTableOf (TellsSteps false negative) rules.now places.now weak.now }
    requires strict { IsTableOf (TellsSteps true negative) rules.now places.now strict.now }
    ensures found { IfOk result (λ found. IfSome found (λ place. StepwiseRanks rules.now negative place)) }
    ensures none { IfOk result (λ found. found ≡ None → NoSteps rules.now negative) }
{
    match first_falling(weak, strict, places.len())? {
        Some(one) => Ok(Some(place_at(places, one))),
        None => Ok(None),
    }
}

/// The first int, or the first negative of one, that ranks the rules step by step.
fn step_form(alloc: Global, negative: bool, rules: &[PathRule]) -> Result<Option<Place>, AllocError>
    ensures found { IfOk result (λ found. IfSome found (λ place. StepwiseRanks rules.now negative place)) }
    ensures none { IfOk result (λ found. found ≡ None → NoSteps rules.now negative) }
{
    let places = first_places(alloc, rules, false)?;
    let weak = step_table(alloc, negative, rules, places.as_slice())?;
    let strict = bounded_table(alloc, negative, rules, places.as_slice(), weak.as_slice())?;
    steps_in(
        negative,
        rules,
        places.as_slice(),
        weak.as_slice(),
        strict.as_slice(),
    )
}

/// The first size, where no form of ints ranks the rules.
fn size_plain(alloc: Global, rules: &[PathRule]) -> Result<Option<PlainForm>, AllocError>
    requires rules { AreRules rules.now }
    requires ints { NoInts rules.now }
    ensures found { IfOk result (λ found. IfSome found (λ form. IsTold rules.now form)) }
    ensures none { IfOk result (λ found. found ≡ None → NoPlainForm rules.now) }
{
    match size_form(alloc, rules)? {
        Some(place) => Ok(Some(PlainForm::Size(place))),
        None => Ok(None),
    }
}

/// The first negative of an int, where no int ranks the rules step by step.
fn negative_form(alloc: Global, rules: &[PathRule]) -> Result<Option<StepwiseForm>, AllocError>
    requires { NoSteps rules.now false }
    ensures found { IfOk result (λ found. IfSome found (λ form. StepwiseRanks rules.now form.negative form.place)) }
    ensures none { IfOk result (λ found. found ≡ None → NoStepwiseForm rules.now) }
{
    match step_form(alloc, true, rules)? {
        Some(place) => Ok(Some(StepwiseForm {
            negative: true,
            place,
        })),
        None => Ok(None),
    }
}

/// A plain form that ranks the rules by the numbers that are found.
///
/// # Errors
///
/// Want of memory, which also answers a number of more than 64 bits.
pub(crate) fn told_form(alloc: Global, rules: &[PathRule]) -> Result<Option<PlainForm>, AllocError>
    requires rules { AreRules rules.now }
    ensures found { IfOk result (λ found. IfSome found (λ form. IsTold rules.now form)) }
    ensures none { IfOk result (λ found. found ≡ None → NoPlainForm rules.now) }
{
    match int_form(alloc, rules)? {
        Some(form) => Ok(Some(PlainForm::Ints(form))),
        None => size_plain(alloc, rules),
    }
}

/// A plain form that ranks the rules: by the links of each rule it never rises, and on some rule it falls. None only where no
/// plain form does. Where several rank the rules, one of them is told. The changes of each place on each rule are found once; then
/// it costs some 64 steps for each two places and each rule.
///
/// # Errors
///
/// Want of memory, which also answers a number of more than 64 bits.
pub fn plain_form(alloc: Global, rules: &[PathRule]) -> Result<Option<PlainForm>, AllocError>
    requires rules { AreRules rules.now }
    ensures found { IfOk result (λ found. IfSome found (λ form. IsFound rules.now form)) }
    ensures none { IfOk result (λ found. found ≡ None → NoPlainForm rules.now) }
{
    told_form(alloc, rules)
}

/// A stepwise form that ranks the rules: on each rule steps lead from its start to its end that never rise together, and on
/// some rule where a row bounds the start they fall. None only where no stepwise form does.
///
/// # Errors
///
/// Want of memory, which also answers a number of more than 64 bits.
pub fn stepwise_form(alloc: Global, rules: &[PathRule]) -> Result<Option<StepwiseForm>, AllocError>
    ensures found { IfOk result (λ found. IfSome found (λ form. StepwiseRanks rules.now form.negative form.place)) }
    ensures none { IfOk result (λ found. found ≡ None → NoStepwiseForm rules.now) }
{
    match step_form(alloc, false, rules)? {
        Some(place) => Ok(Some(StepwiseForm {
            negative: false,
            place,
        })),
        None => negative_form(alloc, rules),
    }
}
