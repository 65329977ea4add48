//! Forms of ints that may rank rules.
ghost use Rattle.std.specs.Prelude.{◌≡◌, ◌<◌, ◌+ℤ◌, ◌*ℤ◌, ℕ, false, pos, None, Some, IfOk, IfSome, get_or, ◌&&◌, true, unsigned_abs};
ghost use Rattle.rank_search.specs.inner.Candidates.{value_of, form_value, is_weak, is_fall, never_rises, falls, ranks_by, multiple_of};
ghost use Rattle.rank_search.specs.inner.Candidates.{IsOneFound, IsSumFound, NoneOfPair, NoneWithOne, NoOne, NoSum, falling_form, NoFall};
ghost use Rattle.rank_search.specs.Plain.{IsMultiple};

use list_views::Seq;
use std::alloc::AllocError;

/// So many times the int at one place and so many times that at another one; the places by their numbers in a list. The
/// second multiple is 0 where one int is the form.
#[derive(Clone, Copy, PartialEq, Eq)]
pub(crate) struct Candidate {
    pub(crate) one: usize,
    pub(crate) times: i64,
    pub(crate) other: usize,
    pub(crate) more: i64,
}

/// So many times one number and so many times another one, where that is a number of 64 bits.
fn both(times: &i64, c: &i64, more: &i64, d: &i64) -> Option<i64>
    ensures { IfSome result (λ sum. sum ≡ times.now *ℤ c.now +ℤ more.now *ℤ d.now) }
{
    let one = times.checked_mul(*c)?;
    let other = more.checked_mul(*d)?;
    one.checked_add(other)
}

/// The change at a place.
fn change_of(changes: &[Option<i64>], place: usize) -> Option<i64>
    ensures { result ≡ get_or changes.now place None }
{
    match changes.get(place) {
        Some(change) => *change,
        None => None,
    }
}

/// So many times one change and so many times another one, if both are there.
fn value_of(
    one: Option<i64>,
    other: Option<i64>,
    times: &i64,
    more: &i64,
) -> Result<Option<i64>, AllocError>
    ensures { IfOk result (λ value. value ≡ value_of one other times.now more.now) }
{
    let Some(c) = one else {
        return Ok(None);
    };
    let Some(d) = other else {
        return Ok(None);
    };
    match both(times, &c, more, &d) {
        Some(value) => Ok(Some(value)),
        None => Err(AllocError),
    }
}

/// How a form changes, if its ints do.
fn form_value(form: &Candidate, changes: &[Option<i64>]) -> Result<Option<i64>, AllocError>
    ensures { IfOk result (λ value. value ≡ form_value form.now changes.now) }
{
    value_of(
        change_of(changes, form.one),
        change_of(changes, form.other),
        &form.times,
        &form.more,
    )
}

/// Whether a change is there and is no rise.
fn is_weak(value: Option<i64>) -> bool
    ensures { result ≡ is_weak value }
{
    match value {
        Some(value) => value <= 0,
        None => false,
    }
}

/// Whether a change is there and is a fall.
fn is_fall(value: Option<i64>) -> bool
    ensures { result ≡ is_fall value }
{
    match value {
        Some(value) => value < 0,
        None => false,
    }
}

/// Whether a form changes on every rule and rises on none.
fn never_rises(form: &Candidate, table: &[Seq<Option<i64>>]) -> Result<bool, AllocError>
    ensures { IfOk result (λ weak. weak ≡ never_rises form.now table.now) }
{
    for changes in table {
        if !is_weak(form_value(form, changes.as_slice())?) {
            return Ok(false);
        }
    }
    Ok(true)
}

/// Whether a form falls on some rule.
fn falls(form: &Candidate, table: &[Seq<Option<i64>>]) -> Result<bool, AllocError>
    ensures { IfOk result (λ fell. fell ≡ falls form.now table.now) }
{
    for changes in table {
        if is_fall(form_value(form, changes.as_slice())?) {
            return Ok(true);
        }
    }
    Ok(false)
}

/// Whether a form never rises on the rules and falls on one of them.
fn ranks_by(form: &Candidate, table: &[Seq<Option<i64>>]) -> Result<bool, AllocError>
    ensures { IfOk result (λ ranks. ranks ≡ ranks_by form.now table.now) }
{
    if !never_rises(form, table)? {
        return Ok(false);
    }
    falls(form, table)
}

/// The multiples from -4 to 4 other than 0, by number.
fn multiple_of(number: u32) -> i64
    ensures value { result ≡ multiple_of number }
    ensures multiple { IsMultiple result }
{
    if number == 0 {
        return 1;
    }
    if number == 1 {
        return -1;
    }
    if number == 2 {
        return 2;
    }
    if number == 3 {
        return -2;
    }
    if number == 4 {
        return 3;
    }
    if number == 5 {
        return -3;
    }
    if number == 6 {
        return 4;
    }
    -4
}

/// The first form of these two places with this first multiple that ranks the rules.
fn with_times(
    table: &[Seq<Option<i64>>],
    one: usize,
    times: &i64,
    other: usize,
) -> Result<Option<Candidate>, AllocError>
    ensures some { IfOk result
        (λ found. IfSome found (λ form. (form.one ≡ one) × (form.times ≡ times.now) × (form.other ≡ other) × IsMultiple form.more
        × (ranks_by form table.now ≡ true))) }
    ensures none { IfOk result (λ found. found ≡ None → (k : ℕ) → k < 8
        → ranks_by (record { one = one; times = times.now; other = other; more = multiple_of k }) table.now ≡ false) }
{
    for k in 0..8 {
        let form = Candidate {
            one,
            times: *times,
            other,
            more: multiple_of(k),
        };
        if ranks_by(&form, table)? {
            return Ok(Some(form));
        }
    }
    Ok(None)
}

/// The first form of these two places that ranks the rules.
fn of_pair(
    table: &[Seq<Option<i64>>],
    one: usize,
    other: usize,
) -> Result<Option<Candidate>, AllocError>
    ensures some { IfOk result
        (λ found. IfSome found (λ form. (form.one ≡ one) × IsMultiple form.times × (form.other ≡ other) × IsMultiple form.more
        × (ranks_by form table.now ≡ true))) }
    ensures none { IfOk result (λ found. found ≡ None → NoneOfPair table.now one other 8) }
{
    for n in 0..8 {
        let times = multiple_of(n);
        let found = with_times(table, one, &times, other)?;
        if found.is_some() {
            return Ok(found);
        }
    }
    Ok(None)
}

/// The first form of two places, of which this is the first, that ranks the rules.
fn with_one(
    table: &[Seq<Option<i64>>],
    one: usize,
    count: usize,
) -> Result<Option<Candidate>, AllocError>
    ensures some { IfOk result
        (λ found. IfSome found (λ form. (form.one ≡ one) × IsMultiple form.times × (form.other < count) × IsMultiple form.more
        × (ranks_by form table.now ≡ true))) }
    ensures none { IfOk result (λ found. found ≡ None → NoneWithOne table.now one count) }
{
    for other in 0..count {
        let found = of_pair(table, one, other)?;
        if found.is_some() {
            return Ok(found);
        }
    }
    Ok(None)
}

/// The first form of two places that ranks the rules.
pub(crate) fn sum_of_two(
    table: &[Seq<Option<i64>>],
    count: usize,
) -> Result<Option<Candidate>, AllocError>
    ensures some { IfOk result (λ found. IfSome found (λ form. IsSumFound table.now count form)) }
    ensures none { IfOk result (λ found. found ≡ None → NoSum table.now count count) }
{
    for one in 0..count {
        let found = with_one(table, one, count)?;
        if found.is_some() {
            return Ok(found);
        }
    }
    Ok(None)
}

/// 1 and -1, by number.
fn unit_of(number: u32) -> i64
    requires { number < 2 }
    ensures value { result ≡ multiple_of number }
    ensures unit { unsigned_abs result ≡ 1 }
{
    if number == 0 { 1 } else { -1 }
}

/// The int at a place, or its negative, if that ranks the rules.
fn of_one(table: &[Seq<Option<i64>>], one: usize) -> Result<Option<Candidate>, AllocError>
    ensures some { IfOk result
        (λ found. IfSome found (λ form. (form.one ≡ one) × (unsigned_abs form.times ≡ 1) × (form.other ≡ one)
        × (form.more ≡ pos 0) × (ranks_by form table.now ≡ true))) }
    ensures none { IfOk result (λ found. found ≡ None → (n : ℕ) → n < 2
        → ranks_by (record { one = one; times = multiple_of n; other = one; more = pos 0 }) table.now ≡ false) }
{
    for n in 0..2 {
        let form = Candidate {
            one,
            times: unit_of(n),
            other: one,
            more: 0,
        };
        if ranks_by(&form, table)? {
            return Ok(Some(form));
        }
    }
    Ok(None)
}

/// The first int or negative of an int that ranks the rules.
pub(crate) fn one_int(
    table: &[Seq<Option<i64>>],
    count: usize,
) -> Result<Option<Candidate>, AllocError>
    ensures some { IfOk result (λ found. IfSome found (λ form. IsOneFound table.now count form)) }
    ensures none { IfOk result (λ found. found ≡ None → NoOne table.now count) }
{
    for one in 0..count {
        let found = of_one(table, one)?;
        if found.is_some() {
            return Ok(found);
        }
    }
    Ok(None)
}

/// The first place that falls on some rule and rises on none, by tables of falls: what each place falls by at least, and what
/// it falls by where a fall counts.
pub(crate) fn first_falling(
    weak: &[Seq<Option<i64>>],
    strict: &[Seq<Option<i64>>],
    count: usize,
) -> Result<Option<usize>, AllocError>
    ensures some { IfOk result
        (λ found. IfSome found
        (λ one. (one < count) × ((never_rises (falling_form one) weak.now && falls (falling_form one) strict.now) ≡ true))) }
    ensures none { IfOk result (λ found. found ≡ None → NoFall weak.now strict.now count) }
{
    for one in 0..count {
        if is_falling(weak, strict, one)? {
            return Ok(Some(one));
        }
    }
    Ok(None)
}

/// The form of one place that counts down what the place falls by.
fn falling_form(one: usize) -> Candidate
    ensures { result ≡ falling_form one }
{
    Candidate {
        one,
        times: -1,
        other: one,
        more: 0,
    }
}

/// Whether a place falls on some rule and rises on none.
fn is_falling(
    weak: &[Seq<Option<i64>>],
    strict: &[Seq<Option<i64>>],
    one: usize,
) -> Result<bool, AllocError>
    ensures { IfOk result (λ is. is ≡ (never_rises (falling_form one) weak.now && falls (falling_form one) strict.now)) }
{
    let form = falling_form(one);
    if !never_rises(&form, weak)? {
        return Ok(false);
    }
    falls(&form, strict)
}
