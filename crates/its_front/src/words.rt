//! The words of a line: names, numbers, and the terms of a row.
ghost use Rattle.std.specs.Prelude.{◌≡◌, ◌<◌, ◌+◌, length, drop, true, false, Some, None, IfOk, MatchOption};
ghost use Rattle.std.specs.List.{list_all};
ghost use Rattle.its_front.specs.Words.{is_letter, is_name_byte, is_name, are_names, front, is_primed, term_of, before, pair_of};
ghost use Rattle.its_front.specs.Words.{terms_of, row_words, two_names, ranged};

use crate::text_lines::{Number, read_number};
use list_views::{Bytes, Seq};
use std::alloc::{AllocError, Global};

/// So many times the value of a variable, before the rule or after it.
#[derive(Drop)]
pub(crate) struct Term<'a> {
    pub(crate) times: Number,
    pub(crate) name: Bytes<'a>,
    pub(crate) after: bool,
}

fn is_letter(b: u8) -> bool
    ensures { result ≡ is_letter b }
{
    b'a' <= b && b <= b'z' || b'A' <= b && b <= b'Z'
}

fn is_name_byte(b: u8) -> bool
    ensures { result ≡ is_name_byte b }
{
    is_letter(b) || (b'0' <= b && b <= b'9' || (b == b'_' || b == b'.'))
}

fn are_name_bytes(word: &[u8]) -> bool
    ensures { result ≡ list_all is_name_byte word.now }
{
    word.iter().all(|b| is_name_byte(*b))
}

/// Whether the word is a name: letters, digits, `_` and `.`.
fn is_name(word: &[u8]) -> bool
    ensures { result ≡ is_name word.now }
{
    word.len() > 0 && are_name_bytes(word)
}

fn all_names(words: &[Bytes<'_>]) -> bool
    ensures { result ≡ list_all is_name words.now }
{
    words.iter().all(|word| is_name(word.as_slice()))
}

/// Whether there are words, and each is a name.
pub(crate) fn are_names(words: &[Bytes<'_>]) -> bool
    ensures { result ≡ are_names words.now }
{
    words.len() > 0 && all_names(words)
}

/// The name before a `'` at the end of the word.
fn primed<'a>(word: &'a [u8]) -> Option<&'a [u8]>
    ensures { MatchOption result (is_primed word.now ≡ false) (λ name. (is_primed word.now ≡ true) × (name.now ≡ front word.now)) }
{
    let (name, mark) = word.split_at(word.len().saturating_sub(1));
    if mark == b"'".as_slice() && is_name(name) {
        Some(name)
    } else {
        None
    }
}

/// The term of a number and a value.
fn term_of<'a>(times: Number, word: &'a [u8]) -> Option<Term<'a>>
    ensures { result ≡ term_of times word.now }
{
    if is_name(word) {
        return Some(Term {
            times,
            name: Bytes::new(word),
            after: false,
        });
    }
    let name = primed(word)?;
    Some(Term {
        times,
        name: Bytes::new(name),
        after: true,
    })
}

/// The term of two words: a number, and the value of a variable.
fn pair_of<'a>(number: &'a [u8], value: &'a [u8]) -> Option<Term<'a>>
    ensures { result ≡ pair_of number.now value.now }
{
    let times = read_number(number)?;
    term_of(times, value)
}

/// The term of the first two words; None where they are none.
fn first_term<'a>(words: &[Bytes<'a>]) -> Option<Term<'a>>
    requires { 0 < length words.now }
    ensures { MatchOption result (terms_of words.now ≡ None)
        (λ term. terms_of words.now ≡ before (Some term) (terms_of (drop 2 words.now))) }
{
    let (number, rest) = words.split_first()?;
    let (value, _) = rest.split_first()?;
    pair_of(number.as_slice(), value.as_slice())
}

/// The term of the two words from a place on; None where they are none.
#[tactic(auto, using(crate::proofs::Placing::two_more))]
fn term_at<'a>(words: &[Bytes<'a>], n: usize) -> Option<Term<'a>>
    requires { n < length words.now }
    ensures { MatchOption result (terms_of (drop n words.now) ≡ None)
        (λ term. terms_of (drop n words.now) ≡ before (Some term) (terms_of (drop (n + 2) words.now))) }
{
    let (_, rest) = words.split_at(n);
    first_term(rest)
}

/// The terms of pairs of words; None where they are none.
#[tactic(auto, using(crate::proofs::Gathered::begins, crate::proofs::Gathered::goes_on, crate::proofs::Gathered::stops))]
fn terms_of<'a>(alloc: Global, words: &[Bytes<'a>]) -> Result<Option<Seq<Term<'a>>>, AllocError>
    ensures { IfOk result (λ terms. terms ≡ terms_of words.now) }
{
    let mut terms = Seq::new(alloc);
    let mut n = 0;
    while n < words.len() {
        let Some(term) = term_at(words, n) else {
            return Ok(None);
        };
        terms.push(term)?;
        n += 2;
    }
    Ok(Some(terms))
}

/// The constant of a row, and its terms; None where the words are none.
pub(crate) fn row_words<'a>(
    alloc: Global,
    words: &[Bytes<'a>],
) -> Result<Option<(Number, Seq<Term<'a>>)>, AllocError>
    ensures { IfOk result (λ said. said ≡ row_words words.now) }
{
    let Some((number, rest)) = words.split_first() else {
        return Ok(None);
    };
    let Some(constant) = read_number(number.as_slice()) else {
        return Ok(None);
    };
    match terms_of(alloc, rest)? {
        Some(terms) => Ok(Some((constant, terms))),
        None => Ok(None),
    }
}

/// Two names; None where the words are none.
pub(crate) fn two_names<'a>(words: &[Bytes<'a>]) -> Option<(Bytes<'a>, Bytes<'a>)>
    ensures { result ≡ two_names words.now }
{
    let (one, rest) = words.split_first()?;
    let (other, more) = rest.split_first()?;
    if more.is_empty() && is_name(one.as_slice()) && is_name(other.as_slice()) {
        Some((one.again(), other.again()))
    } else {
        None
    }
}

/// The number where it is at most so much in size.
pub(crate) fn ranged(most: u64, number: Number) -> Option<i64>
    ensures { result ≡ ranged most number }
{
    let value = number.signed()?;
    if value.unsigned_abs() <= most {
        Some(value)
    } else {
        None
    }
}
