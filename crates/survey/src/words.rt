//! The words of the command line.
ghost use Rattle.std.specs.Prelude.{◌≡◌, ◌∷◌, ◌≤◌, ◌<◌, [], length, map, string_bytes, IfOk, IfSome, MatchOption, IsTrue};
ghost use Rattle.std.specs.List.{list_all};
ghost use Rattle.survey.specs.Words.{behind_why, behind_descs, descs_in, desc_words, class_words, is_file_word, AreSurvey};
ghost use Rattle.class_base.specs.Limits.{most_classes};

use class_base::MOST_CLASSES;
use std::alloc::{AllocError, Global};

/// What the words of a command line ask for.
#[derive(Drop)]
pub(crate) struct Asked<'a> {
    /// Whether advice is asked for.
    pub(crate) why: bool,
    /// The words that name descriptions.
    pub(crate) descs: Vec<&'a str>,
    /// The words that name class files.
    pub(crate) classes: &'a [String],
}

/// The words that name descriptions, and the words behind them.
#[derive(Drop)]
struct DescWords<'a> {
    descs: Vec<&'a str>,
    rest: &'a [String],
}

/// The words behind `--why`, which may stand first.
fn behind_why(words: &[String]) -> &[String]
    ensures { map string_bytes result.now ≡ behind_why (map string_bytes words.now) }
{
    match words.split_first() {
        Some((first, rest)) => {
            if first.as_bytes() == b"--why".as_slice() {
                rest
            } else {
                words
            }
        }
        None => words,
    }
}

/// The first name of a description, and the words behind it; None where no `--desc` with a name stands first.
#[tactic(auto, using(crate::proofs::Asking::first_desc, crate::proofs::Asking::no_desc, crate::proofs::Asking::few_words))]
fn first_desc(words: &[String]) -> Option<(&str, &[String])>
    ensures { MatchOption result
        ((descs_in (map string_bytes words.now) ≡ []) × (behind_descs (map string_bytes words.now) ≡ map string_bytes words.now))
        (λ found. (descs_in (map string_bytes words.now) ≡ found.0.now ∷ descs_in (map string_bytes found.1.now))
        × ((behind_descs (map string_bytes words.now) ≡ behind_descs (map string_bytes found.1.now))
        × (length found.1.now < length words.now))) }
{
    if words.len() < 2 {
        return None;
    }
    if words[0].as_bytes() != b"--desc".as_slice() {
        return None;
    }
    let (_, rest) = words.split_at(2);
    Some((words[1].as_str(), rest))
}

/// The names of descriptions, and the words behind them.
#[tactic(auto, using(crate::proofs::Walks::descs_more, crate::proofs::Walks::descs_end))]
fn described(alloc: Global, words: &[String]) -> Result<DescWords<'_>, AllocError>
    ensures descs { IfOk result (λ d. map (λ name. name.now) d.descs.items ≡ descs_in (map string_bytes words.now)) }
    ensures rest { IfOk result (λ d. map string_bytes d.rest.now ≡ behind_descs (map string_bytes words.now)) }
{
    let mut descs = Vec::new(alloc);
    let mut rest = words;
    while let Some((name, behind)) = first_desc(rest) {
        descs.push(name)?;
        rest = behind;
    }
    Ok(DescWords { descs, rest })
}

/// A word can name a file where it does not begin with `-`.
fn is_file_word(word: &[u8]) -> bool
    ensures { result ≡ is_file_word word.now }
{
    match word.first() {
        Some(b'-') => false,
        _ => true,
    }
}

/// Whether words can name class files.
fn are_files(words: &[String]) -> bool
    ensures { result ≡ list_all (λ word. is_file_word (string_bytes word)) words.now }
{
    words.iter().all(|word| is_file_word(word.as_bytes()))
}

/// Whether words can name descriptions.
fn are_descs(words: &[&str]) -> bool
    ensures { result ≡ list_all (λ word. is_file_word word.now) words.now }
{
    words.iter().all(|word| is_file_word(word.as_bytes()))
}

/// Whether so many names, each good, are those of a survey.
fn is_survey(asked: &Asked<'_>) -> bool
    ensures { IsTrue result → length asked.now.classes.now ≤ most_classes }
{
    asked.classes.len() >= 1
        && asked.classes.len() <= MOST_CLASSES
        && asked.descs.len() <= MOST_CLASSES
        && are_files(asked.classes)
        && are_descs(asked.descs.as_slice())
}

impl<'a> Asked<'a> {
    /// What the words ask for; None where they are none of a survey.
    ///
    /// # Errors
    ///
    /// Want of memory.
    pub(crate) fn from_words(
        alloc: Global,
        words: &'a [String],
    ) -> Result<Option<Asked<'a>>, AllocError>
        ensures classes { IfOk result (λ found. IfSome found
            (λ asked. map string_bytes asked.classes.now ≡ class_words (map string_bytes words.now))) }
        ensures descs { IfOk result (λ found. IfSome found
            (λ asked. map (λ name. name.now) asked.descs.items ≡ desc_words (map string_bytes words.now))) }
        ensures few { IfOk result (λ found. IfSome found (λ asked. length asked.classes.now ≤ most_classes)) }
    {
        let behind = behind_why(words);
        let found = described(alloc, behind)?;
        let asked = Asked {
            why: behind.len() < words.len(),
            descs: found.descs,
            classes: found.rest,
        };
        if is_survey(&asked) {
            Ok(Some(asked))
        } else {
            Ok(None)
        }
    }
}
