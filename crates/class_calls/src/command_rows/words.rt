//! The words of a command line, read by the table.
ghost use Rattle.std.specs.Prelude.{◌≡◌, ◌↔◌, ◌<◌, ◌≤◌, ◌^◌, false, ℕ, List, map, string_bytes, IsTrue, MatchOption};
ghost use Rattle.std.specs.Fmt.{decimal};
ghost use Rattle.std.specs.List.{list_all};
ghost use Rattle.class_calls.specs.declared.command_rows.table.Request.{Request};
ghost use Rattle.class_calls.specs.declared.command_rows.row.NumberWord.TheVariants.{Absent, Needed, Optional};
ghost use Rattle.class_calls.specs.command_rows.Rows.{commands, row_of, command_of, number_of, least_files, most_files, from_to};
ghost use Rattle.class_calls.specs.command_rows.Words.{is_file_word, AreFiles, IsNumber, IsCommand};
ghost use Rattle.class_calls.specs.command_rows.inner.Reading.{command_named, is_plain, BeginWith, Reads, IsLimited, IsGoodNumber};

use crate::command_rows::row::{NumberRange, NumberWord, Row};
use crate::command_rows::table::{COMMANDS, Command, Request};
use class_base::MOST_CLASSES;

/// What the words of a command line ask for.
#[derive(Drop)]
pub struct Asked<'a> {
    /// What is asked.
    pub request: Request,
    /// The words that name files, in their order.
    pub files: &'a [String],
}

/// The number and the file words behind a command's word.
#[derive(Drop)]
struct Behind<'a> {
    number: u64,
    files: &'a [String],
}

/// The command of a word.
fn command_named(word: &str) -> Option<Command>
    ensures { result ≡ command_named commands word.now }
{
    let mut rest: &[Command] = &COMMANDS;
    while let Some((command, others)) = rest.split_first() {
        if word.as_bytes() == command.row().word.as_slice() {
            return Some(*command);
        }
        rest = others;
    }
    None
}

/// No sign and no leading zero.
fn is_plain(word: &[u8]) -> bool
    ensures { result ≡ is_plain word.now }
{
    match word.first() {
        Some(b'+') => false,
        Some(b'0') => word.len() == 1,
        _ => true,
    }
}

/// The number that a word says.
fn number_of(word: &str) -> Option<u64>
    ensures { MatchOption result ((number : ℕ) → number < 2 ^ 64 → ¬ (word.now ≡ decimal number))
        (λ number. (word.now ≡ decimal number) × (number < 2 ^ 64)) }
{
    if !is_plain(word.as_bytes()) {
        return None;
    }
    let Ok(number) = word.parse::<u64>() else {
        return None;
    };
    Some(number)
}

/// The number that a word says, where it is in the range.
fn number_in(word: &str, least: u64, most: u64) -> Option<u64>
    ensures { MatchOption result ((number : ℕ) → ¬ IsNumber (from_to least most) word.now number)
        (λ number. IsNumber (from_to least most) word.now number) }
{
    let number = number_of(word)?;
    if number < least {
        return None;
    }
    if number > most {
        return None;
    }
    Some(number)
}

/// A word can name a file where it does not begin with `-`.
fn is_file_word(word: &String) -> bool
    ensures { result ≡ is_file_word (string_bytes word.now) }
{
    match word.as_bytes().first() {
        Some(b'-') => false,
        _ => true,
    }
}

/// Each word can name a file.
fn are_file_words(words: &[String]) -> bool
    ensures { result ≡ list_all (λ word. is_file_word (string_bytes word)) words.now }
{
    words.iter().all(is_file_word)
}

/// How many class files there may be behind the files of a row.
fn is_count(row: &Row, count: usize) -> bool
    ensures { IsTrue result ↔ ((least_files row.now ≤ count) × (count ≤ most_files row.now)) }
{
    let own = row.files.as_slice().len();
    if count < own {
        return false;
    }
    let behind = count - own;
    if row.classes {
        1 <= behind && behind <= MOST_CLASSES
    } else {
        behind == 0
    }
}

/// The words name the files of a row.
fn are_files(row: &Row, words: &[String]) -> bool
    ensures { IsTrue result ↔ AreFiles row.now (map string_bytes words.now) }
{
    is_count(row, words.len()) && are_file_words(words)
}

/// A number with the words behind it, where these name the files of the row.
fn with_files<'a>(row: &Row, number: u64, files: &'a [String]) -> Option<Behind<'a>>
    ensures { MatchOption result (¬ AreFiles row.now (map string_bytes files.now)) (λ read. (read.number ≡ number)
        × (read.files.now ≡ files.now) × AreFiles row.now (map string_bytes files.now)) }
{
    if !are_files(row, files) {
        return None;
    }
    Some(Behind { number, files })
}

/// Words without a number.
fn absent<'a>(row: &Row, words: &'a [String]) -> Option<Behind<'a>>
    requires { row.now.number ≡ Absent }
    ensures { MatchOption result ((number : ℕ) (files : List (List ℕ)) → ¬ Reads row.now (map string_bytes words.now) number files)
        (λ read. Reads row.now (map string_bytes words.now) read.number (map string_bytes read.files.now)) }
{
    with_files(row, 0, words)
}

/// Words that begin with a number.
fn needed<'a>(row: &Row, range: NumberRange, words: &'a [String]) -> Option<Behind<'a>>
    requires { (name : List ℕ) × (row.now.number ≡ Needed name range) }
    ensures { MatchOption result ((number : ℕ) (files : List (List ℕ)) → ¬ Reads row.now (map string_bytes words.now) number files)
        (λ read. Reads row.now (map string_bytes words.now) read.number (map string_bytes read.files.now)) }
{
    let (word, files) = words.split_first()?;
    let number = number_in(word.as_str(), range.least, range.most)?;
    with_files(row, number, files)
}

/// Whether a word is the first of these.
fn begins_with(words: &[String], option: &[u8]) -> bool
    ensures { IsTrue result ↔ BeginWith (map string_bytes words.now) option.now }
{
    match words.split_first() {
        Some((word, _)) => word.as_bytes() == option,
        None => false,
    }
}

/// Words that begin with an option and a number.
fn limited<'a>(row: &Row, range: NumberRange, words: &'a [String]) -> Option<Behind<'a>>
    requires { IsLimited row.now range (map string_bytes words.now) }
    ensures { MatchOption result ((number : ℕ) (files : List (List ℕ)) → ¬ Reads row.now (map string_bytes words.now) number files)
        (λ read. Reads row.now (map string_bytes words.now) read.number (map string_bytes read.files.now)) }
{
    let (_, behind) = words.split_first()?;
    let (word, files) = behind.split_first()?;
    let number = number_in(word.as_str(), range.least, range.most)?;
    with_files(row, number, files)
}

/// Words that may begin with an option and a number.
fn optional<'a>(
    row: &Row,
    option: &[u8],
    range: NumberRange,
    otherwise: u64,
    words: &'a [String],
) -> Option<Behind<'a>>
    requires row { row.now.number ≡ Optional option.now range otherwise }
    requires good { is_file_word option.now ≡ false }
    ensures { MatchOption result ((number : ℕ) (files : List (List ℕ)) → ¬ Reads row.now (map string_bytes words.now) number files)
        (λ read. Reads row.now (map string_bytes words.now) read.number (map string_bytes read.files.now)) }
{
    if begins_with(words, option) {
        limited(row, range, words)
    } else {
        with_files(row, otherwise, words)
    }
}

/// The number and the file words behind the word of a row.
fn read_behind<'a>(row: &Row, words: &'a [String]) -> Option<Behind<'a>>
    requires { IsGoodNumber row.now.number }
    ensures { MatchOption result ((number : ℕ) (files : List (List ℕ)) → ¬ Reads row.now (map string_bytes words.now) number files)
        (λ read. Reads row.now (map string_bytes words.now) read.number (map string_bytes read.files.now)) }
{
    match &row.number {
        NumberWord::Absent => absent(row, words),
        NumberWord::Needed { range, .. } => needed(row, *range, words),
        NumberWord::Optional {
            option,
            range,
            otherwise,
        } => optional(row, option.as_slice(), *range, *otherwise, words),
    }
}

/// The words behind that of a command.
fn asked_of<'a>(command: Command, words: &'a [String]) -> Option<Asked<'a>>
    ensures { MatchOption result ((request : Request) (files : List (List ℕ)) → command_of request ≡ command
        → ¬ Reads (row_of command) (map string_bytes words.now) (number_of request) files)
        (λ asked. (command_of asked.request ≡ command)
        × Reads (row_of command) (map string_bytes words.now) (number_of asked.request) (map string_bytes asked.files.now)) }
{
    let behind = read_behind(&command.row(), words)?;
    Some(Asked {
        request: command.request(behind.number),
        files: behind.files,
    })
}

impl<'a> Asked<'a> {
    ghost use Rattle.std.specs.Prelude.{ℕ, List, map, string_bytes, MatchOption};
    ghost use Rattle.class_calls.specs.declared.command_rows.table.Request.{Request};
    ghost use Rattle.class_calls.specs.command_rows.Words.{IsCommand};

    /// What these words ask for, or None where they are no row of the table of commands.
    pub fn from_words(words: &'a [String]) -> Option<Self>
        ensures { MatchOption result
            ((request : Request) (files : List (List ℕ)) → ¬ IsCommand (map string_bytes words.now) request files)
            (λ asked. IsCommand (map string_bytes words.now) asked.request (map string_bytes asked.files.now)) }
    {
        let (word, rest) = words.split_first()?;
        let command = command_named(word.as_str())?;
        asked_of(command, rest)
    }
}
