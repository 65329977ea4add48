//! Texts of rules, read line by line.
ghost use Rattle.std.specs.Prelude.{◌≡◌, ◌+◌, ◌≤◌, ◌<◌, ◌^◌, length, [], Some, None, IfOk, OnOk, if◌then◌else◌};
ghost use Rattle.std.specs.List.{list_all};
ghost use Rattle.std.specs.Str.{bytes_eq};
ghost use Rattle.its_front.specs.Faults.{Gives};
ghost use Rattle.its_front.specs.Names.{added};
ghost use Rattle.its_front.specs.Reading.{unread, is_begun, is_whole, opened, closed, longer, vars_line, rule_line, said_row};
ghost use Rattle.its_front.specs.Reading.{row_in, row_line, end_line, skipped_line, is_low, is_skipped, said_line, with_line};
ghost use Rattle.its_front.specs.Reading.{with_lines, system_of, lines_said, rules_of};
ghost use Rattle.its_front.specs.Systems.{IsSystem};

use crate::fault::ItsFault;
use crate::names::Names;
use crate::rows::row_of;
use crate::rules::rule_of;
use crate::text_lines::{lines, words};
use crate::words::{are_names, row_words, two_names};
use descent::{PathRule, RowKind, WRow};
use list_views::{Bytes, Seq};
use std::alloc::{AllocError, AllocFailed, Global};

/// The most variables of a system.
const MOST_VARIABLES: usize = 256;

/// The most rules of a system.
const MOST_RULES: usize = 4096;

/// The most rows of a system, over all rules.
const MOST_ROWS: u32 = 65536;

/// A system of integer transition rules.
#[derive(Drop)]
pub struct Its {
    /// The names of the variables.
    pub vars: Seq<Seq<u8>>,
    /// The names of the locations, by their first appearance.
    pub places: Seq<Seq<u8>>,
    /// The rules. Their cuts are the numbers of locations. With n variables a rule has 2 n of its own: variable i of the system has
    /// number i before the rule, and n + i after it.
    pub rules: Seq<PathRule>,
}

/// A rule that isn't ended.
#[derive(Drop)]
pub(crate) struct OpenRule {
    pub(crate) from: u32,
    pub(crate) to: u32,
    pub(crate) rows: Seq<WRow>,
}

/// What is read so far: the rules that are ended, how many rows there are, and the rule that isn't ended.
#[derive(Drop)]
pub(crate) struct Reading<'a> {
    pub(crate) vars: Names<'a>,
    pub(crate) places: Names<'a>,
    pub(crate) rules: Seq<PathRule>,
    pub(crate) rows: u32,
    pub(crate) unended: Option<OpenRule>,
}

/// Nothing.
fn unread<'a>(alloc: Global) -> Reading<'a>
    ensures { result ≡ unread }
{
    Reading {
        vars: Names::new(alloc),
        places: Names::new(alloc),
        rules: Seq::new(alloc),
        rows: 0,
        unended: None,
    }
}

/// Whether the variables are named.
fn is_begun(reading: &Reading<'_>) -> bool
    ensures { result ≡ is_begun reading.now }
{
    reading.vars.len() > 0
}

/// Whether a text may end here.
fn is_whole(reading: &Reading<'_>) -> bool
    ensures { result ≡ is_whole reading.now }
{
    is_begun(reading) && !reading.unended.is_some()
}

/// Puts names behind others; false where one stands twice.
fn added<'a>(names: &mut Names<'a>, words: &[Bytes<'a>]) -> Result<bool, AllocError>
    ensures { IfOk result (λ all. added names.old words.now ≡ (if all then Some names.new else None)) }
{
    for word in words {
        if !names.add(word.as_slice())? {
            return Ok(false);
        }
    }
    Ok(true)
}

/// Takes in `vars NAME..`.
#[tactic(auto, unfolding(crate::specs::Reading::vars_line))]
fn vars_line<'a>(
    reading: &mut Reading<'a>,
    line: usize,
    words: &[Bytes<'a>],
) -> Result<(), ItsFault>
    ensures { Gives (λ _. reading.new) result (vars_line reading.old line words.now) }
{
    if is_begun(reading) || !are_names(words) {
        return Err(ItsFault::Syntax { line });
    }
    if !added(&mut reading.vars, words)? {
        return Err(ItsFault::DuplicateVariable { line });
    }
    if reading.vars.len() > MOST_VARIABLES {
        return Err(ItsFault::Limit { line });
    }
    Ok(())
}

/// Opens a rule between two locations.
fn open_rule<'a>(
    alloc: Global,
    reading: &mut Reading<'a>,
    from: &'a [u8],
    to: &'a [u8],
) -> Result<(), AllocError>
    ensures { OnOk result (reading.new ≡ opened reading.old (from.now, to.now)) }
{
    let from = reading.places.enter(from)?;
    let to = reading.places.enter(to)?;
    let rows = Seq::new(alloc);
    reading.unended = Some(OpenRule { from, to, rows });
    Ok(())
}

/// Takes in `rule FROM TO`.
#[tactic(auto, unfolding(crate::specs::Reading::rule_line))]
fn rule_line<'a>(
    alloc: Global,
    reading: &mut Reading<'a>,
    is_last: bool,
    line: usize,
    words: &[Bytes<'a>],
) -> Result<(), ItsFault>
    ensures { Gives (λ _. reading.new) result (rule_line reading.old is_last line words.now) }
{
    if !is_whole(reading) || is_last {
        return Err(ItsFault::Syntax { line });
    }
    let Some((from, to)) = two_names(words) else {
        return Err(ItsFault::Syntax { line });
    };
    if reading.rules.len() >= MOST_RULES {
        return Err(ItsFault::Limit { line });
    }
    open_rule(alloc, reading, from.as_slice(), to.as_slice())?;
    Ok(())
}

/// The row that the words of a line say over variables that are named.
#[tactic(auto, unfolding(crate::specs::Reading::said_row))]
fn said_row(
    alloc: Global,
    vars: &Names<'_>,
    line: usize,
    kind: RowKind,
    words: &[Bytes<'_>],
) -> Result<WRow, ItsFault>
    requires { length vars.now ≤ 256 }
    ensures { Gives (λ row. row) result (said_row vars.now line kind words.now) }
{
    let Some((constant, terms)) = row_words(alloc, words)? else {
        return Err(ItsFault::Syntax { line });
    };
    row_of(alloc, vars, line, kind, constant, terms.as_slice())
}

/// Takes in a row of a rule.
#[tactic(auto, unfolding(crate::specs::Reading::row_in))]
fn row_in(
    alloc: Global,
    reading: &mut Reading<'_>,
    unended: OpenRule,
    line: usize,
    kind: RowKind,
    words: &[Bytes<'_>],
) -> Result<(), ItsFault>
    requires { length reading.old.vars ≤ 256 }
    ensures { Gives (λ _. reading.new) result (row_in reading.old unended line kind words.now) }
{
    let row = said_row(alloc, &reading.vars, line, kind, words)?;
    if reading.rows >= MOST_ROWS {
        return Err(ItsFault::Limit { line });
    }
    let mut unended = unended;
    unended.rows.push(row)?;
    reading.rows += 1;
    reading.unended = Some(unended);
    Ok(())
}

/// Takes in `geq K C NAME ..` or `eq K C NAME ..`.
#[tactic(auto, unfolding(crate::specs::Reading::row_line, crate::specs::Reading::row_in))]
fn row_line(
    alloc: Global,
    reading: &mut Reading<'_>,
    is_last: bool,
    line: usize,
    kind: RowKind,
    words: &[Bytes<'_>],
) -> Result<(), ItsFault>
    requires { length reading.old.vars ≤ 256 }
    ensures { Gives (λ _. reading.new) result (row_line reading.old is_last line kind words.now) }
{
    let Some(unended) = reading.unended.take() else {
        return Err(ItsFault::Syntax { line });
    };
    if is_last {
        return Err(ItsFault::Syntax { line });
    }
    row_in(alloc, reading, unended, line, kind, words)
}

/// Ends a rule.
fn close_rule(alloc: Global, reading: &mut Reading<'_>, unended: OpenRule) -> Result<(), AllocError>
    requires { length reading.old.vars ≤ 256 }
    ensures { OnOk result (reading.new ≡ closed reading.old unended) }
{
    let rule = rule_of(alloc, reading.vars.len() as u32, unended)?;
    reading.rules.push(rule)?;
    reading.unended = None;
    Ok(())
}

/// Takes in `end`.
#[tactic(auto, unfolding(crate::specs::Reading::end_line))]
fn end_line(
    alloc: Global,
    reading: &mut Reading<'_>,
    line: usize,
    words: &[Bytes<'_>],
) -> Result<(), ItsFault>
    requires { length reading.old.vars ≤ 256 }
    ensures { Gives (λ _. reading.new) result (end_line reading.old line words.now) }
{
    let Some(unended) = reading.unended.take() else {
        return Err(ItsFault::Syntax { line });
    };
    if !words.is_empty() {
        return Err(ItsFault::Syntax { line });
    }
    close_rule(alloc, reading, unended)?;
    Ok(())
}

/// Takes in a line that says nothing.
fn skipped_line(reading: &Reading<'_>, is_last: bool, line: usize) -> Result<(), ItsFault>
    ensures { Gives (λ _. reading.now) result (skipped_line reading.now is_last line) }
{
    if is_last && !is_whole(reading) {
        return Err(ItsFault::Syntax { line });
    }
    Ok(())
}

fn is(word: &Bytes<'_>, text: &[u8]) -> bool
    ensures { result ≡ bytes_eq word.now text.now }
{
    word.as_slice() == text
}

fn are_low(text: &[u8]) -> bool
    ensures { result ≡ list_all is_low text.now }
{
    text.iter().all(|b| *b <= 127)
}

/// Whether a line says nothing.
fn is_skipped(text: &[u8], words: &[Bytes<'_>]) -> bool
    ensures { result ≡ is_skipped text.now words.now }
{
    match words.split_first() {
        None => true,
        Some((word, _)) => is(word, b"#") && are_low(text),
    }
}

/// Takes in the words of a line that says something.
#[tactic(auto, unfolding(crate::specs::Reading::said_line))]
fn said_line<'a>(
    alloc: Global,
    reading: &mut Reading<'a>,
    is_last: bool,
    line: usize,
    words: &[Bytes<'a>],
) -> Result<(), ItsFault>
    requires { length reading.old.vars ≤ 256 }
    ensures { Gives (λ _. reading.new) result (said_line reading.old is_last line words.now) }
{
    let Some((word, words)) = words.split_first() else {
        return Err(ItsFault::Syntax { line });
    };
    if is(word, b"vars") {
        vars_line(reading, line, words)
    } else if is(word, b"rule") {
        rule_line(alloc, reading, is_last, line, words)
    } else if is(word, b"geq") {
        row_line(alloc, reading, is_last, line, RowKind::AtLeastZero, words)
    } else if is(word, b"eq") {
        row_line(alloc, reading, is_last, line, RowKind::IsZero, words)
    } else if is(word, b"end") {
        end_line(alloc, reading, line, words)
    } else {
        Err(ItsFault::Syntax { line })
    }
}

/// Takes in a line.
fn with_line<'a>(
    alloc: Global,
    reading: &mut Reading<'a>,
    is_last: bool,
    line: usize,
    text: &Bytes<'a>,
) -> Result<(), ItsFault>
    requires { length reading.old.vars ≤ 256 }
    ensures { Gives (λ _. reading.new) result (with_line reading.old is_last line text.now) }
{
    let text = text.as_slice();
    let words = words(alloc, text)?;
    let words = words.as_slice();
    if is_skipped(text, words) {
        skipped_line(reading, is_last, line)
    } else {
        said_line(alloc, reading, is_last, line, words)
    }
}

/// Takes in lines, the first of which has number 1.
#[tactic(auto, using(crate::proofs::Sound::goes_on, crate::proofs::Sound::stops, crate::proofs::Sound::unread_is, crate::proofs::Sound::line_read))]
fn with_lines<'a>(alloc: Global, texts: &[Bytes<'a>]) -> Result<Reading<'a>, ItsFault>
    requires { length texts.now < 2 ^ 62 }
    ensures { Gives (λ reading. reading) result (with_lines (length texts.now) 1 unread texts.now) }
{
    let mut reading = unread(alloc);
    let mut line = 1;
    for text in texts {
        with_line(alloc, &mut reading, line == texts.len(), line, text)?;
        line += 1;
    }
    Ok(reading)
}

/// The system that is read.
fn system_of(alloc: Global, reading: Reading<'_>) -> Result<Its, AllocError>
    ensures { IfOk result (λ its. its ≡ system_of reading.entry) }
{
    Ok(Its {
        vars: reading.vars.copied(alloc)?,
        places: reading.places.copied(alloc)?,
        rules: reading.rules,
    })
}

/// The system that lines say.
fn lines_said(alloc: Global, texts: &[Bytes<'_>]) -> Result<Its, ItsFault>
    ensures { Gives (λ its. its) result (lines_said texts.now) }
{
    if texts.is_empty() {
        return Err(ItsFault::Syntax { line: 1 });
    }
    if texts.len() >= 0x4000_0000_0000_0000 {
        return Err(ItsFault::Memory);
    }
    let reading = with_lines(alloc, texts)?;
    Ok(system_of(alloc, reading)?)
}

/// The system of rules that a text says.
///
/// # Errors
///
/// The first line that breaks a rule, and of several faults on it the one that stands first in [`ItsFault`]; or want of memory, which
/// also answers a text of 2^62 lines and more, which no memory holds.
#[tactic(auto, using(crate::proofs::Sound::systems))]
pub fn read_rules(alloc: Global, text: &[u8]) -> Result<Its, ItsFault>
    ensures answer { Gives (λ its. its) result (rules_of text.now) }
    ensures system { IfOk result IsSystem }
{
    let lines = lines(alloc, text)?;
    lines_said(alloc, lines.as_slice())
}
