//! What the line that begins a listing says.

ghost use Rattle.std.specs.Prelude.{◌≡◌, IfOk};
ghost use Rattle.list_views.specs.Results.{Answers};
ghost use Rattle.asm_lines.specs.Statements.{Gives};
ghost use Rattle.asm_lines.specs.ClassLines.{plain_class, any_word, class_word, ends_class, class_words, class_line};

use crate::fault::AsmFault;
use crate::statement::{ClassLine, copy, is, is_new, next_word, number_word};
use list_views::Seq;
use std::alloc::{AllocError, Global};

/// What the next word of a class line is.
#[derive(Clone, Copy)]
pub(crate) enum Expected {
    /// A word that stands for itself, or the end.
    Any,
    /// The superclass.
    SuperName,
    /// An interface.
    InterfaceName,
    /// The major version.
    Major,
}

/// Takes in a word that stands for itself.
#[tactic(auto, unfolding(crate::specs::ClassLines::any_word))]
fn any_word(line: usize, class: &mut ClassLine, word: &Seq<u8>) -> Result<Expected, AsmFault>
    ensures { Answers (λ next. (next, class.new)) result (any_word line class.old word.now) }
{
    if is(word, b"extends") {
        is_new(line, class.super_name.is_some())?;
        Ok(Expected::SuperName)
    } else if is(word, b"implements") {
        Ok(Expected::InterfaceName)
    } else if is(word, b"interface") {
        is_new(line, class.is_interface)?;
        class.is_interface = true;
        Ok(Expected::Any)
    } else if is(word, b"abstract") {
        is_new(line, class.is_abstract)?;
        class.is_abstract = true;
        Ok(Expected::Any)
    } else if is(word, b"major") {
        is_new(line, class.major.is_some())?;
        Ok(Expected::Major)
    } else {
        Err(AsmFault::Syntax { line })
    }
}

/// Takes in a word behind the class's name.
#[tactic(auto, unfolding(crate::specs::ClassLines::class_word))]
fn class_word(
    alloc: Global,
    line: usize,
    expected: Expected,
    class: &mut ClassLine,
    word: &Seq<u8>,
) -> Result<Expected, AsmFault>
    ensures { Gives (λ next. (next, class.new)) result (class_word line expected class.old word.now) }
{
    match expected {
        Expected::Any => any_word(line, class, word),
        Expected::SuperName => {
            class.super_name = Some(copy(alloc, word)?);
            Ok(Expected::Any)
        }
        Expected::InterfaceName => {
            class.interfaces.push(copy(alloc, word)?)?;
            Ok(Expected::Any)
        }
        Expected::Major => {
            class.major = Some(number_word(line, word)?);
            Ok(Expected::Any)
        }
    }
}

/// That no word is missing.
fn ends_class(line: usize, expected: Expected, class: &ClassLine) -> Result<(), AsmFault>
    ensures { Answers (λ _. class.now) result (ends_class line expected class.now) }
{
    let _class = class;
    match expected {
        Expected::Any => Ok(()),
        _ => Err(AsmFault::Syntax { line }),
    }
}

/// Takes in what the words behind the class's name say.
fn class_words(
    alloc: Global,
    line: usize,
    class: &mut ClassLine,
    words: &[Seq<u8>],
) -> Result<(), AsmFault>
    ensures { Gives (λ _. class.new) result (class_words line Expected.Any class.old words.now) }
{
    let mut expected = Expected::Any;
    let mut rest = words;
    while let Some((word, after)) = rest.split_first() {
        expected = class_word(alloc, line, expected, class, word)?;
        rest = after;
    }
    ends_class(line, expected, class)
}

fn plain_class(alloc: Global, name: &Seq<u8>) -> Result<ClassLine, AllocError>
    ensures { IfOk result (λ c. c ≡ plain_class name.now) }
{
    Ok(ClassLine {
        name: copy(alloc, name)?,
        super_name: None,
        interfaces: Seq::new(alloc),
        is_interface: false,
        is_abstract: false,
        major: None,
    })
}

/// The class that the words behind `class` say.
#[tactic(auto, unfolding(crate::specs::ClassLines::class_line))]
pub(crate) fn class_line(
    alloc: Global,
    line: usize,
    words: &[Seq<u8>],
) -> Result<ClassLine, AsmFault>
    ensures { Gives (λ x. x) result (class_line line words.now) }
{
    let (name, rest) = next_word(line, words)?;
    let mut class = plain_class(alloc, name)?;
    class_words(alloc, line, &mut class, rest)?;
    Ok(class)
}
