//! Lines, as they are written.
ghost use Rattle.std.specs.Prelude.{◌≡◌, ◌++◌, map, codes, IfOk, OnOk};
ghost use Rattle.survey.specs.Lines.{given_text, errors_text, exceptions_text, constants_text, words_text};
ghost use Rattle.survey.specs.Lines.{is_name_byte, is_plain, printed, yes_line};
ghost use Rattle.survey.specs.inner.Wording.{head_text, other_line};

use crate::survey_notes::Touched;
use list_views::Seq;
use list_views::fault_words::joined;
use std::alloc::{AllocError, Global};

/// What a line begins with that claims nothing.
#[derive(Clone, Copy, PartialEq, Eq)]
pub(crate) enum Head {
    /// A method whose runs may not end.
    Maybe,
    /// A method, a file or a description that is refused.
    Refused,
    /// A file that is left out.
    LeftOut,
    /// How many methods and files there are of each sort.
    Count,
    /// Advice.
    Why,
}

/// What a line begins with.
fn head_text(head: Head) -> &'static [u8]
    ensures { result.now ≡ head_text head }
{
    match head {
        Head::Maybe => b"MAYBE ",
        Head::Refused => b"REFUSED ",
        Head::LeftOut => b"LEFT OUT ",
        Head::Count => b"COUNT ",
        Head::Why => b"  ",
    }
}

/// A byte as it stands in a line.
fn printed(byte: u8) -> u8
    ensures { result ≡ printed byte }
{
    if byte < 32 || byte == 127 { b'?' } else { byte }
}

/// Puts bytes behind a line as they stand in one.
#[tactic(auto, using(crate::proofs::Walks::printed_more, crate::proofs::Walks::printed_end))]
fn put_printed(line: &mut Seq<u8>, bytes: &[u8]) -> Result<(), AllocError>
    ensures { OnOk result (line.new ≡ line.old ++ map printed bytes.now) }
{
    for byte in bytes {
        line.push(printed(*byte))?;
    }
    Ok(())
}

/// A line that claims nothing, without its newline.
pub(crate) fn other_line(alloc: Global, head: Head, rest: &[u8]) -> Result<Seq<u8>, AllocError>
    ensures { IfOk result (λ line. line ≡ other_line head rest.now) }
{
    let mut line = Seq::from_slice(alloc, head_text(head))?;
    put_printed(&mut line, rest)?;
    Ok(line)
}

fn is_name_byte(byte: u8) -> bool
    ensures { result ≡ is_name_byte byte }
{
    32 < byte && byte != 127
}

/// Whether a name can stand in a line that begins with YES.
pub(crate) fn is_plain(name: &[u8]) -> bool
    ensures { result ≡ is_plain name.now }
{
    name.iter().all(|byte| is_name_byte(*byte))
}

fn given_text(given: bool) -> &'static [u8]
    ensures { result.now ≡ given_text given }
{
    if given { b" described" } else { b"" }
}

fn errors_text(touched: Touched) -> &'static [u8]
    ensures { result.now ≡ errors_text touched }
{
    if touched.errors {
        b" handles-errors"
    } else {
        b""
    }
}

fn exceptions_text(touched: Touched) -> &'static [u8]
    ensures { result.now ≡ exceptions_text touched }
{
    if touched.exceptions {
        b" compares-exceptions"
    } else {
        b""
    }
}

fn constants_text(touched: Touched) -> &'static [u8]
    ensures { result.now ≡ constants_text touched }
{
    if touched.constants {
        b" constant-value"
    } else {
        b""
    }
}

/// A method by its class, its name and its descriptor.
#[derive(Clone, Copy)]
pub(crate) struct MethodWords<'a> {
    /// The name of the class.
    pub(crate) class: &'a [u8],
    /// The method's name.
    pub(crate) name: &'a [u8],
    /// Its descriptor.
    pub(crate) desc: &'a [u8],
}

/// The words behind a method whose every run ends.
fn words_text(alloc: Global, given: bool, touched: Touched) -> Result<Seq<u8>, AllocError>
    ensures { IfOk result (λ text. text ≡ words_text given touched) }
{
    let mut text = Seq::from_slice(alloc, given_text(given))?;
    text.extend_from_slice(errors_text(touched))?;
    text.extend_from_slice(exceptions_text(touched))?;
    text.extend_from_slice(constants_text(touched))?;
    Ok(text)
}

/// A line that says that every run of a method ends, without its newline.
pub(crate) fn yes_line(
    alloc: Global,
    method: &MethodWords<'_>,
    given: bool,
    touched: Touched,
) -> Result<Seq<u8>, AllocError>
    ensures { IfOk result (λ line. line ≡ yes_line method.now.class.now method.now.name.now method.now.desc.now given touched) }
{
    let words = words_text(alloc, given, touched)?;
    let mut line = joined(
        alloc,
        &[b"YES ", method.class, b".", method.name, method.desc],
    )?;
    line.extend_from_slice(words.as_slice())?;
    Ok(line)
}

/// A method as `CLASS.NAMEDESC`.
pub(crate) fn method_text(alloc: Global, method: &MethodWords<'_>) -> Result<Seq<u8>, AllocError> {
    joined(alloc, &[method.class, b".", method.name, method.desc])
}
