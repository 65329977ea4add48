//! What the lines outside methods say.

ghost use Rattle.std.specs.Prelude.{◌≡◌, ◌==◌, IfOk};
ghost use Rattle.std.specs.Str.{bytes_eq};
ghost use Rattle.list_views.specs.Results.{Answers};
ghost use Rattle.asm_lines.specs.Statements.{Gives, next_word, no_more, is_new, number_word, constant_of, constant_line};
ghost use Rattle.asm_lines.specs.Statements.{static_word, make_field, field_line, flag_of, flag_words, sizes_said, size_words};
ghost use Rattle.asm_lines.specs.Statements.{sizes_of, make_method, method_line, hex_word, attribute_line};

use crate::fault::AsmFault;
use crate::number::{Number, hex_bytes, read_number};
use code_forms::class_base::{ABSTRACT, NATIVE, PRIVATE, STATIC, SYNCHRONIZED};
use list_views::Seq;
use std::alloc::{AllocError, Global};

/// The line that begins a listing.
#[derive(Drop)]
pub struct ClassLine {
    /// The class.
    pub name: Seq<u8>,
    /// Its superclass.
    pub super_name: Option<Seq<u8>>,
    /// The interfaces that it implements.
    pub interfaces: Seq<Seq<u8>>,
    /// Whether it is an interface.
    pub is_interface: bool,
    /// Whether it is abstract.
    pub is_abstract: bool,
    /// The major version.
    pub major: Option<Number>,
}

/// An entry of the pool that no instruction needs.
#[derive(Drop)]
pub enum Constant {
    /// A `long`.
    Long(Number),
    /// The bits of a `float`.
    Float(Number),
    /// The bits of a `double`.
    Double(Number),
    /// A string.
    Str(Seq<u8>),
}

/// A field.
#[derive(Drop)]
pub struct FieldLine {
    /// Its name.
    pub name: Seq<u8>,
    /// Its descriptor.
    pub desc: Seq<u8>,
    /// Whether it is static.
    pub is_static: bool,
}

/// The line that begins a method.
#[derive(Drop)]
pub struct MethodLine {
    /// Its name.
    pub name: Seq<u8>,
    /// Its descriptor.
    pub desc: Seq<u8>,
    /// The flags of the words that stand on the line.
    pub flags: u16,
    /// The size of the stack and the number of locals; none where the method is abstract or native.
    pub sizes: Option<(Number, Number)>,
}

/// An attribute.
#[derive(Drop)]
pub struct AttributeLine {
    /// Its name.
    pub name: Seq<u8>,
    /// Its bytes.
    pub content: Seq<u8>,
}

/// The word once more.
pub fn copy(alloc: Global, word: &Seq<u8>) -> Result<Seq<u8>, AllocError>
    ensures { IfOk result (λ w. w ≡ word.now) }
{
    Seq::from_slice(alloc, word.as_slice())
}

/// Whether the word is this text.
pub(crate) fn is(word: &Seq<u8>, text: &[u8]) -> bool
    ensures { result ≡ bytes_eq word.now text.now }
{
    word.as_slice() == text
}

/// The number that the word is.
pub(crate) fn number_word(line: usize, word: &Seq<u8>) -> Result<Number, AsmFault>
    ensures { Answers (λ n. n) result (number_word line word.now) }
{
    match read_number(word.as_slice()) {
        Some(number) => Ok(number),
        None => Err(AsmFault::Syntax { line }),
    }
}

/// The first word, and those behind it.
pub(crate) fn next_word(line: usize, words: &[Seq<u8>]) -> Result<(&Seq<u8>, &[Seq<u8>]), AsmFault>
    ensures { Answers (λ x. (x.0.now, x.1.now)) result (next_word line words.now) }
{
    match words.split_first() {
        Some((word, rest)) => Ok((word, rest)),
        None => Err(AsmFault::Syntax { line }),
    }
}

/// That no word is left over.
pub(crate) fn no_more(line: usize, words: &[Seq<u8>]) -> Result<(), AsmFault>
    ensures { Answers (λ x. x) result (no_more line words.now) }
{
    if words.is_empty() {
        Ok(())
    } else {
        Err(AsmFault::Syntax { line })
    }
}

/// That a word didn't stand before.
pub(crate) fn is_new(line: usize, stands: bool) -> Result<(), AsmFault>
    ensures { Answers (λ x. x) result (is_new line stands) }
{
    if stands {
        Err(AsmFault::Syntax { line })
    } else {
        Ok(())
    }
}

#[tactic(auto, unfolding(crate::specs::Statements::constant_of))]
fn constant_of(
    alloc: Global,
    line: usize,
    kind: &Seq<u8>,
    value: &Seq<u8>,
) -> Result<Constant, AsmFault>
    ensures { Gives (λ x. x) result (constant_of line kind.now value.now) }
{
    if is(kind, b"long") {
        Ok(Constant::Long(number_word(line, value)?))
    } else if is(kind, b"float") {
        Ok(Constant::Float(number_word(line, value)?))
    } else if is(kind, b"double") {
        Ok(Constant::Double(number_word(line, value)?))
    } else if is(kind, b"string") {
        Ok(Constant::Str(copy(alloc, value)?))
    } else {
        Err(AsmFault::Syntax { line })
    }
}

/// The entry that the words behind `constant` say.
#[tactic(auto, unfolding(crate::specs::Statements::constant_line))]
pub(crate) fn constant_line(
    alloc: Global,
    line: usize,
    words: &[Seq<u8>],
) -> Result<Constant, AsmFault>
    ensures { Gives (λ x. x) result (constant_line line words.now) }
{
    let (kind, rest) = next_word(line, words)?;
    let (value, rest) = next_word(line, rest)?;
    no_more(line, rest)?;
    constant_of(alloc, line, kind, value)
}

fn copied_field(
    alloc: Global,
    name: &Seq<u8>,
    desc: &Seq<u8>,
    is_static: bool,
) -> Result<FieldLine, AllocError>
    ensures { IfOk result (λ f. f ≡ make_field name.now desc.now is_static) }
{
    let name = copy(alloc, name)?;
    let desc = copy(alloc, desc)?;
    Ok(FieldLine {
        name,
        desc,
        is_static,
    })
}

/// The field that the words behind `field` say.
#[tactic(auto, unfolding(crate::specs::Statements::field_line))]
pub(crate) fn field_line(
    alloc: Global,
    line: usize,
    words: &[Seq<u8>],
) -> Result<FieldLine, AsmFault>
    ensures { Gives (λ x. x) result (field_line line words.now) }
{
    let (name, rest) = next_word(line, words)?;
    let (desc, rest) = next_word(line, rest)?;
    let is_static = static_word(line, rest)?;
    Ok(copied_field(alloc, name, desc, is_static)?)
}

#[tactic(auto, unfolding(crate::specs::Statements::static_word))]
fn static_word(line: usize, words: &[Seq<u8>]) -> Result<bool, AsmFault>
    ensures { Answers (λ x. x) result (static_word line words.now) }
{
    match words.split_first() {
        None => Ok(false),
        Some((word, rest)) => {
            if !is(word, b"static") {
                return Err(AsmFault::Syntax { line });
            }
            no_more(line, rest)?;
            Ok(true)
        }
    }
}

/// The flag that a word on a method's line stands for.
fn flag_of(word: &Seq<u8>) -> Option<u16>
    ensures { result ≡ flag_of word.now }
{
    if is(word, b"static") {
        Some(STATIC)
    } else if is(word, b"private") {
        Some(PRIVATE)
    } else if is(word, b"abstract") {
        Some(ABSTRACT)
    } else if is(word, b"native") {
        Some(NATIVE)
    } else if is(word, b"synchronized") {
        Some(SYNCHRONIZED)
    } else {
        None
    }
}

/// The flags of the words at the front, each at most once, and the words behind them.
fn flag_words(line: usize, words: &[Seq<u8>]) -> Result<(u16, &[Seq<u8>]), AsmFault>
    ensures { Answers (λ x. (x.0, x.1.now)) result (flag_words line 0 words.now) }
{
    let mut flags = 0;
    let mut rest = words;
    while let Some((word, after)) = rest.split_first() {
        let Some(flag) = flag_of(word) else {
            return Ok((flags, rest));
        };
        if !(flags & flag == 0) {
            return Err(AsmFault::Syntax { line });
        }
        flags |= flag;
        rest = after;
    }
    Ok((flags, rest))
}

/// The numbers, where the two words before them are `stack` and `locals`.
#[tactic(auto, unfolding(crate::specs::Statements::sizes_said))]
fn sizes_said(
    line: usize,
    stack: &Seq<u8>,
    max_stack: &Seq<u8>,
    locals: &Seq<u8>,
    max_locals: &Seq<u8>,
) -> Result<(Number, Number), AsmFault>
    ensures { Answers (λ x. x) result (sizes_said line stack.now max_stack.now locals.now max_locals.now) }
{
    is_new(line, !is(stack, b"stack"))?;
    is_new(line, !is(locals, b"locals"))?;
    let max_stack = number_word(line, max_stack)?;
    let max_locals = number_word(line, max_locals)?;
    Ok((max_stack, max_locals))
}

/// The words `stack N locals N`.
#[tactic(auto, unfolding(crate::specs::Statements::size_words))]
fn size_words(line: usize, words: &[Seq<u8>]) -> Result<(Number, Number), AsmFault>
    ensures { Answers (λ x. x) result (size_words line words.now) }
{
    let (stack, rest) = next_word(line, words)?;
    let (max_stack, rest) = next_word(line, rest)?;
    let (locals, rest) = next_word(line, rest)?;
    let (max_locals, rest) = next_word(line, rest)?;
    no_more(line, rest)?;
    sizes_said(line, stack, max_stack, locals, max_locals)
}

/// The sizes of a method's code; an abstract or native method has none.
#[tactic(auto, unfolding(crate::specs::Statements::sizes_of))]
fn sizes_of(
    line: usize,
    flags: u16,
    words: &[Seq<u8>],
) -> Result<Option<(Number, Number)>, AsmFault>
    ensures { Answers (λ x. x) result (sizes_of line flags words.now) }
{
    if flags & 0x0500 == 0 {
        Ok(Some(size_words(line, words)?))
    } else {
        no_more(line, words)?;
        Ok(None)
    }
}

fn copied_method(
    alloc: Global,
    name: &Seq<u8>,
    desc: &Seq<u8>,
    flags: u16,
    sizes: Option<(Number, Number)>,
) -> Result<MethodLine, AllocError>
    ensures { IfOk result (λ m. m ≡ make_method name.now desc.now flags sizes) }
{
    let name = copy(alloc, name)?;
    let desc = copy(alloc, desc)?;
    Ok(MethodLine {
        name,
        desc,
        flags,
        sizes,
    })
}

/// The method that the words behind `method` say.
#[tactic(auto, unfolding(crate::specs::Statements::method_line))]
pub(crate) fn method_line(
    alloc: Global,
    line: usize,
    words: &[Seq<u8>],
) -> Result<MethodLine, AsmFault>
    ensures { Gives (λ x. x) result (method_line line words.now) }
{
    let (name, rest) = next_word(line, words)?;
    let (desc, rest) = next_word(line, rest)?;
    let (flags, rest) = flag_words(line, rest)?;
    let sizes = sizes_of(line, flags, rest)?;
    Ok(copied_method(alloc, name, desc, flags, sizes)?)
}

fn hex_word(alloc: Global, line: usize, word: &Seq<u8>) -> Result<Seq<u8>, AsmFault>
    ensures { Gives (λ x. x) result (hex_word line word.now) }
{
    match hex_bytes(alloc, word.as_slice())? {
        Some(bytes) => Ok(bytes),
        None => Err(AsmFault::Syntax { line }),
    }
}

/// The attribute that the words behind `attribute` say.
#[tactic(auto, unfolding(crate::specs::Statements::attribute_line))]
pub(crate) fn attribute_line(
    alloc: Global,
    line: usize,
    words: &[Seq<u8>],
) -> Result<AttributeLine, AsmFault>
    ensures { Gives (λ x. x) result (attribute_line line words.now) }
{
    let (name, rest) = next_word(line, words)?;
    let (hex, rest) = next_word(line, rest)?;
    no_more(line, rest)?;
    let content = hex_word(alloc, line, hex)?;
    let name = copy(alloc, name)?;
    Ok(AttributeLine { name, content })
}
