//! A listing's lines, sorted by what they are part of.

ghost use Rattle.std.specs.Prelude.{◌≡◌, ◌+◌, ◌<◌, ◌^◌, [], length, map, drop, None, IfOk, OnOk, option_map, is_some, ◌-◌, ◌==◌};
ghost use Rattle.std.specs.Prelude.{if◌then◌else◌};
ghost use Rattle.std.specs.Option.{option_map_or};
ghost use Rattle.asm_lines.specs.Statements.{Gives};
ghost use Rattle.asm_lines.specs.Listings.{is_skipped, outside_of, make_method, with_method, with_outside, labelled, is_end};
ghost use Rattle.asm_lines.specs.Listings.{read_item, item_in, with_said, code_line, with_code, plain_outside, outside_line};
ghost use Rattle.asm_lines.specs.Listings.{method_of_line, with_line, with_lines, no_lines, ended, class_said, first_line};
ghost use Rattle.asm_lines.specs.Listings.{lines_said, listing_of};

use crate::class_line::class_line;
use crate::fault::AsmFault;
use crate::first::First;
use crate::item::{Item, item_of, label_of};
use crate::lines_and_words::{is_plain, lines, words};
use crate::operation::Names;
use crate::statement::{
    AttributeLine, ClassLine, Constant, FieldLine, MethodLine, attribute_line, constant_line,
    field_line, is, method_line,
};
use list_views::Seq;
use std::alloc::{AllocError, Global};

/// A line of a method.
#[derive(Drop)]
pub struct CodeLine {
    /// The line's number.
    pub line: usize,
    /// The label that stands first.
    pub label: Option<Seq<u8>>,
    /// What stands behind it; nothing where that is none.
    pub item: Item,
    /// Whether the first word behind the label is `end`, which ends the method.
    pub ends: bool,
}

/// A method with its lines.
#[derive(Drop)]
pub struct MethodLines {
    /// The number of its first line.
    pub line: usize,
    /// What the first line says.
    pub head: MethodLine,
    /// The lines behind it, up to the end.
    pub lines: Seq<CodeLine>,
}

/// What a line outside methods says.
#[derive(Drop)]
pub enum Outside {
    /// An entry that no instruction needs.
    Constant(Constant),
    /// A field.
    Field(FieldLine),
    /// An attribute of the class.
    Attribute(AttributeLine),
    /// A method's begin.
    Method(MethodLine),
}

/// All lines of a listing behind the first.
#[derive(Drop)]
pub struct Listing {
    /// The entries that no instruction needs.
    pub constants: Seq<(usize, Constant)>,
    /// The fields.
    pub fields: Seq<(usize, FieldLine)>,
    /// The methods that are ended, and those without code.
    pub methods: Seq<MethodLines>,
    /// The attributes of the class.
    pub attributes: Seq<(usize, AttributeLine)>,
    /// The method that isn't ended yet.
    pub unended: Option<MethodLines>,
    /// The first fault of a line.
    pub first: First,
}

/// Whether the line says nothing.
pub(crate) fn is_skipped(words: &[Seq<u8>]) -> bool
    ensures { result ≡ is_skipped words.now }
{
    match words.split_first() {
        None => true,
        Some((first, _)) => is(first, b"#"),
    }
}

/// What a line outside methods says.
#[tactic(auto, unfolding(crate::specs::Listings::outside_of))]
fn outside_of(alloc: Global, line: usize, words: &[Seq<u8>]) -> Result<Outside, AsmFault>
    ensures { Gives (λ x. x) result (outside_of line words.now) }
{
    let Some((word, rest)) = words.split_first() else {
        return Err(AsmFault::Syntax { line });
    };
    if is(word, b"constant") {
        Ok(Outside::Constant(constant_line(alloc, line, rest)?))
    } else if is(word, b"field") {
        Ok(Outside::Field(field_line(alloc, line, rest)?))
    } else if is(word, b"attribute") {
        Ok(Outside::Attribute(attribute_line(alloc, line, rest)?))
    } else if is(word, b"method") {
        Ok(Outside::Method(method_line(alloc, line, rest)?))
    } else {
        Err(AsmFault::Syntax { line })
    }
}

/// Takes in the line that begins a method.
fn with_method(
    alloc: Global,
    listing: &mut Listing,
    line: usize,
    head: MethodLine,
) -> Result<(), AllocError>
    ensures { OnOk result (listing.new ≡ with_method listing.old (make_method line head [])) }
{
    let has_code = head.sizes.is_some();
    let lines = Seq::new(alloc);
    let method = MethodLines { line, head, lines };
    if has_code {
        listing.unended = Some(method);
        Ok(())
    } else {
        Ok(listing.methods.push(method)?)
    }
}

/// Takes in one more line outside methods.
fn with_outside(
    alloc: Global,
    listing: &mut Listing,
    line: usize,
    said: Outside,
) -> Result<(), AllocError>
    ensures { OnOk result (listing.new ≡ with_outside listing.old line said) }
{
    match said {
        Outside::Constant(constant) => Ok(listing.constants.push((line, constant))?),
        Outside::Field(field) => Ok(listing.fields.push((line, field))?),
        Outside::Attribute(attribute) => Ok(listing.attributes.push((line, attribute))?),
        Outside::Method(head) => with_method(alloc, listing, line, head),
    }
}

/// The label that stands first, and the words behind it.
fn labelled(words: &[Seq<u8>]) -> (Option<&[u8]>, &[Seq<u8>])
    ensures { labelled words.now ≡ (option_map (λ l. l.now) result.0, result.1.now) }
{
    match words.split_first() {
        None => (None, words),
        Some((word, rest)) => match label_of(word.as_slice()) {
            Some(label) => (Some(label), rest),
            None => (None, words),
        },
    }
}

fn is_end(words: &[Seq<u8>]) -> bool
    ensures { result ≡ is_end words.now }
{
    match words.split_first() {
        None => false,
        Some((word, _)) => is(word, b"end"),
    }
}

fn read_item(
    alloc: Global,
    names: &Names,
    line: usize,
    is_plain: bool,
    labelled: bool,
    words: &[Seq<u8>],
) -> Result<Item, AsmFault>
    ensures { Gives (λ x. x) result (read_item names.now line is_plain labelled words.now) }
{
    if is_plain {
        item_of(alloc, names, line, labelled, words)
    } else {
        Err(AsmFault::Syntax { line })
    }
}

/// Takes in a line outside methods, or its fault.
#[tactic(auto, using(crate::proofs::Outcomes::fails_is))]
fn outside_line(
    alloc: Global,
    listing: &mut Listing,
    line: usize,
    is_plain: bool,
    words: &[Seq<u8>],
) -> Result<(), AllocError>
    ensures { OnOk result (listing.new ≡ outside_line listing.old line (plain_outside line is_plain words.now)) }
{
    if !is_plain {
        listing.first.add(AsmFault::Syntax { line });
        return Ok(());
    }
    match outside_of(alloc, line, words) {
        Ok(said) => with_outside(alloc, listing, line, said),
        Err(AsmFault::Memory) => Err(AllocError),
        Err(fault) => {
            listing.first.add(fault);
            Ok(())
        }
    }
}

fn copied(alloc: Global, label: Option<&[u8]>) -> Result<Option<Seq<u8>>, AllocError>
    ensures { IfOk result (λ l. l ≡ option_map (λ x. x.now) label.entry) }
{
    match label {
        None => Ok(None),
        Some(label) => Ok(Some(Seq::from_slice(alloc, label)?)),
    }
}

/// Takes in one more line of the method that isn't ended.
fn with_code(listing: &mut Listing, method: MethodLines, code: CodeLine) -> Result<(), AllocError>
    ensures { OnOk result (listing.new ≡ with_code listing.old method code) }
{
    let mut method = method;
    let ends = code.ends;
    method.lines.push(code)?;
    if ends {
        listing.unended = None;
        Ok(listing.methods.push(method)?)
    } else {
        listing.unended = Some(method);
        Ok(())
    }
}

/// What a line of a method says behind its label; a faulty line says nothing, and its fault is taken in.
#[tactic(auto, using(crate::proofs::Outcomes::fails_is))]
fn with_said(
    alloc: Global,
    names: &Names,
    listing: &mut Listing,
    line: usize,
    is_plain: bool,
    has_label: bool,
    words: &[Seq<u8>],
) -> Result<Item, AllocError>
    ensures { IfOk result (λ item. (listing.new ≡ with_said listing.old (read_item names.now line is_plain has_label words.now))
        × (item ≡ item_in (read_item names.now line is_plain has_label words.now))) }
{
    match read_item(alloc, names, line, is_plain, has_label, words) {
        Ok(item) => Ok(item),
        Err(AsmFault::Memory) => Err(AllocError),
        Err(fault) => {
            listing.first.add(fault);
            Ok(Item::Nothing)
        }
    }
}

/// A line of a method: of a faulty one the label, and whether it ends the method.
fn code_line(
    alloc: Global,
    names: &Names,
    listing: &mut Listing,
    line: usize,
    is_plain: bool,
    words: &[Seq<u8>],
) -> Result<CodeLine, AllocError>
    ensures { IfOk result (λ code.
        (listing.new ≡ with_said listing.old (read_item names.now line is_plain (is_some (labelled words.now).0) (labelled words.now).1))
        × (code ≡ code_line line (labelled words.now)
        (read_item names.now line is_plain (is_some (labelled words.now).0) (labelled words.now).1))) }
{
    let (label, rest) = labelled(words);
    let ends = is_end(rest);
    let has_label = label.is_some();
    let label = copied(alloc, label)?;
    let item = with_said(alloc, names, listing, line, is_plain, has_label, rest)?;
    Ok(CodeLine {
        line,
        label,
        item,
        ends,
    })
}

/// Takes in one more line, where a method isn't ended.
fn method_of_line(
    alloc: Global,
    names: &Names,
    listing: &mut Listing,
    method: MethodLines,
    line: usize,
    is_plain: bool,
    words: &[Seq<u8>],
) -> Result<(), AllocError>
    ensures { OnOk result (listing.new ≡ method_of_line names.now listing.old method line is_plain (labelled words.now)) }
{
    let code = code_line(alloc, names, listing, line, is_plain, words)?;
    with_code(listing, method, code)
}

/// Takes in the words of one more line that says something.
fn with_words(
    alloc: Global,
    names: &Names,
    line: usize,
    is_plain: bool,
    words: &[Seq<u8>],
    listing: &mut Listing,
) -> Result<(), AllocError>
    ensures { OnOk result
        (listing.new ≡ option_map_or (λ method. method_of_line names.now (record listing.old { unended = None }) method line
        is_plain (labelled words.now)) listing.old.unended (outside_line listing.old line (plain_outside line is_plain words.now))) }
{
    match listing.unended.take() {
        None => outside_line(alloc, listing, line, is_plain, words),
        Some(method) => method_of_line(alloc, names, listing, method, line, is_plain, words),
    }
}

/// Takes in one more line.
fn with_line(
    alloc: Global,
    names: &Names,
    line: usize,
    text: &[u8],
    listing: &mut Listing,
) -> Result<(), AllocError>
    ensures { OnOk result (listing.new ≡ with_line names.now line text.now listing.old) }
{
    let words = words(alloc, text)?;
    let is_plain = is_plain(text);
    if is_plain && is_skipped(words.as_slice()) {
        Ok(())
    } else {
        with_words(alloc, names, line, is_plain, words.as_slice(), listing)
    }
}

/// Takes in more lines, the first of which has the number `line`.
fn with_lines(
    alloc: Global,
    names: &Names,
    line: usize,
    texts: &[&[u8]],
    listing: &mut Listing,
) -> Result<(), AllocError>
    requires { line + length texts.now < 2 ^ 64 }
    ensures { OnOk result (listing.new ≡ with_lines names.now line (map (λ t. t.now) texts.now) listing.old) }
{
    let mut line = line;
    for text in texts {
        with_line(alloc, names, line, text, listing)?;
        line += 1;
    }
    Ok(())
}

/// A listing's lines behind the first.
fn no_lines(alloc: Global) -> Listing
    ensures { result ≡ no_lines }
{
    Listing {
        constants: Seq::new(alloc),
        fields: Seq::new(alloc),
        methods: Seq::new(alloc),
        attributes: Seq::new(alloc),
        unended: None,
        first: First::none(),
    }
}

/// Ends the listing behind the last line, whose number is `last`.
fn ended(listing: &mut Listing, last: usize) -> Result<(), AllocError>
    ensures { OnOk result (listing.new ≡ ended listing.old last) }
{
    match listing.unended.take() {
        None => Ok(()),
        Some(method) => {
            listing.first.add(AsmFault::NoEnd { line: last });
            Ok(listing.methods.push(method)?)
        }
    }
}

/// Takes in all lines, the first of which has the number `line` and the last the number `last`.
fn with_all(
    alloc: Global,
    names: &Names,
    line: usize,
    texts: &[&[u8]],
    last: usize,
    listing: &mut Listing,
) -> Result<(), AllocError>
    requires { line + length texts.now < 2 ^ 64 }
    ensures { OnOk result (listing.new ≡ ended (with_lines names.now line (map (λ t. t.now) texts.now) listing.old) last) }
{
    with_lines(alloc, names, line, texts, listing)?;
    ended(listing, last)
}

/// The listing that lines say, of which the first has the number `line` and the last the number `last`.
fn lines_listed(
    alloc: Global,
    names: &Names,
    line: usize,
    texts: &[&[u8]],
    last: usize,
) -> Result<Listing, AllocError>
    requires { line + length texts.now < 2 ^ 64 }
    ensures { IfOk result (λ l. l ≡ ended (with_lines names.now line (map (λ t. t.now) texts.now) no_lines) last) }
{
    let mut listing = no_lines(alloc);
    with_all(alloc, names, line, texts, last, &mut listing)?;
    Ok(listing)
}

/// The class that the first line with words says.
#[tactic(auto, unfolding(crate::specs::Listings::class_said))]
fn class_said(alloc: Global, line: usize, words: &[Seq<u8>]) -> Result<ClassLine, AsmFault>
    ensures { Gives (λ x. x) result (class_said line words.now) }
{
    let Some((word, rest)) = words.split_first() else {
        return Err(AsmFault::Syntax { line });
    };
    if is(word, b"class") {
        class_line(alloc, line, rest)
    } else {
        Err(AsmFault::Syntax { line })
    }
}

/// The number of a listing's last line, where `line` is the number behind it.
fn last_before(line: usize) -> usize
    requires { 0 < line }
    ensures { result ≡ (if line == 1 then 1 else line - 1) }
{
    if line == 1 { 1 } else { line - 1 }
}

/// The first line that isn't skipped: its number and what it says.
fn first_line(alloc: Global, texts: &[&[u8]]) -> Result<(usize, ClassLine), AsmFault>
    requires { length texts.now < 2 ^ 63 }
    ensures { Gives (λ x. x) result (first_line 1 (map (λ t. t.now) texts.now)) }
{
    let mut line = 1;
    for text in texts {
        if !is_plain(text) {
            return Err(AsmFault::Syntax { line });
        }
        let words = words(alloc, text)?;
        if !is_skipped(words.as_slice()) {
            let class = class_said(alloc, line, words.as_slice())?;
            return Ok((line, class));
        }
        line += 1;
    }
    Err(AsmFault::Syntax {
        line: last_before(line),
    })
}

/// What stands behind the first `count`.
#[tactic(auto, using(crate::proofs::Divided::behind_is))]
fn behind<'a>(lines: &'a [&'a [u8]], count: usize) -> &'a [&'a [u8]]
    ensures { map (λ t. t.now) result.now ≡ drop count (map (λ t. t.now) lines.now) }
{
    let (_, rest) = lines.split_at(count.min(lines.len()));
    rest
}

/// The listing that the lines behind the first `line` say.
fn listing_behind(
    alloc: Global,
    names: &Names,
    line: usize,
    lines: &[&[u8]],
) -> Result<Listing, AllocError>
    requires { length lines.now < 2 ^ 62 }
    ensures { IfOk result (λ l. l ≡ ended (with_lines names.now (line + 1) (drop line (map (λ t. t.now) lines.now)) no_lines)
        (length (map (λ t. t.now) lines.now))) }
{
    if line >= 0x4000_0000_0000_0000 {
        return Err(AllocError);
    }
    let rest = behind(lines, line);
    lines_listed(alloc, names, line + 1, rest, lines.len())
}

/// What lines say: the line that begins the listing, its number, and all lines behind it.
fn lines_said(
    alloc: Global,
    names: &Names,
    lines: &[&[u8]],
) -> Result<(usize, ClassLine, Listing), AsmFault>
    ensures { Gives (λ x. x) result (lines_said names.now (map (λ t. t.now) lines.now)) }
{
    if lines.len() >= 0x4000_0000_0000_0000 {
        return Err(AsmFault::Memory);
    }
    let (line, class) = first_line(alloc, lines)?;
    let listing = listing_behind(alloc, names, line, lines)?;
    Ok((line, class, listing))
}

/// The line that begins the listing, its number, and all lines behind it. A text of 2^62 lines and more, which no memory
/// holds, is answered by want of memory.
#[tactic(auto, unfolding(crate::specs::Listings::listing_of))]
pub fn read_listing(alloc: Global, text: &[u8]) -> Result<(usize, ClassLine, Listing), AsmFault>
    ensures { Gives (λ x. x) result (listing_of text.now) }
{
    let names = Names::new(alloc)?;
    let lines = lines(alloc, text)?;
    lines_said(alloc, &names, lines.as_slice())
}
