//! What the lines of a method say.

ghost use Rattle.std.specs.Prelude.{◌≡◌, option_map, IfOk};
ghost use Rattle.asm_lines.specs.Statements.{Gives};
ghost use Rattle.asm_lines.specs.Items.{label_of, make_catch, caught, catch_line, operation_of, plain_item, end_item, catch_item};
ghost use Rattle.asm_lines.specs.Items.{attribute_item, item_of};

use crate::fault::AsmFault;
use crate::operation::{Names, Operation, operands, template};
use crate::statement::{AttributeLine, attribute_line, copy, is, is_new, next_word, no_more};
use list_views::Seq;
use std::alloc::{AllocError, Global};

/// An entry of an exception table as it is written.
#[derive(Drop)]
pub struct CatchLine {
    /// The class that is caught; none for `any`.
    pub class: Option<Seq<u8>>,
    /// The label where the range begins.
    pub from: Seq<u8>,
    /// The label where the range ends.
    pub to: Seq<u8>,
    /// The label of the handler.
    pub handler: Seq<u8>,
}

/// What a line of a method says behind its label.
#[derive(Drop)]
pub enum Item {
    /// Nothing.
    Nothing,
    /// An instruction.
    Insn(Operation),
    /// An entry of the exception table.
    Catch(CatchLine),
    /// An attribute of the code.
    Attribute(AttributeLine),
    /// The method's end.
    End,
}

/// The label that the word names a place by.
pub(crate) fn label_of(word: &[u8]) -> Option<&[u8]>
    ensures { option_map (λ l. l.now) result ≡ label_of word.now }
{
    let len = word.len();
    if len < 2 {
        return None;
    }
    if word[len - 1] != b':' {
        return None;
    }
    let (label, _) = word.split_at(len - 1);
    Some(label)
}

fn caught(alloc: Global, class: &Seq<u8>) -> Result<Option<Seq<u8>>, AllocError>
    ensures { IfOk result (λ c. c ≡ caught class.now) }
{
    if is(class, b"any") {
        Ok(None)
    } else {
        Ok(Some(copy(alloc, class)?))
    }
}

/// The entry of an exception table that the words say.
fn copied_catch(
    alloc: Global,
    class: &Seq<u8>,
    from: &Seq<u8>,
    to: &Seq<u8>,
    handler: &Seq<u8>,
) -> Result<CatchLine, AllocError>
    ensures { IfOk result (λ c. c ≡ make_catch (caught class.now) from.now to.now handler.now) }
{
    let class = caught(alloc, class)?;
    let from = copy(alloc, from)?;
    let to = copy(alloc, to)?;
    let handler = copy(alloc, handler)?;
    Ok(CatchLine {
        class,
        from,
        to,
        handler,
    })
}

#[tactic(auto, unfolding(crate::specs::Items::catch_line))]
fn catch_line(alloc: Global, line: usize, words: &[Seq<u8>]) -> Result<CatchLine, AsmFault>
    ensures { Gives (λ x. x) result (catch_line line words.now) }
{
    let (class, rest) = next_word(line, words)?;
    let (from, rest) = next_word(line, rest)?;
    let (to, rest) = next_word(line, rest)?;
    let (handler, rest) = next_word(line, rest)?;
    no_more(line, rest)?;
    Ok(copied_catch(alloc, class, from, to, handler)?)
}

#[tactic(auto, unfolding(crate::specs::Items::operation_of))]
fn operation_of(
    alloc: Global,
    names: &Names,
    line: usize,
    word: &Seq<u8>,
    words: &[Seq<u8>],
) -> Result<Operation, AsmFault>
    ensures { Gives (λ x. x) result (operation_of names.now line word.now words.now) }
{
    let Some(op) = names.opcode(word.as_slice()) else {
        return Err(AsmFault::UnknownOpcode { line });
    };
    let Some(insn) = template(alloc, op) else {
        return Err(AsmFault::UnknownOpcode { line });
    };
    operands(alloc, line, &insn, words)
}

/// What a line says that begins neither with `end` nor with `catch` nor with `attribute`.
#[tactic(auto, unfolding(crate::specs::Items::plain_item))]
fn plain_item(
    alloc: Global,
    names: &Names,
    line: usize,
    labelled: bool,
    word: &Seq<u8>,
    words: &[Seq<u8>],
) -> Result<Item, AsmFault>
    ensures { Gives (λ x. x) result (plain_item names.now line labelled word.now words.now) }
{
    if !labelled && is(word, b"class") {
        return Err(AsmFault::Syntax { line });
    }
    Ok(Item::Insn(operation_of(alloc, names, line, word, words)?))
}

/// The end of a method, where nothing stands behind the word and no label before it.
fn end_item(line: usize, labelled: bool, words: &[Seq<u8>]) -> Result<Item, AsmFault>
    ensures { Gives (λ x. x) result (end_item line labelled words.now) }
{
    is_new(line, labelled)?;
    no_more(line, words)?;
    Ok(Item::End)
}

/// What the words behind `catch` say, where no label stands before it.
fn catch_item(
    alloc: Global,
    line: usize,
    labelled: bool,
    words: &[Seq<u8>],
) -> Result<Item, AsmFault>
    ensures { Gives (λ x. x) result (catch_item line labelled words.now) }
{
    is_new(line, labelled)?;
    Ok(Item::Catch(catch_line(alloc, line, words)?))
}

/// What the words behind `attribute` say, where no label stands before it.
fn attribute_item(
    alloc: Global,
    line: usize,
    labelled: bool,
    words: &[Seq<u8>],
) -> Result<Item, AsmFault>
    ensures { Gives (λ x. x) result (attribute_item line labelled words.now) }
{
    is_new(line, labelled)?;
    Ok(Item::Attribute(attribute_line(alloc, line, words)?))
}

/// What the words of a method's line say, behind a label or not.
#[tactic(auto, unfolding(crate::specs::Items::item_of))]
pub(crate) fn item_of(
    alloc: Global,
    names: &Names,
    line: usize,
    labelled: bool,
    words: &[Seq<u8>],
) -> Result<Item, AsmFault>
    ensures { Gives (λ x. x) result (item_of names.now line labelled words.now) }
{
    let Some((word, rest)) = words.split_first() else {
        return Ok(Item::Nothing);
    };
    if is(word, b"end") {
        end_item(line, labelled, rest)
    } else if is(word, b"catch") {
        catch_item(alloc, line, labelled, rest)
    } else if is(word, b"attribute") {
        attribute_item(alloc, line, labelled, rest)
    } else {
        plain_item(alloc, names, line, labelled, word, rest)
    }
}
