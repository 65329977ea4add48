//! The codes of methods, with the entries that their lines need.

ghost use Rattle.std.specs.Prelude.{◌≡◌, ◌++◌, [], ◌<◌, ◌+◌, ◌*◌, ◌^◌, OnOk, IfOk, map, nat_le, length};
ghost use Rattle.std.specs.Option.{option_map};
ghost use Rattle.class_asm.specs.asm_pool.Entries.{seen};
ghost use Rattle.asm_lines.specs.Firsts.{with_faults};
ghost use Rattle.class_asm.specs.asm_pool.Needs.{takes_entry};
ghost use Rattle.class_asm.specs.Classes.{entry_need, call_words, item_need, pooled, code_said, code_in, said_faults};
ghost use Rattle.class_asm.specs.Classes.{item_attributes, code_attributes, attributes_size, code_fits};
ghost use Rattle.class_asm.specs.asm_codes.MethodCodes.{make_code};
ghost use Rattle.asm_lines.specs.Statements.{Gives};

use crate::asm_codes::{MethodCode, PoolOperand, PooledLine, method_code};
use crate::asm_pool::{Entry, Pool, catch_entry, counted_words, operation_entry};
use crate::rules::content_fits;
use asm_lines::{AsmFault, CodeLine, First, Item, MethodLines, Operation, copy};
use list_views::Seq;
use std::alloc::{AllocError, Global};

/// What a line needs that needs no entry.
const NO_NEED: PoolOperand = PoolOperand { entry: 0, words: 0 };

fn takes_entry(operation: &Operation) -> bool
    ensures { result ≡ takes_entry operation.now }
{
    match operation {
        Operation::LoadInt(_, _) => true,
        Operation::LoadString(_, _) => true,
        Operation::Member(_, _, _, _) => true,
        Operation::Class(_, _) => true,
        _ => false,
    }
}

/// The words that a call writes beside its entry.
fn call_words(operation: &Operation) -> u8
    ensures { result ≡ call_words operation.now }
{
    match operation {
        Operation::Member(op, _, _, desc) => {
            if *op == 185 {
                counted_words(desc.as_slice())
            } else {
                0
            }
        }
        _ => 0,
    }
}

fn entry_need(pool: &Pool<'_>, words: u8, entry: Option<Entry<'_>>) -> Option<PoolOperand>
    ensures { result ≡ entry_need pool.now words (option_map seen entry.entry) }
{
    match entry {
        Some(entry) => {
            let entry = pool.number(entry);
            Some(PoolOperand { entry, words })
        }
        None => None,
    }
}

/// What a line of a method needs of the pool; none where it breaks a rule on names, descriptors and numbers.
fn item_need(pool: &Pool<'_>, item: &Item) -> Option<PoolOperand>
    ensures { result ≡ item_need pool.now item.now }
{
    match item {
        Item::Insn(operation) => {
            if takes_entry(operation) {
                entry_need(pool, call_words(operation), operation_entry(operation))
            } else {
                Some(NO_NEED)
            }
        }
        Item::Catch(entry) => {
            if entry.class.is_some() {
                entry_need(pool, 0, catch_entry(&entry.class))
            } else {
                Some(NO_NEED)
            }
        }
        Item::Attribute(a) => {
            if content_fits(a.content.as_slice()) {
                Some(NO_NEED)
            } else {
                None
            }
        }
        _ => Some(NO_NEED),
    }
}

fn pooled<'a>(pool: &Pool<'_>, code: &'a CodeLine) -> PooledLine<'a>
    ensures { result ≡ pooled pool.now code.now }
{
    PooledLine::new(code, item_need(pool, &code.item))
}

fn pooled_lines<'a>(
    alloc: Global,
    pool: &Pool<'_>,
    lines: &'a [CodeLine],
) -> Result<Seq<PooledLine<'a>>, AllocError>
    ensures { IfOk result (λ x. x ≡ map (pooled pool.now) lines.now) }
{
    let mut all = Seq::new(alloc);
    for code in lines {
        all.push(pooled(pool, code))?;
    }
    Ok(all)
}

fn code_said(alloc: Global, pool: &Pool<'_>, m: &MethodLines) -> Result<MethodCode, AsmFault>
    ensures { Gives (λ x. x) result (code_said pool.now m.now) }
{
    let lines = pooled_lines(alloc, pool, m.lines.as_slice())?;
    method_code(alloc, lines.as_slice())
}

fn no_code(alloc: Global) -> MethodCode
    ensures { result ≡ make_code [] [] }
{
    MethodCode {
        bytes: Seq::new(alloc),
        table: Seq::new(alloc),
    }
}

/// A method's code; with a fault none.
#[tactic(auto, using(asm_lines::proofs::Outcomes::fails_is))]
pub(crate) fn code_in(
    alloc: Global,
    first: &mut First,
    pool: &Pool<'_>,
    m: &MethodLines,
) -> Result<MethodCode, AllocError>
    ensures code { IfOk result (λ c. c ≡ code_in (code_said pool.now m.now)) }
    ensures faults { OnOk result (first.new.fault ≡ with_faults first.old.fault (said_faults (code_said pool.now m.now))) }
{
    match code_said(alloc, pool, m) {
        Ok(code) => Ok(code),
        Err(AsmFault::Memory) => Err(AllocError),
        Err(fault) => {
            first.add(fault);
            Ok(no_code(alloc))
        }
    }
}

fn add_attribute(
    alloc: Global,
    pool: &Pool<'_>,
    attributes: &mut Seq<(u16, Seq<u8>)>,
    code: &CodeLine,
) -> Result<(), AllocError>
    ensures { OnOk result (attributes.new ≡ attributes.old ++ item_attributes pool.now code.now.item) }
{
    if let Item::Attribute(a) = &code.item {
        let name = pool.number(Entry::Utf8(a.name.as_slice()));
        attributes.push((name, copy(alloc, &a.content)?))?;
    }
    Ok(())
}

/// The attributes of a code.
pub(crate) fn code_attributes(
    alloc: Global,
    pool: &Pool<'_>,
    lines: &[CodeLine],
) -> Result<Seq<(u16, Seq<u8>)>, AllocError>
    ensures { IfOk result (λ a. a ≡ code_attributes pool.now lines.now) }
{
    let mut attributes = Seq::new(alloc);
    for code in lines {
        add_attribute(alloc, pool, &mut attributes, code)?;
    }
    Ok(attributes)
}

/// Whether attributes have at most so many bytes.
fn attributes_fit(left: usize, attributes: &[(u16, Seq<u8>)]) -> bool
    ensures { result ≡ nat_le (attributes_size attributes.now) left }
{
    let mut left = left;
    for a in attributes {
        let size = a.1.len();
        if left < 6 || left - 6 < size {
            return false;
        }
        left -= 6 + size;
    }
    true
}

/// Whether the content's length fits its field.
#[tactic(auto, using(crate::proofs::CodeFits::fits_left))]
pub(crate) fn code_fits(code: &MethodCode, attributes: &[(u16, Seq<u8>)]) -> bool
    requires bytes { length code.now.bytes < 2 ^ 16 }
    requires table { length code.now.table < 2 ^ 16 }
    ensures { result ≡ code_fits code.now attributes.now }
{
    let size = 12 + code.bytes.len() + 8 * code.table.len();
    attributes_fit(0xffff_ffff - size, attributes)
}
