//! Instructions with their numbers and targets.

ghost use Rattle.std.specs.Prelude.{◌≡◌, map, IfOk};
ghost use Rattle.class_asm.specs.asm_codes.Places.{place_in, IsNear};
ghost use Rattle.class_asm.specs.asm_codes.Instructions.{target, byte_value, pair_value, local_insn, entry_insn, load_insn, interface_insn};
ghost use Rattle.class_asm.specs.asm_codes.Instructions.{member_insn, array_insn, increment, increment_insn, highest_fits, table_insn};
ghost use Rattle.class_asm.specs.asm_codes.Instructions.{cases_of, lookup_of, lookup_insn, insn_of};

use crate::asm_codes::labels::Labels;
use crate::asm_codes::pooled::PoolOperand;
use asm_lines::{Number, Operation};
use code_forms::{Case, Insn, is_rising, plain, wide_local, with_byte, with_jump, with_pair};
use list_views::Seq;
use std::alloc::{AllocError, Global};

/// The number where it is one of a byte with a sign.
fn byte_value(number: Number) -> Option<i8>
    ensures { result ≡ byte_value number }
{
    let value = number.signed()?;
    if -0x80 <= value && value <= 0x7f {
        Some(value as i8)
    } else {
        None
    }
}

/// The number where it is one of two bytes with a sign.
fn pair_value(number: Number) -> Option<i16>
    ensures { result ≡ pair_value number }
{
    let value = number.signed()?;
    if -0x8000 <= value && value <= 0x7fff {
        Some(value as i16)
    } else {
        None
    }
}

/// The place of the label, or 0 where it has none.
pub(crate) fn target(labels: &Labels<'_>, label: &Seq<u8>) -> u16
    requires { IsNear (place_in labels.now) }
    ensures { result ≡ target (place_in labels.now) label.now }
{
    labels.target(label.as_slice()) as u16
}

/// A load or a store, behind `wide` where the local has two bytes; none where the opcode is none of a load or a store.
fn local_insn(op: u8, local: u16) -> Option<Insn>
    ensures { result ≡ local_insn op local }
{
    if local < 0x100 {
        with_byte(op, local as u8)
    } else {
        wide_local(op, local)
    }
}

/// An instruction that names a pool entry.
fn entry_insn(op: u8, entry: u16) -> Option<Insn>
    ensures { result ≡ entry_insn op entry }
{
    with_pair(op, entry)
}

/// `ldc` (opcode 18), or `ldc_w` where that is asked for or the entry has two bytes.
fn load_insn(op: u8, entry: u16) -> Option<Insn>
    ensures { result ≡ load_insn op entry }
{
    if op == 18 && entry < 0x100 {
        Some(Insn::Ldc(entry as u8))
    } else {
        entry_insn(19, entry)
    }
}

fn interface_insn(entry: u16, words: u8) -> Option<Insn>
    ensures { result ≡ interface_insn entry words }
{
    Some(Insn::Invokeinterface(entry, words))
}

fn member_insn(op: u8, entry: u16, words: u8) -> Option<Insn>
    ensures { result ≡ member_insn op entry words }
{
    if op == 185 {
        interface_insn(entry, words)
    } else {
        entry_insn(op, entry)
    }
}

fn array_insn(code: u8) -> Option<Insn>
    ensures { result ≡ array_insn code }
{
    if 4 <= code && code <= 11 {
        Some(Insn::Newarray(code))
    } else {
        None
    }
}

/// `iinc`, behind `wide` where the local or the number has two bytes.
fn increment(local: u16, value: i16) -> Insn
    ensures { result ≡ increment local value }
{
    if local < 0x100 && -0x80 <= value && value <= 0x7f {
        Insn::Iinc(local as u8, value as i8)
    } else {
        Insn::WideIinc(local, value)
    }
}

fn increment_insn(local: Number, value: Number) -> Option<Insn>
    ensures { result ≡ increment_insn local value }
{
    let local = local.pair()?;
    let value = pair_value(value)?;
    Some(increment(local, value))
}

fn targets(alloc: Global, labels: &Labels<'_>, words: &[Seq<u8>]) -> Result<Seq<u16>, AllocError>
    requires { IsNear (place_in labels.now) }
    ensures { IfOk result (λ s. s ≡ map (target (place_in labels.now)) words.now) }
{
    let mut targets = Seq::new(alloc);
    for word in words {
        targets.push(target(labels, word))?;
    }
    Ok(targets)
}

/// Whether the highest key of a table is one.
fn highest_fits(low: i32, count: usize) -> bool
    ensures { result ≡ highest_fits low count }
{
    if count == 0 || 0x1_0000_0000 < count {
        return false;
    }
    i64::from(low) + (count - 1) as i64 <= 0x7fff_ffff
}

fn table_insn(
    alloc: Global,
    labels: &Labels<'_>,
    low: Number,
    default: &Seq<u8>,
    words: &[Seq<u8>],
) -> Result<Option<Insn>, AllocError>
    requires { IsNear (place_in labels.now) }
    ensures { IfOk result (λ o. o ≡ table_insn (place_in labels.now) low default.now words.now) }
{
    let Some(low) = low.int() else {
        return Ok(None);
    };
    if !highest_fits(low, words.len()) {
        return Ok(None);
    }
    let targets = targets(alloc, labels, words)?;
    let default = target(labels, default);
    Ok(Some(Insn::Tableswitch {
        default,
        low,
        targets,
    }))
}

/// The cases, where each key is a number of four bytes.
fn cases_of(
    alloc: Global,
    labels: &Labels<'_>,
    words: &[(Number, Seq<u8>)],
) -> Result<Option<Seq<Case>>, AllocError>
    requires { IsNear (place_in labels.now) }
    ensures { IfOk result (λ o. o ≡ cases_of (place_in labels.now) words.now) }
{
    let mut cases = Seq::new(alloc);
    for word in words {
        let Some(key) = word.0.int() else {
            return Ok(None);
        };
        let target = target(labels, &word.1);
        cases.push(Case { key, target })?;
    }
    Ok(Some(cases))
}

fn lookup_of(default: u16, cases: Seq<Case>) -> Option<Insn>
    ensures { result ≡ lookup_of default cases }
{
    if cases.len() < 0x8000_0000 && is_rising(cases.as_slice()) {
        Some(Insn::Lookupswitch { default, cases })
    } else {
        None
    }
}

fn lookup_insn(
    alloc: Global,
    labels: &Labels<'_>,
    default: &Seq<u8>,
    words: &[(Number, Seq<u8>)],
) -> Result<Option<Insn>, AllocError>
    requires { IsNear (place_in labels.now) }
    ensures { IfOk result (λ o. o ≡ lookup_insn (place_in labels.now) default.now words.now) }
{
    match cases_of(alloc, labels, words)? {
        Some(cases) => Ok(lookup_of(target(labels, default), cases)),
        None => Ok(None),
    }
}

/// The instruction with its numbers and targets; none where an operand has no room in its field.
pub(crate) fn insn_of(
    alloc: Global,
    labels: &Labels<'_>,
    need: PoolOperand,
    operation: &Operation,
) -> Result<Option<Insn>, AllocError>
    requires { IsNear (place_in labels.now) }
    ensures { IfOk result (λ o. o ≡ insn_of (place_in labels.now) need operation.now) }
{
    match operation {
        Operation::Plain(op) => Ok(plain(*op)),
        Operation::Local(op, local) => match local.pair() {
            Some(local) => Ok(local_insn(*op, local)),
            None => Ok(None),
        },
        Operation::Bipush(number) => match byte_value(*number) {
            Some(value) => Ok(Some(Insn::Bipush(value))),
            None => Ok(None),
        },
        Operation::Sipush(number) => match pair_value(*number) {
            Some(value) => Ok(Some(Insn::Sipush(value))),
            None => Ok(None),
        },
        Operation::LoadInt(op, _) => Ok(load_insn(*op, need.entry)),
        Operation::LoadString(op, _) => Ok(load_insn(*op, need.entry)),
        Operation::Member(op, _, _, _) => Ok(member_insn(*op, need.entry, need.words)),
        Operation::Class(op, _) => Ok(entry_insn(*op, need.entry)),
        Operation::Newarray(code) => Ok(array_insn(*code)),
        Operation::Iinc(local, value) => Ok(increment_insn(*local, *value)),
        Operation::Jump(op, label) => Ok(with_jump(*op, target(labels, label))),
        Operation::GotoW(label) => Ok(Some(Insn::GotoW(target(labels, label)))),
        Operation::Tableswitch(low, default, words) => {
            table_insn(alloc, labels, *low, default, words.as_slice())
        }
        Operation::Lookupswitch(default, cases) => {
            lookup_insn(alloc, labels, default, cases.as_slice())
        }
    }
}
