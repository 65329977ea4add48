//! Reading one instruction. A reader gives a value and the bytes after it.
ghost use Rattle.std.specs.Prelude.{◌≡◌, IsTrue, is_some, option_map};
ghost use Rattle.std.specs.Int.{w16, w32, cast_signed};
ghost use Rattle.code_forms.specs.Faults.{Gives};
ghost use Rattle.code_forms.specs.Opcodes.{find_by, with_byte, with_pair, with_jump, wide_local};
ghost use Rattle.code_decode.specs.Reading.{Byte, Pair, Jump, byte_at, number_at, signed_at, place_of, target_at, skip_at};
ghost use Rattle.code_decode.specs.Reading.{operands_at, repeat_at, case_at, table_at, lookup_at, interface_at, array_at, wide_at};
ghost use Rattle.code_decode.specs.Reading.{increment_at, signed_byte_at, sipush_at, far_jump_at, table_targets_at};
ghost use Rattle.code_decode.specs.Reading.{counted_cases_at, wide_increment_at, wide_operand_at, single_layout, operand_layout};
ghost use Rattle.code_decode.specs.Reading.{insn_at};
ghost use Rattle.code_decode.specs.Texts.{padding_of};

use crate::spelling::padding_of;
use code_forms::list_views::Seq;
use code_forms::{
    Case, CodeFault, Insn, is_rising, plain, wide_local, with_byte, with_jump, with_pair,
};
use std::alloc::Global;

fn byte_at(pc: u16, bytes: &[u8]) -> Result<(u8, &[u8]), CodeFault>
    ensures { Gives (λ x. (x.0, x.1.now)) result (byte_at pc bytes.now) }
{
    match bytes {
        [] => Err(CodeFault::Truncated { pc }),
        [first, rest @ ..] => Ok((*first, rest)),
    }
}

fn pair_at(pc: u16, bytes: &[u8]) -> Result<(u16, &[u8]), CodeFault>
    ensures { Gives (λ x. (x.0, x.1.now)) result (number_at w16 pc bytes.now) }
{
    if bytes.len() < 2 {
        return Err(CodeFault::Truncated { pc });
    }
    let (front, rest) = bytes.split_at(2);
    Ok((u16::from_be_bytes([front[0], front[1]]), rest))
}

fn word_at(pc: u16, bytes: &[u8]) -> Result<(u32, &[u8]), CodeFault>
    ensures { Gives (λ x. (x.0, x.1.now)) result (number_at w32 pc bytes.now) }
{
    if bytes.len() < 4 {
        return Err(CodeFault::Truncated { pc });
    }
    let (front, rest) = bytes.split_at(4);
    let number = u32::from_be_bytes([front[0], front[1], front[2], front[3]]);
    Ok((number, rest))
}

#[tactic(auto, unfolding(crate::specs::Reading::signed_at))]
fn signed_pair_at(pc: u16, bytes: &[u8]) -> Result<(i16, &[u8]), CodeFault>
    ensures { Gives (λ x. (x.0, x.1.now)) result (signed_at w16 pc bytes.now) }
{
    let (number, rest) = pair_at(pc, bytes)?;
    Ok((number.cast_signed(), rest))
}

#[tactic(auto, unfolding(crate::specs::Reading::signed_at))]
fn signed_word_at(pc: u16, bytes: &[u8]) -> Result<(i32, &[u8]), CodeFault>
    ensures { Gives (λ x. (x.0, x.1.now)) result (signed_at w32 pc bytes.now) }
{
    let (number, rest) = word_at(pc, bytes)?;
    Ok((number.cast_signed(), rest))
}

/// The place that a distance leads to, or 65,535, where no instruction begins.
fn place_of(pc: u16, distance: &i32) -> u16
    ensures { result ≡ place_of pc distance.now }
{
    let sum = i64::from(pc) + i64::from(*distance);
    if sum < 0 || sum > 65_535 {
        return u16::MAX;
    }
    sum as u16
}

#[tactic(auto, unfolding(crate::specs::Reading::skip_at))]
fn skip_at(count: usize, pc: u16, bytes: &[u8]) -> Result<&[u8], CodeFault>
    ensures { Gives (λ x. x.now) result (skip_at count pc bytes.now) }
{
    if bytes.len() < count {
        return Err(CodeFault::Truncated { pc });
    }
    Ok(&bytes[count..])
}

#[tactic(auto, unfolding(crate::specs::Reading::target_at))]
fn near_target_at(pc: u16, bytes: &[u8]) -> Result<(u16, &[u8]), CodeFault>
    ensures { Gives (λ x. (x.0, x.1.now)) result (target_at w16 pc bytes.now) }
{
    let (distance, rest) = signed_pair_at(pc, bytes)?;
    Ok((place_of(pc, &i32::from(distance)), rest))
}

#[tactic(auto, unfolding(crate::specs::Reading::target_at))]
fn target_at(pc: u16, bytes: &[u8]) -> Result<(u16, &[u8]), CodeFault>
    ensures { Gives (λ x. (x.0, x.1.now)) result (target_at w32 pc bytes.now) }
{
    let (distance, rest) = signed_word_at(pc, bytes)?;
    Ok((place_of(pc, &distance), rest))
}

fn targets_at(
    alloc: Global,
    count: u64,
    pc: u16,
    bytes: &[u8],
) -> Result<(Seq<u16>, &[u8]), CodeFault>
    ensures { Gives (λ x. (x.0, x.1.now)) result (repeat_at (target_at w32 pc) count bytes.now) }
{
    let mut targets = Seq::new(alloc);
    let mut rest = bytes;
    for _ in 0..count {
        let (target, after) = target_at(pc, rest)?;
        targets.push(target)?;
        rest = after;
    }
    Ok((targets, rest))
}

#[tactic(auto, unfolding(crate::specs::Reading::case_at))]
fn case_at(pc: u16, bytes: &[u8]) -> Result<(Case, &[u8]), CodeFault>
    ensures { Gives (λ x. (x.0, x.1.now)) result (case_at pc bytes.now) }
{
    let (key, rest) = signed_word_at(pc, bytes)?;
    let (target, rest) = target_at(pc, rest)?;
    Ok((Case { key, target }, rest))
}

fn cases_at(
    alloc: Global,
    count: u32,
    pc: u16,
    bytes: &[u8],
) -> Result<(Seq<Case>, &[u8]), CodeFault>
    ensures { Gives (λ x. (x.0, x.1.now)) result (repeat_at (case_at pc) count bytes.now) }
{
    let mut cases = Seq::new(alloc);
    let mut rest = bytes;
    for _ in 0..count {
        let (case, after) = case_at(pc, rest)?;
        cases.push(case)?;
        rest = after;
    }
    Ok((cases, rest))
}

/// The targets of a table whose lowest and highest key are given.
#[tactic(auto, unfolding(crate::specs::Reading::table_targets_at))]
fn table_targets_at<'a>(
    alloc: Global,
    pc: u16,
    low: &i32,
    high: &i32,
    bytes: &'a [u8],
) -> Result<(Seq<u16>, &'a [u8]), CodeFault>
    ensures { Gives (λ x. (x.0, x.1.now)) result (table_targets_at pc low.now high.now bytes.now) }
{
    if *high < *low {
        return Err(CodeFault::BadSwitch { pc });
    }
    let count = high.abs_diff(*low);
    targets_at(alloc, u64::from(count) + 1, pc, bytes)
}

#[tactic(auto, unfolding(crate::specs::Reading::table_at))]
fn table_at(alloc: Global, pc: u16, bytes: &[u8]) -> Result<(Insn, &[u8]), CodeFault>
    ensures { Gives (λ x. (x.0, x.1.now)) result (table_at pc bytes.now) }
{
    let rest = skip_at(padding_of(pc), pc, bytes)?;
    let (default, rest) = target_at(pc, rest)?;
    let (low, rest) = signed_word_at(pc, rest)?;
    let (high, rest) = signed_word_at(pc, rest)?;
    let (targets, rest) = table_targets_at(alloc, pc, &low, &high, rest)?;
    Ok((
        Insn::Tableswitch {
            default,
            low,
            targets,
        },
        rest,
    ))
}

#[tactic(auto, unfolding(crate::specs::Reading::counted_cases_at))]
fn counted_cases_at(
    alloc: Global,
    count: u32,
    pc: u16,
    bytes: &[u8],
) -> Result<(Seq<Case>, &[u8]), CodeFault>
    ensures { Gives (λ x. (x.0, x.1.now)) result (counted_cases_at count pc bytes.now) }
{
    if count >= 0x8000_0000 {
        return Err(CodeFault::BadSwitch { pc });
    }
    cases_at(alloc, count, pc, bytes)
}

#[tactic(auto, unfolding(crate::specs::Reading::lookup_at))]
fn lookup_at(alloc: Global, pc: u16, bytes: &[u8]) -> Result<(Insn, &[u8]), CodeFault>
    ensures { Gives (λ x. (x.0, x.1.now)) result (lookup_at pc bytes.now) }
{
    let rest = skip_at(padding_of(pc), pc, bytes)?;
    let (default, rest) = target_at(pc, rest)?;
    let (count, rest) = word_at(pc, rest)?;
    let (cases, rest) = counted_cases_at(alloc, count, pc, rest)?;
    if !is_rising(cases.as_slice()) {
        return Err(CodeFault::BadSwitch { pc });
    }
    Ok((Insn::Lookupswitch { default, cases }, rest))
}

#[tactic(auto, unfolding(crate::specs::Reading::interface_at))]
fn interface_at(pc: u16, bytes: &[u8]) -> Result<(Insn, &[u8]), CodeFault>
    ensures { Gives (λ x. (x.0, x.1.now)) result (interface_at pc bytes.now) }
{
    let (entry, rest) = pair_at(pc, bytes)?;
    let (count, rest) = byte_at(pc, rest)?;
    let (last, rest) = byte_at(pc, rest)?;
    if last != 0 {
        return Err(CodeFault::BadOperand { pc });
    }
    Ok((Insn::Invokeinterface(entry, count), rest))
}

#[tactic(auto, unfolding(crate::specs::Reading::array_at))]
fn array_at(pc: u16, bytes: &[u8]) -> Result<(Insn, &[u8]), CodeFault>
    ensures { Gives (λ x. (x.0, x.1.now)) result (array_at pc bytes.now) }
{
    let (code, rest) = byte_at(pc, bytes)?;
    if !(3 < code && code < 12) {
        return Err(CodeFault::BadOperand { pc });
    }
    Ok((Insn::Newarray(code), rest))
}

#[tactic(auto, unfolding(crate::specs::Reading::wide_increment_at))]
fn wide_increment_at(pc: u16, bytes: &[u8]) -> Result<(Insn, &[u8]), CodeFault>
    ensures { Gives (λ x. (x.0, x.1.now)) result (wide_increment_at pc bytes.now) }
{
    let (local, rest) = pair_at(pc, bytes)?;
    let (value, rest) = signed_pair_at(pc, rest)?;
    Ok((Insn::WideIinc(local, value), rest))
}

#[tactic(auto, unfolding(crate::specs::Reading::increment_at))]
fn increment_at(pc: u16, bytes: &[u8]) -> Result<(Insn, &[u8]), CodeFault>
    ensures { Gives (λ x. (x.0, x.1.now)) result (increment_at pc bytes.now) }
{
    let (local, rest) = byte_at(pc, bytes)?;
    let (value, rest) = byte_at(pc, rest)?;
    Ok((Insn::Iinc(local, value.cast_signed()), rest))
}

#[tactic(auto, unfolding(crate::specs::Reading::signed_byte_at))]
fn signed_byte_at(pc: u16, bytes: &[u8]) -> Result<(Insn, &[u8]), CodeFault>
    ensures { Gives (λ x. (x.0, x.1.now)) result (signed_byte_at pc bytes.now) }
{
    let (value, rest) = byte_at(pc, bytes)?;
    Ok((Insn::Bipush(value.cast_signed()), rest))
}

#[tactic(auto, unfolding(crate::specs::Reading::sipush_at))]
fn sipush_at(pc: u16, bytes: &[u8]) -> Result<(Insn, &[u8]), CodeFault>
    ensures { Gives (λ x. (x.0, x.1.now)) result (sipush_at pc bytes.now) }
{
    let (value, rest) = signed_pair_at(pc, bytes)?;
    Ok((Insn::Sipush(value), rest))
}

#[tactic(auto, unfolding(crate::specs::Reading::far_jump_at))]
fn far_jump_at(pc: u16, bytes: &[u8]) -> Result<(Insn, &[u8]), CodeFault>
    ensures { Gives (λ x. (x.0, x.1.now)) result (far_jump_at pc bytes.now) }
{
    let (target, rest) = target_at(pc, bytes)?;
    Ok((Insn::GotoW(target), rest))
}

/// Whether the instruction of the opcode has a number of one byte.
fn takes_byte(op: u8) -> bool
    ensures { result ≡ is_some (find_by with_byte op) }
{
    with_byte(op, 0).is_some()
}

/// Whether the instruction of the opcode has a number of two bytes.
fn takes_pair(op: u8) -> bool
    ensures { result ≡ is_some (find_by with_pair op) }
{
    with_pair(op, 0).is_some()
}

/// Whether the instruction of the opcode has a target of two bytes.
fn takes_jump(op: u8) -> bool
    ensures { result ≡ is_some (find_by with_jump op) }
{
    with_jump(op, 0).is_some()
}

/// Whether the instruction of the opcode has, behind `wide`, a local of two bytes.
fn takes_wide_local(op: u8) -> bool
    ensures { result ≡ is_some (find_by wide_local op) }
{
    wide_local(op, 0).is_some()
}

#[tactic(auto, unfolding(crate::specs::Reading::byte_operand_at))]
fn byte_operand_at(pc: u16, op: u8, bytes: &[u8]) -> Result<(Insn, &[u8]), CodeFault>
    requires { IsTrue (is_some (find_by with_byte op)) }
    ensures { Gives (λ x. (x.0, x.1.now)) result (operands_at pc op (option_map Byte (find_by with_byte op)) bytes.now) }
{
    let (number, rest) = byte_at(pc, bytes)?;
    Ok((with_byte(op, number).unwrap(), rest))
}

#[tactic(auto, unfolding(crate::specs::Reading::pair_operand_at))]
fn pair_operand_at(pc: u16, op: u8, bytes: &[u8]) -> Result<(Insn, &[u8]), CodeFault>
    requires { IsTrue (is_some (find_by with_pair op)) }
    ensures { Gives (λ x. (x.0, x.1.now)) result (operands_at pc op (option_map Pair (find_by with_pair op)) bytes.now) }
{
    let (number, rest) = pair_at(pc, bytes)?;
    Ok((with_pair(op, number).unwrap(), rest))
}

#[tactic(auto, unfolding(crate::specs::Reading::jump_operand_at))]
fn jump_operand_at(pc: u16, op: u8, bytes: &[u8]) -> Result<(Insn, &[u8]), CodeFault>
    requires { IsTrue (is_some (find_by with_jump op)) }
    ensures { Gives (λ x. (x.0, x.1.now)) result (operands_at pc op (option_map Jump (find_by with_jump op)) bytes.now) }
{
    let (target, rest) = near_target_at(pc, bytes)?;
    Ok((with_jump(op, target).unwrap(), rest))
}

#[tactic(auto, unfolding(crate::specs::Reading::wide_operand_at))]
fn wide_local_at(pc: u16, op: u8, bytes: &[u8]) -> Result<(Insn, &[u8]), CodeFault>
    requires { IsTrue (is_some (find_by wide_local op)) }
    ensures { Gives (λ x. (x.0, x.1.now)) result (wide_operand_at pc op (find_by wide_local op) bytes.now) }
{
    let (local, rest) = pair_at(pc, bytes)?;
    Ok((wide_local(op, local).unwrap(), rest))
}

#[tactic(auto, unfolding(crate::specs::Reading::wide_operand_at))]
fn wide_operand_at(pc: u16, op: u8, bytes: &[u8]) -> Result<(Insn, &[u8]), CodeFault>
    ensures { Gives (λ x. (x.0, x.1.now)) result (wide_operand_at pc op (find_by wide_local op) bytes.now) }
{
    if takes_wide_local(op) {
        return wide_local_at(pc, op, bytes);
    }
    if op == 132 {
        return wide_increment_at(pc, bytes);
    }
    Err(CodeFault::BadOperand { pc })
}

#[tactic(auto, unfolding(crate::specs::Reading::wide_at))]
fn wide_at(pc: u16, bytes: &[u8]) -> Result<(Insn, &[u8]), CodeFault>
    ensures { Gives (λ x. (x.0, x.1.now)) result (wide_at pc bytes.now) }
{
    let (op, rest) = byte_at(pc, bytes)?;
    wide_operand_at(pc, op, rest)
}

/// An instruction whose form no other opcode has.
fn single_at(alloc: Global, pc: u16, op: u8, bytes: &[u8]) -> Result<(Insn, &[u8]), CodeFault>
    ensures { Gives (λ x. (x.0, x.1.now)) result (operands_at pc op (single_layout op) bytes.now) }
{
    match op {
        16 => signed_byte_at(pc, bytes),
        17 => sipush_at(pc, bytes),
        132 => increment_at(pc, bytes),
        170 => table_at(alloc, pc, bytes),
        171 => lookup_at(alloc, pc, bytes),
        185 => interface_at(pc, bytes),
        188 => array_at(pc, bytes),
        196 => wide_at(pc, bytes),
        200 => far_jump_at(pc, bytes),
        0..=201 => Err(CodeFault::UnsupportedOpcode { pc, op }),
        _ => Err(CodeFault::UnknownOpcode { pc, op }),
    }
}

/// An instruction that has operands.
fn operand_insn_at(alloc: Global, pc: u16, op: u8, bytes: &[u8]) -> Result<(Insn, &[u8]), CodeFault>
    ensures { Gives (λ x. (x.0, x.1.now)) result (operands_at pc op (operand_layout op) bytes.now) }
{
    if takes_byte(op) {
        return byte_operand_at(pc, op, bytes);
    }
    if takes_pair(op) {
        return pair_operand_at(pc, op, bytes);
    }
    if takes_jump(op) {
        return jump_operand_at(pc, op, bytes);
    }
    single_at(alloc, pc, op, bytes)
}

/// The instruction at `pc` whose opcode is `op`, and the bytes after it. `bytes` begin behind the opcode.
#[tactic(auto, unfolding(crate::specs::Reading::insn_at))]
pub fn insn_at(alloc: Global, pc: u16, op: u8, bytes: &[u8]) -> Result<(Insn, &[u8]), CodeFault>
    ensures { Gives (λ x. (x.0, x.1.now)) result (insn_at pc op bytes.now) }
{
    match plain(op) {
        Some(insn) => Ok((insn, bytes)),
        None => operand_insn_at(alloc, pc, op, bytes),
    }
}
