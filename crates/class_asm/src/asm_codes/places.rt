//! Where the instructions of a method stand.

ghost use Rattle.std.specs.Prelude.{◌≡◌, [], ◌^◌, ◌<◌, IfOk, OnOk, is_some};
ghost use Rattle.class_asm.specs.asm_codes.Instructions.{nowhere, insn_in};
ghost use Rattle.class_asm.specs.asm_codes.Places.{place_in, IsNear, FitsFirst, size_of, size_at, with_mark, places_of};

use crate::asm_codes::instruction::insn_of;
use crate::asm_codes::labels::Labels;
use crate::asm_codes::pooled::PooledLine;
use asm_lines::Item;
use code_decode::length;
use code_forms::Insn;
use list_views::Seq;
use std::alloc::{AllocError, Global};

/// The line's instruction, where it has one and its operands have room in their fields.
pub(crate) fn insn_in(
    alloc: Global,
    labels: &Labels<'_>,
    line: &PooledLine<'_>,
) -> Result<Option<Insn>, AllocError>
    requires { IsNear (place_in labels.now) }
    ensures { IfOk result (λ o. o ≡ insn_in (place_in labels.now) line.now) }
{
    match (line.need(), &line.code().item) {
        (Some(need), Item::Insn(operation)) => insn_of(alloc, labels, need, operation),
        _ => Ok(None),
    }
}

/// How many bytes the instruction has at a place, where there is one.
fn size_of(pc: usize, insn: &Option<Insn>) -> usize
    requires { FitsFirst insn.now }
    ensures value { result ≡ size_of pc insn.now }
    ensures small { result < 2 ^ 40 }
{
    match insn {
        Some(insn) => length((pc % 4) as u16, insn),
        None => 0,
    }
}

/// How many bytes the line has at a place, and whether its operands have room in their fields. `nothing` has no labels.
pub(crate) fn size_at(
    alloc: Global,
    nothing: &Labels<'_>,
    pc: usize,
    line: &PooledLine<'_>,
) -> Result<(usize, bool), AllocError>
    requires { nothing.now ≡ [] }
    ensures { IfOk result (λ x. (x.0 ≡ size_at pc line.now) × (x.0 < 2 ^ 40) × (x.1 ≡ is_some (insn_in nowhere line.now))) }
{
    let insn = insn_in(alloc, nothing, line)?;
    Ok((size_of(pc, &insn), insn.is_some()))
}

/// A line's label, where it has one, with the line's place.
fn mark<'a>(
    labels: &mut Labels<'a>,
    label: &'a Option<Seq<u8>>,
    pc: usize,
) -> Result<(), AllocError>
    ensures { OnOk result (place_in labels.new ≡ with_mark (place_in labels.old) label.now pc) }
{
    if let Some(label) = label {
        labels.add(label.as_slice(), pc)?;
    }
    Ok(())
}

/// Puts the labels of the lines with their places into `labels`, which has none yet. A code of 2^62 bytes and more, which
/// no memory holds, is answered by want of memory.
fn put_places<'a>(
    alloc: Global,
    nothing: &Labels<'_>,
    lines: &[PooledLine<'a>],
    labels: &mut Labels<'a>,
) -> Result<(), AllocError>
    requires none { nothing.now ≡ [] }
    requires fresh { labels.old ≡ [] }
    ensures { OnOk result (place_in labels.new ≡ places_of lines.now) }
{
    let mut pc = 0;
    for line in lines {
        if pc >= 0x4000_0000_0000_0000 {
            return Err(AllocError);
        }
        mark(labels, &line.code().label, pc)?;
        let (size, _) = size_at(alloc, nothing, pc, line)?;
        pc += size;
    }
    Ok(())
}

/// The places that the labels of the lines name.
pub(crate) fn places_of<'a>(
    alloc: Global,
    nothing: &Labels<'_>,
    lines: &[PooledLine<'a>],
) -> Result<Labels<'a>, AllocError>
    requires { nothing.now ≡ [] }
    ensures { IfOk result (λ x. place_in x ≡ places_of lines.now) }
{
    let mut labels = Labels::new(alloc);
    put_places(alloc, nothing, lines, &mut labels)?;
    Ok(labels)
}
