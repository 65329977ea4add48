//! The code of a method's lines.

ghost use Rattle.std.specs.Prelude.{◌≡◌, ◌<◌, ◌^◌, ◌++◌, [], length, IfOk, OnOk};
ghost use Rattle.std.specs.Option.{option_to_list};
ghost use Rattle.code_decode.specs.Encoding.{code_of};
ghost use Rattle.asm_lines.specs.Statements.{Gives};
ghost use Rattle.class_asm.specs.asm_codes.Places.{place_in, places_of, IsNear, placed, insns_from, catch_entry, entry_in, table_of};
ghost use Rattle.class_asm.specs.asm_codes.MethodCodes.{FitsAt, IsWritable, method_code, code_at, has_end, IsSized};

use crate::asm_codes::instruction::target;
use crate::asm_codes::labels::Labels;
use crate::asm_codes::line_fault::first_fault;
use crate::asm_codes::places::{insn_in, places_of};
use crate::asm_codes::pooled::{PoolOperand, PooledLine};
use asm_lines::{AsmFault, CatchLine, Item};
use class_base::Handler;
use code_decode::put_insn;
use code_forms::Insn;
use list_views::Seq;
use std::alloc::{AllocError, Global};

/// A method's code.
#[derive(Drop)]
pub struct MethodCode {
    /// Its bytes.
    pub bytes: Seq<u8>,
    /// Its exception table.
    pub table: Seq<Handler>,
}

/// Puts the bytes of the instruction, where there is one, behind those in `out`.
fn put(out: &mut Vec<u8>, insn: &Option<Insn>) -> Result<(), AllocError>
    requires small { length out.old.items < 2 ^ 16 }
    requires fits { FitsAt (length out.old.items) insn.now }
    ensures { OnOk result (out.new.items ≡ out.old.items ++ code_of (placed (length out.old.items) insn.now)) }
{
    if let Some(insn) = insn {
        let pc = out.len() as u16;
        put_insn(out, pc, insn)?;
    }
    Ok(())
}

/// The bytes of the instructions, one behind the other.
fn bytes_of(
    alloc: Global,
    labels: &Labels<'_>,
    lines: &[PooledLine<'_>],
) -> Result<Vec<u8>, AllocError>
    requires near { IsNear (place_in labels.now) }
    requires writable { IsWritable (place_in labels.now) 0 lines.now }
    ensures { IfOk result (λ v. v.items ≡ code_of (insns_from (place_in labels.now) 0 lines.now)) }
{
    let mut out = Vec::new(alloc);
    for line in lines {
        let insn = insn_in(alloc, labels, line)?;
        put(&mut out, &insn)?;
    }
    Ok(out)
}

fn catch_entry(labels: &Labels<'_>, entry: &CatchLine, need: PoolOperand) -> Handler
    requires { IsNear (place_in labels.now) }
    ensures { result ≡ catch_entry (place_in labels.now) entry.now need }
{
    Handler {
        start: target(labels, &entry.from),
        end: target(labels, &entry.to),
        handler: target(labels, &entry.handler),
        catch: need.entry,
    }
}

/// The entry of the exception table that the line says.
fn entry_in(labels: &Labels<'_>, line: &PooledLine<'_>) -> Option<Handler>
    requires { IsNear (place_in labels.now) }
    ensures { result ≡ entry_in (place_in labels.now) line.now }
{
    match (line.need(), &line.code().item) {
        (Some(need), Item::Catch(entry)) => Some(catch_entry(labels, entry, need)),
        _ => None,
    }
}

fn add_entry(table: &mut Seq<Handler>, entry: Option<Handler>) -> Result<(), AllocError>
    ensures { OnOk result (table.new ≡ table.old ++ option_to_list entry) }
{
    if let Some(entry) = entry {
        table.push(entry)?;
    }
    Ok(())
}

/// The exception table, in the order of the lines.
fn table_of(
    alloc: Global,
    labels: &Labels<'_>,
    lines: &[PooledLine<'_>],
) -> Result<Seq<Handler>, AllocError>
    requires { IsNear (place_in labels.now) }
    ensures { IfOk result (λ s. s ≡ table_of (place_in labels.now) lines.now) }
{
    let mut table = Seq::new(alloc);
    for line in lines {
        add_entry(&mut table, entry_in(labels, line))?;
    }
    Ok(table)
}

/// The code of lines without a fault.
fn code_at(
    alloc: Global,
    labels: &Labels<'_>,
    lines: &[PooledLine<'_>],
) -> Result<MethodCode, AllocError>
    requires near { IsNear (place_in labels.now) }
    requires writable { IsWritable (place_in labels.now) 0 lines.now }
    ensures { IfOk result (λ c. c ≡ code_at (place_in labels.now) lines.now) }
{
    let bytes = Seq::from_vec(bytes_of(alloc, labels, lines)?);
    let table = table_of(alloc, labels, lines)?;
    Ok(MethodCode { bytes, table })
}

/// The code of lines whose labels have these places, or their first fault. `nothing` has no labels.
#[tactic(auto, unfolding(crate::specs::asm_codes::MethodCodes::method_code))]
fn code_placed(
    alloc: Global,
    nothing: &Labels<'_>,
    labels: &Labels<'_>,
    lines: &[PooledLine<'_>],
) -> Result<MethodCode, AsmFault>
    requires none { nothing.now ≡ [] }
    requires places { place_in labels.now ≡ places_of lines.now }
    ensures exact { Gives (λ x. x) result (method_code lines.now) }
    ensures sized { IfOk result (λ code. IsSized (has_end lines.now) code) }
{
    if let Some(fault) = first_fault(alloc, nothing, labels, lines)? {
        return Err(fault);
    }
    Ok(code_at(alloc, labels, lines)?)
}

/// The code of a method's lines, or their first fault.
///
/// # Errors
///
/// [`AsmFault::UnknownLabel`], [`AsmFault::DuplicateLabel`] and [`AsmFault::OutOfRange`], the first line's first, and on
/// one line the one that stands first here. Want of memory.
pub fn method_code(alloc: Global, lines: &[PooledLine<'_>]) -> Result<MethodCode, AsmFault>
    ensures exact { Gives (λ x. x) result (method_code lines.now) }
    ensures sized { IfOk result (λ code. IsSized (has_end lines.now) code) }
{
    let nothing = Labels::new(alloc);
    let labels = places_of(alloc, &nothing, lines)?;
    code_placed(alloc, &nothing, &labels, lines)
}
