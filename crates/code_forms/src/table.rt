//! Exception tables.
ghost use Rattle.std.specs.Prelude.{◌≡◌, ℕ, Bool, List, Ok, OnOk};
ghost use Rattle.std.specs.List.{AllByRecursion};
ghost use Rattle.class_base.specs.declared.handler.Handler.{Handler};
ghost use Rattle.code_forms.specs.Marks.{marked, starts, stands};
ghost use Rattle.code_forms.specs.Faults.{Gives};
ghost use Rattle.code_forms.specs.Tables.{may_end, bad_boundary, first_bad_boundary, boundary_fault, IsEntry};

use crate::fault::CodeFault;
use crate::insn::Insn;
use crate::starts::Starts;
use class_base::Handler;
use std::alloc::Global;

fn may_end(starts: &Starts, length: u32, start: u16, end: u16) -> bool
    ensures { result ≡ may_end (marked starts.now) length start end }
{
    start < end && (starts.has(end) || u32::from(end) == length)
}

fn bad_boundary(starts: &Starts, length: u32, entry: &Handler) -> Option<u16>
    ensures { result ≡ bad_boundary (marked starts.now) length entry.now }
{
    if !starts.has(entry.start) {
        return Some(entry.start);
    }
    if !may_end(starts, length, entry.start, entry.end) {
        return Some(entry.end);
    }
    if !starts.has(entry.handler) {
        return Some(entry.handler);
    }
    None
}

fn first_bad_boundary(starts: &Starts, length: u32, table: &[Handler]) -> Option<u16>
    ensures { result ≡ first_bad_boundary (marked starts.now) length table.now }
{
    for entry in table {
        if let Some(place) = bad_boundary(starts, length, entry) {
            return Some(place);
        }
    }
    None
}

fn table_fault(
    alloc: Global,
    insns: &[(u16, Insn)],
    length: u32,
    table: &[Handler],
) -> Result<(), CodeFault>
    ensures { Gives (λ x. x) result (boundary_fault (first_bad_boundary (stands (starts insns.now)) length table.now)) }
{
    if table.is_empty() {
        return Ok(());
    }
    let starts = Starts::of(alloc, insns)?;
    match first_bad_boundary(&starts, length, table) {
        None => Ok(()),
        Some(pc) => Err(CodeFault::BadTarget { pc }),
    }
}

/// Tests the boundaries of an exception table against the instructions of a code of `length` bytes.
///
/// # Errors
///
/// [`CodeFault::BadTarget`] with the first bad boundary, entry by entry and in an entry start, end, handler. Where the
/// start isn't below the end, the end is bad. Want of memory.
pub fn check_table(
    alloc: Global,
    insns: &[(u16, Insn)],
    length: u32,
    table: &[Handler],
) -> Result<(), CodeFault>
    // A table that passes is a table of the code.
    ensures good { OnOk result (AllByRecursion (IsEntry (stands (starts insns.now)) length) table.now) }
    // A table of the code passes, unless memory runs out.
    ensures only { AllByRecursion (IsEntry (stands (starts insns.now)) length) table.now → Gives (λ x. x) result (Ok tt) }
    // Which fault it is.
    ensures exact { Gives (λ x. x) result (boundary_fault (first_bad_boundary (stands (starts insns.now)) length table.now)) }
{
    table_fault(alloc, insns, length, table)
}

/// A table has no bad boundary exactly where each entry is one of the code: a law, a function without a body.
pub fn table_is_good()
    ensures found { (begins : ℕ → Bool) (length : ℕ) (table : List Handler)
        → boundary_fault (first_bad_boundary begins length table) ≡ Ok tt → AllByRecursion (IsEntry begins length) table }
    ensures only { (begins : ℕ → Bool) (length : ℕ) (table : List Handler) → AllByRecursion (IsEntry begins length) table
        → boundary_fault (first_bad_boundary begins length table) ≡ Ok tt }
{}
