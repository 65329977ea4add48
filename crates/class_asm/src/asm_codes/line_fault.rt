//! The faults of a method's lines.

ghost use Rattle.std.specs.Prelude.{◌≡◌, [], ◌+◌, ◌<◌, ◌^◌, if◌then◌else◌, IfOk, OnOk, map, false};
ghost use Rattle.std.specs.List.{list_all};
ghost use Rattle.std.specs.Option.{option_map_or};
ghost use Rattle.class_asm.specs.asm_codes.Places.{place_in, size_at};
ghost use Rattle.class_asm.specs.asm_codes.LineFaults.{operation_labels, catch_labels, item_labels, is_among, knows, is_within, is_near};
ghost use Rattle.class_asm.specs.asm_codes.LineFaults.{is_far, reaches, passes, operation_is_out, is_catch, catch_is_out, item_is_out, is_out};
ghost use Rattle.class_asm.specs.asm_codes.LineFaults.{fault_of, with_seen, first_fault};

use crate::asm_codes::labels::{Labels, add_label};
use crate::asm_codes::places::size_at;
use crate::asm_codes::pooled::PooledLine;
use asm_lines::{AsmFault, CatchLine, Item, Number, Operation};
use class_base::NameSet;
use list_views::Seq;
use std::alloc::{AllocError, Global};

/// Whether a place is at most `limit` bytes behind another, or at most one more before it.
fn is_within(limit: usize, pc: usize, target: usize) -> bool
    requires { limit < 2 ^ 32 }
    ensures { result ≡ is_within limit pc target }
{
    target.saturating_sub(pc) <= limit && pc.saturating_sub(target) <= limit + 1
}

/// Whether the distance to the label has room in two bytes.
fn is_near(labels: &Labels<'_>, pc: usize, label: &Seq<u8>) -> bool
    ensures { result ≡ is_near (place_in labels.now) pc label.now }
{
    is_within(0x7fff, pc, labels.target(label.as_slice()))
}

/// Whether the distance to the label has room in four bytes.
fn is_far(labels: &Labels<'_>, pc: usize, label: &Seq<u8>) -> bool
    ensures { result ≡ is_far (place_in labels.now) pc label.now }
{
    is_within(0x7fff_ffff, pc, labels.target(label.as_slice()))
}

fn all_far(labels: &Labels<'_>, pc: usize, words: &[Seq<u8>]) -> bool
    ensures { result ≡ list_all (is_far (place_in labels.now) pc) words.now }
{
    for word in words {
        if !is_far(labels, pc, word) {
            return false;
        }
    }
    true
}

fn cases_far(labels: &Labels<'_>, pc: usize, cases: &[(Number, Seq<u8>)]) -> bool
    ensures { result ≡ list_all (λ c. is_far (place_in labels.now) pc c.1) cases.now }
{
    for case in cases {
        if !is_far(labels, pc, &case.1) {
            return false;
        }
    }
    true
}

/// Whether each distance has room in its field.
fn reaches(labels: &Labels<'_>, pc: usize, operation: &Operation) -> bool
    ensures { result ≡ reaches (place_in labels.now) pc operation.now }
{
    match operation {
        Operation::Jump(_, label) => is_near(labels, pc, label),
        Operation::GotoW(label) => is_far(labels, pc, label),
        Operation::Tableswitch(_, default, words) => {
            is_far(labels, pc, default) && all_far(labels, pc, words.as_slice())
        }
        Operation::Lookupswitch(default, cases) => {
            is_far(labels, pc, default) && cases_far(labels, pc, cases.as_slice())
        }
        _ => true,
    }
}

fn knows_words(labels: &Labels<'_>, words: &[Seq<u8>]) -> bool
    ensures { result ≡ knows (place_in labels.now) words.now }
{
    for word in words {
        if !labels.has(word.as_slice()) {
            return false;
        }
    }
    true
}

fn knows_cases(labels: &Labels<'_>, cases: &[(Number, Seq<u8>)]) -> bool
    ensures { result ≡ knows (place_in labels.now) (map (λ c. c.1) cases.now) }
{
    for case in cases {
        if !labels.has(case.1.as_slice()) {
            return false;
        }
    }
    true
}

/// Whether each label of the instruction has a place.
fn knows_operation(labels: &Labels<'_>, operation: &Operation) -> bool
    ensures { result ≡ knows (place_in labels.now) (operation_labels operation.now) }
{
    match operation {
        Operation::Jump(_, label) => labels.has(label.as_slice()),
        Operation::GotoW(label) => labels.has(label.as_slice()),
        Operation::Tableswitch(_, default, words) => {
            labels.has(default.as_slice()) && knows_words(labels, words.as_slice())
        }
        Operation::Lookupswitch(default, cases) => {
            labels.has(default.as_slice()) && knows_cases(labels, cases.as_slice())
        }
        _ => true,
    }
}

fn knows_catch(labels: &Labels<'_>, entry: &CatchLine) -> bool
    ensures { result ≡ knows (place_in labels.now) (catch_labels entry.now) }
{
    labels.has(entry.from.as_slice())
        && labels.has(entry.to.as_slice())
        && labels.has(entry.handler.as_slice())
}

/// Whether each label that the line names has a place.
fn knows(labels: &Labels<'_>, item: &Item) -> bool
    ensures { result ≡ knows (place_in labels.now) (item_labels item.now) }
{
    match item {
        Item::Insn(operation) => knows_operation(labels, operation),
        Item::Catch(entry) => knows_catch(labels, entry),
        _ => true,
    }
}

/// Whether the code passes 65,535 bytes with an instruction of `size` bytes at a place.
fn passes(pc: usize, size: usize) -> bool
    requires { size < 2 ^ 40 }
    ensures { result ≡ passes pc size }
{
    pc <= 0xffff && 0xffff < pc + size
}

fn operation_is_out(
    labels: &Labels<'_>,
    pc: usize,
    fits: bool,
    size: usize,
    operation: &Operation,
) -> bool
    requires { size < 2 ^ 40 }
    ensures { result ≡ operation_is_out (place_in labels.now) pc fits size operation.now }
{
    !fits || !reaches(labels, pc, operation) || passes(pc, size)
}

fn catch_is_out(labels: &Labels<'_>, entries: usize, entry: &CatchLine) -> bool
    ensures { result ≡ catch_is_out (place_in labels.now) entries entry.now }
{
    labels.target(entry.to.as_slice()) <= labels.target(entry.from.as_slice()) || 0xffff <= entries
}

/// Whether what the line says is out of range. `fits` says whether its operands have room in their fields.
fn item_is_out(
    labels: &Labels<'_>,
    entries: usize,
    pc: usize,
    fits: bool,
    size: usize,
    item: &Item,
) -> bool
    requires { size < 2 ^ 40 }
    ensures { result ≡ item_is_out (place_in labels.now) entries pc fits size item.now }
{
    match item {
        Item::Insn(operation) => operation_is_out(labels, pc, fits, size, operation),
        Item::Catch(entry) => catch_is_out(labels, entries, entry),
        _ => false,
    }
}

/// Whether the line is out of range.
fn is_out(
    labels: &Labels<'_>,
    entries: usize,
    pc: usize,
    fits: bool,
    size: usize,
    line: &PooledLine<'_>,
) -> bool
    requires { size < 2 ^ 40 }
    ensures { result ≡ is_out (place_in labels.now) entries pc fits size line.now }
{
    line.need().is_none()
        || item_is_out(labels, entries, pc, fits, size, &line.code().item)
        || (line.code().ends && pc == 0)
}

/// The fault of a line, where `repeated` says whether an earlier line has its label.
fn fault_of(
    labels: &Labels<'_>,
    repeated: bool,
    entries: usize,
    pc: usize,
    fits: bool,
    size: usize,
    line: &PooledLine<'_>,
) -> Option<AsmFault>
    requires { size < 2 ^ 40 }
    ensures { result ≡ fault_of (place_in labels.now) repeated entries pc fits size line.now }
{
    let number = line.code().line;
    if !knows(labels, &line.code().item) {
        Some(AsmFault::UnknownLabel { line: number })
    } else if repeated {
        Some(AsmFault::DuplicateLabel { line: number })
    } else if is_out(labels, entries, pc, fits, size, line) {
        Some(AsmFault::OutOfRange { line: number })
    } else {
        None
    }
}

/// Whether the label stood before; then it has.
fn is_repeated<'a>(seen: &mut NameSet<'a>, label: &'a Option<Seq<u8>>) -> Result<bool, AllocError>
    ensures labels { OnOk result (is_among seen.new ≡ with_seen (is_among seen.old) label.now) }
    ensures repeated { IfOk result (λ repeated. repeated ≡ option_map_or (is_among seen.old) label.now false) }
{
    match label {
        Some(label) => Ok(!add_label(seen, label.as_slice())?),
        None => Ok(false),
    }
}

/// The number of entries of the exception table with a further line.
fn with_item(entries: usize, item: &Item) -> usize
    requires { entries < 2 ^ 32 }
    ensures { result ≡ (if is_catch item.now then entries + 1 else entries) }
{
    match item {
        Item::Catch(_) => entries + 1,
        _ => entries,
    }
}

/// The first fault of the lines. `nothing` has no labels, and `seen` none yet.
fn first_fault_seen<'a>(
    alloc: Global,
    nothing: &Labels<'_>,
    labels: &Labels<'_>,
    lines: &[PooledLine<'a>],
    seen: &mut NameSet<'a>,
) -> Result<Option<AsmFault>, AllocError>
    requires none { nothing.now ≡ [] }
    requires fresh { seen.old ≡ [] }
    ensures { IfOk result (λ o. o ≡ first_fault (place_in labels.now) lines.now) }
{
    let mut entries = 0;
    let mut pc = 0;
    for line in lines {
        let (size, fits) = size_at(alloc, nothing, pc, line)?;
        let code = line.code();
        let repeated = is_repeated(seen, &code.label)?;
        if let Some(fault) = fault_of(labels, repeated, entries, pc, fits, size, line) {
            return Ok(Some(fault));
        }
        entries = with_item(entries, &code.item);
        pc += size;
    }
    Ok(None)
}

/// The first fault of the lines. `nothing` has no labels.
pub(crate) fn first_fault(
    alloc: Global,
    nothing: &Labels<'_>,
    labels: &Labels<'_>,
    lines: &[PooledLine<'_>],
) -> Result<Option<AsmFault>, AllocError>
    requires { nothing.now ≡ [] }
    ensures { IfOk result (λ o. o ≡ first_fault (place_in labels.now) lines.now) }
{
    let mut seen = NameSet::new(alloc);
    first_fault_seen(alloc, nothing, labels, lines, &mut seen)
}
