//! Where control goes from an instruction, and how many bytes the instruction has.
ghost use Rattle.std.specs.Prelude.{◌≡◌, ◌+◌, ◌*◌, ◌<◌, ◌^◌, length, IfOk, map, ◌∷◌};
ghost use Rattle.code_decode.specs.Codes.{spelling_targets, targets};
ghost use Rattle.code_decode.specs.Encoding.{plain_text};
ghost use Rattle.code_decode.specs.Flow.{falls_through};
ghost use Rattle.code_decode.specs.SpellingViews.{shown};
ghost use Rattle.code_decode.specs.Texts.{padding_of, zeros, table_text, lookup_text, spelling_text, IsTable, IsLookup};
ghost use Rattle.code_decode.specs.Texts.{FitsSpelling, Fits};

use crate::spelling::{SpellingView, padding_of, spelling_of};
use code_forms::list_views::Seq;
use code_forms::{Case, Insn};
use std::alloc::{AllocError, Global};

/// Whether the instruction behind this one may run after it.
pub fn falls_through(insn: &Insn) -> bool
    ensures { result ≡ falls_through insn.now }
{
    match insn {
        Insn::Goto(_) => false,
        Insn::GotoW(_) => false,
        Insn::Tableswitch { .. } => false,
        Insn::Lookupswitch { .. } => false,
        Insn::Ireturn => false,
        Insn::Areturn => false,
        Insn::Return => false,
        Insn::Athrow => false,
        _ => true,
    }
}

fn case_targets(alloc: Global, default: u16, cases: &[Case]) -> Result<Seq<u16>, AllocError>
    ensures { IfOk result (λ s. s ≡ default ∷ map (λ c. c.target) cases.now) }
{
    let mut found = Seq::new(alloc);
    found.push(default)?;
    for case in cases {
        found.push(case.target)?;
    }
    Ok(found)
}

fn table_targets(alloc: Global, default: u16, targets: &[u16]) -> Result<Seq<u16>, AllocError>
    ensures { IfOk result (λ s. s ≡ default ∷ targets.now) }
{
    let mut found = Seq::new(alloc);
    found.push(default)?;
    found.extend_from_slice(targets)?;
    Ok(found)
}

fn spelling_targets(alloc: Global, spelling: SpellingView<'_>) -> Result<Seq<u16>, AllocError>
    ensures { IfOk result (λ s. s ≡ spelling_targets (shown spelling.entry)) }
{
    match spelling {
        SpellingView::Jump(_, target) => Seq::from_slice(alloc, &[target]),
        SpellingView::FarJump(_, target) => Seq::from_slice(alloc, &[target]),
        SpellingView::Table(_, default, _, targets) => table_targets(
            alloc,
            default,
            targets.as_slice(),
        ),
        SpellingView::Lookup(_, default, cases) => case_targets(alloc, default, cases.as_slice()),
        _ => Ok(Seq::new(alloc)),
    }
}

/// The places that the instruction may jump to; in a switch the default comes first.
///
/// # Errors
///
/// Want of memory.
pub fn targets(alloc: Global, insn: &Insn) -> Result<Seq<u16>, AllocError>
    ensures { IfOk result (λ s. s ≡ targets insn.now) }
{
    spelling_targets(alloc, spelling_of(insn))
}

#[tactic(auto, using(crate::proofs::Lengths::few_targets, crate::proofs::Lengths::table_len))]
fn table_length(pc: u16, default: u16, low: &i32, targets: &[u16]) -> usize
    requires { IsTable pc default low.now targets.now }
    ensures value { result ≡ length (table_text pc (zeros (padding_of pc)) default low.now targets.now) }
    ensures small { result < 2 ^ 40 }
{
    padding_of(pc) + 12 + 4 * targets.len()
}

#[tactic(auto, using(crate::proofs::Lengths::lookup_len))]
fn lookup_length(pc: u16, default: u16, cases: &[Case]) -> usize
    requires { IsLookup pc default cases.now }
    ensures value { result ≡ length (lookup_text pc (zeros (padding_of pc)) default cases.now) }
    ensures small { result < 2 ^ 40 }
{
    padding_of(pc) + 8 + 8 * cases.len()
}

fn spelling_length(pc: u16, spelling: SpellingView<'_>) -> usize
    requires { FitsSpelling pc (shown spelling) }
    ensures { result ≡ length (spelling_text pc (zeros (padding_of pc)) (shown spelling.entry)) }
{
    match spelling {
        SpellingView::Plain(_) => 1,
        SpellingView::Byte(_, _) => 2,
        SpellingView::Pair(_, _) => 3,
        SpellingView::SignedByte(_, _) => 2,
        SpellingView::SignedPair(_, _) => 3,
        SpellingView::Jump(_, _) => 3,
        SpellingView::FarJump(_, _) => 5,
        SpellingView::Increment(_, _, _) => 3,
        SpellingView::Table(_, default, low, targets) => {
            table_length(pc, default, &low, targets.as_slice()) + 1
        }
        SpellingView::Lookup(_, default, cases) => lookup_length(pc, default, cases.as_slice()) + 1,
        SpellingView::Interface(_, _, _) => 5,
        SpellingView::Array(_, _) => 2,
        SpellingView::WideLocal(_, _) => 4,
        SpellingView::WideIncrement(_, _, _) => 6,
    }
}

/// The number of bytes of an instruction at a place.
pub fn length(pc: u16, insn: &Insn) -> usize
    requires { Fits pc insn.now }
    ensures { result ≡ length (plain_text pc insn.now) }
{
    spelling_length(pc, spelling_of(insn))
}
