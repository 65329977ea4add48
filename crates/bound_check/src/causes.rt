//! Why a text is no bound, in words.
ghost use Rattle.std.specs.Prelude.{◌≡◌, IfOk};
ghost use Rattle.bound_check.specs.Lines.{lin_name, lin_number, with_one, with_entry, fault_text, cause_text};

use crate::fault::BoundFault;
use crate::refusal::BoundRefusal;
use lin_core::LinFault;
use list_views::Seq;
use list_views::fault_words::{joined, number_field};
use std::alloc::{AllocError, Global};

fn lin_name(fault: LinFault) -> &'static [u8]
    ensures { result.now ≡ lin_name fault }
{
    match fault {
        LinFault::BadIndex { .. } => b"BadIndex",
        LinFault::NegativeMultiplier { .. } => b"NegativeMultiplier",
        LinFault::Limit { .. } => b"Limit",
    }
}

fn lin_number(fault: LinFault) -> u32
    ensures { result ≡ lin_number fault }
{
    match fault {
        LinFault::BadIndex { n } => n,
        LinFault::NegativeMultiplier { n } => n,
        LinFault::Limit { n } => n,
    }
}

/// A name with one field.
fn with_one(alloc: Global, name: &[u8], field: &[u8], value: u32) -> Result<Seq<u8>, AllocError>
    ensures { IfOk result (λ text. text ≡ with_one name.now field.now value) }
{
    let first = number_field(alloc, field, value as usize)?;
    joined(alloc, &[name, first.as_slice()])
}

/// A name with the number of an entry and one more field.
fn with_entry(
    alloc: Global,
    name: &[u8],
    entry: u32,
    field: &[u8],
    value: u32,
) -> Result<Seq<u8>, AllocError>
    ensures { IfOk result (λ text. text ≡ with_entry name.now entry field.now value) }
{
    let first = number_field(alloc, b"entry", entry as usize)?;
    let second = number_field(alloc, field, value as usize)?;
    joined(alloc, &[name, first.as_slice(), second.as_slice()])
}

/// The fault of entries in words.
fn fault_text(alloc: Global, fault: BoundFault) -> Result<Seq<u8>, AllocError>
    ensures { IfOk result (λ text. text ≡ fault_text fault) }
{
    match fault {
        BoundFault::NotRank { entry, step } => with_entry(alloc, b"NotRank", entry, b"step", step),
        BoundFault::BadList { entry } => with_one(alloc, b"BadList", b"entry", entry),
        BoundFault::Lin { entry, fault } => {
            with_entry(alloc, lin_name(fault), entry, b"n", lin_number(fault))
        }
        BoundFault::NotWeak { entry, rule } => with_entry(alloc, b"NotWeak", entry, b"rule", rule),
        BoundFault::Missing { step } => with_one(alloc, b"Missing", b"step", step),
        BoundFault::Memory => Seq::from_slice(alloc, b"Memory"),
    }
}

/// Why the bytes of a bound are refused, in words: a name and its fields.
///
/// # Errors
///
/// Want of memory.
pub fn cause_text(alloc: Global, refusal: &BoundRefusal) -> Result<Seq<u8>, AllocError>
    ensures { IfOk result (λ text. text ≡ cause_text refusal.now) }
{
    match refusal {
        BoundRefusal::NoText(fault) => fault.text(alloc),
        BoundRefusal::Faulty(fault) => fault_text(alloc, *fault),
    }
}
