//! The words for what keeps a graph and a state from showing that no run ends.
ghost use Rattle.std.specs.Prelude.{◌≡◌, IfOk};
ghost use Rattle.loop_check.specs.Lines.{cause_text, named};

use crate::fault::LoopFault;
use list_views::Seq;
use list_views::fault_words::{joined, number_field};
use std::alloc::{AllocError, Global};

/// A fault's name, and its node.
fn named(alloc: Global, name: &[u8], node: u32) -> Result<Seq<u8>, AllocError>
    ensures { IfOk result (λ text. text ≡ named name.now node) }
{
    let field = number_field(alloc, b"node", node as usize)?;
    joined(alloc, &[name, field.as_slice()])
}

/// A fault in words: its name, and its node where it has one. A graph's fault is named alone, since it has words of its own.
///
/// # Errors
///
/// Want of memory.
pub fn cause_text(alloc: Global, fault: LoopFault) -> Result<Seq<u8>, AllocError>
    ensures { IfOk result (λ text. text ≡ cause_text fault) }
{
    match fault {
        LoopFault::Graph { .. } => Seq::from_slice(alloc, b"Graph"),
        LoopFault::EndNode { node } => named(alloc, b"EndNode", node),
        LoopFault::IdleCycle { node } => named(alloc, b"IdleCycle", node),
        LoopFault::NotFitting => Seq::from_slice(alloc, b"NotFitting"),
        LoopFault::Memory => Seq::from_slice(alloc, b"Memory"),
    }
}
