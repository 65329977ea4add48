//! The cuts of a graph.
ghost use Rattle.std.specs.Prelude.{◌≡◌, ◌≤◌, ℕ, ◌<◌, length, false, IfOk, get_or};
ghost use Rattle.term_graph.specs.Limits.{most_nodes};
ghost use Rattle.prove_core.specs.Cuts.{is_target, AreTargets};
ghost use Rattle.prove_core.specs.inner.Words.{cuts_from, marked_by};

use abs_cells::Pairs;
use list_views::Seq;
use std::alloc::{AllocError, Global};
use term_graph::{By, Graph};

/// Marks the node of which a node that is left in this way is an instance, if it is one.
fn mark(by: &By, marks: &mut Vec<bool>)
    ensures { marks.new.items ≡ marked_by by.now marks.old.items }
{
    if let By::Instance { target, .. } = by {
        if (*target as usize) < marks.len() {
            marks[*target as usize] = true;
        }
    }
}

/// A mark for each node: whether it is the target of an instance.
#[tactic(auto, using(crate::proofs::Targets::marked_first, crate::proofs::Targets::marked_all))]
fn marks_of<P: Pairs>(alloc: Global, graph: &Graph<P>) -> Result<Vec<bool>, AllocError>
    requires few { length graph.now ≤ most_nodes }
    ensures count { IfOk result (λ marks. length marks.items ≡ length graph.now) }
    ensures marks { IfOk result (λ marks. (n : ℕ) → n < length graph.now → get_or marks.items n false ≡ is_target graph.now n) }
{
    let mut marks = vec![in alloc; false; graph.len()]?;
    for n in 0..graph.len() as u32 {
        mark(graph.at(n).by(), &mut marks);
    }
    Ok(marks)
}

/// Node 0 and the numbers of the marks that are set.
fn numbers_of(alloc: Global, marks: &[bool]) -> Result<Seq<u32>, AllocError>
    requires { length marks.now ≤ 4294967280 }
    ensures { IfOk result (λ cuts. cuts ≡ cuts_from 0 marks.now) }
{
    let mut cuts = Seq::new(alloc);
    for (n, mark) in marks.iter().enumerate() {
        if n == 0 || *mark {
            cuts.push(n as u32)?;
        }
    }
    Ok(cuts)
}

/// The cuts of a graph: node 0 and the targets of instances, rising.
///
/// # Errors
///
/// Want of memory.
#[tactic(auto, using(crate::proofs::Targets::cuts_are))]
pub(crate) fn cuts_of<P: Pairs>(alloc: Global, graph: &Graph<P>) -> Result<Seq<u32>, AllocError>
    requires few { length graph.now ≤ most_nodes }
    ensures { IfOk result (AreTargets graph.now) }
{
    let marks = marks_of(alloc, graph)?;
    numbers_of(alloc, &marks)
}
