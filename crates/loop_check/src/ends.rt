//! The `End` nodes of a graph.
ghost use Rattle.std.specs.Prelude.{◌≡◌, IfOk};
ghost use Rattle.loop_check.specs.Loops.{IsFirstEnd};
ghost use Rattle.loop_check.specs.inner.Words.{is_end};

use abs_cells::Pairs;
use std::alloc::{AllocError, Global};
use term_graph::{By, NodeSource};

/// Whether a node says that runs end.
fn is_end(by: &By) -> bool
    ensures { result ≡ is_end by.now }
{
    matches!(by, By::End)
}

/// The least `End` node of a graph, if there is one.
///
/// # Errors
///
/// Want of memory.
#[tactic(auto, using(crate::proofs::Seeking::found_end, crate::proofs::Seeking::no_end_here, crate::proofs::Seeking::none_at_all))]
pub fn first_end<P: Pairs, S: NodeSource<P>>(
    alloc: Global,
    source: &mut S,
) -> Result<Option<u32>, AllocError>
    ensures first { IfOk result (IsFirstEnd (S.graph source.old)) }
    ensures same { S.graph source.new ≡ S.graph source.old }
{
    for n in 0..source.count() {
        let by = source.by(alloc, n)?;
        if is_end(&by) {
            return Ok(Some(n));
        }
    }
    Ok(None)
}
