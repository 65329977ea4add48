//! The edges of a graph that are no steps.
ghost use Rattle.std.specs.Prelude.{◌≡◌, IfOk};
ghost use Rattle.loop_check.specs.Loops.{is_step, idle_among, idle_row, links_at, idle_rows};

use abs_cells::Pairs;
use list_views::Seq;
use std::alloc::{AllocError, Global};
use term_graph::{By, Link, Links, NodeSource};

/// Whether the edge to the child at a place is one step of the machine.
fn is_step(links: &[Link], place: usize) -> bool
    ensures { result ≡ is_step links.now place }
{
    match links.get(place) {
        Some(link) => link.step,
        None => false,
    }
}

/// Of the nodes that a node names those to which no step leads.
fn idle_among(alloc: Global, links: &[Link], named: &[u32]) -> Result<Seq<u32>, AllocError>
    ensures { IfOk result (λ idle. idle ≡ idle_among links.now 0 named.now) }
{
    let mut idle = Seq::new(alloc);
    for (place, n) in named.iter().enumerate() {
        if !is_step(links, place) {
            idle.push(*n)?;
        }
    }
    Ok(idle)
}

/// The nodes to which a node has an edge that is no step.
fn idle_row(alloc: Global, by: &By, links: &[Link]) -> Result<Seq<u32>, AllocError>
    ensures { IfOk result (λ row. row ≡ idle_row by.now links.now) }
{
    match by {
        By::Expand(named) => idle_among(alloc, links, named.as_slice()),
        By::Instance { target, .. } => Seq::from_slice(alloc, &[*target]),
        By::End | By::Todo => Ok(Seq::new(alloc)),
    }
}

/// The links of a node.
fn links_at(links: &Links, n: u32) -> &[Link]
    ensures { result.now ≡ links_at links.now.nodes n }
{
    match links.nodes.get(n as usize) {
        Some(own) => own.as_slice(),
        None => &[],
    }
}

/// For each node those to which it has an edge that is no step.
#[tactic(auto, using(crate::proofs::Waiting::all_listed))]
pub(crate) fn idle_rows<P: Pairs, S: NodeSource<P>>(
    alloc: Global,
    source: &mut S,
    links: &Links,
) -> Result<Seq<Seq<u32>>, AllocError>
    ensures rows { IfOk result (λ rows. rows ≡ idle_rows (S.graph source.old) links.now.nodes) }
    ensures same { S.graph source.new ≡ S.graph source.old }
{
    let mut rows = Seq::new(alloc);
    for n in 0..source.count() {
        let by = source.by(alloc, n)?;
        rows.push(idle_row(alloc, &by, links_at(links, n))?)?;
    }
    Ok(rows)
}
