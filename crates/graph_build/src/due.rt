//! What is due at a node: to be expanded, or to be an instance of an earlier node or of a widening.
ghost use Rattle.std.specs.Prelude.{◌≡◌, ◌<◌, ◌↔◌, ◌&&◌, not, nat_lt, ℕ, IsTrue, IfOk, length};
ghost use Rattle.abs_cells.specs.AbstractStates.{AbstractState};
ghost use Rattle.term_graph.specs.declared.nodes.By.{By};
ghost use Rattle.graph_build.specs.Rules.{HaveSamePositions};
ghost use Rattle.graph_build.specs.Disciplined.{IsNode, is_expanded};
ghost use Rattle.graph_build.specs.inner.Working.{is_instance, is_instance_at, parent_in, IsFound, NearestOr, NextOr, IsNextOpen};
ghost use Rattle.graph_build.specs.inner.Working.{IsNodeAlike, NodeMatches};

use crate::grower::Grower;
use abs_cells::{AbsState, Id, Pairs};
use abs_reach::{are_same_heads, is_same_mode};
use list_views::Seq;
use std::alloc::{AllocError, Global};
use term_graph::{By, Graph, Node, NodeSource};

/// What is due at a node.
#[derive(Drop)]
pub(crate) enum Next {
    /// It is expanded.
    Growing,
    /// It is an instance of an earlier node, by a map.
    Matching(u32, Seq<(Id, Id)>),
    /// It is an instance of the widening of an earlier node's state by its own.
    Widening(u32),
}

/// Whether two states have the same positions.
fn have_same_positions<P: Pairs>(a: &AbsState<P>, b: &AbsState<P>) -> bool
    ensures { IsTrue result ↔ HaveSamePositions a.now b.now }
{
    if !is_same_mode(a.throwing(), b.throwing()) {
        return false;
    }
    are_same_heads(a.frames(), b.frames())
}

/// Whether a node that is left in this way is expanded.
fn is_expanded(by: &By) -> bool
    ensures { result ≡ is_expanded by.now }
{
    matches!(by, By::Expand(_) | By::End)
}

/// Whether a node that is left in this way is an instance of another one.
fn is_instance(by: &By) -> bool
    ensures { result ≡ is_instance by.now }
{
    matches!(by, By::Instance { .. })
}

/// Whether the node of a number is an instance of another one.
fn is_instance_at<P: Pairs>(graph: &Graph<P>, n: u32) -> bool
    requires { n < length graph.now }
    ensures { result ≡ is_instance_at graph.now n }
{
    is_instance(graph.at(n).by())
}

/// Whether a node is an expanded one with the positions of a state.
fn is_alike<P: Pairs>(state: &AbsState<P>, node: &Node<P>) -> bool
    ensures { IsTrue result ↔ IsNodeAlike state.now node.now }
{
    if !is_expanded(node.by()) {
        return false;
    }
    have_same_positions(state, node.state())
}

/// A map by which a state is an instance of a node's, if that node is an expanded one with its positions.
fn match_with<P: Pairs, G: Grower<P>>(
    alloc: Global,
    grower: &mut G,
    state: &AbsState<P>,
    node: &Node<P>,
) -> Result<Option<Seq<(Id, Id)>>, AllocError>
    requires state { G.good (G.meaning grower.old) state.now }
    requires node { G.good (G.meaning grower.old) node.now.state }
    ensures found { IfOk result (λ found. NodeMatches (G.rules (G.meaning grower.old)) state.now node.now found) }
    ensures same { G.meaning grower.new ≡ G.meaning grower.old }
{
    if !is_alike(state, node) {
        return Ok(None);
    }
    grower.matches(alloc, state, node.state())
}

/// The first expanded node with the positions of a state of which the state is an instance, and the map.
fn first_found<P: Pairs, G: Grower<P>>(
    alloc: Global,
    grower: &mut G,
    graph: &Graph<P>,
    state: &AbsState<P>,
) -> Result<Option<(u32, Seq<(Id, Id)>)>, AllocError>
    requires state { G.good (G.meaning grower.old) state.now }
    requires good { (n : ℕ) (other : AbstractState) (by : By) → IsNode graph.now n other by → G.good (G.meaning grower.old) other }
    ensures found { IfOk result (λ found. IsFound (G.rules (G.meaning grower.old)) graph.now state.now found) }
    ensures same { G.meaning grower.new ≡ G.meaning grower.old }
{
    for u in 0..graph.count() {
        if let Some(map) = match_with(alloc, grower, state, graph.at(u))? {
            return Ok(Some((u, map)));
        }
    }
    Ok(None)
}

/// The nearest expanded node above a node with the positions of a state.
fn nearest_above<P: Pairs>(
    graph: &Graph<P>,
    parents: &[u32],
    n: u32,
    state: &AbsState<P>,
) -> Option<u32>
    requires within { n < length graph.now }
    requires parents { length parents.now ≡ length graph.now }
    requires lower { (m : ℕ) → 0 < m → m < length graph.now → parent_in parents.now m < m }
    ensures { NearestOr graph.now (parent_in parents.now) n state.now result }
{
    let mut at = n;
    while at > 0 {
        at = parents[at as usize];
        let node = graph.at(at);
        if is_alike(state, node) {
            return Some(at);
        }
    }
    None
}

/// Whether a node is one that looks for others before it is expanded.
fn is_seeking<P: Pairs, G: Grower<P>>(
    grower: &G,
    graph: &Graph<P>,
    parents: &[u32],
    n: u32,
    state: &AbsState<P>,
) -> bool
    requires within { n < length graph.now }
    requires parents { length parents.now ≡ length graph.now }
    requires lower { (m : ℕ) → 0 < m → m < length graph.now → parent_in parents.now m < m }
    ensures { result ≡ ((G.rules (G.meaning grower.now)).is_head state.now && not
        (nat_lt 0 n && is_instance_at graph.now (parent_in parents.now n))) }
{
    grower.is_head(state) && !(n > 0 && is_instance_at(graph, parents[n as usize]))
}

/// What is due at the next open node of a graph that grows.
pub(crate) fn next_at<P: Pairs, G: Grower<P>>(
    alloc: Global,
    grower: &mut G,
    graph: &Graph<P>,
    parents: &[u32],
    n: u32,
    state: &AbsState<P>,
) -> Result<Next, AllocError>
    requires sound { IsNextOpen (G.rules (G.meaning grower.old)) (G.good (G.meaning grower.old)) graph.now parents.now n state.now }
    ensures next { NextOr (G.rules (G.meaning grower.old)) graph.now (parent_in parents.now) n state.now result }
    ensures same { G.meaning grower.new ≡ G.meaning grower.old }
{
    if !is_seeking(grower, graph, parents, n, state) {
        return Ok(Next::Growing);
    }
    if let Some((u, map)) = first_found(alloc, grower, graph, state)? {
        return Ok(Next::Matching(u, map));
    }
    match nearest_above(graph, parents, n, state) {
        Some(u) => Ok(Next::Widening(u)),
        None => Ok(Next::Growing),
    }
}
