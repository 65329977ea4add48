//! What is due at an open node.
ghost use Rattle.std.specs.Prelude.{◌↔◌, IsTrue, All};
ghost use Rattle.graph_build.specs.Rules.{HaveSamePositions};

use crate::work::Work;
use abs_cells::{AbsState, Id, Pairs};
use abs_reach::{are_same_heads, is_same_mode};
use graph_build::Grower;
use list_views::Seq;
use std::alloc::{AllocError, Global};

/// What is due at a node.
#[derive(Drop)]
pub(crate) enum Due {
    /// It is expanded.
    Growing,
    /// It is an instance of an earlier node, by a map.
    Matching(u32, Seq<(Id, Id)>),
    /// It is an instance of the widening of the state of a node above by its own.
    Widening(u32),
}

/// Whether two states have the same positions.
pub(crate) fn have_same_positions<P: Pairs>(a: &AbsState<P>, b: &AbsState<P>) -> bool
    ensures { IsTrue result ↔ HaveSamePositions a.now b.now }
{
    if !is_same_mode(a.throwing(), b.throwing()) {
        return false;
    }
    are_same_heads(a.frames(), b.frames())
}

/// Whether the nodes of these numbers have the same positions.
fn are_alike<P: Pairs>(states: &Seq<AbsState<P>>, n: u32, u: u32) -> bool {
    let Some(state) = states.get(n as usize) else {
        return false;
    };
    let Some(other) = states.get(u as usize) else {
        return false;
    };
    have_same_positions(state, other)
}

/// Whether a node is an expanded one with the positions of another.
fn is_alike<P: Pairs>(states: &Seq<AbsState<P>>, work: &Work, n: u32, u: u32) -> bool {
    work.is_expanded(u) && are_alike(states, n, u)
}

/// The nearest expanded node with the positions of a node that stands above another one.
fn nearest_above<P: Pairs>(
    states: &Seq<AbsState<P>>,
    work: &Work,
    n: u32,
    below: u32,
) -> Option<u32> {
    let mut at = below;
    for _ in 0..work.count() {
        if at == 0 {
            return None;
        }
        at = work.parent(at);
        if is_alike(states, work, n, at) {
            return Some(at);
        }
    }
    None
}

/// A map by which the state of a node is an instance of another node's.
#[tactic(auto, using(crate::proofs::Good::got, crate::proofs::Good::kept))]
fn map_to<P: Pairs, G: Grower<P>>(
    alloc: Global,
    grower: &mut G,
    states: &Seq<AbsState<P>>,
    n: u32,
    u: u32,
) -> Result<Option<Seq<(Id, Id)>>, AllocError>
    requires good { All (G.good (G.meaning grower.old)) states.now }
    ensures still { All (G.good (G.meaning grower.new)) states.now }
{
    let Some(state) = states.get(n as usize) else {
        return Ok(None);
    };
    let Some(other) = states.get(u as usize) else {
        return Ok(None);
    };
    grower.matches(alloc, state, other)
}

/// Whether a node stands above another one.
fn is_above(work: &Work, u: u32, n: u32) -> bool {
    let mut at = n;
    for _ in 0..work.count() {
        if at <= u {
            return at == u;
        }
        at = work.parent(at);
    }
    false
}

/// The first expanded node with the positions of a node of which it is an instance, and the map. Nodes above it may be left out.
fn first_found<P: Pairs, G: Grower<P>>(
    alloc: Global,
    grower: &mut G,
    states: &Seq<AbsState<P>>,
    work: &Work,
    n: u32,
    aside: bool,
) -> Result<Option<(u32, Seq<(Id, Id)>)>, AllocError>
    requires good { All (G.good (G.meaning grower.old)) states.now }
    ensures still { All (G.good (G.meaning grower.new)) states.now }
{
    for u in 0..work.count() {
        if !is_alike(states, work, n, u) || (aside && is_above(work, u, n)) {
            continue;
        }
        if let Some(map) = map_to(alloc, grower, states, n, u)? {
            return Ok(Some((u, map)));
        }
    }
    Ok(None)
}

/// What is due at a head that was expanded twice on the way to it: to be an instance of the nearest of these, or of one aside, or of the
/// widening of the nearest.
fn due_below<P: Pairs, G: Grower<P>>(
    alloc: Global,
    grower: &mut G,
    states: &Seq<AbsState<P>>,
    work: &Work,
    n: u32,
    near: u32,
) -> Result<Due, AllocError>
    requires good { All (G.good (G.meaning grower.old)) states.now }
    ensures still { All (G.good (G.meaning grower.new)) states.now }
{
    if let Some(map) = map_to(alloc, grower, states, n, near)? {
        return Ok(Due::Matching(near, map));
    }
    match first_found(alloc, grower, states, work, n, true)? {
        Some((u, map)) => Ok(Due::Matching(u, map)),
        None => Ok(Due::Widening(near)),
    }
}

/// What is due at a head whose first two visits on each way are expanded.
fn due_peeled<P: Pairs, G: Grower<P>>(
    alloc: Global,
    grower: &mut G,
    states: &Seq<AbsState<P>>,
    work: &Work,
    n: u32,
) -> Result<Due, AllocError>
    requires good { All (G.good (G.meaning grower.old)) states.now }
    ensures still { All (G.good (G.meaning grower.new)) states.now }
{
    let Some(near) = nearest_above(states, work, n, n) else {
        return Ok(Due::Growing);
    };
    if nearest_above(states, work, n, near).is_none() {
        return Ok(Due::Growing);
    }
    due_below(alloc, grower, states, work, n, near)
}

/// What is due at a head of a graph that grows as the first one.
fn due_plain<P: Pairs, G: Grower<P>>(
    alloc: Global,
    grower: &mut G,
    states: &Seq<AbsState<P>>,
    work: &Work,
    n: u32,
) -> Result<Due, AllocError>
    requires good { All (G.good (G.meaning grower.old)) states.now }
    ensures still { All (G.good (G.meaning grower.new)) states.now }
{
    if let Some((u, map)) = first_found(alloc, grower, states, work, n, false)? {
        return Ok(Due::Matching(u, map));
    }
    match nearest_above(states, work, n, n) {
        Some(near) => Ok(Due::Widening(near)),
        None => Ok(Due::Growing),
    }
}

/// Whether a node is a head that is no widening.
fn is_seeking<P: Pairs, G: Grower<P>>(
    grower: &G,
    states: &Seq<AbsState<P>>,
    work: &Work,
    n: u32,
) -> bool {
    match states.get(n as usize) {
        Some(state) => grower.is_head(state) && !work.is_widening(n),
        None => false,
    }
}

/// What is due at an open node.
pub(crate) fn due_at<P: Pairs, G: Grower<P>>(
    alloc: Global,
    grower: &mut G,
    states: &Seq<AbsState<P>>,
    work: &Work,
    n: u32,
    peels: bool,
) -> Result<Due, AllocError>
    requires good { All (G.good (G.meaning grower.old)) states.now }
    ensures still { All (G.good (G.meaning grower.new)) states.now }
{
    if !is_seeking(grower, states, work, n) {
        return Ok(Due::Growing);
    }
    if peels {
        due_peeled(alloc, grower, states, work, n)
    } else {
        due_plain(alloc, grower, states, work, n)
    }
}
