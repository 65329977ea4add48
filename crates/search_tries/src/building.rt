//! Graphs that are built in other ways than the first one.
ghost use Rattle.std.specs.Prelude.{◌≡◌, ◌≤◌, ◌++◌, All, IfOk, IfSome, OnOk, length};
ghost use Rattle.search_tries.specs.inner.Good.{AreGood};
ghost use Rattle.term_graph.specs.Limits.{most_nodes};

use crate::due::{Due, due_at, have_same_positions};
use crate::work::{Ahead, Work};
use abs_cells::{AbsState, Id, Pairs};
use graph_build::{BuildFault, GrowFault, Grower, Grown};
use list_views::Seq;
use std::alloc::{AllocError, Global};
use term_graph::{By, Graph, MOST_NODES, Node};

/// How a graph is built.
#[derive(Clone, Copy)]
pub struct Way {
    /// Whether the first two visits of a head on each way are expanded as every other node.
    pub peels: bool,
    /// For how many growths a graph looks ahead before a head is widened.
    pub ahead: u32,
    /// How many nodes the graph has at most.
    pub nodes: u32,
    /// How many growths are made at most, with those that are taken back.
    pub growths: u32,
}

/// What becomes of a graph.
#[derive(Clone, Copy)]
enum Turn {
    /// It goes on growing.
    Going,
    /// No node is open.
    Closed,
    /// It is given up.
    Stopped,
}

/// Adds states at the end.
fn append<P: Pairs>(states: &mut Seq<AbsState<P>>, more: Seq<AbsState<P>>) -> Result<(), AllocError>
    ensures { OnOk result (states.new ≡ states.old ++ more) }
{
    for state in more.into_vec() {
        states.push(state)?;
    }
    Ok(())
}

/// Adds so many children of a node, and gives their numbers.
fn add_children(alloc: Global, work: &mut Work, n: u32, count: usize) -> Result<(), AllocError> {
    let mut named = Seq::new(alloc);
    for _ in 0..count {
        named.push(work.count())?;
        work.add(n)?;
    }
    work.leave(n, By::Expand(named));
    Ok(())
}

/// Whether so many nodes more are within the limit.
fn has_room(work: &Work, count: usize, way: &Way) -> bool {
    work.ways.len() <= way.nodes as usize && count <= way.nodes as usize - work.ways.len()
}

/// What a node becomes that is expanded.
#[tactic(auto, using(crate::proofs::Good::got, crate::proofs::Good::kept, crate::proofs::Good::grown_kept))]
fn grown_at<P: Pairs, G: Grower<P>>(
    alloc: Global,
    grower: &mut G,
    states: &Seq<AbsState<P>>,
    n: u32,
) -> Result<Option<Grown<P>>, BuildFault>
    requires good { All (G.good (G.meaning grower.old)) states.now }
    ensures grown { IfOk result (λ found. IfSome found (AreGood (G.good (G.meaning grower.new)))) }
    ensures still { All (G.good (G.meaning grower.new)) states.now }
{
    let Some(state) = states.get(n as usize) else {
        return Ok(None);
    };
    match grower.expand(alloc, state) {
        Ok(Grown::End) => Ok(Some(Grown::End)),
        Ok(Grown::Children(children)) => Ok(Some(Grown::Children(children))),
        Err(GrowFault::TooManyIds) => Ok(None),
        Err(GrowFault::Memory) => Err(BuildFault::Memory),
    }
}

/// Expands a node.
#[tactic(auto, using(crate::proofs::Good::appended))]
fn expand_at<P: Pairs, G: Grower<P>>(
    alloc: Global,
    grower: &mut G,
    states: &mut Seq<AbsState<P>>,
    work: &mut Work,
    n: u32,
    way: &Way,
) -> Result<Turn, BuildFault>
    requires good { All (G.good (G.meaning grower.old)) states.old }
    ensures still { OnOk result (All (G.good (G.meaning grower.new)) states.new) }
{
    match grown_at(alloc, grower, states, n)? {
        None => Ok(Turn::Stopped),
        Some(Grown::End) => {
            work.leave(n, By::End);
            Ok(Turn::Going)
        }
        Some(Grown::Children(children)) => {
            if !has_room(work, children.len(), way) {
                return Ok(Turn::Stopped);
            }
            add_children(alloc, work, n, children.len())?;
            append(states, children)?;
            Ok(Turn::Going)
        }
    }
}

/// The widening of the state of a node by another node's, with the map by which that one is an instance of it.
#[tactic(auto, using(crate::proofs::Good::one_kept))]
fn wide_of<P: Pairs, G: Grower<P>>(
    alloc: Global,
    grower: &mut G,
    above: &AbsState<P>,
    state: &AbsState<P>,
) -> Result<Option<(AbsState<P>, Seq<(Id, Id)>)>, BuildFault>
    requires above { G.good (G.meaning grower.old) above.now }
    requires state { G.good (G.meaning grower.old) state.now }
    ensures wide { IfOk result (λ found. IfSome found (λ wide. G.good (G.meaning grower.new) wide.0)) }
    ensures same { G.meaning grower.new ≡ G.meaning grower.old }
{
    if !have_same_positions(state, above) {
        return Ok(None);
    }
    match grower.widen(alloc, above, state) {
        Ok(wide) => match grower.matches(alloc, state, &wide)? {
            Some(map) => Ok(Some((wide, map))),
            None => Ok(None),
        },
        Err(GrowFault::TooManyIds) => Ok(None),
        Err(GrowFault::Memory) => Err(BuildFault::Memory),
    }
}

/// The same for nodes by their numbers.
#[tactic(auto, using(crate::proofs::Good::got, crate::proofs::Good::kept))]
fn wide_at<P: Pairs, G: Grower<P>>(
    alloc: Global,
    grower: &mut G,
    states: &Seq<AbsState<P>>,
    n: u32,
    above: u32,
) -> Result<Option<(AbsState<P>, Seq<(Id, Id)>)>, BuildFault>
    requires good { All (G.good (G.meaning grower.old)) states.now }
    ensures wide { IfOk result (λ found. IfSome found (λ wide. G.good (G.meaning grower.new) wide.0)) }
    ensures still { All (G.good (G.meaning grower.new)) states.now }
{
    let Some(over) = states.get(above as usize) else {
        return Ok(None);
    };
    let Some(state) = states.get(n as usize) else {
        return Ok(None);
    };
    wide_of(alloc, grower, over, state)
}

/// Leaves a node as an instance of a new one, which is the next.
fn open(work: &mut Work, n: u32, map: Seq<(Id, Id)>) -> Result<(), AllocError> {
    let target = work.count();
    work.leave(n, By::Instance { target, map });
    work.add(n)
}

/// Makes a node an instance of the widening of a node above.
#[tactic(auto, using(crate::proofs::Good::pushed))]
fn widen_at<P: Pairs, G: Grower<P>>(
    alloc: Global,
    grower: &mut G,
    states: &mut Seq<AbsState<P>>,
    work: &mut Work,
    n: u32,
    above: u32,
    way: &Way,
) -> Result<Turn, BuildFault>
    requires good { All (G.good (G.meaning grower.old)) states.old }
    ensures still { OnOk result (All (G.good (G.meaning grower.new)) states.new) }
{
    if !has_room(work, 1, way) {
        return Ok(Turn::Stopped);
    }
    match wide_at(alloc, grower, states, n, above)? {
        Some((wide, map)) => {
            open(work, n, map)?;
            states.push(wide)?;
            Ok(Turn::Going)
        }
        None => Ok(Turn::Stopped),
    }
}

/// Goes back to where the graph began to look ahead, and widens there.
#[tactic(auto, using(crate::proofs::Good::taken))]
fn turn_back<P: Pairs, G: Grower<P>>(
    alloc: Global,
    grower: &mut G,
    states: &mut Seq<AbsState<P>>,
    work: &mut Work,
    ahead: &Ahead,
    way: &Way,
) -> Result<Turn, BuildFault>
    requires good { All (G.good (G.meaning grower.old)) states.old }
    ensures still { OnOk result (All (G.good (G.meaning grower.new)) states.new) }
{
    states.truncate(ahead.nodes);
    work.go_back(ahead);
    widen_at(alloc, grower, states, work, ahead.node, ahead.above, way)
}

/// Widens a node by one above, or looks ahead before that.
fn widen_or_look<P: Pairs, G: Grower<P>>(
    alloc: Global,
    grower: &mut G,
    states: &mut Seq<AbsState<P>>,
    work: &mut Work,
    n: u32,
    above: u32,
    way: &Way,
) -> Result<Turn, BuildFault>
    requires good { All (G.good (G.meaning grower.old)) states.old }
    ensures still { OnOk result (All (G.good (G.meaning grower.new)) states.new) }
{
    if work.ahead.is_some() {
        return expand_at(alloc, grower, states, work, n, way);
    }
    if way.ahead == 0 {
        return widen_at(alloc, grower, states, work, n, above, way);
    }
    work.look_ahead(n, above, way.ahead);
    expand_at(alloc, grower, states, work, n, way)
}

/// Leaves an open node as is due.
fn leave_at<P: Pairs, G: Grower<P>>(
    alloc: Global,
    grower: &mut G,
    states: &mut Seq<AbsState<P>>,
    work: &mut Work,
    n: u32,
    way: &Way,
) -> Result<Turn, BuildFault>
    requires good { All (G.good (G.meaning grower.old)) states.old }
    ensures still { OnOk result (All (G.good (G.meaning grower.new)) states.new) }
{
    match due_at(alloc, grower, states, work, n, way.peels)? {
        Due::Growing => expand_at(alloc, grower, states, work, n, way),
        Due::Matching(target, map) => {
            work.leave(n, By::Instance { target, map });
            Ok(Turn::Going)
        }
        Due::Widening(above) => widen_or_look(alloc, grower, states, work, n, above, way),
    }
}

/// The place that a graph goes back to now, if it has looked ahead for as long as it may.
fn spent(work: &Work) -> Option<Ahead> {
    match work.ahead {
        Some(ahead) => { if ahead.left == 0 { Some(ahead) } else { None } }
        None => None,
    }
}

/// One growth.
fn next_growth<P: Pairs, G: Grower<P>>(
    alloc: Global,
    grower: &mut G,
    states: &mut Seq<AbsState<P>>,
    work: &mut Work,
    way: &Way,
) -> Result<Turn, BuildFault>
    requires good { All (G.good (G.meaning grower.old)) states.old }
    ensures still { OnOk result (All (G.good (G.meaning grower.new)) states.new) }
{
    work.settle();
    if let Some(ahead) = spent(work) {
        return turn_back(alloc, grower, states, work, &ahead, way);
    }
    work.spend();
    match work.next() {
        Some(n) => leave_at(alloc, grower, states, work, n, way),
        None => Ok(Turn::Closed),
    }
}

/// The graph of these states, each left as it is yet to be; None where they are too many.
fn graph_of_states<P: Pairs>(
    alloc: Global,
    states: Seq<AbsState<P>>,
) -> Result<Option<Graph<P>>, AllocError> {
    let mut graph = Graph::new(alloc);
    for state in states.into_vec() {
        if graph.len() >= MOST_NODES {
            return Ok(None);
        }
        graph.push(Node::new(state, By::Todo))?;
    }
    Ok(Some(graph))
}

/// Leaves the nodes of a graph in these ways.
fn leave_all<P: Pairs>(graph: &mut Graph<P>, ways: Seq<By>) {
    let mut n: u32 = 0;
    for by in ways.into_vec() {
        if (n as usize) < graph.len() {
            graph.set_by(n, by);
            n = n.saturating_add(1);
        }
    }
}

/// The graph of these states, each left in its way; None where they are too many.
fn graph_of<P: Pairs>(
    alloc: Global,
    states: Seq<AbsState<P>>,
    ways: Seq<By>,
) -> Result<Option<Graph<P>>, AllocError>
    ensures { IfOk result (λ found. IfSome found (λ graph. length graph ≤ most_nodes)) }
{
    let Some(mut graph) = graph_of_states(alloc, states)? else {
        return Ok(None);
    };
    leave_all(&mut graph, ways);
    if graph.len() <= MOST_NODES {
        Ok(Some(graph))
    } else {
        Ok(None)
    }
}

/// A graph that grows from a state in this way; None where it has too many nodes, would take too many growths, or has a state with too
/// many ids. Nothing is said of the graph: it may be no good one, and then the check refuses it.
///
/// # Errors
///
/// Want of memory.
pub fn grow<P: Pairs, G: Grower<P>>(
    alloc: Global,
    grower: &mut G,
    root: AbsState<P>,
    way: &Way,
) -> Result<Option<Graph<P>>, BuildFault>
    requires root { G.good (G.meaning grower.old) root }
    ensures few { IfOk result (λ found. IfSome found (λ graph. length graph ≤ most_nodes)) }
{
    let mut states = Seq::new(alloc);
    states.push(root)?;
    let mut work = Work::new(alloc);
    work.add(0)?;
    'growths: for _ in 0..way.growths {
        match next_growth(alloc, grower, &mut states, &mut work, way)? {
            Turn::Going => {}
            Turn::Closed => return Ok(graph_of(alloc, states, work.ways)?),
            Turn::Stopped => return Ok(None),
        }
    }
    Ok(None)
}
