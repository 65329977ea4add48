//! The growths of a graph: what the next one is to be, and carrying it out.
ghost use Rattle.std.specs.Prelude.{◌≡◌, ◌+◌, ◌-◌, ◌^◌, ◌<◌, ◌≤◌, ◌↔◌, IsTrue, length, IfOk, OnOk};
ghost use Rattle.graph_build.specs.Disciplined.{IsDueAt};
ghost use Rattle.graph_build.specs.Disciplined.Due.{growing, widening};
ghost use Rattle.list_views.specs.Lists.{numbers_from};
ghost use Rattle.graph_build.specs.inner.Working.{seen, parent_in, IsNextOpen, PlanOr, HasRoom, of_root, with_one, with_all, grown};

use crate::due::{Next, next_at};
use crate::grower::{GrowFault, Grower, Grown};
use abs_cells::{AbsState, Id, Pairs};
use list_views::{Seq, Stack};
use std::alloc::{AllocError, Global};
use term_graph::{By, Graph, Node};

/// A graph that grows: the nodes so far, the number of each one's parent, and the open nodes, the next one on top.
#[derive(Drop)]
pub(crate) struct Growing<P: Pairs> {
    pub(crate) graph: Graph<P>,
    pub(crate) parents: Seq<u32>,
    pub(crate) waiting: Stack<u32>,
}

/// The next growth.
#[derive(Drop)]
pub(crate) enum Plan<P: Pairs> {
    /// The run ends with the next step.
    End,
    /// Children of these states.
    Children(Seq<AbsState<P>>),
    /// To be an instance of a node, by a map.
    Join(u32, Seq<(Id, Id)>),
    /// To be an instance of a new node of a widened state, by a map.
    Open(AbsState<P>, Seq<(Id, Id)>),
}

/// Why a graph grows no more.
#[derive(Clone, Copy, PartialEq, Eq)]
pub(crate) enum GrowthLimit {
    /// It would have more nodes than the limit.
    Nodes,
    /// A state would have too many ids.
    Ids,
    /// Want of memory.
    Memory,
}

/// Whether so many nodes more are within a limit.
fn has_room<P: Pairs>(graph: &Graph<P>, count: usize, limit: u32) -> bool
    ensures { IsTrue result ↔ (length graph.now + count ≤ limit) }
{
    graph.len() <= limit as usize && count <= limit as usize - graph.len()
}

impl<P: Pairs> Growing<P> {
    /// One open node of a state.
    pub(crate) fn of_root(alloc: Global, root: AbsState<P>) -> Result<Growing<P>, AllocError>
        ensures { IfOk result (λ g. seen g ≡ of_root root) }
    {
        let mut graph = Graph::new(alloc);
        let n = graph.push(Node::new(root, By::Todo))?;
        let mut parents = Seq::new(alloc);
        parents.push(n)?;
        let mut waiting = Stack::new(alloc);
        waiting.push(n)?;
        Ok(Growing {
            graph,
            parents,
            waiting,
        })
    }

    /// What the expansion of the next open node is to be.
    fn plan_to_expand<G: Grower<P>>(
        &self,
        alloc: Global,
        grower: &mut G,
        n: u32,
        state: &AbsState<P>,
        limit: u32,
    ) -> Result<Plan<P>, GrowthLimit>
        requires next { IsNextOpen (G.rules (G.meaning grower.old)) (G.good (G.meaning grower.old)) self.now.graph self.now.parents
            n state.now }
        requires due { IsDueAt (G.rules (G.meaning grower.old)) self.now.graph (parent_in self.now.parents) n state.now growing }
        ensures plan { PlanOr (G.rules (G.meaning grower.old)) (G.good (G.meaning grower.old)) (seen self.now) n state.now limit result }
        ensures same { G.meaning grower.new ≡ G.meaning grower.old }
    {
        match grower.expand(alloc, state) {
            Ok(Grown::End) => Ok(Plan::End),
            Ok(Grown::Children(children)) => {
                if has_room(&self.graph, children.len(), limit) {
                    Ok(Plan::Children(children))
                } else {
                    Err(GrowthLimit::Nodes)
                }
            }
            Err(GrowFault::TooManyIds) => Err(GrowthLimit::Ids),
            Err(GrowFault::Memory) => Err(GrowthLimit::Memory),
        }
    }

    /// What the widening of an earlier node's state by that of the next open node is to be.
    fn plan_to_widen<G: Grower<P>>(
        &self,
        alloc: Global,
        grower: &mut G,
        u: u32,
        n: u32,
        state: &AbsState<P>,
        limit: u32,
    ) -> Result<Plan<P>, GrowthLimit>
        requires next { IsNextOpen (G.rules (G.meaning grower.old)) (G.good (G.meaning grower.old)) self.now.graph self.now.parents
            n state.now }
        requires due { IsDueAt (G.rules (G.meaning grower.old)) self.now.graph (parent_in self.now.parents) n state.now (widening u) }
        ensures plan { PlanOr (G.rules (G.meaning grower.old)) (G.good (G.meaning grower.old)) (seen self.now) n state.now limit result }
        ensures same { G.meaning grower.new ≡ G.meaning grower.old }
    {
        match grower.widen(alloc, self.graph.at(u).state(), state) {
            Ok(wide) => {
                if !has_room(&self.graph, 1, limit) {
                    return Err(GrowthLimit::Nodes);
                }
                match grower.matches(alloc, state, &wide) {
                    Ok(Some(map)) => Ok(Plan::Open(wide, map)),
                    Ok(None) => unreachable!(),
                    Err(_) => Err(GrowthLimit::Memory),
                }
            }
            Err(GrowFault::TooManyIds) => Err(GrowthLimit::Ids),
            Err(GrowFault::Memory) => Err(GrowthLimit::Memory),
        }
    }

    /// What the growth of the next open node is to be.
    pub(crate) fn plan<G: Grower<P>>(
        &self,
        alloc: Global,
        grower: &mut G,
        n: u32,
        state: &AbsState<P>,
        limit: u32,
    ) -> Result<Plan<P>, GrowthLimit>
        requires next { IsNextOpen (G.rules (G.meaning grower.old)) (G.good (G.meaning grower.old)) self.now.graph self.now.parents
            n state.now }
        ensures plan { PlanOr (G.rules (G.meaning grower.old)) (G.good (G.meaning grower.old)) (seen self.now) n state.now limit result }
        ensures same { G.meaning grower.new ≡ G.meaning grower.old }
    {
        match next_at(
            alloc,
            grower,
            &self.graph,
            self.parents.as_slice(),
            n,
            state,
        ) {
            Ok(Next::Growing) => self.plan_to_expand(alloc, grower, n, state, limit),
            Ok(Next::Matching(u, map)) => Ok(Plan::Join(u, map)),
            Ok(Next::Widening(u)) => self.plan_to_widen(alloc, grower, u, n, state, limit),
            Err(_) => Err(GrowthLimit::Memory),
        }
    }

    /// Adds an open node, the next one, and gives its number.
    fn add(&mut self, state: AbsState<P>, parent: u32) -> Result<u32, AllocError>
        requires { length self.old.graph < 2 ^ 32 - 16 }
        ensures number { IfOk result (λ n. n ≡ length self.old.graph) }
        ensures added { OnOk result (seen self.new ≡ with_one (seen self.old) state parent) }
    {
        let n = self.graph.push(Node::new(state, By::Todo))?;
        self.parents.push(parent)?;
        self.waiting.push(n)?;
        Ok(n)
    }

    /// Adds open nodes, the last one next, and gives their numbers.
    fn add_all(
        &mut self,
        alloc: Global,
        states: Seq<AbsState<P>>,
        parent: u32,
    ) -> Result<Seq<u32>, AllocError>
        requires { length self.old.graph + length states ≤ 2 ^ 32 - 16 }
        ensures numbers { IfOk result (λ named. named ≡ numbers_from (length self.old.graph) (length states)) }
        ensures added { OnOk result (seen self.new ≡ with_all (seen self.old) states parent) }
    {
        let mut named = Seq::new(alloc);
        for state in states.into_vec() {
            named.push(self.add(state, parent)?)?;
        }
        Ok(named)
    }

    /// Carries out the growth of the next open node.
    pub(crate) fn grow(&mut self, alloc: Global, n: u32, plan: Plan<P>) -> Result<(), AllocError>
        requires within { n < length self.old.graph }
        requires room { HasRoom (seen self.old) plan }
        ensures { OnOk result (seen self.new ≡ grown (seen self.old) n plan) }
    {
        self.waiting.pop();
        match plan {
            Plan::End => self.graph.set_by(n, By::End),
            Plan::Children(states) => {
                let named = self.add_all(alloc, states, n)?;
                self.graph.set_by(n, By::Expand(named));
            }
            Plan::Join(target, map) => self.graph.set_by(n, By::Instance { target, map }),
            Plan::Open(wide, map) => {
                let target = self.add(wide, n)?;
                self.graph.set_by(n, By::Instance { target, map });
            }
        }
        Ok(())
    }
}
