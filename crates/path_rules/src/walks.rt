//! The rule of a path: its rows, stop by stop.
ghost use Rattle.std.specs.Prelude.{◌≡◌, ◌<◌, ◌≤◌, ◌+◌, ◌^◌, ◌++◌, All, length, IfOk, slice_get, Some};
ghost use Rattle.abs_cells.specs.Sound.{IsWellFormed};
ghost use Rattle.term_graph.specs.Graphs.{successors};
ghost use Rattle.term_graph.specs.declared.links.Link.{Link};
ghost use Rattle.path_rules.specs.Stops.{Leg, child, leg_by};
ghost use Rattle.path_rules.specs.Rules.{rows_of_leg, rows_of_stop, slots_of, variables};
ghost use Rattle.path_rules.specs.Conditions.{AreBounded, AreGood};
ghost use Rattle.path_rules.specs.inner.Building.{links_at, AreKeyed, HasRides, IsBegun, IsGone, IsRuleAlong, IsSmall};
ghost use Rattle.path_rules.specs.inner.Sizing.{sized, sized_graph};

use crate::legs::push_leg;
use crate::limits::MOST_RULE_ROWS;
use crate::slots::slots;
use crate::stops::{Stop, push_stop};
use crate::ways::Way;
use abs_cells::Pairs;
use abs_reach::Marks;
use descent::{PathRule, SlotForm};
use lin_core::WRow;
use list_views::Seq;
use std::alloc::{AllocError, Global};
use term_graph::{By, Link, Links, NodeSource};

/// Where the building of a rule has come to.
#[derive(Drop)]
pub(crate) struct Walk<P: Pairs> {
    /// The number of the last node.
    at: u32,
    /// The stop there.
    stop: Stop<P>,
    /// The rows up to this stop.
    rows: Seq<WRow>,
}

/// The node to which an edge leads.
fn edge_of(by: &By, place: usize) -> Option<u32>
    ensures { result ≡ slice_get (successors by.now) place }
{
    match by {
        By::Expand(children) => children.get(place).copied(),
        By::Instance { target, .. } => { if place == 0 { Some(*target) } else { None } }
        By::End | By::Todo => None,
    }
}

/// The links of a node.
fn links_of(links: &Links, node: u32) -> &[Link]
    ensures { result.now ≡ links_at links.now.nodes node }
{
    match links.nodes.get(node as usize) {
        Some(list) => list.as_slice(),
        None => &[],
    }
}

/// The rows with those of an edge and of the next stop.
fn rows_over<P: Pairs>(
    alloc: Global,
    rows: Seq<WRow>,
    stop: &Stop<P>,
    legs: &[Link],
    place: usize,
    after: &Stop<P>,
    marks: &mut Marks,
) -> Result<Seq<WRow>, AllocError>
    requires small { (link : Link) → leg_by stop.now.node.by legs.now place ≡ Some (child link) → All IsSmall link.rows }
    requires keyed { AreKeyed stop.now.node.by }
    requires here { IsWellFormed stop.now.node.state }
    requires there { IsWellFormed after.now.node.state }
    ensures rows { IfOk result (λ more. (leg : Leg) → leg_by stop.now.node.by legs.now place ≡ Some leg
        → more ≡ (rows ++ rows_of_leg stop.now.first (sized stop.now.node.state) leg after.now.first
        (sized after.now.node.state)) ++ rows_of_stop after.now.first after.now.node.state) }
    ensures bounded { IfOk result (λ _. AreBounded after.now.node.state) }
{
    let mut rows = rows;
    push_leg(alloc, &mut rows, stop, legs, place, after, marks)?;
    push_stop(alloc, &mut rows, after)?;
    Ok(rows)
}

impl<P: Pairs> Walk<P> {
    /// Begins at a node.
    fn begin<S: NodeSource<P>>(
        alloc: Global,
        source: &mut S,
        from: u32,
    ) -> Result<Walk<P>, AllocError>
        requires there { from < length (S.graph source.old) }
        requires states { All (λ n. IsWellFormed n.state) (S.graph source.old) }
        ensures begun { IfOk result (λ walk. (walk.at ≡ from) × IsBegun (S.graph source.old) from walk.stop.node walk.stop.first
            walk.rows) }
        ensures same { S.graph source.new ≡ S.graph source.old }
    {
        let node = source.node(alloc, from)?;
        let stop = Stop::new(alloc, node, 0)?;
        let mut rows = Seq::new(alloc);
        push_stop(alloc, &mut rows, &stop)?;
        Ok(Walk {
            at: from,
            stop,
            rows,
        })
    }

    /// The node to which an edge leads.
    fn edge(&self, place: usize) -> Option<u32>
        ensures { result ≡ slice_get (successors self.now.stop.node.by) place }
    {
        edge_of(self.stop.node().by(), place)
    }

    /// Goes over an edge.
    #[tactic(auto, using(crate::proofs::Riding::leads_within))]
    fn over<S: NodeSource<P>>(
        self,
        alloc: Global,
        source: &mut S,
        links: &Links,
        place: usize,
        marks: &mut Marks,
    ) -> Result<Walk<P>, AllocError>
        requires good { AreGood (S.graph source.old) links.now.nodes }
        requires here { slice_get (S.graph source.old) self.at ≡ Some self.stop.node }
        requires few { self.stop.first + length (variables self.stop.node.state) ≤ 65536 }
        ensures gone { IfOk result (λ walk. IsGone (sized_graph (S.graph source.old) links.now.nodes) self.at place self.stop.node
            self.stop.first self.rows walk.at walk.stop.node walk.stop.first walk.rows) }
        ensures same { S.graph source.new ≡ S.graph source.old }
    {
        let Some(to) = self.edge(place) else {
            return Ok(self);
        };
        let node = source.node(alloc, to)?;
        let after = Stop::new(alloc, node, self.stop.next())?;
        let legs = links_of(links, self.at);
        let rows = rows_over(alloc, self.rows, &self.stop, legs, place, &after, marks)?;
        Ok(Walk {
            at: to,
            stop: after,
            rows,
        })
    }

    /// The rule, where this is the path's end.
    fn rule(
        self,
        alloc: Global,
        from: u32,
        to: u32,
        first: Seq<SlotForm>,
        marks: &mut Marks,
    ) -> Result<PathRule, AllocError>
        ensures { IfOk result
            (λ rule. rule ≡ record {
              from = from;
              to = to;
              vars = self.stop.first + length (variables self.stop.node.state);
              rows
                  = self.rows;
              first = first;
              last = slots_of self.stop.first (sized self.stop.node.state);
            }) }
    {
        let last = slots(alloc, &self.stop, marks)?;
        Ok(PathRule {
            from,
            to,
            vars: self.stop.next(),
            rows: self.rows,
            first,
            last,
        })
    }
}

/// The rule of a way from a cut to the next one, or none where it has too many rows.
///
/// # Errors
///
/// Want of memory.
#[tactic(auto, using(crate::proofs::Riding::path_begins, crate::proofs::Riding::path_steps, crate::proofs::Riding::too_long, crate::proofs::Riding::path_done, crate::proofs::Riding::path_here, crate::proofs::Riding::path_few))]
pub(crate) fn rule_along<P: Pairs, S: NodeSource<P>>(
    alloc: Global,
    source: &mut S,
    links: &Links,
    from: u32,
    way: &Way,
    marks: &mut Marks,
) -> Result<Option<PathRule>, AllocError>
    requires there { from < length (S.graph source.old) }
    requires good { AreGood (S.graph source.old) links.now.nodes }
    requires goes { HasRides (sized_graph (S.graph source.old) links.now.nodes) from way.now.places }
    ensures rule { IfOk result (IsRuleAlong (sized_graph (S.graph source.old) links.now.nodes) from way.now.to way.now.places) }
    ensures same { S.graph source.new ≡ S.graph source.old }
{
    let mut walk = Walk::begin(alloc, source, from)?;
    let first = slots(alloc, &walk.stop, marks)?;
    for place in way.places.as_slice() {
        if walk.rows.len() > MOST_RULE_ROWS {
            return Ok(None);
        }
        walk = walk.over(alloc, source, links, *place, marks)?;
    }
    if walk.rows.len() > MOST_RULE_ROWS {
        return Ok(None);
    }
    let rule = walk.rule(alloc, from, way.to, first, marks)?;
    Ok(Some(rule))
}
