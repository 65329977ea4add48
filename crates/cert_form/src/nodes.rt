//! Nodes.
ghost use Rattle.std.specs.Prelude.{◌≡◌, ◌&&◌, false, Ok, codes, slice_get};
ghost use Rattle.std.specs.Option.{unwrap_or};
ghost use Rattle.json_view.specs.Located.{located};
ghost use Rattle.json_view.specs.Reading.{items_of, item_count};
ghost use Rattle.cert_form.specs.Answers.{Says, done, counted};
ghost use Rattle.cert_form.specs.Fields.{field, entries_of, nth, longer_than};
ghost use Rattle.cert_form.specs.States.{state_of};
ghost use Rattle.cert_form.specs.Ways.{by_of};
ghost use Rattle.cert_form.specs.Certificates.{node_in, whole_node, named_node, node_with, nodes_of, maybe_state, of_node};

use crate::fault::CertFault;
use crate::marks::NamedNodes;
use crate::names::ClassNames;
use crate::states::{StateParts, state};
use crate::values::{items, only, past, wrong};
use crate::{values, ways};
use json_view::View;
use std::alloc::Global;
use std::marker::Model;
use term_graph::{By, MOST_NODES};

/// What a node says. It is seen as a part of a graph.
#[derive(Drop)]
pub(crate) struct NodeText {
    state: Option<StateParts>,
    by: By,
}

impl Model for NodeText {
    ghost use Rattle.term_graph.specs.Graphs.{GraphPart};

    ghost Value = { GraphPart };

    ghost view = { λ node. record { state = node.state; by = node.by } };
}

/// How a node is left, by its field `by`.
#[tactic(auto, unfolding(crate::specs::Fields::field))]
pub(crate) fn by_field(alloc: Global, view: &View<'_, '_>) -> Result<By, CertFault>
    ensures { Says result (field (codes "by") by_of (located view.now)) }
{
    let field = values::field(alloc, view, "by")?;
    ways::by(alloc, &field)
}

/// The state of a node, by its field `state`.
#[tactic(auto, unfolding(crate::specs::Fields::field))]
pub(crate) fn state_field(
    alloc: Global,
    names: &ClassNames,
    view: &View<'_, '_>,
) -> Result<StateParts, CertFault>
    ensures { Says result (field (codes "state") (state_of names.now) (located view.now)) }
{
    let field = values::field(alloc, view, "state")?;
    state(alloc, names, &field)
}

/// A node with its state.
#[tactic(auto, unfolding(crate::specs::Certificates::whole_node, crate::specs::Fields::only))]
fn whole_node(alloc: Global, names: &ClassNames, view: &View<'_, '_>) -> Result<NodeText, CertFault>
    ensures { Says result (whole_node names.now (located view.now)) }
{
    only(alloc, view, "by state")?;
    let by = by_field(alloc, view)?;
    let state = state_field(alloc, names, view)?;
    Ok(NodeText {
        state: Some(state),
        by,
    })
}

/// A node whose state another one gives.
#[tactic(auto, unfolding(crate::specs::Certificates::named_node, crate::specs::Fields::only))]
fn named_node(alloc: Global, view: &View<'_, '_>) -> Result<NodeText, CertFault>
    ensures { Says result (named_node (located view.now)) }
{
    only(alloc, view, "by")?;
    let by = by_field(alloc, view)?;
    Ok(NodeText { state: None, by })
}

/// A node that lacks its state or has it.
fn node(
    alloc: Global,
    names: &ClassNames,
    lacks: bool,
    view: &View<'_, '_>,
) -> Result<NodeText, CertFault>
    ensures { Says result (node_with names.now lacks (located view.now)) }
{
    if lacks {
        named_node(alloc, view)
    } else {
        whole_node(alloc, names, view)
    }
}

/// Whether the node behind so many lacks its state.
fn lacks(second: bool, named: &NamedNodes, n: usize) -> bool
    ensures { result ≡ (second && unwrap_or (slice_get named.now n) false) }
{
    second && named.has(n)
}

/// Whether the nodes of a list of so many are read.
fn read_all(
    alloc: Global,
    names: &ClassNames,
    second: bool,
    view: &View<'_, '_>,
    count: usize,
) -> Result<(), CertFault>
    requires list { items_of (located view.now) ≡ Ok count }
    requires count { count ≡ item_count (located view.now).value }
    ensures { Says result (done (entries_of (node_in names.now second) (located view.now))) }
{
    let mut named = NamedNodes::none(alloc, count)?;
    for n in 0..count {
        match node(alloc, names, lacks(second, &named, n), &view.item(n)) {
            Ok(node) => named.add(&node.by),
            Err(fault) => return Err(fault),
        }
    }
    Ok(())
}

/// The number of nodes of a list, where they are read.
#[tactic(auto, unfolding(crate::specs::Certificates::nodes_of, crate::specs::Fields::at_most))]
fn count(
    alloc: Global,
    names: &ClassNames,
    second: bool,
    view: &View<'_, '_>,
) -> Result<u32, CertFault>
    ensures { Says result (counted (nodes_of names.now second (located view.now))) }
{
    let count = items(alloc, view)?;
    if count > MOST_NODES {
        return past(alloc, view);
    }
    match read_all(alloc, names, second, view, count) {
        Ok(()) => Ok(count as u32),
        Err(fault) => Err(fault),
    }
}

/// The number of nodes by the field `nodes`, where they are read.
#[tactic(auto, unfolding(crate::specs::Fields::field))]
pub(crate) fn nodes_field(
    alloc: Global,
    names: &ClassNames,
    second: bool,
    view: &View<'_, '_>,
) -> Result<u32, CertFault>
    ensures { Says result (counted (field (codes "nodes") (nodes_of names.now second) (located view.now))) }
{
    let field = values::field(alloc, view, "nodes")?;
    count(alloc, names, second, &field)
}

// ---- nodes by number

/// How node `n` of a list is left.
#[tactic(auto, unfolding(crate::specs::Fields::nth, crate::specs::Fields::longer_than))]
fn nth_by(alloc: Global, n: usize, view: &View<'_, '_>) -> Result<By, CertFault>
    ensures { Says result (longer_than n (nth n (field (codes "by") by_of)) (located view.now)) }
{
    if items(alloc, view)? > n {
        by_field(alloc, &view.item(n))
    } else {
        wrong(alloc, view)
    }
}

/// How node `n` of a certificate is left.
#[tactic(auto, unfolding(crate::specs::Fields::field, crate::specs::Certificates::of_node))]
pub(crate) fn by_of_node(alloc: Global, n: usize, view: &View<'_, '_>) -> Result<By, CertFault>
    ensures { Says result (of_node n (field (codes "by") by_of) (located view.now)) }
{
    let field = values::field(alloc, view, "nodes")?;
    nth_by(alloc, n, &field)
}

/// The state of a node, where it has one.
#[tactic(auto, unfolding(crate::specs::Certificates::maybe_state))]
fn maybe_state(
    alloc: Global,
    names: &ClassNames,
    view: &View<'_, '_>,
) -> Result<Option<StateParts>, CertFault>
    ensures { Says result (maybe_state names.now (located view.now)) }
{
    if view.has("state") {
        let state = state_field(alloc, names, view)?;
        Ok(Some(state))
    } else {
        Ok(None)
    }
}

/// The state of node `n` of a list, where it has one.
#[tactic(auto, unfolding(crate::specs::Fields::nth, crate::specs::Fields::longer_than))]
fn nth_state(
    alloc: Global,
    names: &ClassNames,
    n: usize,
    view: &View<'_, '_>,
) -> Result<Option<StateParts>, CertFault>
    ensures { Says result (longer_than n (nth n (maybe_state names.now)) (located view.now)) }
{
    if items(alloc, view)? > n {
        maybe_state(alloc, names, &view.item(n))
    } else {
        wrong(alloc, view)
    }
}

/// The state of node `n` of a certificate, where it has one.
#[tactic(auto, unfolding(crate::specs::Fields::field, crate::specs::Certificates::of_node))]
pub(crate) fn state_of_node(
    alloc: Global,
    names: &ClassNames,
    n: usize,
    view: &View<'_, '_>,
) -> Result<Option<StateParts>, CertFault>
    ensures { Says result (of_node n (maybe_state names.now) (located view.now)) }
{
    let field = values::field(alloc, view, "nodes")?;
    nth_state(alloc, names, n, &field)
}
