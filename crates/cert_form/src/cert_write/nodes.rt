//! Nodes.
ghost use Rattle.std.specs.Prelude.{◌≡◌, [], Some, None, IfOk};
ghost use Rattle.serde_json.specs.View.{view};
ghost use Rattle.term_graph.specs.declared.nodes.By.TheVariants.{Expand, Instance, End};
ghost use Rattle.cert_form.specs.cert_write.Data.{by, node, part_of};

use crate::cert_write::lists::{list, together, word};
use crate::cert_write::states;
use crate::cert_write::types::Words;
use abs_cells::{AbsState, Id, Pairs};
use serde_json::{Map, Value, put};
use std::alloc::{AllocError, Global};
use term_graph::{By, Node};

/// A step's children.
fn expand(alloc: Global, children: &[u32]) -> Result<Value, AllocError>
    ensures { IfOk result (λ v. view v ≡ by (Expand children.now)) }
{
    let children = list(alloc, &(), children)?;
    let way = word(alloc, "expand")?;
    together(alloc, [way, children])
}

/// The node that a state is an instance of, and what the ids stand for.
fn instance(alloc: Global, target: u32, map: &[(Id, Id)]) -> Result<Value, AllocError>
    ensures { IfOk result (λ v. view v ≡ by (Instance target map.now)) }
{
    let map = list(alloc, &(), map)?;
    let way = word(alloc, "instance")?;
    together(alloc, [way, Value::from(target), map])
}

/// The run's end.
fn end(alloc: Global) -> Result<Value, AllocError>
    ensures { IfOk result (λ v. view v ≡ by End) }
{
    let way = word(alloc, "end")?;
    together(alloc, [way])
}

/// How a node is left.
fn by(alloc: Global, way: &By) -> Result<Value, AllocError>
    ensures { IfOk result (λ v. view v ≡ by way.now) }
{
    match way {
        By::Expand(children) => expand(alloc, children.as_slice()),
        By::Instance { target, map } => instance(alloc, *target, map.as_slice()),
        By::End => end(alloc),
        By::Todo => Ok(Value::Null),
    }
}

/// A node with its state.
fn whole_node<P: Pairs>(
    alloc: Global,
    words: &Words<'_>,
    state: &AbsState<P>,
    way: &By,
) -> Result<Value, AllocError>
    ensures { IfOk result (λ v. view v ≡ node words.now.names.now (record { state = Some state.now; by = way.now })) }
{
    let mut members = Map::new(alloc);
    let way = by(alloc, way)?;
    put(&mut members, alloc, "by", way)?;
    let state = states::state(alloc, words, state)?;
    put(&mut members, alloc, "state", state)?;
    Ok(Value::Object(members))
}

/// A node without its state.
fn bare_node(alloc: Global, way: &By) -> Result<Value, AllocError>
    ensures { IfOk result (λ v. view v ≡ node [] (record { state = None; by = way.now })) }
{
    let mut members = Map::new(alloc);
    let way = by(alloc, way)?;
    put(&mut members, alloc, "by", way)?;
    Ok(Value::Object(members))
}

/// A node, without its state where it lacks it.
pub(crate) fn node<P: Pairs>(
    alloc: Global,
    words: &Words<'_>,
    lacks: bool,
    next: &Node<P>,
) -> Result<Value, AllocError>
    ensures { IfOk result (λ v. view v ≡ node words.now.names.now (part_of lacks next.now)) }
{
    if lacks {
        bare_node(alloc, next.by())
    } else {
        whole_node(alloc, words, next.state(), next.by())
    }
}

/// A node that has its state or lacks it.
pub(crate) fn part<P: Pairs>(
    alloc: Global,
    words: &Words<'_>,
    state: Option<AbsState<P>>,
    way: &By,
) -> Result<Value, AllocError>
    ensures { IfOk result (λ v. view v ≡ node words.now.names.now (record { state = state; by = way.now })) }
{
    match state {
        Some(state) => whole_node(alloc, words, &state, way),
        None => bare_node(alloc, way),
    }
}
