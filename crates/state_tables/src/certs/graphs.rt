//! Graphs as they stand in a case.
use abs_cells::ListPairs;
use anyhow::{Result, bail};
use class_world::World;
use json_view::View;
use std::alloc::Global;
use table_cases::json_cases::{count, field, id_pairs, item, natural, naturals, word};
use table_cases::state_cases::state;
use term_graph::{By, Graph, MOST_NODES, Node};

/// The graph of a list of nodes.
pub fn graph(alloc: Global, world: &World<'_>, list: &View<'_, '_>) -> Result<Graph<ListPairs>> {
    let mut graph = Graph::new(alloc);
    for n in 0..count(alloc, list)? {
        if graph.len() >= MOST_NODES {
            bail!("there are too many nodes");
        }
        graph.push(node(alloc, world, &item(alloc, list, n)?)?)?;
    }
    Ok(graph)
}

fn node(alloc: Global, world: &World<'_>, view: &View<'_, '_>) -> Result<Node<ListPairs>> {
    let state = state(alloc, world, &field(alloc, view, "state")?)?;
    let by = by(alloc, &field(alloc, view, "by")?)?;
    Ok(Node::new(state, by))
}

fn by(alloc: Global, view: &View<'_, '_>) -> Result<By> {
    match word(alloc, view, 0)? {
        "expand" => Ok(By::Expand(naturals(alloc, view, 1)?)),
        "instance" => Ok(By::Instance {
            target: natural(alloc, view, 1)?,
            map: id_pairs(alloc, &item(alloc, view, 2)?)?,
        }),
        "end" => Ok(By::End),
        _ => bail!("the node is left in no known way"),
    }
}
