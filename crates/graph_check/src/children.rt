//! Whether the children of a state are those of the nodes that its node names.
ghost use Rattle.std.specs.Prelude.{◌≡◌, ◌↔◌, ◌<◌, length, map, IsTrue, IfOk};
ghost use Rattle.graph_check.specs.Good.{IsStateAt};
ghost use Rattle.graph_check.specs.inner.Checked.{AreNamedOr, LinksOr};

use crate::failure::Failure;
use crate::fault::What;
use abs_cells::{AbsState, Pairs};
use abs_reach::abs_equal::is_same_state;
use list_views::Seq;
use std::alloc::{AllocError, Global};
use term_graph::{Child, Link, NodeSource};

/// Whether a number is that of a node with the state.
pub(crate) fn is_state_at<P: Pairs, S: NodeSource<P>>(
    alloc: Global,
    source: &mut S,
    state: &AbsState<P>,
    n: u32,
) -> Result<bool, AllocError>
    ensures answer { IfOk result (λ answer. IsTrue answer ↔ IsStateAt (S.graph source.old) state.now n) }
    ensures same { S.graph source.new ≡ S.graph source.old }
{
    if n >= source.count() {
        return Ok(false);
    }
    let node = source.node(alloc, n)?;
    Ok(is_same_state(node.state(), state))
}

/// The place of the first child that isn't the state of the node that is named for it.
fn first_other<P: Pairs, S: NodeSource<P>>(
    alloc: Global,
    source: &mut S,
    children: &[Child<P>],
    named: &[u32],
) -> Result<Option<usize>, AllocError>
    requires { length children.now ≡ length named.now }
    ensures answer { IfOk result (λ other. AreNamedOr (S.graph source.old) children.now named.now other) }
    ensures same { S.graph source.new ≡ S.graph source.old }
{
    for place in 0..children.len() {
        if !is_state_at(alloc, source, children[place].state(), named[place])? {
            return Ok(Some(place));
        }
    }
    Ok(None)
}

/// The links of children.
fn links_of<P: Pairs>(alloc: Global, children: Seq<Child<P>>) -> Result<Seq<Link>, AllocError>
    ensures { IfOk result (λ links. links ≡ map (λ child. child.link) children) }
{
    let mut links = Seq::new(alloc);
    for child in children.into_vec() {
        let (_state, link) = child.into_parts();
        links.push(link)?;
    }
    Ok(links)
}

/// The links of children, where they are the states of the named nodes, in order.
pub(crate) fn named_links<P: Pairs, S: NodeSource<P>>(
    alloc: Global,
    source: &mut S,
    children: Seq<Child<P>>,
    named: &[u32],
) -> Result<Seq<Link>, Failure>
    ensures links { LinksOr (S.graph source.old) children named.now result }
    ensures same { S.graph source.new ≡ S.graph source.old }
{
    if children.len() != named.len() {
        return Err(Failure::Fails(What::ChildCount));
    }
    if let Some(n) = first_other(alloc, source, children.as_slice(), named)? {
        return Err(Failure::Fails(What::Child { n }));
    }
    Ok(links_of(alloc, children)?)
}
