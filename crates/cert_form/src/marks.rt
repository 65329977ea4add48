//! Nodes that are named as children.
ghost use Rattle.std.specs.Prelude.{◌≡◌, true, false, replicate, slice_get, slice_set, IfOk};
ghost use Rattle.std.specs.Option.{unwrap_or};
ghost use Rattle.cert_form.specs.Marks.{all_marked, marked_by};

use list_views::Seq;
use std::alloc::{AllocError, Global};
use std::marker::Model;
use term_graph::By;

/// Which nodes of a graph are named as children by those that were added. It is seen as the list of one mark for each node.
#[derive(Drop)]
pub struct NamedNodes {
    marks: Seq<bool>,
}

impl Model for NamedNodes {
    ghost use Rattle.std.specs.Prelude.{List, Bool};

    ghost Value = { List Bool };

    ghost view = { λ named. named.marks };
}

/// Marks a node, where it has a mark.
#[tactic(auto, using(crate::proofs::Marking::unmarked))]
fn mark_one(marks: &mut Seq<bool>, node: usize)
    ensures { marks.new ≡ slice_set marks.old node true }
{
    if node < marks.len() {
        *marks.at_mut(node) = true;
    }
}

/// Marks nodes.
fn mark_all(marks: &mut Seq<bool>, nodes: &[u32])
    ensures { marks.new ≡ all_marked marks.old nodes.now }
{
    for node in nodes {
        mark_one(marks, *node as usize);
    }
}

impl NamedNodes {
    /// No node is named, of so many.
    ///
    /// # Errors
    ///
    /// Want of memory.
    pub fn none(alloc: Global, count: usize) -> Result<NamedNodes, AllocError>
        ensures { IfOk result (λ named. named ≡ replicate count false) }
    {
        Ok(NamedNodes {
            marks: Seq::from_vec(vec![in alloc; false; count]?),
        })
    }

    /// Whether a node is named; a number past the nodes is not.
    #[tactic(auto, using(crate::proofs::Marking::mark_there, crate::proofs::Marking::mark_past))]
    pub fn has(&self, node: usize) -> bool
        ensures { result ≡ unwrap_or (slice_get self.now node) false }
    {
        match self.marks.get(node) {
            Some(mark) => *mark,
            None => false,
        }
    }

    /// Adds a node that is left in this way.
    pub fn add(&mut self, by: &By)
        ensures { self.new ≡ marked_by self.old by.now }
    {
        match by {
            By::Expand(children) => mark_all(&mut self.marks, children.as_slice()),
            By::Instance { .. } | By::End | By::Todo => {}
        }
    }
}
