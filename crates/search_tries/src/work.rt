//! A graph that grows, without its states.
use crate::numbers::number_of;
use list_views::Seq;
use std::alloc::{AllocError, AllocFailed, Global};
use term_graph::By;

/// What a graph goes back to where it looks ahead.
#[derive(Clone, Copy)]
pub(crate) struct Ahead {
    /// The node that would be widened.
    pub(crate) node: u32,
    /// The node above it, by whose state it would be.
    pub(crate) above: u32,
    /// How many nodes there were.
    pub(crate) nodes: usize,
    /// How many open nodes waited.
    pub(crate) waiting: usize,
    /// How many growths are left.
    pub(crate) left: u32,
}

/// How each node is left, its parent, the open nodes, the next one last, and whether the graph looks ahead.
#[derive(Drop)]
pub(crate) struct Work {
    pub(crate) ways: Seq<By>,
    parents: Seq<u32>,
    waiting: Seq<u32>,
    pub(crate) ahead: Option<Ahead>,
}

impl Work {
    /// No node.
    pub(crate) fn new(alloc: Global) -> Work {
        Work {
            ways: Seq::new(alloc),
            parents: Seq::new(alloc),
            waiting: Seq::new(alloc),
            ahead: None,
        }
    }

    /// The number of nodes.
    pub(crate) fn count(&self) -> u32 {
        number_of(self.ways.len())
    }

    /// Adds an open node, the next one.
    pub(crate) fn add(&mut self, parent: u32) -> Result<(), AllocError> {
        let n = self.count();
        self.ways.push(By::Todo)?;
        self.parents.push(parent)?;
        self.waiting.push(n)?;
        Ok(())
    }

    /// Leaves a node in this way.
    pub(crate) fn leave(&mut self, n: u32, by: By) {
        if (n as usize) < self.ways.len() {
            *self.ways.at_mut(n as usize) = by;
        }
    }

    /// How a node is left.
    pub(crate) fn by(&self, n: u32) -> Option<&By> {
        self.ways.get(n as usize)
    }

    /// The parent of a node; of node 0 itself.
    pub(crate) fn parent(&self, n: u32) -> u32 {
        match self.parents.get(n as usize) {
            Some(parent) => *parent,
            None => 0,
        }
    }

    /// Whether a node is expanded.
    pub(crate) fn is_expanded(&self, n: u32) -> bool {
        matches!(self.by(n), Some(By::Expand(_) | By::End))
    }

    /// Whether a node is a widening: its parent is an instance of it.
    pub(crate) fn is_widening(&self, n: u32) -> bool {
        n > 0 && matches!(self.by(self.parent(n)), Some(By::Instance { .. }))
    }

    /// The next open node, which waits no more.
    pub(crate) fn next(&mut self) -> Option<u32> {
        self.waiting.pop()
    }

    /// Begins to look ahead below a node that is the next one no more, for so many growths.
    pub(crate) fn look_ahead(&mut self, node: u32, above: u32, growths: u32) {
        self.ahead = Some(Ahead {
            node,
            above,
            nodes: self.ways.len(),
            waiting: self.waiting.len(),
            left: growths,
        });
    }

    /// Ends looking ahead where nothing below is open any more.
    pub(crate) fn settle(&mut self) {
        if let Some(ahead) = self.ahead {
            if self.waiting.len() <= ahead.waiting {
                self.ahead = None;
            }
        }
    }

    /// Counts a growth.
    pub(crate) fn spend(&mut self) {
        if let Some(ahead) = self.ahead {
            self.ahead = Some(Ahead {
                node: ahead.node,
                above: ahead.above,
                nodes: ahead.nodes,
                waiting: ahead.waiting,
                left: ahead.left.saturating_sub(1),
            });
        }
    }

    /// Goes back to where the graph began to look ahead.
    pub(crate) fn go_back(&mut self, ahead: &Ahead) {
        self.ways.truncate(ahead.nodes);
        self.parents.truncate(ahead.nodes);
        self.waiting.truncate(ahead.waiting);
        self.ahead = None;
    }
}
