//! The filled graph as a source of nodes.
ghost use Rattle.std.specs.Prelude.{◌≡◌, ◌<◌, length, IfOk};
ghost use Rattle.filled_graphs.specs.Filling.{IsFilled, CanBeFilled};
ghost use Rattle.filled_graphs.specs.filled_nodes.Holding.{AreKept};

use crate::filled_nodes::expanding::Expands;
use crate::filled_nodes::ground::Ground;
use crate::filled_nodes::holding::{hold, look_at, state_of};
use crate::filled_nodes::looks::Looks;
use crate::filled_nodes::slots::empty_slots;
use abs_cells::{AbsState, Pairs};
use abs_reach::Marks;
use list_views::Seq;
use std::alloc::{AllocError, Global};
use std::marker::Model;
use term_graph::{By, Node, NodeSource, PartSource};

/// The filled graph of parts as a source, seen as the list of its nodes. Of these it holds those states that are still looked at in the
/// pass at hand, each from the expansion of its first namer until the last edge that leads to it was looked at.
///
/// A pass that looks at the nodes in the order of their numbers, and at the other ends of each node's edges, makes each state once. Every
/// order is answered rightly: a state that isn't held is made again, from the nearest namer above it that has one.
#[derive(Drop)]
pub struct Filled<'a, P: Pairs, S: PartSource<P>, E: Expands<P>> {
    ground: Ground<'a, P, S, E>,
    slots: Seq<Option<AbsState<P>>>,
    looks: Looks,
    marks: Marks,
}

impl<'a, P: Pairs, S: PartSource<P>, E: Expands<P>> Model for Filled<'a, P, S, E> {
    ghost use Rattle.std.specs.Prelude.{List};
    ghost use Rattle.term_graph.specs.Graphs.{GraphNode};
    ghost use Rattle.filled_graphs.specs.filled_nodes.Holding.{IsWhole};

    ghost Value = { List GraphNode };

    ghost view = { λ filled. filled.ground.filling.0 };

    ghost invariant = { λ filled. IsWhole (E.rules filled.ground.expander) (S.parts filled.ground.parts.now) filled.ground.known
        filled.ground.filling.0 filled.slots };
}

/// Goes through the nodes once, in the order of their numbers: so all are known in the end. Each state is dropped behind its turn, or
/// behind the expansion of its node.
fn know_all<P: Pairs, S: PartSource<P>, E: Expands<P>>(
    alloc: Global,
    ground: &mut Ground<'_, P, S, E>,
    slots: &mut Seq<Option<AbsState<P>>>,
    looks: &mut Looks,
    marks: &mut Marks,
    count: u32,
) -> Result<(), AllocError>
    requires count { count ≡ length (S.parts ground.old.parts.now) }
    requires none { ground.old.known ≡ 0 }
    requires kept { AreKept (E.rules ground.old.expander) (S.parts ground.old.parts.now) ground.old.filling.0 slots.old }
    ensures known { IfOk result (λ _. ground.new.known ≡ count) }
    ensures parts { ground.new.parts.now ≡ ground.old.parts.now }
    ensures expander { ground.new.expander ≡ ground.old.expander }
    ensures kept { AreKept (E.rules ground.new.expander) (S.parts ground.new.parts.now) ground.new.filling.0 slots.new }
{
    for number in 0..count {
        hold(alloc, ground, slots, looks, marks, number)?;
        ground.grow(slots);
        look_at(slots, looks, number);
    }
    Ok(())
}

impl<'a, P: Pairs, S: PartSource<P>, E: Expands<P>> Filled<'a, P, S, E> {
    /// The filled graph of parts, of which each without a state is named by an expanded one of a lower number. A pass over its nodes
    /// begins in which no edges are followed.
    ///
    /// Each node is expanded once at most, and its state is dropped when all that it names have theirs.
    ///
    /// # Errors
    ///
    /// Want of memory.
    pub fn of(alloc: Global, expander: E, parts: &'a S) -> Result<Filled<'a, P, S, E>, AllocError>
        requires named { CanBeFilled (S.parts parts.now) }
        ensures { IfOk result (λ nodes. ∥ IsFilled (E.rules expander) (S.parts parts.now) nodes ∥₁) }
    {
        let mut ground = Ground::new(alloc, expander, parts)?;
        let mut looks = Looks::of(alloc, parts, ground.origins.as_slice())?;
        let count = parts.count();
        let mut slots = empty_slots(alloc, count)?;
        let mut marks = Marks::new(alloc)?;
        know_all(
            alloc,
            &mut ground,
            &mut slots,
            &mut looks,
            &mut marks,
            count,
        )?;
        Ok(Filled {
            ground,
            slots,
            looks,
            marks,
        })
    }

    /// Begins a pass in which the other ends of each node's edges are asked for too, or one in which they aren't.
    pub fn begin(&mut self, over_edges: bool)
        ensures { self.new ≡ self.old }
    {
        self.looks.begin(over_edges);
    }
}

impl<'a, P: Pairs, S: PartSource<P>, E: Expands<P>> NodeSource<P> for Filled<'a, P, S, E> {
    ghost graph = { λ nodes. nodes };

    fn count(&self) -> u32 {
        self.ground.known
    }

    fn node(&mut self, alloc: Global, n: u32) -> Result<Node<P>, AllocError> {
        let state = state_of(
            alloc,
            &self.ground,
            &mut self.slots,
            &mut self.looks,
            &mut self.marks,
            n,
        )?;
        let by = self.ground.parts.by(alloc, n)?;
        Ok(Node::new(state, by))
    }

    fn by(&mut self, alloc: Global, n: u32) -> Result<By, AllocError> {
        let by = self.ground.parts.by(alloc, n)?;
        Ok(by)
    }
}
