//! What is known of the filled graph.
ghost use Rattle.std.specs.Prelude.{◌≡◌, ◌<◌, ◌≤◌, ◌+◌, ◌^◌, length, IfOk};
ghost use Rattle.filled_graphs.specs.Filling.{Filling, CanBeFilled};
ghost use Rattle.filled_graphs.specs.Origins.{HaveOrigins};
ghost use Rattle.filled_graphs.specs.lemmas.Once.{filling_prop};
ghost use Rattle.filled_graphs.specs.filled_nodes.inner.Slots.{IsFull};
ghost use Rattle.filled_graphs.specs.filled_nodes.Holding.{AreKept};

use crate::filled_nodes::expanding::Expands;
use crate::{Origin, origins_of};
use abs_cells::{AbsState, Pairs};
use list_views::Seq;
use std::alloc::{AllocError, Global};
use std::marker::PhantomData;
use term_graph::PartSource;

/// What is known of the filled graph of parts: the first nodes, and of all nodes where their states come from.
#[derive(Drop)]
pub(crate) struct Ground<'a, P: Pairs, S: PartSource<P>, E: Expands<P>> {
    /// The nodes, some without their states.
    pub(crate) parts: &'a S,
    /// What tells the children of states.
    pub(crate) expander: E,
    /// Where the state of each node comes from.
    pub(crate) origins: Seq<Origin>,
    /// How many nodes are known.
    pub(crate) known: u32,
    pairs: PhantomData<P>,
    ghost filling: { Filling (E.rules expander) (S.parts parts.now) known } by { filling_prop (E.rules expander) (S.parts parts.now) known },
    ghost sources: { ∥ HaveOrigins (S.parts parts.now) origins ∥₁ },
    ghost few: { known ≤ length (S.parts parts.now) },
}

impl<'a, P: Pairs, S: PartSource<P>, E: Expands<P>> Ground<'a, P, S, E> {
    /// No nodes are known yet.
    ///
    /// # Errors
    ///
    /// Want of memory.
    pub(crate) fn new(
        alloc: Global,
        expander: E,
        parts: &'a S,
    ) -> Result<Ground<'a, P, S, E>, AllocError>
        requires { CanBeFilled (S.parts parts.now) }
        ensures known { IfOk result (λ ground. ground.known ≡ 0) }
        ensures parts { IfOk result (λ ground. ground.parts.now ≡ parts.now) }
        ensures expander { IfOk result (λ ground. ground.expander ≡ expander) }
    {
        let origins = origins_of(alloc, parts)?;
        Ok(Ground {
            parts,
            expander,
            origins,
            known: 0,
            pairs: PhantomData,
        })
    }

    /// One node more is known, whose state is held.
    pub(crate) fn grow(&mut self, slots: &Seq<Option<AbsState<P>>>)
        requires there { self.old.known < length (S.parts self.old.parts.now) }
        requires few { self.old.known + 1 < 2 ^ 32 }
        requires full { IsFull slots.now self.old.known }
        requires kept { AreKept (E.rules self.old.expander) (S.parts self.old.parts.now) self.old.filling.0 slots.now }
        ensures kept { AreKept (E.rules self.new.expander) (S.parts self.new.parts.now) self.new.filling.0 slots.now }
        ensures known { self.new.known ≡ self.old.known + 1 }
        ensures parts { self.new.parts.now ≡ self.old.parts.now }
        ensures expander { self.new.expander ≡ self.old.expander }
    {
        self.known += 1;
    }
}
