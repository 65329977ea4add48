//! States that are held: those that parts have, and those of children where a node is first named.
ghost use Rattle.std.specs.Prelude.{◌≡◌, ◌<◌, ◌≤◌, ℕ, length, Some, slice_get, [], IsTrue, IsFalse, IfOk, OnOk};
ghost use Rattle.std.specs.Option.{option_map};
ghost use Rattle.filled_graphs.specs.filled_nodes.inner.ChildStates.{AreChildrenOf};
ghost use Rattle.filled_graphs.specs.filled_nodes.inner.Slots.{IsFull, IsNamedBy, names_it, IsNamerIn, Leads, IsFullOrNamed, MayDrop};
ghost use Rattle.filled_graphs.specs.filled_nodes.Holding.{AreKept};

use crate::Origin;
use crate::filled_nodes::children::{child_state, children_of};
use crate::filled_nodes::expanding::Expands;
use crate::filled_nodes::ground::Ground;
use crate::filled_nodes::looks::Looks;
use crate::filled_nodes::slots::{drop_state, is_full, put_state, state_in, take_state};
use abs_cells::{AbsState, Pairs};
use abs_reach::Marks;
use list_views::{Seq, Stack};
use std::alloc::{AllocError, Global};
use term_graph::{By, Child, PartSource, copied_state};

/// Whether a node is first named at a place of another one.
fn is_named_by(origins: &Seq<Origin>, namer: u32, place: usize, number: u32) -> bool
    ensures { result ≡ names_it namer place (slice_get origins.now number) }
{
    match origins.get(number as usize) {
        Some(Origin::Named { node, place: at }) => {
            if *node == namer { *at == place } else { false }
        }
        _ => false,
    }
}

/// Whether a node is first named at a place of another one, and its state isn't held.
#[tactic(auto, using(crate::proofs::SlotStates::has_full, crate::proofs::SlotStates::named_there, crate::proofs::SlotStates::there_named))]
fn is_wanted<P: Pairs>(
    origins: &Seq<Origin>,
    slots: &Seq<Option<AbsState<P>>>,
    namer: u32,
    place: usize,
    number: u32,
) -> bool
    ensures wanted { IsTrue result → IsNamedBy origins.now namer place number }
    ensures other { IsFalse result → IsNamedBy origins.now namer place number → IsFull slots.now number }
{
    if is_full(slots, number) {
        return false;
    }
    is_named_by(origins, namer, place, number)
}

/// Holds the state of a child of a known node, for the node that is first named there.
fn put_child<P: Pairs, S: PartSource<P>, E: Expands<P>>(
    alloc: Global,
    ground: &Ground<'_, P, S, E>,
    slots: &mut Seq<Option<AbsState<P>>>,
    namer: u32,
    place: usize,
    number: u32,
    children: &[Child<P>],
) -> Result<(), AllocError>
    requires known { namer < ground.now.known }
    requires named { IsNamedBy ground.now.origins namer place number }
    requires children { AreChildrenOf (E.rules ground.now.expander) ground.now.filling.0 namer children.now }
    requires kept { AreKept (E.rules ground.now.expander) (S.parts ground.now.parts.now) ground.now.filling.0 slots.old }
    ensures full { OnOk result (IsFull slots.new number) }
    ensures keeps { (n : ℕ) → IsFull slots.old n → IsFull slots.new n }
    ensures kept { AreKept (E.rules ground.now.expander) (S.parts ground.now.parts.now) ground.now.filling.0 slots.new }
{
    let state = child_state(alloc, ground, children, place)?;
    put_state(slots, number, state);
    Ok(())
}

/// The same where that is so, and the node's state isn't held.
fn put_wanted<P: Pairs, S: PartSource<P>, E: Expands<P>>(
    alloc: Global,
    ground: &Ground<'_, P, S, E>,
    slots: &mut Seq<Option<AbsState<P>>>,
    namer: u32,
    place: usize,
    number: u32,
    children: &[Child<P>],
) -> Result<(), AllocError>
    requires known { namer < ground.now.known }
    requires children { AreChildrenOf (E.rules ground.now.expander) ground.now.filling.0 namer children.now }
    requires kept { AreKept (E.rules ground.now.expander) (S.parts ground.now.parts.now) ground.now.filling.0 slots.old }
    ensures full { OnOk result (IsNamedBy ground.now.origins namer place number → IsFull slots.new number) }
    ensures keeps { (n : ℕ) → IsFull slots.old n → IsFull slots.new n }
    ensures kept { AreKept (E.rules ground.now.expander) (S.parts ground.now.parts.now) ground.now.filling.0 slots.new }
{
    if is_wanted(&ground.origins, slots, namer, place, number) {
        put_child(alloc, ground, slots, namer, place, number, children)?;
    }
    Ok(())
}

/// The same for all of the named nodes.
fn put_children<P: Pairs, S: PartSource<P>, E: Expands<P>>(
    alloc: Global,
    ground: &Ground<'_, P, S, E>,
    slots: &mut Seq<Option<AbsState<P>>>,
    namer: u32,
    named: &[u32],
    children: &[Child<P>],
) -> Result<(), AllocError>
    requires known { namer < ground.now.known }
    requires children { AreChildrenOf (E.rules ground.now.expander) ground.now.filling.0 namer children.now }
    requires kept { AreKept (E.rules ground.now.expander) (S.parts ground.now.parts.now) ground.now.filling.0 slots.old }
    ensures full { OnOk result ((k n : ℕ) → slice_get named.now k ≡ Some n → IsNamedBy ground.now.origins namer k n
        → IsFull slots.new n) }
    ensures keeps { (n : ℕ) → IsFull slots.old n → IsFull slots.new n }
    ensures kept { AreKept (E.rules ground.now.expander) (S.parts ground.now.parts.now) ground.now.filling.0 slots.new }
{
    for place in 0..named.len() {
        put_wanted(alloc, ground, slots, namer, place, named[place], children)?;
    }
    Ok(())
}

/// The same for those that the node names.
fn put_named<P: Pairs, S: PartSource<P>, E: Expands<P>>(
    alloc: Global,
    ground: &Ground<'_, P, S, E>,
    slots: &mut Seq<Option<AbsState<P>>>,
    namer: u32,
    children: &[Child<P>],
) -> Result<(), AllocError>
    requires known { namer < ground.now.known }
    requires children { AreChildrenOf (E.rules ground.now.expander) ground.now.filling.0 namer children.now }
    requires kept { AreKept (E.rules ground.now.expander) (S.parts ground.now.parts.now) ground.now.filling.0 slots.old }
    ensures full { OnOk result ((place n : ℕ) → IsNamedBy ground.now.origins namer place n → IsFull slots.new n) }
    ensures kept { AreKept (E.rules ground.now.expander) (S.parts ground.now.parts.now) ground.now.filling.0 slots.new }
{
    let by = ground.parts.by(alloc, namer)?;
    match by {
        By::Expand(named) => {
            put_children(alloc, ground, slots, namer, named.as_slice(), children)?;
            Ok(())
        }
        By::Instance { .. } => Ok(()),
        By::End => Ok(()),
        By::Todo => Ok(()),
    }
}

/// One look at a node: at the last one of the pass its state is dropped.
pub(crate) fn look_at<P: Pairs>(slots: &mut Seq<Option<AbsState<P>>>, looks: &mut Looks, n: u32)
    requires { n < length slots.old }
    ensures { MayDrop slots.old n slots.new }
{
    if looks.look(n) {
        drop_state(slots, n);
    }
}

/// The same where the state is wanted, as a value of the caller's own: the one that is held, at the last look, and else a copy.
fn take_look<P: Pairs>(
    alloc: Global,
    slots: &mut Seq<Option<AbsState<P>>>,
    looks: &mut Looks,
    n: u32,
) -> Result<AbsState<P>, AllocError>
    requires { IsFull slots.old n }
    ensures state { IfOk result (λ state. slice_get slots.old n ≡ Some (Some state)) }
    ensures drop { MayDrop slots.old n slots.new }
{
    if looks.look(n) {
        return Ok(take_state(slots, n));
    }
    let state = copied_state(alloc, state_in(slots, n))?;
    Ok(state)
}

/// Expands a known node whose state is held, and holds the states of the nodes that it names first; one look at it.
fn expand_namer<P: Pairs, S: PartSource<P>, E: Expands<P>>(
    alloc: Global,
    ground: &Ground<'_, P, S, E>,
    slots: &mut Seq<Option<AbsState<P>>>,
    looks: &mut Looks,
    marks: &mut Marks,
    namer: u32,
) -> Result<(), AllocError>
    requires known { namer < ground.now.known }
    requires full { IsFull slots.old namer }
    requires kept { AreKept (E.rules ground.now.expander) (S.parts ground.now.parts.now) ground.now.filling.0 slots.old }
    ensures full { OnOk result ((place n : ℕ) → IsNamedBy ground.now.origins namer place n → IsFull slots.new n) }
    ensures kept { AreKept (E.rules ground.now.expander) (S.parts ground.now.parts.now) ground.now.filling.0 slots.new }
{
    let children = children_of(alloc, ground, slots, namer, marks)?;
    put_named(alloc, ground, slots, namer, children.as_slice())?;
    look_at(slots, looks, namer);
    Ok(())
}

/// Holds the state that a part has.
fn put_given<P: Pairs, S: PartSource<P>, E: Expands<P>>(
    alloc: Global,
    ground: &Ground<'_, P, S, E>,
    slots: &mut Seq<Option<AbsState<P>>>,
    number: u32,
) -> Result<(), AllocError>
    requires there { number < length (S.parts ground.now.parts.now) }
    requires given { (namer place : ℕ) → IsNamedBy ground.now.origins namer place number → ⊥ }
    requires kept { AreKept (E.rules ground.now.expander) (S.parts ground.now.parts.now) ground.now.filling.0 slots.old }
    ensures full { OnOk result (IsFull slots.new number) }
    ensures kept { AreKept (E.rules ground.now.expander) (S.parts ground.now.parts.now) ground.now.filling.0 slots.new }
{
    let given = ground.parts.state(alloc, number)?;
    match given {
        Some(state) => {
            put_state(slots, number, state);
            Ok(())
        }
        None => unreachable!(),
    }
}

/// The node that first names another one, if one does.
#[tactic(auto, using(crate::proofs::SlotStates::origin_there, crate::proofs::SlotStates::named_in, crate::proofs::SlotStates::none_in))]
fn namer_in(origins: &Seq<Origin>, number: u32) -> Option<u32>
    requires { number < length origins.now }
    ensures { IsNamerIn origins.now number result }
{
    match origins.at(number as usize) {
        Origin::Named { node, .. } => Some(*node),
        Origin::Given | Origin::Lacking => None,
    }
}

/// The node from whose state that of another one comes, where that isn't held; a state that its part has is held then.
fn namer_above<P: Pairs, S: PartSource<P>, E: Expands<P>>(
    alloc: Global,
    ground: &Ground<'_, P, S, E>,
    slots: &mut Seq<Option<AbsState<P>>>,
    number: u32,
) -> Result<Option<u32>, AllocError>
    requires there { number < length (S.parts ground.now.parts.now) }
    requires kept { AreKept (E.rules ground.now.expander) (S.parts ground.now.parts.now) ground.now.filling.0 slots.old }
    ensures named { IfOk result (IsFullOrNamed ground.now.origins slots.new number) }
    ensures kept { AreKept (E.rules ground.now.expander) (S.parts ground.now.parts.now) ground.now.filling.0 slots.new }
{
    if is_full(slots, number) {
        return Ok(None);
    }
    let named = namer_in(&ground.origins, number);
    match named {
        Some(namer) => Ok(Some(namer)),
        None => {
            put_given(alloc, ground, slots, number)?;
            Ok(None)
        }
    }
}

/// The way from a node up to the nearest one whose state is held, by first namers; and that one.
fn way_up<P: Pairs, S: PartSource<P>, E: Expands<P>>(
    alloc: Global,
    ground: &Ground<'_, P, S, E>,
    slots: &mut Seq<Option<AbsState<P>>>,
    number: u32,
    way: &mut Stack<u32>,
) -> Result<u32, AllocError>
    requires there { number < length (S.parts ground.now.parts.now) }
    requires empty { way.old.0 ≡ [] }
    requires kept { AreKept (E.rules ground.now.expander) (S.parts ground.now.parts.now) ground.now.filling.0 slots.old }
    ensures full { IfOk result (IsFull slots.new) }
    ensures leads { IfOk result (λ top. Leads ground.now.origins number top way.new.0) }
    ensures kept { AreKept (E.rules ground.now.expander) (S.parts ground.now.parts.now) ground.now.filling.0 slots.new }
{
    let mut at = number;
    let mut above = namer_above(alloc, ground, slots, at)?;
    while let Some(namer) = above {
        way.push(at)?;
        at = namer;
        above = namer_above(alloc, ground, slots, at)?;
    }
    Ok(at)
}

/// Holds the state of a node that is known or comes next.
pub(crate) fn hold<P: Pairs, S: PartSource<P>, E: Expands<P>>(
    alloc: Global,
    ground: &Ground<'_, P, S, E>,
    slots: &mut Seq<Option<AbsState<P>>>,
    looks: &mut Looks,
    marks: &mut Marks,
    number: u32,
) -> Result<(), AllocError>
    requires there { number < length (S.parts ground.now.parts.now) }
    requires known { number ≤ ground.now.known }
    requires kept { AreKept (E.rules ground.now.expander) (S.parts ground.now.parts.now) ground.now.filling.0 slots.old }
    ensures full { OnOk result (IsFull slots.new number) }
    ensures kept { AreKept (E.rules ground.now.expander) (S.parts ground.now.parts.now) ground.now.filling.0 slots.new }
{
    let mut way = Stack::new(alloc);
    let mut at = way_up(alloc, ground, slots, number, &mut way)?;
    while let Some(next) = way.pop() {
        expand_namer(alloc, ground, slots, looks, marks, at)?;
        at = next;
    }
    Ok(())
}

/// The state of a known node; one look at it.
pub(crate) fn state_of<P: Pairs, S: PartSource<P>, E: Expands<P>>(
    alloc: Global,
    ground: &Ground<'_, P, S, E>,
    slots: &mut Seq<Option<AbsState<P>>>,
    looks: &mut Looks,
    marks: &mut Marks,
    n: u32,
) -> Result<AbsState<P>, AllocError>
    requires there { n < length ground.now.filling.0 }
    requires kept { AreKept (E.rules ground.now.expander) (S.parts ground.now.parts.now) ground.now.filling.0 slots.old }
    ensures state { IfOk result (λ state. option_map (λ node. node.state) (slice_get ground.now.filling.0 n) ≡ Some state) }
    ensures kept { AreKept (E.rules ground.now.expander) (S.parts ground.now.parts.now) ground.now.filling.0 slots.new }
{
    hold(alloc, ground, slots, looks, marks, n)?;
    let state = take_look(alloc, slots, looks, n)?;
    Ok(state)
}
