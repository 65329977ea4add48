//! Where the states of nodes come from.
ghost use Rattle.std.specs.Prelude.{◌≡◌, ◌<◌, ◌+◌, List, map, length, Some, slice_get, IfOk};
ghost use Rattle.std.specs.Option.{option_map};
ghost use Rattle.term_graph.specs.declared.nodes.By.TheVariants.{Expand};
ghost use Rattle.term_graph.specs.Graphs.{GraphPart, state_at};
ghost use Rattle.filled_graphs.specs.Filling.{CanBeFilled, ways_of};
ghost use Rattle.filled_graphs.specs.Origins.{HaveOrigins};
ghost use Rattle.filled_graphs.specs.inner.Noting.{AreNoted, unnamed, is_lacking, noted};

use abs_cells::Pairs;
use list_views::Seq;
use std::alloc::{AllocError, Global};
use term_graph::{By, PartSource};

/// Where the state of a node comes from.
#[derive(Clone, Copy, PartialEq, Eq)]
pub enum Origin {
    /// Its part has it.
    Given,
    /// Its part lacks it, and no node is known yet that names it.
    Lacking,
    /// Its part lacks it. It is first named there, and has the state of the child.
    Named {
        /// The node that names it.
        node: u32,
        /// The place among those that the node names.
        place: usize,
    },
}

/// The origin of a node that nothing has named yet.
fn unnamed<P: Pairs, S: PartSource<P>>(
    alloc: Global,
    parts: &S,
    number: u32,
) -> Result<Origin, AllocError>
    requires { number < length (S.parts parts.now) }
    ensures { IfOk result (λ origin. option_map unnamed (state_at (S.parts parts.now) number) ≡ Some origin) }
{
    match parts.state(alloc, number)? {
        Some(_state) => Ok(Origin::Given),
        None => Ok(Origin::Lacking),
    }
}

/// The same of all nodes.
fn all_unnamed<P: Pairs, S: PartSource<P>>(
    alloc: Global,
    parts: &S,
) -> Result<Seq<Origin>, AllocError>
    ensures { IfOk result (λ origins. origins ≡ map (λ part. unnamed part.state) (S.parts parts.now)) }
{
    let mut origins = Seq::new(alloc);
    for number in 0..parts.count() {
        origins.push(unnamed(alloc, parts, number)?)?;
    }
    Ok(origins)
}

/// Whether there is a node of a number that lacks its state, and that nothing has named yet.
fn is_lacking(origins: &Seq<Origin>, number: usize) -> bool
    ensures { result ≡ is_lacking (slice_get origins.now number) }
{
    match origins.get(number) {
        Some(Origin::Lacking) => true,
        _ => false,
    }
}

/// Notes that a node names a number at a place.
fn note(origins: &mut Seq<Origin>, node: u32, place: usize, number: usize)
    ensures { origins.new ≡ noted node place number origins.old }
{
    if is_lacking(origins, number) {
        *origins.at_mut(number) = Origin::Named { node, place };
    }
}

/// Notes all numbers that an expanded node names.
fn note_all(origins: &mut Seq<Origin>, node: u32, named: &[u32])
    ensures { (parts : List GraphPart) → slice_get (ways_of parts) node ≡ Some (Expand named.now) → AreNoted parts node 0 origins.old
        → AreNoted parts node (length named.now) origins.new }
{
    for place in 0..named.len() {
        note(origins, node, place, named[place] as usize);
    }
}

/// Notes all numbers that a node names.
fn note_node(origins: &mut Seq<Origin>, node: u32, by: &By)
    ensures { (parts : List GraphPart) → slice_get (ways_of parts) node ≡ Some by.now → AreNoted parts node 0 origins.old
        → AreNoted parts (node + 1) 0 origins.new }
{
    match by {
        By::Expand(named) => note_all(origins, node, named.as_slice()),
        By::Instance { .. } => {}
        By::End => {}
        By::Todo => {}
    }
}

/// Where the state of each node comes from: its part has it, or it is that of the child where the node is first named. Each part without a
/// state is named by an expanded one of a lower number.
///
/// # Errors
///
/// Want of memory.
pub fn origins_of<P: Pairs, S: PartSource<P>>(
    alloc: Global,
    parts: &S,
) -> Result<Seq<Origin>, AllocError>
    requires named { CanBeFilled (S.parts parts.now) }
    ensures { IfOk result (λ origins. HaveOrigins (S.parts parts.now) origins) }
{
    let mut origins = all_unnamed(alloc, parts)?;
    for number in 0..parts.count() {
        let by = parts.by(alloc, number)?;
        note_node(&mut origins, number, &by);
    }
    Ok(origins)
}
