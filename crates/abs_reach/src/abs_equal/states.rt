//! Whether two abstract states are the same.
ghost use Rattle.std.specs.Prelude.{◌≡◌, ◌↔◌, IsTrue};

use crate::abs_equal::cells::are_same_cells;
use crate::abs_equal::frames::{are_same_frames, is_same_id};
use abs_cells::{AbsState, Pairs};

/// Whether two sets of pairs are the same.
fn are_same_pairs<P: Pairs>(a: &P, b: &P) -> bool
    ensures { IsTrue result ↔ (P.pairs a.now ≡ P.pairs b.now) }
{
    a.rise();
    b.rise();
    a.are_among(b) && b.are_among(a)
}

/// Whether two states have the same frames.
fn have_same_frames<P: Pairs>(a: &AbsState<P>, b: &AbsState<P>) -> bool
    ensures { IsTrue result ↔ (a.now.frames ≡ b.now.frames) }
{
    are_same_frames(a.frames(), b.frames())
}

/// Whether two states have the same frames and thrown id.
fn are_same_positions<P: Pairs>(a: &AbsState<P>, b: &AbsState<P>) -> bool
    ensures { IsTrue result ↔ ((a.now.throwing ≡ b.now.throwing) × (a.now.frames ≡ b.now.frames)) }
{
    is_same_id(a.throwing(), b.throwing()) && have_same_frames(a, b)
}

/// Whether two states have the same pairs.
fn are_same_relations<P: Pairs>(a: &AbsState<P>, b: &AbsState<P>) -> bool
    ensures { IsTrue result ↔ ((a.now.eq ≡ b.now.eq) × (a.now.share ≡ b.now.share)) }
{
    are_same_pairs(a.eq(), b.eq()) && are_same_pairs(a.share(), b.share())
}

/// Whether two states have the same cells and pairs.
fn are_same_words<P: Pairs>(a: &AbsState<P>, b: &AbsState<P>) -> bool
    ensures { IsTrue result ↔ ((a.now.cells ≡ b.now.cells) × ((a.now.eq ≡ b.now.eq) × (a.now.share ≡ b.now.share))) }
{
    are_same_cells(a.cells(), b.cells()) && are_same_relations(a, b)
}

/// Whether two abstract states have the same frames, thrown id, cells and pairs. It takes no memory, and as many steps as the
/// states are long.
pub fn is_same_state<P: Pairs>(a: &AbsState<P>, b: &AbsState<P>) -> bool
    ensures { IsTrue result ↔ (a.now ≡ b.now) }
{
    are_same_positions(a, b) && are_same_words(a, b)
}
