//! Whether an id has the pairs and the shape that its image asks of it.
ghost use Rattle.std.specs.Prelude.{◌≡◌, ◌↔◌, ℕ, true, IsTrue, Some};
ghost use Rattle.abs_cells.specs.IdSets.{has_id};
ghost use Rattle.abs_cells.specs.Cells.{is_known, is_hazy, is_reference, cell_at, HasCell, Share};
ghost use Rattle.abs_cells.specs.Closures.{MayMeet, MayBeIn};
ghost use Rattle.abs_cells.specs.Sound.{AreIdsRising, IsWellFormed};
ghost use Rattle.abs_reach.specs.Instances.{image_in, AreMapped, MayBeOne, HasIdShape, SharesEnough};
ghost use Rattle.abs_match.specs.inner.Matching.{AreMatched, PairsEnough, IsShaped};

use crate::apart::apart_images;
use crate::clauses::OtherSort;
use crate::maps::image_of;
use abs_cells::{AbsState, Cell, Id, IdSet, Pairs};
use abs_reach::{
    Marks, has_reference, is_finite, is_tree, may_be_in_some, may_meet_some, some_may_be_in,
};
use jvm_values::Shape;

/// Whether an id is in a set, and is that of a reference that is not null.
fn is_among<P: Pairs>(state: &AbsState<P>, id: Id, others: &IdSet) -> bool
    requires { AreIdsRising 0 state.now.cells }
    ensures { IsTrue result ↔ ((has_id others.now id ≡ true) × HasCell is_reference state.now id) }
{
    others.has(id) && has_reference(state, id)
}

/// Whether an id and no id of a set may stand for one object.
fn is_alone<P: Pairs>(state: &AbsState<P>, id: Id, others: &IdSet) -> bool
    requires good { IsWellFormed state.now }
    requires there { HasCell (λ _. true) state.now id }
    ensures { IsTrue result ↔ ((other : ℕ) → has_id others.now other ≡ true → MayBeOne state.now id other → ⊥) }
{
    if is_among(state, id, others) {
        return false;
    }
    !state.eq().touches(&IdSet::only(id), others)
}

/// Whether an id is a pair with each other one that may stand for its object.
pub(crate) fn aliases_fit<P: Pairs>(
    state: &AbsState<P>,
    target: &AbsState<P>,
    entries: &[(Id, Id)],
    id: Id,
    cell: &Cell,
) -> bool
    requires matched { AreMatched state.now target.now entries.now }
    requires at { cell_at target.now id ≡ Some cell.now }
    ensures { IsTrue result ↔ PairsEnough state.now target.now entries.now id }
{
    if cell.is_int() {
        return true;
    }
    match image_of(entries, id) {
        Some(image) => {
            let others = apart_images(target.cells(), entries, target.eq(), OtherSort::NoInt, id);
            is_alone(state, image, &others)
        }
        None => true,
    }
}

/// Whether a hazy id shares with each hazy one that its image may meet.
fn meets_enough<P: Pairs>(
    state: &AbsState<P>,
    target: &AbsState<P>,
    entries: &[(Id, Id)],
    marks: &mut Marks,
    id: Id,
    image: Id,
) -> bool
    requires matched { AreMatched state.now target.now entries.now }
    requires is { HasCell is_hazy target.now id }
    requires maps { image_in entries.now id ≡ Some image }
    ensures { IsTrue result ↔ ((other other_image : ℕ) → AreMapped target.now entries.now is_hazy is_hazy id other image other_image
        → MayMeet state.now image other_image → Share target.now id other) }
{
    let others = apart_images(target.cells(), entries, target.share(), OtherSort::Hazy, id);
    !may_meet_some(state, image, &others, marks)
}

/// Whether a hazy id shares with each known one whose image may be in the region of its own.
fn holds_enough<P: Pairs>(
    state: &AbsState<P>,
    target: &AbsState<P>,
    entries: &[(Id, Id)],
    marks: &mut Marks,
    id: Id,
    image: Id,
) -> bool
    requires matched { AreMatched state.now target.now entries.now }
    requires is { HasCell is_hazy target.now id }
    requires maps { image_in entries.now id ≡ Some image }
    ensures { IsTrue result ↔ ((other other_image : ℕ)
        → AreMapped target.now entries.now is_hazy is_known id other image other_image → MayBeIn state.now other_image image
        → Share target.now id other) }
{
    let others = apart_images(
        target.cells(),
        entries,
        target.share(),
        OtherSort::Known,
        id,
    );
    !some_may_be_in(state, &others, image, marks)
}

/// Whether a known id shares with each hazy one in whose image's region its own may be.
fn is_in_enough<P: Pairs>(
    state: &AbsState<P>,
    target: &AbsState<P>,
    entries: &[(Id, Id)],
    marks: &mut Marks,
    id: Id,
    image: Id,
) -> bool
    requires matched { AreMatched state.now target.now entries.now }
    requires is { HasCell is_known target.now id }
    requires maps { image_in entries.now id ≡ Some image }
    ensures { IsTrue result ↔ ((other other_image : ℕ)
        → AreMapped target.now entries.now is_known is_hazy id other image other_image → MayBeIn state.now image other_image
        → Share target.now id other) }
{
    let others = apart_images(target.cells(), entries, target.share(), OtherSort::Hazy, id);
    !may_be_in_some(state, image, &others, marks)
}

/// Whether an id shares with each other one whose region its own may meet.
pub(crate) fn sharing_fits<P: Pairs>(
    state: &AbsState<P>,
    target: &AbsState<P>,
    entries: &[(Id, Id)],
    marks: &mut Marks,
    id: Id,
    cell: &Cell,
) -> bool
    requires matched { AreMatched state.now target.now entries.now }
    requires at { cell_at target.now id ≡ Some cell.now }
    ensures { IsTrue result ↔ SharesEnough state.now target.now entries.now id }
{
    let Some(image) = image_of(entries, id) else {
        return true;
    };
    if cell.is_known() {
        return is_in_enough(state, target, entries, marks, id, image);
    }
    if !cell.is_hazy() {
        return true;
    }
    meets_enough(state, target, entries, marks, id, image)
        && holds_enough(state, target, entries, marks, id, image)
}

/// Whether an id's closure is of a shape.
fn has_shape<P: Pairs>(state: &AbsState<P>, shape: Shape, id: Id, marks: &mut Marks) -> bool
    requires good { IsWellFormed state.now }
    requires there { HasCell (λ _. true) state.now id }
    ensures { IsTrue result ↔ HasIdShape shape state.now id }
{
    match shape {
        Shape::Tree => is_tree(state, id, marks),
        Shape::Dag => is_finite(state, id, marks),
        Shape::Any => true,
    }
}

/// Whether the image of an id is of the id's shape.
pub(crate) fn shape_fits<P: Pairs>(
    state: &AbsState<P>,
    target: &AbsState<P>,
    entries: &[(Id, Id)],
    marks: &mut Marks,
    id: Id,
    cell: &Cell,
) -> bool
    requires matched { AreMatched state.now target.now entries.now }
    requires at { cell_at target.now id ≡ Some cell.now }
    ensures { IsTrue result ↔ IsShaped state.now target.now entries.now id }
{
    match (cell.shape(), image_of(entries, id)) {
        (Some(shape), Some(image)) => has_shape(state, shape, image, marks),
        _ => true,
    }
}
