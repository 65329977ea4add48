//! Shapes of what ids describe, and the worse of two.
ghost use Rattle.std.specs.Prelude.{◌≡◌, true};
ghost use Rattle.abs_cells.specs.Cells.{HasCell};
ghost use Rattle.abs_cells.specs.Sound.{IsWellFormed};
ghost use Rattle.abs_widen.specs.Rows.{IsShapeOf, worse, IsWorseShape};

use abs_cells::{AbsState, Id, Pairs};
use abs_reach::{Marks, is_finite, is_tree};
use jvm_values::Shape;

/// The worse of two shapes.
fn worse(shape: Shape, other: Shape) -> Shape
    ensures { result ≡ worse shape other }
{
    match shape {
        Shape::Tree => other,
        Shape::Dag => {
            if let Shape::Any = other {
                Shape::Any
            } else {
                Shape::Dag
            }
        }
        Shape::Any => Shape::Any,
    }
}

/// The shape of what an id's closure describes.
fn shape_of<P: Pairs>(state: &AbsState<P>, id: Id, marks: &mut Marks) -> Shape
    requires good { IsWellFormed state.now }
    requires there { HasCell (λ _. true) state.now id }
    ensures { IsShapeOf state.now id result }
{
    if is_tree(state, id, marks) {
        Shape::Tree
    } else if is_finite(state, id, marks) {
        Shape::Dag
    } else {
        Shape::Any
    }
}

/// The worse of the shapes of two ids that stand beside one another.
pub(crate) fn worse_shape<P: Pairs>(
    a: &AbsState<P>,
    b: &AbsState<P>,
    pair: (Id, Id),
    marks: &mut Marks,
) -> Shape
    requires first { IsWellFormed a.now }
    requires second { IsWellFormed b.now }
    requires there { HasCell (λ _. true) a.now pair.0 }
    requires other { HasCell (λ _. true) b.now pair.1 }
    ensures { IsWorseShape a.now b.now pair result }
{
    let first = shape_of(a, pair.0, marks);
    let second = shape_of(b, pair.1, marks);
    worse(first, second)
}
