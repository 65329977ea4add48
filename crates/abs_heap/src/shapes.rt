//! The shapes of regions after two ids became one, and after a write.
ghost use Rattle.std.specs.Prelude.{◌≡◌};
ghost use Rattle.abs_heap.specs.Refining.{better};
ghost use Rattle.abs_heap.specs.Writing.{shape_after};

use jvm_values::Shape;

/// The better of two shapes that both hold of a region: a tree before one without cycles before any.
pub(crate) fn better(one: Shape, other: Shape) -> Shape
    ensures { result ≡ better one other }
{
    match (one, other) {
        (Shape::Tree, _) | (_, Shape::Tree) => Shape::Tree,
        (Shape::Dag, _) | (_, Shape::Dag) => Shape::Dag,
        (Shape::Any, Shape::Any) => Shape::Any,
    }
}

/// The shape of a region that has the written object, after a write of null, or of a reference that makes no cycle, or of
/// another one.
pub(crate) fn shape_after(null: bool, no_cycle: bool, before: Shape) -> Shape
    ensures { result ≡ shape_after null no_cycle before }
{
    match before {
        Shape::Any => Shape::Any,
        Shape::Tree | Shape::Dag if null => before,
        Shape::Tree | Shape::Dag if no_cycle => Shape::Dag,
        Shape::Tree | Shape::Dag => Shape::Any,
    }
}
