//! The least type that is as wide as two.
ghost use Rattle.jvm_values.specs.TypedHeaps.{world_types};
ghost use Rattle.frame_types.specs.Places.{IsOfWorld};
ghost use Rattle.frame_types.specs.Joins.{IsPlaceJoin};

use jvm_values::{PlaceType, Ty, Types, join};

/// The join of two reference types, which are often one.
fn join_types<T: Types>(types: &T, a: Ty, b: Ty) -> PlaceType
    requires left { IsOfWorld (world_types (T.sub types.now) (T.erase types.now) (T.classes types.now) (T.fields types.now)
        (T.can_be_made types.now)) (PlaceType.Ref a) }
    requires right { IsOfWorld (world_types (T.sub types.now) (T.erase types.now) (T.classes types.now) (T.fields types.now)
        (T.can_be_made types.now)) (PlaceType.Ref b) }
    ensures { IsPlaceJoin (world_types (T.sub types.now) (T.erase types.now) (T.classes types.now) (T.fields types.now)
        (T.can_be_made types.now)) (PlaceType.Ref a) (PlaceType.Ref b) result }
{
    PlaceType::Ref(join(types, a, b))
}

/// The least type of the world that is as wide as two: unset where an int meets a reference, or where one is unset (JVM
/// specification, section 4.10.2.2).
///
/// It costs what [`join`] costs where two different reference types meet.
pub fn join_places<T: Types>(types: &T, a: PlaceType, b: PlaceType) -> PlaceType
    requires left { IsOfWorld (world_types (T.sub types.now) (T.erase types.now) (T.classes types.now) (T.fields types.now)
        (T.can_be_made types.now)) a }
    requires right { IsOfWorld (world_types (T.sub types.now) (T.erase types.now) (T.classes types.now) (T.fields types.now)
        (T.can_be_made types.now)) b }
    ensures { IsPlaceJoin (world_types (T.sub types.now) (T.erase types.now) (T.classes types.now) (T.fields types.now)
        (T.can_be_made types.now)) a b result }
{
    match (a, b) {
        (PlaceType::Int, PlaceType::Int) => PlaceType::Int,
        (PlaceType::Null, PlaceType::Null) => PlaceType::Null,
        (PlaceType::Null, PlaceType::Ref(t)) => PlaceType::Ref(t),
        (PlaceType::Ref(s), PlaceType::Null) => PlaceType::Ref(s),
        (PlaceType::Ref(s), PlaceType::Ref(t)) => join_types(types, s, t),
        (_, _) => PlaceType::Unset,
    }
}
