//! Frames that come to one place.
ghost use Rattle.std.specs.Prelude.{◌≡◌, ◌↔◌, IsTrue, length, All, MatchOption, true, false, Some};
ghost use Rattle.jvm_values.specs.TypedHeaps.{world_types};
ghost use Rattle.jvm_values.specs.States.{types_of};
ghost use Rattle.frame_types.specs.Places.{IsOfWorld, IsSet, IsProper};
ghost use Rattle.frame_types.specs.Joins.{AreJoins, AreApart, IsMergedAs};

use crate::joins::join_places;
use jvm_values::list_views::{Seq, Stack};
use jvm_values::{FrameType, PlaceType, Types};

/// Whether two types are one.
fn is_same(a: PlaceType, b: PlaceType) -> bool
    ensures { IsTrue result ↔ a ≡ b }
{
    a == b
}

/// Makes each local as wide as those that come, and says whether one has grown.
fn merge_locals<T: Types>(types: &T, locals: &mut Seq<PlaceType>, more: &[PlaceType]) -> bool
    requires long { length more.now ≡ length locals.old }
    requires old { All (IsOfWorld (world_types (T.sub types.now) (T.erase types.now) (T.classes types.now) (T.fields types.now)
        (T.can_be_made types.now))) locals.old }
    requires more { All (IsOfWorld (world_types (T.sub types.now) (T.erase types.now) (T.classes types.now) (T.fields types.now)
        (T.can_be_made types.now))) more.now }
    ensures joins { AreJoins (world_types (T.sub types.now) (T.erase types.now) (T.classes types.now) (T.fields types.now)
        (T.can_be_made types.now)) locals.old more.now locals.new }
    ensures same { result ≡ false → locals.new ≡ locals.old }
    ensures grew { result ≡ true → locals.new ≡ locals.old → ⊥ }
{
    let mut grew = false;
    for i in 0..more.len() {
        let here = locals.at(i);
        let joined = join_places(types, *here, more[i]);
        let same = is_same(joined, *here);
        if !same {
            *locals.at_mut(i) = joined;
            grew = true;
        }
    }
    grew
}

/// Makes each stack entry as wide as those that come, and says whether one has grown; None where two have no type in
/// common.
fn merge_stack<T: Types>(
    types: &T,
    stack: &mut Stack<PlaceType>,
    more: &Stack<PlaceType>,
) -> Option<bool>
    requires long { length more.now.0 ≡ length stack.old.0 }
    requires old { All (IsOfWorld (world_types (T.sub types.now) (T.erase types.now) (T.classes types.now) (T.fields types.now)
        (T.can_be_made types.now))) stack.old.0 }
    requires more { All (IsOfWorld (world_types (T.sub types.now) (T.erase types.now) (T.classes types.now) (T.fields types.now)
        (T.can_be_made types.now))) more.now.0 }
    requires set { All IsSet stack.old.0 }
    ensures joins { MatchOption result
        (AreApart (world_types (T.sub types.now) (T.erase types.now) (T.classes types.now) (T.fields types.now)
        (T.can_be_made types.now)) stack.old.0 more.now.0)
        (λ grew. AreJoins (world_types (T.sub types.now) (T.erase types.now) (T.classes types.now) (T.fields types.now)
        (T.can_be_made types.now)) stack.old.0 more.now.0 stack.new.0) }
    ensures set { MatchOption result (Unit {0}) (λ grew. All IsSet stack.new.0) }
    ensures same { result ≡ Some false → stack.new.0 ≡ stack.old.0 }
    ensures grew { result ≡ Some true → stack.new.0 ≡ stack.old.0 → ⊥ }
{
    let mut grew = false;
    for i in 0..more.len() {
        let here = stack.at(i);
        let come = more.at(i);
        let joined = join_places(types, *here, *come);
        if let PlaceType::Unset = joined {
            return None;
        }
        let same = is_same(joined, *here);
        if !same {
            *stack.at_mut(i) = joined;
            grew = true;
        }
    }
    Some(grew)
}

/// What a frame that comes to a place does there.
#[derive(Clone, Copy, PartialEq, Eq)]
pub(crate) enum Coming {
    /// The place has types as wide.
    Same,
    /// The types of the place have grown.
    Grew,
    /// No types are as wide as both.
    Apart,
}

/// Makes a frame as wide as one that comes to the same place.
pub(crate) fn merge_frames<T: Types>(types: &T, frame: &mut FrameType, more: &FrameType) -> Coming
    requires old { IsProper (world_types (T.sub types.now) (T.erase types.now) (T.classes types.now) (T.fields types.now)
        (T.can_be_made types.now)) (length more.now.locals) (types_of frame.old) }
    requires more { IsProper (world_types (T.sub types.now) (T.erase types.now) (T.classes types.now) (T.fields types.now)
        (T.can_be_made types.now)) (length more.now.locals) (types_of more.now) }
    ensures { IsMergedAs (world_types (T.sub types.now) (T.erase types.now) (T.classes types.now) (T.fields types.now)
        (T.can_be_made types.now)) (length more.now.locals) (types_of frame.old) (types_of more.now) (types_of frame.new) result }
{
    if frame.stack.len() != more.stack.len() {
        return Coming::Apart;
    }
    let locals = merge_locals(types, &mut frame.locals, more.locals.as_slice());
    let Some(stack) = merge_stack(types, &mut frame.stack, &more.stack) else {
        return Coming::Apart;
    };
    if locals || stack {
        Coming::Grew
    } else {
        Coming::Same
    }
}
