//! Operands on the stack: whether they are what is asked for.
ghost use Rattle.class_program.specs.class_world.Worlds.{classes_of};
ghost use Rattle.class_program.specs.class_world.WorldTypes.{types_of};
ghost use Rattle.std.specs.Prelude.{◌≡◌, [], ◌∷◌, Some, None, MatchBool, map, reverse};
ghost use Rattle.std.specs.Option.{is_some};
ghost use Rattle.jvm_values.specs.Joins.{item_of};
ghost use Rattle.code_verify.specs.Operands.{is_for, is_base_for, is_int, is_reference, is_below, is_array, is_numbers};
ghost use Rattle.code_verify.specs.Operands.{is_references, fits, want_of, place_of, item_place};
ghost use Rattle.code_verify.specs.Rows.{taken};

use crate::want::Want;
use class_program::class_world::World;
use jvm_values::{Base, FrameType, Kind, PlaceType, Slot, Ty, Types};
use op_forms::ItemKind;

/// Whether an instruction is for arrays of a kind.
fn is_for(items: ItemKind, kind: Kind) -> bool
    ensures { result ≡ is_for items kind }
{
    matches!(
        (items, kind),
        (ItemKind::Int, Kind::Int)
            | (ItemKind::Byte, Kind::Boolean)
            | (ItemKind::Byte, Kind::Byte)
            | (ItemKind::Char, Kind::Char)
            | (ItemKind::Short, Kind::Short)
    )
}

fn is_base_for(items: ItemKind, base: Base) -> bool
    ensures { result ≡ is_base_for items base }
{
    match base {
        Base::Class(_) => false,
        Base::Num(kind) => is_for(items, kind),
    }
}

/// The type of the items of an array of references, or None where the type is no such array.
fn item_of(t: Ty) -> Option<Ty>
    ensures { result ≡ item_of t }
{
    match t.base {
        Base::Class(class) if t.dims > 0 => Some(Ty {
            dims: t.dims - 1,
            base: Base::Class(class),
        }),
        Base::Num(kind) if t.dims > 1 => Some(Ty {
            dims: t.dims - 1,
            base: Base::Num(kind),
        }),
        _ => None,
    }
}

pub(crate) fn is_int(place: PlaceType) -> bool
    ensures { result ≡ is_int place }
{
    match place {
        PlaceType::Int => true,
        PlaceType::Unset | PlaceType::Null | PlaceType::Ref(_) => false,
    }
}

/// Null, or a reference.
pub(crate) fn is_reference(place: PlaceType) -> bool
    ensures { result ≡ is_reference place }
{
    match place {
        PlaceType::Null | PlaceType::Ref(_) => true,
        PlaceType::Unset | PlaceType::Int => false,
    }
}

/// Null, or a reference of a type as assignments see it.
fn is_below(world: &World<'_>, t: Ty, place: PlaceType) -> bool
    ensures { result ≡ is_below (types_of (classes_of world.now)) t place }
{
    match place {
        PlaceType::Null => true,
        PlaceType::Ref(s) => world.sub(s, world.erase(t)),
        PlaceType::Unset | PlaceType::Int => false,
    }
}

/// Null, or an array.
fn is_array(place: PlaceType) -> bool
    ensures { result ≡ is_array place }
{
    match place {
        PlaceType::Null => true,
        PlaceType::Ref(t) => t.dims > 0,
        PlaceType::Unset | PlaceType::Int => false,
    }
}

/// Null, or an array of numbers that an instruction is for.
fn is_numbers(items: ItemKind, place: PlaceType) -> bool
    ensures { result ≡ is_numbers items place }
{
    match place {
        PlaceType::Null => true,
        PlaceType::Ref(t) => t.dims == 1 && is_base_for(items, t.base),
        PlaceType::Unset | PlaceType::Int => false,
    }
}

/// Null, or an array of references.
fn is_references(place: PlaceType) -> bool
    ensures { result ≡ is_references place }
{
    match place {
        PlaceType::Null => true,
        PlaceType::Ref(t) => item_of(t).is_some(),
        PlaceType::Unset | PlaceType::Int => false,
    }
}

/// Whether an operand is what is asked for.
fn fits(world: &World<'_>, want: Want, place: PlaceType) -> bool
    ensures { result ≡ fits (types_of (classes_of world.now)) want place }
{
    match want {
        Want::Int => is_int(place),
        Want::Reference => is_reference(place),
        Want::Below(t) => is_below(world, t, place),
        Want::BelowBoth(s, t) => is_below(world, s, place) && is_below(world, t, place),
        Want::Array => is_array(place),
        Want::Numbers(items) => is_numbers(items, place),
        Want::References => is_references(place),
    }
}

/// What is asked for where a slot says what is taken.
pub(crate) fn want_of(slot: Slot) -> Want
    ensures { result ≡ want_of slot }
{
    match slot {
        Slot::Num(_) => Want::Int,
        Slot::Ref(t) => Want::Below(t),
    }
}

/// What a slot holds.
pub(crate) fn place_of(world: &World<'_>, slot: Slot) -> PlaceType
    ensures { result ≡ place_of (types_of (classes_of world.now)) slot }
{
    match slot {
        Slot::Num(_) => PlaceType::Int,
        Slot::Ref(t) => PlaceType::Ref(world.erase(t)),
    }
}

/// What an array of references gives.
pub(crate) fn item_place(place: PlaceType) -> Option<PlaceType>
    ensures { result ≡ item_place place }
{
    match place {
        PlaceType::Null => Some(PlaceType::Null),
        PlaceType::Ref(t) => match item_of(t) {
            Some(item) => Some(PlaceType::Ref(item)),
            None => None,
        },
        PlaceType::Unset | PlaceType::Int => None,
    }
}

/// Takes an operand off the stack, where it is what is asked for, and says so.
pub(crate) fn take(world: &World<'_>, want: Want, frame: &mut FrameType) -> bool
    ensures stack { MatchBool result
        (taken (types_of (classes_of world.now)) (want ∷ []) frame.old.stack.0 ≡ Some frame.new.stack.0)
        (taken (types_of (classes_of world.now)) (want ∷ []) frame.old.stack.0 ≡ None) }
    ensures locals { frame.new.locals ≡ frame.old.locals }
{
    match frame.stack.pop() {
        Some(place) => fits(world, want, place),
        None => false,
    }
}

/// Takes operands off the stack, the first from the top, where each is what is asked for, and says so.
pub(crate) fn take_all(world: &World<'_>, wants: &[Want], frame: &mut FrameType) -> bool
    ensures stack { MatchBool result (taken (types_of (classes_of world.now)) wants.now frame.old.stack.0 ≡ Some frame.new.stack.0)
        (taken (types_of (classes_of world.now)) wants.now frame.old.stack.0 ≡ None) }
    ensures locals { frame.new.locals ≡ frame.old.locals }
{
    match wants.split_first() {
        Some((first, rest)) => take(world, *first, frame) && take_all(world, rest, frame),
        None => true,
    }
}

/// Takes the arguments of a call off the stack, the last from the top, where each is such as its slot says, and says so.
pub(crate) fn take_arguments(world: &World<'_>, params: &[Slot], frame: &mut FrameType) -> bool
    ensures stack { MatchBool result (taken (types_of (classes_of world.now)) (map want_of (reverse params.now)) frame.old.stack.0
        ≡ Some frame.new.stack.0) (taken (types_of (classes_of world.now)) (map want_of (reverse params.now)) frame.old.stack.0
        ≡ None) }
    ensures locals { frame.new.locals ≡ frame.old.locals }
{
    match params.split_last() {
        Some((last, rest)) => {
            take(world, want_of(*last), frame) && take_arguments(world, rest, frame)
        }
        None => true,
    }
}
