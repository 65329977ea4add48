//! The line that says how a run ended.
ghost use Rattle.std.specs.Prelude.{◌≡◌, IfOk, string_bytes};
ghost use Rattle.std.specs.Fmt.{signed_decimal};
ghost use Rattle.class_world.specs.Worlds.{classes_of};
ghost use Rattle.class_program.specs.Methods.{class_name};
ghost use Rattle.class_calls.specs.run_call.Lines as lines;

use class_world::World;
use jvm_run::Ended;
use jvm_values::{Base, Heap, Kind, Object, Ty, Types, Value};
use list_views::Seq;
use list_views::fault_words::{joined, number};
use std::alloc::{AllocError, Global};

/// The name of the class of a number.
fn class_name<'a>(world: &World<'a>, class: u32) -> &'a [u8]
    ensures { result.now ≡ class_name (classes_of world.now) class }
{
    if class < world.classes() {
        world.name_of(class)
    } else {
        b""
    }
}

/// The letter of a kind of numbers.
fn kind_letter(kind: Kind) -> &'static [u8]
    ensures { result.now ≡ lines.kind_letter kind }
{
    match kind {
        Kind::Boolean => b"Z",
        Kind::Char => b"C",
        Kind::Byte => b"B",
        Kind::Short => b"S",
        Kind::Int => b"I",
    }
}

/// The descriptor of what has no dimension.
fn base_descriptor(alloc: Global, world: &World<'_>, base: Base) -> Result<Seq<u8>, AllocError>
    ensures { IfOk result (λ text. text ≡ lines.base_descriptor (classes_of world.now) base) }
{
    match base {
        Base::Class(class) => joined(alloc, &[b"L", class_name(world, class), b";"]),
        Base::Num(kind) => Seq::from_slice(alloc, kind_letter(kind)),
    }
}

/// The descriptor of an array of these.
fn array_descriptor(alloc: Global, world: &World<'_>, element: Ty) -> Result<Seq<u8>, AllocError>
    ensures { IfOk result (λ text. text ≡ lines.array_descriptor (classes_of world.now) element) }
{
    let marks = vec![in alloc; b'['; usize::from(element.dims)]?;
    let base = base_descriptor(alloc, world, element.base)?;
    joined(alloc, &[b"[", marks.as_slice(), base.as_slice()])
}

/// An object in words.
fn object_text(alloc: Global, world: &World<'_>, object: &Object) -> Result<Seq<u8>, AllocError>
    ensures { IfOk result (λ text. text ≡ lines.object_text (classes_of world.now) object.now) }
{
    match object {
        Object::Instance { class, .. } => Seq::from_slice(alloc, class_name(world, *class)),
        Object::Nums { kind, .. } => joined(alloc, &[b"[", kind_letter(*kind)]),
        Object::Refs { element, .. } => array_descriptor(alloc, world, *element),
    }
}

/// The object of a number in words.
fn reference_text(
    alloc: Global,
    world: &World<'_>,
    heap: &Heap,
    r: u32,
) -> Result<Seq<u8>, AllocError>
    ensures { IfOk result (λ text. text ≡ lines.reference_text (classes_of world.now) heap.now r) }
{
    match heap.objects.get(r as usize) {
        Some(object) => object_text(alloc, world, object),
        None => Ok(Seq::new(alloc)),
    }
}

/// An int in digits.
fn int_digits(alloc: Global, value: i32) -> Result<String, AllocError>
    ensures { IfOk result (λ text. string_bytes text ≡ signed_decimal value) }
{
    format!(in alloc; "{value}")
}

/// The line of a run that returned a value.
fn value_line(
    alloc: Global,
    world: &World<'_>,
    heap: &Heap,
    value: Value,
) -> Result<Seq<u8>, AllocError>
    ensures { IfOk result (λ line. line ≡ lines.value_line (classes_of world.now) heap.now value) }
{
    match value {
        Value::Int(n) => {
            let digits = int_digits(alloc, n)?;
            joined(alloc, &[b"RETURNED int ", digits.as_bytes(), b"\n"])
        }
        Value::Null => Seq::from_slice(alloc, b"RETURNED null\n"),
        Value::Ref(r) => {
            let name = reference_text(alloc, world, heap, r)?;
            joined(alloc, &[b"RETURNED ref ", name.as_slice(), b"\n"])
        }
    }
}

/// The line of a run that goes on after so many steps.
fn going_line(alloc: Global, fuel: u64) -> Result<Seq<u8>, AllocError>
    ensures { IfOk result (λ line. line ≡ lines.going_line fuel) }
{
    let digits = number(alloc, fuel as usize)?;
    joined(alloc, &[b"GOING ", digits.as_slice(), b"\n"])
}

/// The line of a run that ended with a throw of this object.
fn threw_line(alloc: Global, world: &World<'_>, heap: &Heap, r: u32) -> Result<Seq<u8>, AllocError>
    ensures { IfOk result (λ line. line ≡ lines.threw_line (classes_of world.now) heap.now r) }
{
    let name = reference_text(alloc, world, heap, r)?;
    joined(alloc, &[b"THREW ", name.as_slice(), b"\n"])
}

/// The line of a run of so many steps that ended so, with this heap.
pub(crate) fn ended_line(
    alloc: Global,
    world: &World<'_>,
    heap: &Heap,
    fuel: u64,
    ended: Ended,
) -> Result<Seq<u8>, AllocError>
    ensures { IfOk result (λ line. line ≡ lines.ended_line (classes_of world.now) heap.now fuel ended) }
{
    match ended {
        Ended::Out => going_line(alloc, fuel),
        Ended::Returned(None) => Seq::from_slice(alloc, b"RETURNED\n"),
        Ended::Returned(Some(value)) => value_line(alloc, world, heap, value),
        Ended::Threw(r) => threw_line(alloc, world, heap, r),
    }
}
