//! What a description says of inputs about which nothing is known.
ghost use Rattle.std.specs.Prelude.{◌≡◌};
ghost use Rattle.class_world.specs.Worlds.{classes_of};
ghost use Rattle.class_calls.specs.describe.Whole.{are_comparable, is_share, is_wanted};

use crate::describe::json::{put, put_inside, put_int, put_number};
use class_world::World;
use jvm_values::{Base, Kind, Slot, Ty, Types};
use std::alloc::{AllocError, Global};

/// What is listed of pairs of inputs.
#[derive(Clone, Copy)]
pub(crate) enum Listed {
    /// Those that may be one object.
    Same,
    /// Those from which one object may be reached.
    Share,
}

/// The letter of a kind in descriptors (JVM specification, SE 8, section 4.3.2).
fn letter(kind: Kind) -> u8 {
    match kind {
        Kind::Boolean => b'Z',
        Kind::Char => b'C',
        Kind::Byte => b'B',
        Kind::Short => b'S',
        Kind::Int => b'I',
    }
}

/// The name of the class of a number, and nothing for a number that no class has.
pub(crate) fn class_name<'a>(world: &World<'a>, class: u32) -> &'a [u8] {
    if class < world.classes() {
        world.name_of(class)
    } else {
        b""
    }
}

/// Puts a reference type behind a text: the name of a class, or the descriptor of an array type.
fn put_type(text: &mut Vec<u8>, world: &World<'_>, t: Ty) -> Result<(), AllocError> {
    for _ in 0..t.dims {
        put(text, b"[")?;
    }
    match t.base {
        Base::Num(kind) => put(text, &[letter(kind)]),
        Base::Class(class) if t.dims == 0 => put_inside(text, class_name(world, class)),
        Base::Class(class) => {
            put(text, b"L")?;
            put_inside(text, class_name(world, class))?;
            put(text, b";")
        }
    }
}

/// Puts what is said of a number behind a text: the whole range of its kind.
fn put_range(text: &mut Vec<u8>, alloc: Global, kind: Kind) -> Result<(), AllocError> {
    put_int(text, alloc, b"{\"lo\":", &kind.least())?;
    put_int(text, alloc, b",\"hi\":", &kind.greatest())?;
    put(text, b"}")
}

/// What stands behind the type of a reference: whether it may be null, and any shape.
fn behind_type(null: bool) -> &'static [u8] {
    if null {
        b"\",\"null\":true,\"shape\":\"any\"}"
    } else {
        b"\",\"null\":false,\"shape\":\"any\"}"
    }
}

/// Puts what is said of a reference behind a text: its declared type, whether it may be null, and any shape.
fn put_reference(
    text: &mut Vec<u8>,
    world: &World<'_>,
    t: Ty,
    null: bool,
) -> Result<(), AllocError> {
    put(text, b"{\"type\":\"")?;
    put_type(text, world, t)?;
    put(text, behind_type(null))
}

/// Puts what is said of an input behind a text.
fn put_input(
    text: &mut Vec<u8>,
    alloc: Global,
    world: &World<'_>,
    slot: Slot,
    null: bool,
) -> Result<(), AllocError> {
    match slot {
        Slot::Num(kind) => put_range(text, alloc, kind),
        Slot::Ref(t) => put_reference(text, world, t, null),
    }
}

/// Puts a head, which ends with a bracket, behind a text, and behind it what is said of inputs, each on a line of its own; a receiver is
/// never null, and comes first.
pub(crate) fn put_inputs(
    text: &mut Vec<u8>,
    alloc: Global,
    head: &[u8],
    world: &World<'_>,
    receiver: bool,
    inputs: &[Slot],
) -> Result<(), AllocError> {
    put(text, head)?;
    for (n, slot) in inputs.iter().enumerate() {
        put(text, if n == 0 { b"\n  " } else { b",\n  " })?;
        put_input(text, alloc, world, *slot, n > 0 || !receiver)?;
    }
    put(text, b"]")
}

/// Whether two references can be of one object, by their types.
fn are_comparable(world: &World<'_>, s: Ty, t: Ty) -> bool
    ensures { result ≡ are_comparable (classes_of world.now) s t }
{
    let s = world.erase(s);
    let t = world.erase(t);
    world.sub(s, t) || world.sub(t, s)
}

fn is_share(listed: Listed) -> bool
    ensures { result ≡ is_share listed }
{
    match listed {
        Listed::Same => false,
        Listed::Share => true,
    }
}

/// Whether two inputs belong into a list of pairs.
pub(crate) fn is_wanted(world: &World<'_>, listed: Listed, a: Slot, b: Slot) -> bool
    ensures { result ≡ is_wanted (classes_of world.now) listed a b }
{
    match a {
        Slot::Num(_) => false,
        Slot::Ref(s) => match b {
            Slot::Num(_) => false,
            Slot::Ref(t) => is_share(listed) || are_comparable(world, s, t),
        },
    }
}

/// Puts a pair behind a text, behind other pairs or as the first.
fn put_pair(
    text: &mut Vec<u8>,
    alloc: Global,
    first: bool,
    i: usize,
    j: usize,
) -> Result<(), AllocError> {
    put_number(text, alloc, if first { b"[" } else { b",[" }, i)?;
    put_number(text, alloc, b",", j)?;
    put(text, b"]")
}

/// Puts a head, which ends with a bracket, behind a text, and behind it the pairs of inputs that are listed, each pair once.
pub(crate) fn put_pairs(
    text: &mut Vec<u8>,
    alloc: Global,
    head: &[u8],
    world: &World<'_>,
    listed: Listed,
    inputs: &[Slot],
) -> Result<(), AllocError> {
    let mut first = true;
    put(text, head)?;
    for j in 0..inputs.len() {
        for i in 0..j {
            if is_wanted(world, listed, inputs[i], inputs[j]) {
                put_pair(text, alloc, first, i, j)?;
                first = false;
            }
        }
    }
    put(text, b"]")
}
