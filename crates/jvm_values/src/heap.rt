//! Values and the objects that references name (JVM specification, sections 2.4 and 2.5.3).
ghost use Rattle.std.specs.Prelude.{◌≡◌, map, IfOk};
ghost use Rattle.jvm_values.specs.Slots.{initial_value};

use crate::types::{Kind, Slot, Ty};
use list_views::Seq;
use std::alloc::{AllocError, Global};

/// A value on a stack, in a local, a field or an array of references.
#[derive(Clone, Copy, PartialEq, Eq)]
pub enum Value {
    /// A number of 32 bits with a sign.
    Int(i32),
    /// The reference to no object.
    Null,
    /// The reference to the object of this number in the heap.
    Ref(u32),
}

/// An object of the heap.
#[derive(Drop)]
pub enum Object {
    /// An instance of a class, with the values of its fields, those of the topmost superclass first.
    Instance {
        /// The class's number.
        class: u32,
        /// The fields' values.
        fields: Seq<Value>,
    },
    /// An array of numbers.
    Nums {
        /// The kind of its items.
        kind: Kind,
        /// The items.
        items: Seq<i32>,
    },
    /// An array of references.
    Refs {
        /// The type of its items.
        element: Ty,
        /// The items, each a reference or null.
        items: Seq<Value>,
    },
}

/// The objects that a run has made, each under its number, the first under 0.
#[derive(Drop)]
pub struct Heap {
    /// The objects.
    pub objects: Seq<Object>,
}

/// What a field holds before anything is put into it.
fn initial_value(slot: Slot) -> Value
    ensures { result ≡ initial_value slot }
{
    match slot {
        Slot::Num(_) => Value::Int(0),
        Slot::Ref(_) => Value::Null,
    }
}

/// What fields hold before anything is put into them (JVM specification, sections 2.3 and 2.4).
///
/// # Errors
///
/// Want of memory.
pub fn initial_values(alloc: Global, slots: &[Slot]) -> Result<Seq<Value>, AllocError>
    ensures { IfOk result (λ values. values ≡ map initial_value slots.now) }
{
    let mut values = Seq::with_capacity(alloc, slots.len())?;
    for slot in slots {
        values.push(initial_value(*slot))?;
    }
    Ok(values)
}
