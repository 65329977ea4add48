//! What the parameters of calls hold. Calls of equal descriptors share one list.
ghost use Rattle.std.specs.Prelude.{◌≡◌, length, IfOk, IfSome, IsTrue};

use crate::op::{Call, Op};
use class_world::World;
use indexmap::IndexMap;
use jvm_values::Slot;
use list_views::Seq;
use std::alloc::{AllocError, Global};
use std::marker::Model;
use std::rc::Rc;

/// What parameters hold, in their order. It is seen as the list.
#[derive(Drop)]
pub struct Slots {
    items: Rc<Seq<Slot>>,
}

impl Model for Slots {
    ghost use Rattle.std.specs.Prelude.{List};
    ghost use Rattle.jvm_values.specs.declared.types.Slot.{Slot};

    ghost Value = { List Slot };

    ghost view = { λ s. s.items.value };
}

impl Slots {
    pub(crate) fn new(alloc: Global, items: Seq<Slot>) -> Result<Slots, AllocError>
        ensures { IfOk result (λ r. r ≡ items) }
    {
        Ok(Slots {
            items: Rc::new(alloc, items)?,
        })
    }

    /// The number of parameters.
    pub fn len(&self) -> usize
        ensures { result ≡ length self.now }
    {
        self.as_slice().len()
    }

    /// The list as a slice.
    pub fn as_slice(&self) -> &[Slot]
        ensures { result.now ≡ self.now }
    {
        self.items.as_ref().as_slice()
    }

    /// The same list, shared.
    fn share(&self) -> Result<Slots, AllocError>
        ensures { IfOk result (λ r. r ≡ self.now) }
    {
        Ok(Slots {
            items: self.items.clone()?,
        })
    }

    fn is_same(&self, other: &Slots) -> bool
        ensures { IsTrue result → self.now ≡ other.now }
    {
        self.as_slice() == other.as_slice()
    }
}

/// A list for each descriptor that came.
#[derive(Drop)]
pub(crate) struct SharedSlots<'a> {
    lists: IndexMap<&'a [u8], Slots>,
}

impl<'a> SharedSlots<'a> {
    pub(crate) fn new(alloc: Global) -> SharedSlots<'a> {
        SharedSlots {
            lists: IndexMap::new(alloc),
        }
    }

    /// The list of the descriptor, where it is equal.
    fn find(&self, desc: &[u8], slots: &Slots) -> Option<&Slots>
        ensures { IfSome result (λ r. r.now ≡ slots.now) }
    {
        let first = self.lists.get(desc)?;
        if first.is_same(slots) {
            Some(first)
        } else {
            None
        }
    }

    /// The same list, shared with those that came before for the descriptor.
    ///
    /// # Errors
    ///
    /// Want of memory.
    fn shared(&mut self, desc: &'a [u8], slots: Slots) -> Result<Slots, AllocError>
        ensures { IfOk result (λ r. r ≡ slots) }
    {
        if let Some(first) = self.find(desc, &slots) {
            return first.share();
        }
        self.lists.insert(desc, slots.share()?)?;
        Ok(slots)
    }

    /// The same call, which shares its parameters with calls of an equal descriptor.
    fn shared_call(&mut self, world: &World<'a>, call: Call) -> Result<Call, AllocError>
        ensures { IfOk result (λ r. r ≡ call) }
    {
        match world.method_at(call.method) {
            Some(named) => Ok(Call {
                class: call.class,
                method: call.method,
                params: self.shared(named.desc, call.params)?,
                result: call.result,
                target: call.target,
            }),
            None => Ok(call),
        }
    }

    /// The same instruction, which shares its parameters with calls of an equal descriptor.
    ///
    /// # Errors
    ///
    /// Want of memory.
    pub(crate) fn shared_op(&mut self, world: &World<'a>, op: Op) -> Result<Op, AllocError>
        ensures { IfOk result (λ r. r ≡ op) }
    {
        match op {
            Op::Invokevirtual(call) => Ok(Op::Invokevirtual(self.shared_call(world, call)?)),
            Op::Invokespecial(call) => Ok(Op::Invokespecial(self.shared_call(world, call)?)),
            Op::Invokestatic(call) => Ok(Op::Invokestatic(self.shared_call(world, call)?)),
            Op::Invokeinterface(call) => Ok(Op::Invokeinterface(self.shared_call(world, call)?)),
            other => Ok(other),
        }
    }
}
