//! The faults of linking and closing in words.
ghost use Rattle.std.specs.Prelude.{◌≡◌, IfOk};
ghost use Rattle.code_forms.specs.Faults.{pc_field};
ghost use Rattle.class_world.specs.Faults.{fault_name, name_field, method_fields, fault_fields, fault_text};

use crate::fault::{LinkFault, MethodName};
use code_forms::list_views::Seq;
use code_forms::list_views::fault_words::{bytes_field, joined, number_field};
use std::alloc::{AllocError, Global};

fn name_field(alloc: Global, name: &Seq<u8>) -> Result<Seq<u8>, AllocError>
    ensures { IfOk result (λ text. text ≡ name_field name.now) }
{
    bytes_field(alloc, b"name", name.as_slice())
}

/// The method, and further fields.
fn method_fields(alloc: Global, method: &MethodName, more: &[u8]) -> Result<Seq<u8>, AllocError>
    ensures { IfOk result (λ text. text ≡ method_fields method.now more.now) }
{
    joined(
        alloc,
        &[
            b" method=",
            method.class.as_slice(),
            b".",
            method.name.as_slice(),
            method.desc.as_slice(),
            more,
        ],
    )
}

/// The method, and the place of an instruction.
fn place_fields(alloc: Global, method: &MethodName, pc: u16) -> Result<Seq<u8>, AllocError>
    ensures { IfOk result (λ text. text ≡ method_fields method.now (pc_field pc)) }
{
    let place = number_field(alloc, b"pc", usize::from(pc))?;
    method_fields(alloc, method, place.as_slice())
}

impl LinkFault {
    /// The fault's name; a fault of a method's code stands for it.
    pub fn name(&self) -> &'static [u8]
        ensures { result.now ≡ fault_name self.now }
    {
        match self {
            LinkFault::DuplicateClass { .. } => b"DuplicateClass",
            LinkFault::MissingClass { .. } => b"MissingClass",
            LinkFault::CyclicHierarchy { .. } => b"CyclicHierarchy",
            LinkFault::BadSuper { .. } => b"BadSuper",
            LinkFault::DefaultMethod { .. } => b"DefaultMethod",
            LinkFault::StaticInit { .. } => b"StaticInit",
            LinkFault::Native { .. } => b"Native",
            LinkFault::Synchronized { .. } => b"Synchronized",
            LinkFault::UnsupportedType { .. } => b"UnsupportedType",
            LinkFault::Unresolved { .. } => b"Unresolved",
            LinkFault::PrivateVirtual { .. } => b"PrivateVirtual",
            LinkFault::Code { fault, .. } => fault.name(),
            LinkFault::TooManyStatics => b"TooManyStatics",
            LinkFault::Memory => b"Memory",
        }
    }

    /// The fault's fields, each as ` name=value`: a class's name, or a method as `CLASS.NAMEDESC` with what is said of it.
    ///
    /// # Errors
    ///
    /// Want of memory.
    pub fn fields(&self, alloc: Global) -> Result<Seq<u8>, AllocError>
        ensures { IfOk result (λ text. text ≡ fault_fields self.now) }
    {
        match self {
            LinkFault::DuplicateClass { name } => name_field(alloc, name),
            LinkFault::MissingClass { name } => name_field(alloc, name),
            LinkFault::CyclicHierarchy { name } => name_field(alloc, name),
            LinkFault::BadSuper { name } => name_field(alloc, name),
            LinkFault::DefaultMethod { name } => name_field(alloc, name),
            LinkFault::StaticInit { name } => name_field(alloc, name),
            LinkFault::Native { method } => method_fields(alloc, method, b""),
            LinkFault::Synchronized { method } => method_fields(alloc, method, b""),
            LinkFault::UnsupportedType { method, pc } => place_fields(alloc, method, *pc),
            LinkFault::Unresolved { method, pc } => place_fields(alloc, method, *pc),
            LinkFault::PrivateVirtual { method, pc } => place_fields(alloc, method, *pc),
            LinkFault::Code { method, fault } => {
                let more = fault.fields(alloc)?;
                method_fields(alloc, method, more.as_slice())
            }
            LinkFault::TooManyStatics => Ok(Seq::new(alloc)),
            LinkFault::Memory => Ok(Seq::new(alloc)),
        }
    }

    /// The fault in words: its name and its fields.
    ///
    /// # Errors
    ///
    /// Want of memory.
    pub fn text(&self, alloc: Global) -> Result<Seq<u8>, AllocError>
        ensures { IfOk result (λ text. text ≡ fault_text self.now) }
    {
        let fields = self.fields(alloc)?;
        joined(alloc, &[self.name(), fields.as_slice()])
    }
}
