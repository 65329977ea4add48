//! Instructions with the names that they give resolved.

use crate::slots::Slots;
use class_world::MethodRef;
use class_world::code_forms::Insn;
use jvm_values::{Slot, Ty};

/// An instance field that an instruction names (JVM specification, section 5.4.3.2).
#[derive(Clone, Copy, PartialEq, Eq)]
pub struct FieldUse {
    /// The class that the instruction names, by its number.
    pub class: u32,
    /// The field's place among the fields of that class's instances, those of the topmost superclass first.
    pub place: u32,
    /// What the field holds.
    pub slot: Slot,
}

/// A field by its class's number and its place among the class's fields, from 0.
#[derive(Clone, Copy, PartialEq, Eq, Hash)]
pub struct FieldRef {
    /// The class's number.
    pub class: u32,
    /// The field's place in its class file.
    pub index: u32,
}

/// A static field that an instruction names (JVM specification, section 5.4.3.2).
#[derive(Clone, Copy, PartialEq, Eq)]
pub struct StaticUse {
    /// The field that look-up finds.
    pub field: FieldRef,
    /// Its place among the program's static fields.
    pub place: u32,
}

/// A method that an instruction names (JVM specification, sections 5.4.3.3 and 5.4.3.4).
#[derive(Drop)]
pub struct Call {
    /// The class or interface that the instruction names, by its number.
    pub class: u32,
    /// The method that resolution gives.
    pub method: MethodRef,
    /// The parameters of the descriptor, without a receiver.
    pub params: Slots,
    /// The result of the descriptor; none for `V`.
    pub result: Option<Slot>,
    /// For `invokestatic` and `invokespecial` the number of that method among the reached ones, none where it is
    /// abstract. For `invokevirtual` and `invokeinterface`, which select by the receiver's class, always none.
    pub target: Option<u32>,
}

/// An instruction of a reached method: its names stand for what resolution gives.
#[derive(Drop)]
pub enum Op {
    /// An instruction that names no pool entry.
    Plain(Insn),
    /// `ldc` or `ldc_w` of an int.
    Constant(i32),
    /// `getstatic`.
    Getstatic(StaticUse),
    /// `putstatic`.
    Putstatic(StaticUse),
    /// `getfield`.
    Getfield(FieldUse),
    /// `putfield`.
    Putfield(FieldUse),
    /// `invokevirtual`.
    Invokevirtual(Call),
    /// `invokespecial`.
    Invokespecial(Call),
    /// `invokestatic`.
    Invokestatic(Call),
    /// `invokeinterface`.
    Invokeinterface(Call),
    /// `new`, with a class that can be made.
    New(Ty),
    /// `anewarray`, with the type of the items.
    Anewarray(Ty),
    /// `checkcast`, with the type.
    Checkcast(Ty),
    /// `instanceof`, with the type.
    Instanceof(Ty),
}
