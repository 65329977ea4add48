//! A world with the methods that an entry reaches.
ghost use Rattle.class_world.specs.Worlds.{classes_of};
ghost use Rattle.std.specs.Prelude.{◌≡◌, ◌≤◌, Ok, length, IsTrue};
ghost use Rattle.std.specs.List.{list_all};
ghost use Rattle.class_world.specs.Resolve.{has_body};
ghost use Rattle.class_program.specs.Statics.{fields_named, statics_of};
ghost use Rattle.class_program.specs.inner.Rows.{AreRows};
ghost use Rattle.class_program.specs.Reached.{reached, close_of, is_closed};
ghost use Rattle.class_program.specs.Programs.{refs_of};
ghost use Rattle.class_program.specs.Widths.{AreMethodsInWidth};
ghost use Rattle.class_program.specs.lemmas.WidthProps.{AreMethodsInWidth-prop};

use crate::insns::Instructions;
use crate::reached::MethodRefs;
use crate::selections::Selections;
use class_world::{MethodRef, World};
use jvm_values::Slot;
use list_views::{Bytes, Seq};

/// A range of code whose throws a handler takes (JVM specification, section 4.7.3).
#[derive(Clone, Copy, PartialEq, Eq)]
pub struct CatchRange {
    /// The first place of the range.
    pub start: u16,
    /// The place behind the range.
    pub end: u16,
    /// The place of the handler.
    pub handler: u16,
    /// The class that is caught, by its number; none where everything is.
    pub catch: Option<u32>,
}

/// A method that an entry reaches.
#[derive(Drop)]
pub struct Method<'a> {
    /// The class that declares it, by its number.
    pub class: u32,
    /// The method's place in that class's file.
    pub index: u32,
    /// The method's name.
    pub name: Bytes<'a>,
    /// The method's descriptor.
    pub desc: Bytes<'a>,
    /// What the parameters hold; in an instance method the receiver comes first.
    pub params: Seq<Slot>,
    /// What the result holds; none for `V`.
    pub result: Option<Slot>,
    /// The most words that the operand stack has.
    pub max_stack: u16,
    /// The words of the local variables.
    pub max_locals: u16,
    /// The instructions, each found by its place.
    pub insns: Instructions,
    /// The exception table.
    pub table: Seq<CatchRange>,
}

/// A static field that reached instructions name.
#[derive(Drop)]
pub struct StaticField<'a> {
    /// The class that declares it, by its number.
    pub class: u32,
    /// The field's place in that class's file.
    pub index: u32,
    /// The field's name.
    pub name: Bytes<'a>,
    /// The field's descriptor.
    pub desc: Bytes<'a>,
    /// What the field holds.
    pub slot: Slot,
}

/// A world with the methods that an entry reaches: the entry first, the others breadth first.
#[derive(Drop)]
pub struct Program<'a> {
    /// The world.
    pub world: World<'a>,
    /// The method that a run begins with.
    pub entry: MethodRef,
    /// The reached methods in order.
    pub methods: Seq<Method<'a>>,
    /// The static fields that reached instructions name, each once, by class number and then in file order.
    pub statics: Seq<StaticField<'a>>,
    pub(crate) refs: MethodRefs,
    pub(crate) selections: Selections,
    ghost found: { statics ≡ statics_of (classes_of world) (fields_named methods) },
    ghost few: { length statics ≤ 256 },
    ghost made: { close_of (classes_of world) entry ≡ Ok methods },
    ghost numbers: { refs ≡ refs_of methods },
    ghost reaches: { refs ≡ reached (classes_of world) entry },
    ghost bodies: { IsTrue (list_all (has_body (classes_of world)) refs) },
    ghost rows: { AreRows (classes_of world) selections },
    ghost whole: { IsTrue (is_closed (classes_of world) refs methods) },
    ghost widths: { AreMethodsInWidth methods } by { AreMethodsInWidth-prop methods },
}
