//! What a world knows of its classes.
ghost use Rattle.std.specs.Prelude.{◌≡◌, ◌<◌, length, slice_get, Some, IfOk};
ghost use Rattle.class_world.specs.World.{line_of, super_of};
ghost use Rattle.class_world.specs.Fields.{can_be_made};
ghost use Rattle.class_world.specs.Descriptors.{meaning_of, slot_of};
ghost use Rattle.class_world.specs.Worlds.{classes_of};

use crate::meaning::Meaning;
use crate::world::World;
use class_read::ClassView;
use code_forms::class_base::FieldType;
use code_forms::list_views::Seq;
use jvm_values::Slot;
use std::alloc::{AllocError, Global};

impl<'a> World<'a> {
    /// How many classes there are.
    pub fn len(&self) -> usize
        ensures { result ≡ length (classes_of self.now) }
    {
        self.roster.classes.len()
    }

    /// The class of a number.
    pub fn view(&self, class: u32) -> &ClassView<'a>
        requires { class < length (classes_of self.now) }
        ensures { slice_get (classes_of self.now) class ≡ Some result.now }
    {
        self.roster.classes.at(class as usize)
    }

    /// The direct superclass of a class; class 0 has none.
    pub fn super_of(&self, class: u32) -> Option<u32>
        ensures { result ≡ super_of (classes_of self.now) class }
    {
        self.roster.super_of(class as usize)
    }

    /// The superclass chain of a class, itself first.
    pub fn line_of(&self, alloc: Global, class: u32) -> Result<Seq<u32>, AllocError>
        ensures { IfOk result (λ line. line ≡ line_of (classes_of self.now) class) }
    {
        self.roster.line_of(alloc, class)
    }

    /// Whether a class of that number has instances of its own: it is there, and neither abstract nor an interface.
    pub fn has_instances(&self, class: u32) -> bool
        ensures { result ≡ can_be_made (classes_of self.now) class }
    {
        self.roster.has_instances(class as usize)
    }

    /// What a type is in this world.
    pub fn meaning_of<'t>(&self, of: &FieldType<'t>) -> Meaning<'t>
        ensures { result ≡ meaning_of (classes_of self.now) of.now }
    {
        self.roster.meaning_of(of)
    }

    /// What a slot of the type that a descriptor says holds, where that is known.
    pub fn slot_of(&self, desc: &[u8]) -> Option<Slot>
        ensures { result ≡ slot_of (classes_of self.now) desc.now }
    {
        self.roster.slot_of(desc)
    }
}
