//! What the fields of objects hold.
ghost use Rattle.std.specs.Prelude.{◌≡◌, ◌<◌, length, IfOk, filter_map};
ghost use Rattle.class_read.specs.View.{field_content};
ghost use Rattle.class_world.specs.World.{line_of};
ghost use Rattle.class_world.specs.Descriptors.{meaning_of, slot_of};
ghost use Rattle.class_world.specs.Fields.{field_slot, own_slots, fields_of};
ghost use Rattle.class_world.specs.inner.Tables.{values_to};

use crate::meaning::Meaning;
use crate::roster::Roster;
use class_read::FieldView;
use code_forms::class_base::{Element, FieldType, STATIC, has_flag, type_at};
use code_forms::list_views::Seq;
use jvm_values::{Base, Kind, Slot, Ty};
use std::alloc::{AllocError, Global};

impl<'a> Roster<'a> {
    /// What a type is in this world.
    pub(crate) fn meaning_of<'t>(&self, of: &FieldType<'t>) -> Meaning<'t>
        ensures { result ≡ meaning_of self.now.classes of.now }
    {
        let dims = of.dims;
        match &of.element {
            Element::Primitive(letter) => match Kind::of_letter(*letter) {
                Some(kind) if dims == 0 => Meaning::Known(Slot::Num(kind)),
                Some(kind) => Meaning::Known(Slot::Ref(Ty {
                    dims,
                    base: Base::Num(kind),
                })),
                None => Meaning::Unsupported,
            },
            Element::Object(name) => match self.number_of(name.as_slice()) {
                Some(class) => Meaning::Known(Slot::Ref(Ty {
                    dims,
                    base: Base::Class(class),
                })),
                None => Meaning::Missing(name.again()),
            },
        }
    }

    /// What a slot of the type that a descriptor says holds, where that is known.
    #[tactic(auto, unfolding(crate::specs::Descriptors::slot_of))]
    pub(crate) fn slot_of(&self, desc: &[u8]) -> Option<Slot>
        ensures { result ≡ slot_of self.now.classes desc.now }
    {
        let (found, _) = type_at(desc)?;
        match self.meaning_of(&found) {
            Meaning::Known(slot) => Some(slot),
            Meaning::Unsupported => None,
            Meaning::Missing(_) => None,
        }
    }

    /// What a field adds to objects.
    pub(crate) fn field_slot(&self, field: &FieldView<'_>) -> Option<Slot>
        ensures { result ≡ field_slot self.now.classes (field_content field.now) }
    {
        if has_flag(field.flags, STATIC) {
            return None;
        }
        self.slot_of(field.desc)
    }

    fn slots_of(&self, alloc: Global, fields: &[FieldView<'_>]) -> Result<Seq<Slot>, AllocError>
        ensures { IfOk result (λ slots. slots ≡ filter_map (λ field. field_slot self.now.classes (field_content field)) fields.now) }
    {
        let mut slots = Seq::new(alloc);
        for field in fields {
            if let Some(slot) = self.field_slot(field) {
                slots.push(slot)?;
            }
        }
        Ok(slots)
    }

    /// What the fields that a class declares add to its objects, in file order.
    fn own_slots(&self, alloc: Global, class: usize) -> Result<Seq<Slot>, AllocError>
        requires { class < length self.now.classes }
        ensures { IfOk result (λ slots. slots ≡ own_slots self.now.classes class) }
    {
        let view = self.classes.at(class);
        self.slots_of(alloc, view.fields.as_slice())
    }

    /// The superclass chain of a class, itself first.
    pub(crate) fn line_of(&self, alloc: Global, class: u32) -> Result<Seq<u32>, AllocError>
        ensures { IfOk result (λ line. line ≡ line_of self.now.classes class) }
    {
        let mut line = Seq::new(alloc);
        let mut next = Some(class);
        for _ in 0..self.classes.len() {
            if let Some(here) = next {
                line.push(here)?;
                next = self.super_of(here as usize);
            }
        }
        Ok(line)
    }

    /// What a class adds, from the table of what each adds.
    fn added_by<'t>(&self, own: &'t [Seq<Slot>], class: usize) -> &'t [Slot]
        requires { own.now ≡ values_to (own_slots self.now.classes) (length self.now.classes) }
        ensures { result.now ≡ own_slots self.now.classes class }
    {
        if class < own.len() {
            own[class].as_slice()
        } else {
            &[]
        }
    }

    /// What the fields of an instance hold, those of the topmost superclass first, from what each class adds.
    fn fields_of(
        &self,
        alloc: Global,
        own: &[Seq<Slot>],
        class: u32,
    ) -> Result<Seq<Slot>, AllocError>
        requires own { own.now ≡ values_to (own_slots self.now.classes) (length self.now.classes) }
        requires within { class < length self.now.classes }
        ensures { IfOk result (λ slots. slots ≡ fields_of self.now.classes class) }
    {
        let mut line = self.line_of(alloc, class)?.into_vec();
        let mut slots = Seq::new(alloc);
        while let Some(here) = line.pop() {
            slots.extend_from_slice(self.added_by(own, here as usize))?;
        }
        Ok(slots)
    }

    /// What the fields of the instances of each class hold.
    #[tactic(auto, using(crate::proofs::Tables::values_more), unfolding(crate::specs::inner::Tables::values_to))]
    pub(crate) fn fields_table(&self, alloc: Global) -> Result<Seq<Seq<Slot>>, AllocError>
        ensures { IfOk result (λ table. table ≡ values_to (fields_of self.now.classes) (length self.now.classes)) }
    {
        let own = self.own_table(alloc)?;
        let mut table = Seq::new(alloc);
        for class in 0..self.classes.len() {
            table.push(self.fields_of(alloc, own.as_slice(), class as u32)?)?;
        }
        Ok(table)
    }

    /// What the fields that each class declares add to its objects.
    #[tactic(auto, using(crate::proofs::Tables::values_more), unfolding(crate::specs::inner::Tables::values_to))]
    pub(crate) fn own_table(&self, alloc: Global) -> Result<Seq<Seq<Slot>>, AllocError>
        ensures { IfOk result (λ table. table ≡ values_to (own_slots self.now.classes) (length self.now.classes)) }
    {
        let mut table = Seq::new(alloc);
        for class in 0..self.classes.len() {
            table.push(self.own_slots(alloc, class)?)?;
        }
        Ok(table)
    }
}
