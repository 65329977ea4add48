//! The places of fields in objects.
ghost use Rattle.std.specs.Prelude.{◌≡◌, ◌<◌, ◌+◌, length, slice_get, IfSome};
ghost use Rattle.std.specs.Option.{option_map};
ghost use Rattle.class_read.specs.View.{field_content};
ghost use Rattle.class_world.specs.Resolve.{field_at, field_place, slots_above, own_slots_before};

use crate::world::World;
use class_read::FieldView;
use jvm_values::Slot;

impl<'a> World<'a> {
    /// The field at a place of a class's file.
    pub fn field_at(&self, class: u32, index: u32) -> Option<&FieldView<'a>>
        ensures { option_map (λ f. field_content f.now) result ≡ field_at self.now.roster.classes class index }
    {
        match self.roster.classes.get(class as usize) {
            Some(view) => view.fields.get(index as usize),
            None => None,
        }
    }

    /// How many fields of objects stand before a field that a class declares.
    fn fields_before(&self, class: u32, index: u32) -> u32
        requires class { class < length self.now.roster.classes }
        requires index { IfSome (slice_get self.now.roster.classes class) (λ c. index < length c.fields) }
        ensures { result ≡ length (slots_above self.now.roster.classes class) + length
            (own_slots_before self.now.roster.classes class index) }
    {
        let kept = self.index.kept.at(class as usize);
        let all = self.slots.at(class as usize).len();
        let own = *kept.at(kept.len() - 1) as usize;
        let before = *kept.at(index as usize) as usize;
        (all - own + before) as u32
    }

    /// The place of a field that a class declares, given by its place in the file, among the fields of objects, and what
    /// it holds there; None where it is no part of objects.
    #[tactic(auto, unfolding(crate::specs::Resolve::field_place))]
    pub fn field_place(&self, class: u32, index: u32) -> Option<(u32, Slot)>
        ensures { result ≡ field_place self.now.roster.classes class index }
    {
        let field = self.field_at(class, index)?;
        let slot = self.roster.field_slot(field)?;
        Some((self.fields_before(class, index), slot))
    }
}
