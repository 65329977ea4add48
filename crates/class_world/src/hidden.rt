//! Fields of interfaces that a JVM finds before a field of a superclass (JVM specification, section 5.4.3.2).
ghost use Rattle.std.specs.Prelude.{◌≡◌, ◌<◌, length};
ghost use Rattle.std.specs.Option.{is_some};
ghost use Rattle.std.specs.List.{list_any};
ghost use Rattle.class_world.specs.World.{line_of};
ghost use Rattle.class_world.specs.Resolve.{declared_field};
ghost use Rattle.class_world.specs.Hidden.{has_field_above, implements_field, before, is_hidden};

use crate::world::World;

impl<'a> World<'a> {
    /// Whether an interface, or one above it, declares a field of that name and descriptor.
    #[tactic(auto, unfolding(crate::specs::Hidden::has_field_above))]
    fn has_field_above(&self, interface: u32, name: &[u8], desc: &[u8]) -> bool
        requires { interface < length self.now.roster.classes }
        ensures { result ≡ has_field_above self.now.roster.classes name.now desc.now interface }
    {
        for over in 0..self.len() {
            let over = over as u32;
            if self.is_below(interface, over) && self.declares_field(over, name, desc) {
                return true;
            }
        }
        false
    }

    /// Whether some superinterface of a class, over any number of steps, declares a field of that name and descriptor.
    #[tactic(auto, unfolding(crate::specs::Hidden::implements_field))]
    fn implements_field(&self, class: u32, name: &[u8], desc: &[u8]) -> bool
        ensures { result ≡ implements_field self.now.roster.classes name.now desc.now class }
    {
        for interface in self.roster.interfaces_once(class as usize) {
            if self.has_field_above(*interface, name, desc) {
                return true;
            }
        }
        false
    }

    /// Whether the field of that name and descriptor that the class `declaring` has is hidden from a class: from that class
    /// up its superclass chain, a class before `declaring` has a superinterface, over any number of steps, that declares a
    /// field of that name and descriptor (JVM specification, section 5.4.3.2, which looks there first).
    #[tactic(auto, unfolding(crate::specs::World::line_of, crate::specs::Hidden::is_hidden))]
    pub fn is_hidden(&self, class: u32, declaring: u32, name: &[u8], desc: &[u8]) -> bool
        ensures { result ≡ is_hidden self.now.roster.classes class declaring name.now desc.now }
    {
        let mut next = Some(class);
        for _ in 0..self.roster.classes.len() {
            let Some(here) = next else {
                return false;
            };
            if here == declaring {
                return false;
            }
            if self.implements_field(here, name, desc) {
                return true;
            }
            next = self.roster.super_of(here as usize);
        }
        false
    }
}
