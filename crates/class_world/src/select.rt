//! Selection: which method a call runs, by the class of its receiver.
ghost use Rattle.std.specs.Prelude.{◌≡◌};
ghost use Rattle.class_world.specs.Resolve.{has_body};
ghost use Rattle.class_world.specs.Select.{select, is_abstract_method};

use crate::resolve::{Wanted, method_ref};
use crate::world::{MethodRef, World};
use code_forms::class_base::{ABSTRACT, has_flag};

impl<'a> World<'a> {
    /// The first declaration with that name and descriptor, neither static nor private, along the superclass chain of
    /// the receiver's class (JVM specification, section 6.5, invokevirtual; a package-private method counts as
    /// overridden from another package too).
    #[tactic(auto, unfolding(crate::specs::Select::select))]
    pub fn select_in(&self, name: &[u8], desc: &[u8], receiver: u32) -> Option<MethodRef>
        ensures { result ≡ select self.now.roster.classes name.now desc.now receiver }
    {
        method_ref(self.first_along(Wanted::Selectable, receiver, name, desc))
    }

    /// Whether a method of that class and place is there, and has a body: it is not abstract.
    pub fn has_body(&self, method: MethodRef) -> bool
        ensures { result ≡ has_body self.now.roster.classes method }
    {
        match self.method_at(method) {
            Some(view) => !has_flag(view.flags, ABSTRACT),
            None => false,
        }
    }

    /// Whether the method of that class and place is there, and abstract.
    #[tactic(auto, unfolding(crate::specs::Select::is_abstract_method))]
    pub fn is_abstract_method(&self, method: MethodRef) -> bool
        ensures { result ≡ is_abstract_method self.now.roster.classes method }
    {
        match self.method_at(method) {
            Some(view) => has_flag(view.flags, ABSTRACT),
            None => false,
        }
    }
}
