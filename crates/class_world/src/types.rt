//! The types of a world.
ghost use Rattle.std.specs.Prelude.{◌≡◌, ◌&&◌, ◌==◌, ◌<◌, length};
ghost use Rattle.jvm_values.specs.declared.types.Ty.{Ty};
ghost use Rattle.jvm_values.specs.declared.types.Slot.{Slot};
ghost use Rattle.class_world.specs.World.{is_interface_class, is_above};
ghost use Rattle.class_world.specs.Types.{is_sub, is_sub_by, erase, is_reference, is_same_kind, is_object, is_class_below, erased_base};
ghost use Rattle.class_world.specs.Fields.{fields_of, can_be_made};

use crate::world::World;
use jvm_values::{Base, Kind, Slot, Ty, Types};

fn is_same_kind(a: Kind, b: Kind) -> bool
    ensures { result ≡ is_same_kind a b }
{
    match (a, b) {
        (Kind::Boolean, Kind::Boolean) => true,
        (Kind::Char, Kind::Char) => true,
        (Kind::Byte, Kind::Byte) => true,
        (Kind::Short, Kind::Short) => true,
        (Kind::Int, Kind::Int) => true,
        _ => false,
    }
}

fn is_object(base: Base) -> bool
    ensures { result ≡ is_object base }
{
    match base {
        Base::Class(class) => class == 0,
        Base::Num(_) => false,
    }
}

impl<'a> World<'a> {
    /// Whether it is a class of this world, or an array.
    fn is_reference(&self, t: Ty) -> bool
        ensures { result ≡ is_reference (length self.now.roster.classes) t }
    {
        match t.base {
            Base::Class(class) => (class as usize) < self.roster.classes.len(),
            Base::Num(_) => t.dims > 0,
        }
    }

    /// Whether class `a` is class `b` or below it.
    #[tactic(auto, unfolding(crate::specs::Types::is_class_below))]
    fn is_class_below(&self, a: u32, b: u32) -> bool
        requires a { a < length self.now.roster.classes }
        requires b { b < length self.now.roster.classes }
        ensures { result ≡ is_class_below self.now.roster.classes a b }
    {
        (b == 0 || a == b) || self.is_above(a as usize, b as usize)
    }

    /// Whether class `a` is class `b` or below it; no class is below one that isn't there.
    pub fn is_below(&self, a: u32, b: u32) -> bool
        requires { a < length self.now.roster.classes }
        ensures { result ≡ is_class_below self.now.roster.classes a b }
    {
        (b as usize) < self.roster.classes.len() && self.is_class_below(a, b)
    }

    /// Whether a class of that number is an interface.
    pub fn is_interface(&self, class: u32) -> bool
        ensures { result ≡ is_interface_class self.now.roster.classes class }
    {
        self.roster.is_interface(class)
    }

    fn erased_base(&self, base: Base) -> Base
        ensures { result ≡ erased_base (is_interface_class self.now.roster.classes) base }
    {
        match base {
            Base::Class(class) => {
                if self.is_interface(class) {
                    Base::Class(0)
                } else {
                    Base::Class(class)
                }
            }
            Base::Num(kind) => Base::Num(kind),
        }
    }
}

impl<'a> Types for World<'a> {
    ghost use Rattle.std.specs.Prelude.{length};
    ghost use Rattle.class_world.specs.Types.{is_sub, erase};
    ghost use Rattle.class_world.specs.Fields.{fields_of, can_be_made};
    ghost use Rattle.class_world.specs.lemmas.WorldLaws.{world_laws};

    ghost sub = { λ w. is_sub w.roster.classes };

    ghost erase = { λ w. erase w.roster.classes };

    ghost fields = { λ w. fields_of w.roster.classes };

    ghost classes = { λ w. length w.roster.classes };

    ghost can_be_made = { λ w. can_be_made w.roster.classes };

    #[tactic(auto, unfolding(crate::specs::Types::is_sub_by))]
    fn sub(&self, a: Ty, b: Ty) -> bool {
        if !self.is_reference(a) || !self.is_reference(b) {
            return false;
        }
        if a.dims != b.dims {
            return b.dims < a.dims && is_object(b.base);
        }
        match (a.base, b.base) {
            (Base::Class(x), Base::Class(y)) => self.is_class_below(x, y),
            (Base::Num(j), Base::Num(k)) => is_same_kind(j, k),
            (Base::Class(_), Base::Num(_)) => false,
            (Base::Num(_), Base::Class(_)) => false,
        }
    }

    #[tactic(auto, unfolding(crate::specs::Types::erase_by))]
    fn erase(&self, t: Ty) -> Ty {
        Ty {
            dims: t.dims,
            base: self.erased_base(t.base),
        }
    }

    fn fields(&self, class: u32) -> &[Slot] {
        self.slots.at(class as usize).as_slice()
    }

    fn classes(&self) -> u32 {
        self.roster.classes.len() as u32
    }

    fn can_be_made(&self, class: u32) -> bool {
        self.roster.has_instances(class as usize)
    }

    ghost laws = { λ w. world_laws w.roster.classes w.known.linked };
}
