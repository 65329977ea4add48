//! What a world of classes tells of types: which are below which, and what an instance holds.
ghost use Rattle.std.specs.Prelude.{◌≡◌, ℕ, ◌<◌, Bool, List};
ghost use Rattle.jvm_values.specs.declared.types.Ty.{Ty};
ghost use Rattle.jvm_values.specs.declared.types.Slot.{Slot};
ghost use Rattle.jvm_values.specs.Subtyping.{SubtypeLaws};

use crate::types::{Slot, Ty};

/// The types of a world of classes, which are numbered from 0 on. Class 0 is `java/lang/Object`.
///
/// A *reference type* of the world is a class of it or an array of at most 255 dimensions (JVM specification, section
/// 2.4).
pub trait Types {
    ghost sub: { Self → Ty → Ty → Bool };

    ghost erase: { Self → Ty → Ty };

    ghost fields: { Self → ℕ → List Slot };

    ghost classes: { Self → ℕ };

    ghost can_be_made: { Self → ℕ → Bool };

    /// Whether `a` is `b` or a subtype of it (JVM specification, section 4.10.1.2, with interfaces told apart).
    ///
    /// It is false where one of the two is no reference type of the world.
    fn sub(&self, a: Ty, b: Ty) -> bool
        ensures { result ≡ sub self.now a b };

    /// The type as assignments see it: an interface stands for `java/lang/Object`, under array dimensions too.
    ///
    /// What is no reference type of the world is given back.
    fn erase(&self, t: Ty) -> Ty
        ensures { result ≡ erase self.now t };

    /// What the fields of an instance of the class hold, those of the topmost superclass first.
    fn fields(&self, class: u32) -> &[Slot]
        requires { class < classes self.now }
        ensures { result.now ≡ fields self.now class };

    /// The number of classes.
    fn classes(&self) -> u32
        ensures { result ≡ classes self.now };

    /// Whether the class has instances of its own: it is neither abstract nor an interface.
    fn can_be_made(&self, class: u32) -> bool
        requires { class < classes self.now }
        ensures { result ≡ can_be_made self.now class };

    ghost laws: { (world : Self) → SubtypeLaws (sub world) (erase world) (classes world) (fields world) (can_be_made world) };
}
