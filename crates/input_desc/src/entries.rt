//! The methods that descriptions and states name.
ghost use Rattle.std.specs.Prelude.{◌≡◌, IfOk, IsTrue};
ghost use Rattle.class_world.specs.Resolve.{has_body};
ghost use Rattle.class_world.specs.Worlds.{classes_of};
ghost use Rattle.input_desc.specs.Entries.{entry_of};

use class_world::{MethodRef, World};
use input_text::{DescFault, DescText, EntryName, StateText};

/// The method of a name, which isn't abstract.
#[tactic(auto, unfolding(crate::specs::Entries::entry_of))]
fn entry_named(name: &EntryName, world: &World<'_>) -> Result<MethodRef, DescFault>
    ensures found { result ≡ entry_of (classes_of world.now) name.now }
    ensures body { IfOk result (λ method. IsTrue (has_body (classes_of world.now) method)) }
{
    match world.find(
        name.class.as_slice(),
        name.method.as_slice(),
        name.desc.as_slice(),
    ) {
        Some(method) => {
            if world.has_body(method) {
                Ok(method)
            } else {
                Err(DescFault::Abstract)
            }
        }
        None => Err(DescFault::NoMethod),
    }
}

/// The method that a description names.
///
/// # Errors
///
/// `NoMethod` exactly where no class of that name declares it, or its name is `<clinit>`; `Abstract` exactly where it is abstract.
pub fn entry(text: &DescText, world: &World<'_>) -> Result<MethodRef, DescFault>
    ensures found { result ≡ entry_of (classes_of world.now) text.now.entry }
    ensures body { IfOk result (λ method. IsTrue (has_body (classes_of world.now) method)) }
{
    entry_named(&text.entry, world)
}

/// The method that a state names.
///
/// # Errors
///
/// `NoMethod` exactly where no class of that name declares it, or its name is `<clinit>`; `Abstract` exactly where it is abstract.
pub fn state_entry(text: &StateText, world: &World<'_>) -> Result<MethodRef, DescFault>
    ensures found { result ≡ entry_of (classes_of world.now) text.now.entry }
    ensures body { IfOk result (λ method. IsTrue (has_body (classes_of world.now) method)) }
{
    entry_named(&text.entry, world)
}
