//! The names of a world's classes.
ghost use Rattle.std.specs.Prelude.{◌≡◌, ◌<◌, IfOk, Some, length, slice_get};
ghost use Rattle.class_world.specs.Worlds.{classes_of};
ghost use Rattle.desc_steps.specs.Names.{names_of};

use cert_form::ClassNames;
use class_world::World;
use std::alloc::{AllocError, Global};

/// The name of the class of a number.
#[tactic(auto, using(crate::proofs::Naming::name_at))]
fn class_name<'w>(world: &'w World<'_>, class: u32) -> &'w [u8]
    requires { class < length (classes_of world.now) }
    ensures { slice_get (names_of (classes_of world.now)) class ≡ Some result.now }
{
    world.view(class).name
}

/// The names of a world's classes, in the order of their numbers.
///
/// # Errors
///
/// Want of memory.
#[tactic(auto, using(crate::proofs::Naming::one_more, crate::proofs::Naming::few_so_far, crate::proofs::Naming::all_named))]
pub fn class_names(alloc: Global, world: &World<'_>) -> Result<ClassNames, AllocError>
    ensures { IfOk result (λ names. names ≡ names_of (classes_of world.now)) }
{
    let mut names = ClassNames::new(alloc);
    for class in 0..world.len() {
        names.push(alloc, class_name(world, class as u32))?;
    }
    Ok(names)
}
