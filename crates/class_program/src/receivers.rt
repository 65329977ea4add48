//! The classes that the receiver of a call can be of.
ghost use Rattle.class_world.specs.Worlds.{classes_of};
ghost use Rattle.std.specs.Prelude.{◌≡◌, IfOk};
ghost use Rattle.class_world.specs.Select.{is_receiver, receivers};

use class_world::World;
use list_views::Seq;
use std::alloc::{AllocError, Global};

/// Whether an object of that class can be a receiver where the other class is named.
pub(crate) fn is_receiver(world: &World<'_>, class: u32, named: u32) -> bool
    ensures { result ≡ is_receiver (classes_of world.now) named class }
{
    world.has_instances(class) && world.is_below(class, named)
}

/// The numbers, rising, of the classes that can be made and are the named class or interface or below it.
///
/// # Errors
///
/// Want of memory.
#[tactic(auto, unfolding(class_world::specs::Select::receivers))]
pub(crate) fn receivers(
    world: &World<'_>,
    alloc: Global,
    named: u32,
) -> Result<Seq<u32>, AllocError>
    ensures { IfOk result (λ found. found ≡ receivers (classes_of world.now) named) }
{
    let mut found = Seq::new(alloc);
    for class in 0..world.len() {
        let class = class as u32;
        if is_receiver(world, class, named) {
            found.push(class)?;
        }
    }
    Ok(found)
}
