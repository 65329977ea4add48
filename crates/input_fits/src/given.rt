//! Whether what is given to a program is what a description says.
ghost use Rattle.std.specs.Prelude.{◌≡◌, ◌<◌, ◌^◌, ◌↔◌, ◌++◌, length, All, IfOk, IsTrue};
ghost use Rattle.class_program.specs.Views.{program_of};
ghost use Rattle.class_world.specs.Worlds.{classes_of};
ghost use Rattle.class_world.specs.WorldTypes.{types_of};
ghost use Rattle.jvm_values.specs.Heaps.{IsInHeap, IsClosed};
ghost use Rattle.input_desc.specs.States.{IsTypedInput};
ghost use Rattle.input_fits.specs.Givens.{IsFitting};
ghost use Rattle.input_fits.specs.inner.Words.{FitTogether};

use crate::inputs::all_fit;
use crate::listed::are_same_listed;
use crate::regions::{are_shared_listed, regions};
use class_program::Program;
use class_world::World;
use input_desc::Desc;
use jvm_values::{Heap, Value, typed_heaps_are_closed};
use list_views::Seq;
use std::alloc::{AllocError, Global};

/// The items of two lists, one behind the other.
fn joined<T: Copy>(alloc: Global, front: &[T], back: &[T]) -> Result<Seq<T>, AllocError>
    ensures { IfOk result (λ all. all ≡ front.now ++ back.now) }
{
    let mut all = Seq::from_slice(alloc, front)?;
    all.extend_from_slice(back)?;
    Ok(all)
}

/// Whether values are what is described of the inputs: each by itself, and two of them only so far one object, or with an object in common, as
/// they are listed.
fn fit_together(
    alloc: Global,
    world: &World<'_>,
    desc: &Desc,
    heap: &Heap,
    values: &[Value],
) -> Result<bool, AllocError>
    requires closed { IsClosed heap.now }
    requires in_heap { All (IsInHeap (length heap.now.objects)) values.now }
    requires count { length heap.now.objects < 2 ^ 32 }
    ensures { IfOk result (λ answer. IsTrue answer ↔ FitTogether (types_of (classes_of world.now)) desc.now heap.now values.now) }
{
    let same = desc.same.as_slice();
    let each = all_fit(alloc, world, heap, desc.inputs.as_slice(), values)?;
    if !each {
        return Ok(false);
    }
    if !are_same_listed(values, same) {
        return Ok(false);
    }
    let listed = joined(alloc, same, desc.share.as_slice())?;
    let found = regions(alloc, heap, values)?;
    Ok(are_shared_listed(found.as_slice(), listed.as_slice()))
}

/// Whether a run with these arguments, values of static fields and heap begins in a state that a description fits. Each input's region is gone
/// through twice, and any two regions are compared.
///
/// # Errors
///
/// Want of memory, also where the heap has more objects than there are numbers.
pub fn fits(
    alloc: Global,
    program: &Program<'_>,
    desc: &Desc,
    args: &[Value],
    statics: &[Value],
    heap: &Heap,
) -> Result<bool, AllocError>
    requires { IsTypedInput (program_of program.now) (record { args = args.now; statics = statics.now; heap = heap.now }) }
    ensures { IfOk result (λ answer. IsTrue answer ↔ IsFitting (program_of program.now) desc.now args.now statics.now heap.now) }
{
    program.is_good();
    typed_heaps_are_closed();
    if heap.objects.len() >= 4_294_967_296 {
        return Err(AllocError);
    }
    let places = program.methods.at(0).max_locals;
    if args.len() > usize::from(places) {
        return Ok(false);
    }
    let values = joined(alloc, args, statics)?;
    fit_together(alloc, &program.world, desc, heap, values.as_slice())
}
