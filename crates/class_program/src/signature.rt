//! Method descriptors (JVM specification, section 4.3.3).
ghost use Rattle.class_world.specs.Worlds.{classes_of};
ghost use Rattle.std.specs.Prelude.{◌≡◌, IfOk};
ghost use Rattle.std.specs.Option.{option_copied};
ghost use Rattle.class_world.specs.Descriptors.{meaning_of, known_slot};
ghost use Rattle.class_program.specs.Refusals.{Gives};
ghost use Rattle.class_program.specs.Signatures.{types_of, has_unsupported, first_missing_class, missing_class, is_unsupported};
ghost use Rattle.class_program.specs.Signatures.{slots_of, returned_slot, signature, all_there, all_supported, signature_of};
ghost use Rattle.class_program.specs.Signatures.{declared_signature};

use crate::refusal::Refusal;
use class_world::class_base::{FieldType, MethodType, method_type};
use class_world::{Meaning, World};
use jvm_values::Slot;
use list_views::Seq;
use std::alloc::{AllocError, Global};

/// What the parameters and the result of a method hold.
#[derive(Drop)]
pub(crate) struct Signature {
    /// The parameters, without a receiver.
    pub(crate) params: Seq<Slot>,
    /// The result; none for `V`.
    pub(crate) result: Option<Slot>,
}

/// The name of the type's class, where that isn't there.
fn missing_class<'t>(world: &World<'_>, text: &FieldType<'t>) -> Option<&'t [u8]>
    ensures { option_copied result ≡ missing_class (meaning_of (classes_of world.now) text.now) }
{
    match world.meaning_of(text) {
        Meaning::Known(_) => None,
        Meaning::Unsupported => None,
        Meaning::Missing(name) => Some(name.as_slice()),
    }
}

fn is_unsupported(world: &World<'_>, text: &FieldType<'_>) -> bool
    ensures { result ≡ is_unsupported (meaning_of (classes_of world.now) text.now) }
{
    match world.meaning_of(text) {
        Meaning::Known(_) => false,
        Meaning::Unsupported => true,
        Meaning::Missing(_) => false,
    }
}

fn known_slot(world: &World<'_>, text: &FieldType<'_>) -> Option<Slot>
    ensures { result ≡ known_slot (meaning_of (classes_of world.now) text.now) }
{
    match world.meaning_of(text) {
        Meaning::Known(slot) => Some(slot),
        Meaning::Unsupported => None,
        Meaning::Missing(_) => None,
    }
}

/// The name of the first class among the types that isn't there.
fn first_missing_class<'t>(world: &World<'_>, types: &[FieldType<'t>]) -> Option<&'t [u8]>
    ensures { option_copied result ≡ first_missing_class (classes_of world.now) types.now }
{
    for text in types {
        if let Some(name) = missing_class(world, text) {
            return Some(name);
        }
    }
    None
}

/// Some type is, or is an array of, long, float or double.
fn has_unsupported(world: &World<'_>, types: &[FieldType<'_>]) -> bool
    ensures { result ≡ has_unsupported (classes_of world.now) types.now }
{
    for text in types {
        if is_unsupported(world, text) {
            return true;
        }
    }
    false
}

/// What slots of the types hold.
fn slots_of_types(
    world: &World<'_>,
    alloc: Global,
    types: &[FieldType<'_>],
) -> Result<Seq<Slot>, AllocError>
    ensures { IfOk result (λ slots. slots ≡ slots_of (classes_of world.now) types.now) }
{
    let mut slots = Seq::new(alloc);
    for text in types {
        if let Some(slot) = known_slot(world, text) {
            slots.push(slot)?;
        }
    }
    Ok(slots)
}

fn returned_slot(world: &World<'_>, returned: &Option<FieldType<'_>>) -> Option<Slot>
    ensures { result ≡ returned_slot (classes_of world.now) returned.now }
{
    match returned {
        Some(text) => known_slot(world, text),
        None => None,
    }
}

fn missing_of<'t>(world: &World<'_>, text: &MethodType<'t>) -> Option<&'t [u8]>
    ensures { option_copied result ≡ first_missing_class (classes_of world.now) (types_of text.now) }
{
    match first_missing_class(world, text.params.as_slice()) {
        Some(name) => Some(name),
        None => match &text.returned {
            Some(returned) => missing_class(world, returned),
            None => None,
        },
    }
}

fn has_unsupported_type(world: &World<'_>, text: &MethodType<'_>) -> bool
    ensures { result ≡ has_unsupported (classes_of world.now) (types_of text.now) }
{
    if has_unsupported(world, text.params.as_slice()) {
        return true;
    }
    match &text.returned {
        Some(returned) => is_unsupported(world, returned),
        None => false,
    }
}

/// Each class among the types is there.
#[tactic(auto, unfolding(crate::specs::Signatures::all_there))]
fn all_there(world: &World<'_>, alloc: Global, text: &MethodType<'_>) -> Result<(), Refusal>
    ensures { Gives (λ x. x) result (all_there (classes_of world.now) (types_of text.now)) }
{
    match missing_of(world, text) {
        Some(name) => Err(Refusal::MissingClass(Seq::from_slice(alloc, name)?)),
        None => Ok(()),
    }
}

/// Each type is supported.
#[tactic(auto, unfolding(crate::specs::Signatures::all_supported))]
fn all_supported(world: &World<'_>, text: &MethodType<'_>) -> Result<(), Refusal>
    ensures { Gives (λ x. x) result (all_supported (classes_of world.now) (types_of text.now)) }
{
    if has_unsupported_type(world, text) {
        return Err(Refusal::UnsupportedType);
    }
    Ok(())
}

fn signature_of_known(
    world: &World<'_>,
    alloc: Global,
    text: &MethodType<'_>,
) -> Result<Signature, AllocError>
    ensures { IfOk result (λ found. found ≡ signature (classes_of world.now) text.now) }
{
    Ok(Signature {
        params: slots_of_types(world, alloc, text.params.as_slice())?,
        result: returned_slot(world, &text.returned),
    })
}

/// What a method descriptor means where an instruction names it.
///
/// # Errors
///
/// The first class that isn't there; else a type that isn't supported; or want of memory. A text that is no method
/// descriptor is refused as unresolved.
#[tactic(auto, unfolding(crate::specs::Signatures::signature_of))]
pub(crate) fn signature_of(
    world: &World<'_>,
    alloc: Global,
    desc: &[u8],
) -> Result<Signature, Refusal>
    ensures { Gives (λ x. x) result (signature_of (classes_of world.now) desc.now) }
{
    let Some(text) = method_type(alloc, desc)? else {
        return Err(Refusal::Unresolved);
    };
    all_there(world, alloc, &text)?;
    all_supported(world, &text)?;
    Ok(signature_of_known(world, alloc, &text)?)
}

/// What the descriptor of a method means that a class declares.
///
/// # Errors
///
/// A type that isn't supported; else the first class that isn't there; or want of memory.
#[tactic(auto, unfolding(crate::specs::Signatures::declared_signature))]
pub(crate) fn declared_signature(
    world: &World<'_>,
    alloc: Global,
    desc: &[u8],
) -> Result<Signature, Refusal>
    ensures { Gives (λ x. x) result (declared_signature (classes_of world.now) desc.now) }
{
    let Some(text) = method_type(alloc, desc)? else {
        return Err(Refusal::Unresolved);
    };
    all_supported(world, &text)?;
    all_there(world, alloc, &text)?;
    Ok(signature_of_known(world, alloc, &text)?)
}
