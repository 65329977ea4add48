//! Descriptions against a program.
ghost use Rattle.std.specs.Prelude.{◌≡◌, ◌++◌, IfOk, IsTrue, length, is_some};
ghost use Rattle.std.specs.List.{list_all, position_from};
ghost use Rattle.class_world.specs.Worlds.{classes_of};
ghost use Rattle.class_program.specs.Views.{program_of};
ghost use Rattle.input_desc.specs.Due.{IsMemoryOr};
ghost use Rattle.input_desc.specs.Given.{slots_of};
ghost use Rattle.input_desc.specs.Typed.{first_unfit};
ghost use Rattle.input_desc.specs.Pairs.{is_reference_at, is_no_pair};
ghost use Rattle.input_desc.specs.Descs.{has_receiver, is_alike, begins_null, first_of_other_kind, ints_of, erased_below, type_for};
ghost use Rattle.input_desc.specs.Descs.{input_of, inputs_from, has_ints, has_a_type, found_fault, IsGoodDesc, IsOwnDesc, Describes};
ghost use Rattle.input_desc.specs.inner.Words.{Finds, IsMade, Fitted};

use crate::desc::{Desc, Input};
use crate::given::inputs;
use crate::names::type_named;
use crate::there::all_there;
use abs_cells::MOST_IDS;
use abs_cells::lin_core::Interval;
use class_base::{STATIC, has_flag};
use class_program::Program;
use class_world::World;
use input_text::{DescFault, DescText, InputText};
use jvm_values::{Slot, Ty, Types};
use list_views::Seq;
use std::alloc::{AllocError, Global};

/// Whether an input is of a slot's kind.
fn is_alike(slot: Slot, input: &InputText) -> bool
    ensures { result ≡ is_alike slot input.now }
{
    match slot {
        Slot::Num(_) => match input {
            InputText::Int { lo: _, hi: _ } => true,
            InputText::Ref {
                ty: _,
                null: _,
                shape: _,
            } => false,
        },
        Slot::Ref(_) => match input {
            InputText::Int { lo: _, hi: _ } => false,
            InputText::Ref {
                ty: _,
                null: _,
                shape: _,
            } => true,
        },
    }
}

/// Whether the first input may be null.
fn begins_null(inputs: &[InputText]) -> bool
    ensures { result ≡ begins_null inputs.now }
{
    match inputs.first() {
        Some(InputText::Int { lo: _, hi: _ }) => false,
        Some(
            InputText::Ref {
                ty: _,
                null,
                shape: _,
            },
        ) => *null,
        None => false,
    }
}

/// The number of the first input that isn't of its slot's kind.
fn first_not_alike(wanted: &[Slot], inputs: &[InputText]) -> Option<usize>
    requires { length inputs.now ≡ length wanted.now }
    ensures { result ≡ first_unfit is_alike 0 wanted.now inputs.now }
{
    for n in 0..wanted.len() {
        if !is_alike(wanted[n], &inputs[n]) {
            return Some(n);
        }
    }
    None
}

/// The number of the first input of another kind than its slot; a receiver that may be null is of another kind.
fn first_of_other_kind(receiver: bool, wanted: &[Slot], inputs: &[InputText]) -> Option<usize>
    requires { length inputs.now ≡ length wanted.now }
    ensures { result ≡ first_of_other_kind receiver wanted.now inputs.now }
{
    if receiver && begins_null(inputs) {
        return Some(0);
    }
    first_not_alike(wanted, inputs)
}

/// The ints of an interval that a slot can hold.
fn ints_of(slot: Slot, lo: &i32, hi: &i32) -> Option<Input>
    ensures { result ≡ ints_of slot lo.now hi.now }
{
    match slot {
        Slot::Num(kind) => match Interval::new(kind.least().max(*lo), kind.greatest().min(*hi)) {
            Some(interval) => Some(Input::Int(interval)),
            None => None,
        },
        Slot::Ref(_) => None,
    }
}

/// A type, erased, where it is below another one.
fn erased_below(world: &World<'_>, t: Ty, named: Ty) -> Option<Ty>
    ensures { result ≡ erased_below (classes_of world.now) t named }
{
    let erased = world.erase(named);
    if world.sub(erased, t) {
        Some(erased)
    } else {
        None
    }
}

/// The type that a text names, erased, where it is below the slot's erased type.
fn type_for(world: &World<'_>, slot: Slot, text: &[u8]) -> Option<Ty>
    ensures { result ≡ type_for (classes_of world.now) slot text.now }
{
    match slot {
        Slot::Num(_) => None,
        Slot::Ref(t) => match type_named(world, text) {
            Some(named) => erased_below(world, world.erase(t), named),
            None => None,
        },
    }
}

/// What is described of an input.
fn input_of(world: &World<'_>, slot: Slot, text: &InputText) -> Option<Input>
    ensures { result ≡ input_of (classes_of world.now) slot text.now }
{
    match text {
        InputText::Int { lo, hi } => ints_of(slot, lo, hi),
        InputText::Ref { ty, null, shape } => match type_for(world, slot, ty.as_slice()) {
            Some(t) => Some(Input::Ref(t, *null, *shape)),
            None => None,
        },
    }
}

/// What is described of inputs.
fn inputs_from(
    alloc: Global,
    world: &World<'_>,
    wanted: &[Slot],
    texts: &[InputText],
) -> Result<Seq<Option<Input>>, AllocError>
    requires { length texts.now ≡ length wanted.now }
    ensures { IfOk result (λ found. found ≡ inputs_from (classes_of world.now) wanted.now texts.now) }
{
    let mut found = Seq::new(alloc);
    for n in 0..wanted.len() {
        found.push(input_of(world, wanted[n], &texts[n]))?;
    }
    Ok(found)
}

/// Whether an input isn't a number without an int.
fn has_ints(slot: Slot, input: &Option<Input>) -> bool
    ensures { result ≡ has_ints slot input.now }
{
    slot.is_reference() || input.is_some()
}

/// Whether an input isn't a reference without a type.
fn has_a_type(slot: Slot, input: &Option<Input>) -> bool
    ensures { result ≡ has_a_type slot input.now }
{
    !slot.is_reference() || input.is_some()
}

/// The number of the first number without an int.
fn first_empty(wanted: &[Slot], found: &[Option<Input>]) -> Option<usize>
    requires { length found.now ≡ length wanted.now }
    ensures { result ≡ first_unfit has_ints 0 wanted.now found.now }
{
    for n in 0..wanted.len() {
        if !has_ints(wanted[n], &found[n]) {
            return Some(n);
        }
    }
    None
}

/// The number of the first reference without a type.
fn first_untyped(wanted: &[Slot], found: &[Option<Input>]) -> Option<usize>
    requires { length found.now ≡ length wanted.now }
    ensures { result ≡ first_unfit has_a_type 0 wanted.now found.now }
{
    for n in 0..wanted.len() {
        if !has_a_type(wanted[n], &found[n]) {
            return Some(n);
        }
    }
    None
}

/// Whether the input of a number is a reference.
fn is_reference_at(wanted: &[Slot], n: u32) -> bool
    ensures { result ≡ is_reference_at wanted.now n }
{
    match wanted.get(n as usize) {
        Some(slot) => slot.is_reference(),
        None => false,
    }
}

/// Whether a pair is none of two different reference inputs.
fn is_no_pair(wanted: &[Slot], pair: (u32, u32)) -> bool
    ensures { result ≡ is_no_pair wanted.now pair }
{
    pair.0 == pair.1 || !is_reference_at(wanted, pair.0) || !is_reference_at(wanted, pair.1)
}

/// The number of the first pair that is none of two different reference inputs.
fn first_bad_pair(wanted: &[Slot], pairs: &[(u32, u32)]) -> Option<usize>
    ensures { result ≡ position_from (is_no_pair wanted.now) 0 pairs.now }
{
    for (n, pair) in pairs.iter().enumerate() {
        if is_no_pair(wanted, *pair) {
            return Some(n);
        }
    }
    None
}

/// The first fault of what is described, and of pairs.
#[tactic(auto, unfolding(crate::specs::Descs::found_fault))]
fn found_fault(wanted: &[Slot], found: &[Option<Input>], pairs: &[(u32, u32)]) -> Option<DescFault>
    requires { length found.now ≡ length wanted.now }
    ensures { result ≡ found_fault wanted.now found.now pairs.now }
{
    if let Some(i) = first_empty(wanted, found) {
        return Some(DescFault::EmptyInterval { i });
    }
    if let Some(i) = first_untyped(wanted, found) {
        return Some(DescFault::UnknownType { i });
    }
    match first_bad_pair(wanted, pairs) {
        Some(n) => Some(DescFault::BadPair { n }),
        None => None,
    }
}

/// Pairs and then further ones.
fn pairs_of(
    alloc: Global,
    same: &[(u32, u32)],
    share: &[(u32, u32)],
) -> Result<Seq<(u32, u32)>, AllocError>
    ensures { IfOk result (λ pairs. pairs ≡ same.now ++ share.now) }
{
    let mut pairs = Seq::from_slice(alloc, same)?;
    pairs.extend_from_slice(share)?;
    Ok(pairs)
}

/// The texts of inputs and then further ones.
fn texts_of(params: Seq<InputText>, statics: Seq<InputText>) -> Result<Seq<InputText>, DescFault>
    ensures { IsMemoryOr result (λ texts. texts ≡ params ++ statics) }
{
    let mut texts = params;
    for text in statics.into_vec() {
        texts.push(text)?;
    }
    Ok(texts)
}

/// Whether the entry method has a receiver.
pub fn has_receiver(program: &Program<'_>) -> bool
    ensures { result ≡ has_receiver (program_of program.now) }
{
    match program.world.method_at(program.entry) {
        Some(view) => !has_flag(view.flags, STATIC),
        None => false,
    }
}

/// What is described of inputs, or the first fault of kinds, of what is described and of pairs.
#[tactic(auto, using(crate::proofs::Faultless::due), unfolding(crate::specs::Descs::later_fault))]
fn described(
    alloc: Global,
    program: &Program<'_>,
    texts: &[InputText],
    pairs: &[(u32, u32)],
) -> Result<Seq<Option<Input>>, DescFault>
    requires { length texts.now ≡ length (slots_of (program_of program.now)) }
    ensures { Finds (program_of program.now) texts.now pairs.now result }
{
    let slots = inputs(alloc, program)?;
    let wanted = slots.as_slice();
    if let Some(i) = first_of_other_kind(has_receiver(program), wanted, texts) {
        return Err(DescFault::ParamKind { i });
    }
    let found = inputs_from(alloc, &program.world, wanted, texts)?;
    let inputs = found.as_slice();
    match found_fault(wanted, inputs, pairs) {
        Some(fault) => Err(fault),
        None => Ok(found),
    }
}

/// A description of inputs all of which are there. Each is an id of abstract states, so there are at most `MOST_IDS`.
#[tactic(auto, using(crate::proofs::GoodDescs::few_made))]
fn made(
    alloc: Global,
    found: Seq<Option<Input>>,
    same: Seq<(u32, u32)>,
    share: Seq<(u32, u32)>,
) -> Result<Desc, DescFault>
    requires { IsTrue (list_all is_some found) }
    ensures { IsMemoryOr result (λ desc. IsMade found same share desc) }
{
    if found.len() > MOST_IDS {
        return Err(DescFault::Memory);
    }
    Ok(Desc {
        inputs: all_there(alloc, found)?,
        same,
        share,
    })
}

/// The description that texts of as many inputs as there are, and pairs, make.
#[tactic(auto, using(crate::proofs::Faultless::due, crate::proofs::Faultless::memory_due, crate::proofs::GoodDescs::found_are_there, crate::proofs::Fitted::fitted_from))]
fn fitting(
    alloc: Global,
    program: &Program<'_>,
    texts: &[InputText],
    same: Seq<(u32, u32)>,
    share: Seq<(u32, u32)>,
) -> Result<Desc, DescFault>
    requires { length texts.now ≡ length (slots_of (program_of program.now)) }
    ensures { Fitted (program_of program.now) texts.now same share result }
{
    let pairs = pairs_of(alloc, same.as_slice(), share.as_slice())?;
    let both = pairs.as_slice();
    let found = described(alloc, program, texts, both)?;
    made(alloc, found, same, share)
}

/// The description that texts of as many inputs as there are, and pairs, make; it is a good one.
#[tactic(auto, using(crate::proofs::Fitted::fitted_is_good))]
fn fitted(
    alloc: Global,
    program: &Program<'_>,
    texts: &[InputText],
    same: Seq<(u32, u32)>,
    share: Seq<(u32, u32)>,
) -> Result<Desc, DescFault>
    requires { length texts.now ≡ length (slots_of (program_of program.now)) }
    ensures made { Fitted (program_of program.now) texts.now same share result }
    ensures good { IfOk result (IsGoodDesc (program_of program.now)) }
{
    fitting(alloc, program, texts, same, share)
}

/// What a text describes of a program's inputs; it is a good description.
#[tactic(auto, using(crate::proofs::GoodDescs::texts_count, crate::proofs::Fitted::fitted_describes), unfolding(crate::specs::Descs::desc_fault))]
fn of_text(alloc: Global, text: DescText, program: &Program<'_>) -> Result<Desc, DescFault>
    ensures described { Describes (program_of program.now) text result }
    ensures good { IfOk result (IsGoodDesc (program_of program.now)) }
{
    program.is_good();
    if text.params.len() != program.methods.at(0).params.len() {
        return Err(DescFault::ParamCount);
    }
    if text.statics.len() != program.statics.len() {
        return Err(DescFault::StaticCount);
    }
    let texts = texts_of(text.params, text.statics)?;
    fitted(alloc, program, texts.as_slice(), text.same, text.share)
}

impl Desc {
    /// What a text describes of a program's inputs.
    ///
    /// # Errors
    ///
    /// `ParamCount`, `StaticCount`; `ParamKind` of the first input of another kind, a receiver that may be null included;
    /// `EmptyInterval` of the first number that has no int; `UnknownType` of the first reference whose type is none of the
    /// world, or not below the declared one; `BadPair` of the first pair; in this order. Want of memory, of which more than
    /// 512 inputs are one case.
    pub fn fit(alloc: Global, text: DescText, program: &Program<'_>) -> Result<Desc, DescFault>
        ensures described { Describes (program_of program.now) text result }
        ensures good { IfOk result (IsGoodDesc (program_of program.now)) }
        ensures own { IfOk result (IsOwnDesc (program_of program.now)) }
    {
        of_text(alloc, text, program)
    }
}
