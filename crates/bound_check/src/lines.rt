//! A bound in words.
ghost use Rattle.std.specs.Prelude.{◌≡◌, ◌++◌, IfOk, OnOk};
ghost use Rattle.std.specs.List.{flat_map};
ghost use Rattle.std.specs.Fmt.{decimal, signed_decimal};
ghost use Rattle.class_world.specs.Worlds.{classes_of};
ghost use Rattle.class_program.specs.Methods.{class_name};
ghost use Rattle.bound_check.specs.Lines.{multiple_text, weight_text, form_text, term_line, first_lines, bound_lines};

use crate::bound::{Bound, RootForm};
use class_world::World;
use jvm_values::Types;
use list_views::Seq;
use list_views::fault_words::joined;
use std::alloc::{AllocError, Global};

/// A number in digits.
fn digits(alloc: Global, value: u64) -> Result<Seq<u8>, AllocError>
    ensures { IfOk result (λ text. text ≡ decimal value) }
{
    let digits = format!(in alloc; "{value}")?;
    Seq::from_slice(alloc, digits.as_bytes())
}

/// A number in digits, behind a sign where it is below 0.
fn signed_digits(alloc: Global, value: &i64) -> Result<Seq<u8>, AllocError>
    ensures { IfOk result (λ text. text ≡ signed_decimal value.now) }
{
    let digits = format!(in alloc; "{value}")?;
    Seq::from_slice(alloc, digits.as_bytes())
}

/// A multiple of an int or of a size.
fn multiple_text(alloc: Global, word: &[u8], id: u16, multiple: &i64) -> Result<Seq<u8>, AllocError>
    ensures { IfOk result (λ text. text ≡ multiple_text word.now (id, multiple.now)) }
{
    let id = digits(alloc, u64::from(id))?;
    let multiple = signed_digits(alloc, multiple)?;
    joined(
        alloc,
        &[b" ", word, b" ", id.as_slice(), b" ", multiple.as_slice()],
    )
}

/// Adds multiples of ints or of sizes.
fn put_multiples(
    alloc: Global,
    text: &mut Seq<u8>,
    word: &[u8],
    multiples: &[(u16, i64)],
) -> Result<(), AllocError>
    ensures { OnOk result (text.new ≡ text.old ++ flat_map (multiple_text word.now) multiples.now) }
{
    for entry in multiples {
        let more = multiple_text(alloc, word, entry.0, &entry.1)?;
        text.extend_from_slice(more.as_slice())?;
    }
    Ok(())
}

/// The name of the class of a number.
fn class_name<'a>(world: &World<'a>, class: u32) -> &'a [u8]
    ensures { result.now ≡ class_name (classes_of world.now) class }
{
    if class < world.classes() {
        world.name_of(class)
    } else {
        b""
    }
}

/// The weight of a class; nothing where the number is that of no class.
fn weight_text(
    alloc: Global,
    world: &World<'_>,
    class: u32,
    weight: &i64,
) -> Result<Seq<u8>, AllocError>
    ensures { IfOk result (λ text. text ≡ weight_text (classes_of world.now) (class, weight.now)) }
{
    if class < world.classes() {
        let weight = signed_digits(alloc, weight)?;
        joined(
            alloc,
            &[
                b" weight ",
                class_name(world, class),
                b" ",
                weight.as_slice(),
            ],
        )
    } else {
        Ok(Seq::new(alloc))
    }
}

/// Adds the weights of classes.
fn put_weights(
    alloc: Global,
    text: &mut Seq<u8>,
    world: &World<'_>,
    weights: &[(u32, i64)],
) -> Result<(), AllocError>
    ensures { OnOk result (text.new ≡ text.old ++ flat_map (weight_text (classes_of world.now)) weights.now) }
{
    for entry in weights {
        let more = weight_text(alloc, world, entry.0, &entry.1)?;
        text.extend_from_slice(more.as_slice())?;
    }
    Ok(())
}

/// A form.
fn form_text(alloc: Global, world: &World<'_>, form: &RootForm) -> Result<Seq<u8>, AllocError>
    ensures { IfOk result (λ text. text ≡ form_text (classes_of world.now) form.now) }
{
    let mut text = signed_digits(alloc, &form.constant)?;
    put_multiples(alloc, &mut text, b"int", form.ints.as_slice())?;
    put_multiples(alloc, &mut text, b"size", form.sizes.as_slice())?;
    put_weights(alloc, &mut text, world, form.weights.as_slice())?;
    Ok(text)
}

/// The line of a rank step.
fn term_line(
    alloc: Global,
    world: &World<'_>,
    number: u64,
    form: &RootForm,
) -> Result<Seq<u8>, AllocError>
    ensures { IfOk result (λ line. line ≡ term_line (classes_of world.now) (number, form.now)) }
{
    let number = digits(alloc, number)?;
    let form = form_text(alloc, world, form)?;
    joined(
        alloc,
        &[b"term ", number.as_slice(), b" ", form.as_slice(), b"\n"],
    )
}

/// The lines of the most steps and of the constant.
fn first_lines(alloc: Global, steps: u64, constant: u64) -> Result<Seq<u8>, AllocError>
    ensures { IfOk result (λ text. text ≡ first_lines steps constant) }
{
    let steps = digits(alloc, steps)?;
    let constant = digits(alloc, constant)?;
    joined(
        alloc,
        &[
            b"steps ",
            steps.as_slice(),
            b"\nconst ",
            constant.as_slice(),
            b"\n",
        ],
    )
}

/// A bound in words: the lines `steps L` and `const C`, and then for each rank step a line `term K F`, where `F` is the form's constant
/// and then ` int I C`, ` size I C` and ` weight CLASS W` for its multiples and weights. Each line ends with a newline.
///
/// # Errors
///
/// Want of memory.
pub fn bound_lines(alloc: Global, world: &World<'_>, bound: &Bound) -> Result<Seq<u8>, AllocError>
    ensures { IfOk result (λ text. text ≡ bound_lines (classes_of world.now) bound.now) }
{
    let mut text = first_lines(alloc, bound.steps, bound.constant)?;
    for term in bound.terms.as_slice() {
        let line = term_line(alloc, world, term.0, &term.1)?;
        text.extend_from_slice(line.as_slice())?;
    }
    Ok(text)
}
