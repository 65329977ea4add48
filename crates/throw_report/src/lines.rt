//! A report in words.
ghost use Rattle.std.specs.Prelude.{◌≡◌, ◌++◌, IfOk, OnOk};
ghost use Rattle.std.specs.List.{flat_map};
ghost use Rattle.class_world.specs.Worlds.{classes_of};
ghost use Rattle.class_program.specs.Methods.{class_name};
ghost use Rattle.throw_report.specs.Lines.{returns_line, throws_line, report_text};

use crate::ways::Report;
use class_world::World;
use jvm_values::Types;
use list_views::Seq;
use list_views::fault_words::joined;
use std::alloc::{AllocError, Global};

/// The name of the class of a number.
fn class_name<'a>(world: &World<'a>, class: u32) -> &'a [u8]
    ensures { result.now ≡ class_name (classes_of world.now) class }
{
    if class < world.classes() {
        world.name_of(class)
    } else {
        b""
    }
}

/// The line of a class of which an object is thrown.
fn throws_line(alloc: Global, world: &World<'_>, class: u32) -> Result<Seq<u8>, AllocError>
    ensures { IfOk result (λ line. line ≡ throws_line (classes_of world.now) class) }
{
    joined(alloc, &[b"THROWS ", class_name(world, class), b"\n"])
}

/// Adds the lines of classes.
fn put_throws(
    alloc: Global,
    text: &mut Seq<u8>,
    world: &World<'_>,
    classes: &[u32],
) -> Result<(), AllocError>
    ensures { OnOk result (text.new ≡ text.old ++ flat_map (throws_line (classes_of world.now)) classes.now) }
{
    for class in classes {
        let line = throws_line(alloc, world, *class)?;
        text.extend_from_slice(line.as_slice())?;
    }
    Ok(())
}

/// The line of a return, if there is one.
fn returns_line(alloc: Global, returns: bool) -> Result<Seq<u8>, AllocError>
    ensures { IfOk result (λ line. line ≡ returns_line returns) }
{
    if returns {
        Seq::from_slice(alloc, b"RETURNS\n")
    } else {
        Ok(Seq::new(alloc))
    }
}

/// A report in words: the line `RETURNS` where a run can return, and then a line `THROWS C` for each class of which an object can
/// be thrown, by the classes' numbers.
///
/// # Errors
///
/// Want of memory.
pub fn report_text(alloc: Global, world: &World<'_>, report: &Report) -> Result<Seq<u8>, AllocError>
    ensures { IfOk result (λ text. text ≡ report_text (classes_of world.now) report.now) }
{
    let mut text = returns_line(alloc, report.returns)?;
    put_throws(alloc, &mut text, world, report.throws.as_slice())?;
    Ok(text)
}
