//! The methods of a class that can be described, and which of them a word names.
ghost use Rattle.std.specs.Prelude.{◌≡◌, ◌++◌, map, IfOk, OnOk, IsTrue};
ghost use Rattle.class_read.specs.View.{method_content};
ghost use Rattle.class_calls.specs.describe.Methods.{has_inputs, method_line, method_lines, Names, IsNamed, IsFirstNamed};

use crate::describe::fault::DescribeFault;
use class_base::{ABSTRACT, has_flag};
use class_read::{ClassView, MethodView};
use std::alloc::{AllocError, Global};

/// The names of a method, and of the class that declares it.
#[derive(Clone, Copy)]
pub(crate) struct MethodNames<'a> {
    /// The class's name.
    pub(crate) class: &'a [u8],
    /// The method's name.
    pub(crate) name: &'a [u8],
    /// Its descriptor.
    pub(crate) desc: &'a [u8],
}

/// Whether a method can be described: it isn't abstract, and no class initializer.
fn has_inputs(method: &MethodView<'_>) -> bool
    ensures { result ≡ has_inputs (method_content method.now) }
{
    !has_flag(method.flags, ABSTRACT) && method.name != b"<clinit>".as_slice()
}

/// Puts a method's line behind a text: its name, behind it its descriptor, and a newline.
fn put_line(lines: &mut Vec<u8>, method: &MethodView<'_>) -> Result<(), AllocError>
    ensures { OnOk result (lines.new.items ≡ lines.old.items ++ method_line (method_content method.now)) }
{
    lines.extend_from_slice(method.name)?;
    lines.extend_from_slice(method.desc)?;
    lines.push(b'\n')?;
    Ok(())
}

/// The methods of a class that can be described, a line for each.
#[tactic(auto, using(crate::proofs::Lines::line_more, crate::proofs::Lines::line_none, crate::proofs::Lines::lines_end))]
pub(crate) fn lines_of(alloc: Global, methods: &[MethodView<'_>]) -> Result<Vec<u8>, AllocError>
    ensures { IfOk result (λ lines. lines.items ≡ method_lines (map method_content methods.now)) }
{
    let mut lines = Vec::new(alloc);
    for method in methods {
        if has_inputs(method) {
            put_line(&mut lines, method)?;
        }
    }
    Ok(lines)
}

/// Whether a word is a method's name and behind it its descriptor.
fn has_whole_name(method: &MethodView<'_>, word: &[u8]) -> bool
    ensures { IsTrue result → word.now ≡ method.now.name.now ++ method.now.desc.now }
{
    match word.strip_prefix(method.name) {
        Some(rest) => rest == method.desc,
        None => false,
    }
}

/// Whether a word is a method's name, or its name and behind it its descriptor.
fn is_named(method: &MethodView<'_>, word: &[u8]) -> bool
    ensures { IsTrue result → Names word.now method.now.name.now method.now.desc.now }
{
    word == method.name || has_whole_name(method, word)
}

/// The names of the one method of a class that can be described and that a word names.
///
/// # Errors
///
/// `NoMethod`, `SeveralMethods`.
#[tactic(auto, using(crate::proofs::Answered::is_named_one))]
fn named<'a>(class: &ClassView<'a>, word: &[u8]) -> Result<MethodNames<'a>, DescribeFault>
    ensures { IfOk result (λ names. IsNamed class.now word.now names) }
{
    let mut found = None;
    for method in class.methods.as_slice() {
        if has_inputs(method) && is_named(method, word) {
            if found.is_some() {
                return Err(DescribeFault::SeveralMethods);
            }
            found = Some(MethodNames {
                class: class.name,
                name: method.name,
                desc: method.desc,
            });
        }
    }
    match found {
        Some(names) => Ok(names),
        None => Err(DescribeFault::NoMethod),
    }
}

/// The names of the one method of the first class that can be described and that a word names.
///
/// # Errors
///
/// `NoMethod`, `SeveralMethods`.
#[tactic(auto, using(crate::proofs::Answered::is_first_one))]
pub(crate) fn first_named<'a>(
    classes: &[ClassView<'a>],
    word: &[u8],
) -> Result<MethodNames<'a>, DescribeFault>
    ensures { IfOk result (λ names. IsFirstNamed classes.now word.now names) }
{
    match classes.first() {
        Some(class) => named(class, word),
        None => Err(DescribeFault::NoMethod),
    }
}
