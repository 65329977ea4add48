//! From class files to the list of a class's methods, or to a description of one of them.
ghost use Rattle.std.specs.Prelude.{◌≡◌, ◌≤◌, length, map, Some, IfOk, IsTrue};
ghost use Rattle.std.specs.List.{AllByRecursion};
ghost use Rattle.class_world.specs.Linking.{CanBeRead};
ghost use Rattle.class_world.specs.Members.{find_method};
ghost use Rattle.class_world.specs.Resolve.{has_body};
ghost use Rattle.class_world.specs.Worlds.{classes_of};
ghost use Rattle.class_base.specs.Limits.{most_classes};
ghost use Rattle.class_calls.specs.describe.Calls.{ListsMethods, DescribesIn, DescribesEntry, Describes};

use crate::describe::checked::template;
use crate::describe::fault::DescribeFault;
use crate::describe::methods::{MethodNames, first_named, lines_of};
use class_read::ClassView;
use class_world::{MethodRef, World};
use input_steps::{close, link, read_classes};
use std::alloc::Global;

/// The method of these names, which has a body.
fn entry_in(world: &World<'_>, names: &MethodNames<'_>) -> Result<MethodRef, DescribeFault>
    ensures found { IfOk result (λ entry. find_method (classes_of world.now) names.now.class.now names.now.name.now
        names.now.desc.now ≡ Some entry) }
    ensures body { IfOk result (λ entry. IsTrue (has_body (classes_of world.now) entry)) }
{
    match world.find(names.class, names.name, names.desc) {
        Some(entry) => {
            if world.has_body(entry) {
                Ok(entry)
            } else {
                Err(DescribeFault::NoMethod)
            }
        }
        None => Err(DescribeFault::NoMethod),
    }
}

/// A description of an entry, which leaves no input out.
#[tactic(auto, using(crate::proofs::Answered::entry_described))]
fn template_at(alloc: Global, world: World<'_>, entry: MethodRef) -> Result<Vec<u8>, DescribeFault>
    requires { IsTrue (has_body (classes_of world) entry) }
    ensures { IfOk result (λ text. DescribesEntry (classes_of world.entry) entry text.items) }
{
    let program = close(alloc, world, entry)?;
    template(alloc, &program)
}

/// A description of the method of the first class that a word names, which leaves no input out.
#[tactic(auto, using(crate::proofs::Answered::in_described))]
fn template_in(
    alloc: Global,
    classes: Vec<ClassView<'_>>,
    word: &[u8],
) -> Result<Vec<u8>, DescribeFault>
    requires few { length classes.items ≤ most_classes }
    requires read { AllByRecursion CanBeRead classes.items }
    ensures { IfOk result (λ text. DescribesIn classes.entry.items word.now text.items) }
{
    let names = first_named(classes.as_slice(), word)?;
    let world = link(alloc, classes)?;
    let entry = entry_in(&world, &names)?;
    template_at(alloc, world, entry)
}

/// The methods of the first class file that can be described, a line for each: its name and behind it its descriptor. There are at
/// most 256 class files.
///
/// # Errors
///
/// `Classes` where a file is no class file; `NoMethod` where there is no file. Want of memory.
#[tactic(auto, using(crate::proofs::Answered::lists))]
pub fn methods_of(alloc: Global, files: &[Vec<u8>]) -> Result<Vec<u8>, DescribeFault>
    requires { length files.now ≤ most_classes }
    ensures { IfOk result (λ lines. ListsMethods (map (λ file. file.items) files.now) lines.items) }
{
    let classes = read_classes(alloc, files)?;
    match classes.first() {
        Some(class) => Ok(lines_of(alloc, class.methods.as_slice())?),
        None => Err(DescribeFault::NoMethod),
    }
}

/// A description of the method of the first class file that a word names, which leaves no input out. The word is the method's name,
/// or its name and behind it its descriptor. The further class files belong to the program; there are at most 256.
///
/// # Errors
///
/// `Classes`, `NoMethod`, `SeveralMethods`, `Unwritable`. Want of memory.
#[tactic(auto, using(crate::proofs::Answered::files_described))]
pub fn template_of(alloc: Global, files: &[Vec<u8>], word: &[u8]) -> Result<Vec<u8>, DescribeFault>
    requires { length files.now ≤ most_classes }
    ensures { IfOk result (λ text. Describes (map (λ file. file.items) files.now) word.now text.items) }
{
    let classes = read_classes(alloc, files)?;
    template_in(alloc, classes, word)
}
