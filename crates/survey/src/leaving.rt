//! Class files that are left out, since their classes can't be linked with the others.
ghost use Rattle.std.specs.Prelude.{◌≤◌, length, map, IfOk, OnErr, OnOk};
ghost use Rattle.class_base.specs.Limits.{most_classes};
ghost use Rattle.survey.specs.Claims.{Surveyed};
ghost use Rattle.survey.specs.Outside.{Tells, BeginsToTell};
ghost use Rattle.survey.specs.inner.Wording.{StayRead};

use crate::failure::Stop;
use crate::lines::Head;
use crate::putting::put_other;
use crate::reading::{Kept, named};
use class_read::ClassView;
use class_world::LinkFault;
use input_steps::{Fault, Refused, link, read_classes};
use io_ports::Sink;
use list_views::Seq;
use std::alloc::{AllocError, Global};

/// A class file that can't be linked with the others.
#[derive(Drop)]
struct Culprit {
    /// Its place among the files.
    at: usize,
    /// Why, in words.
    words: Seq<u8>,
}

/// Whether a class directly extends or implements the class of a name.
fn needs(class: &ClassView<'_>, name: &[u8]) -> bool {
    class.super_name == name || class.interfaces.as_slice().iter().any(|i| *i == name)
}

/// The place of the first class that directly extends or implements the class of a name.
fn first_needing(classes: &[ClassView<'_>], name: &[u8]) -> usize {
    for (at, class) in classes.iter().enumerate() {
        if needs(class, name) {
            return at;
        }
    }
    0
}

/// The place of the first class of a name.
fn first_named(classes: &[ClassView<'_>], name: &[u8]) -> usize {
    for (at, class) in classes.iter().enumerate() {
        if class.name == name {
            return at;
        }
    }
    0
}

/// The place of the last class of a name.
fn last_named(classes: &[ClassView<'_>], name: &[u8]) -> usize {
    let mut last = 0;
    for (at, class) in classes.iter().enumerate() {
        if class.name == name {
            last = at;
        }
    }
    last
}

/// The place of the class that has a fault of linking.
fn place_of(classes: &[ClassView<'_>], fault: &LinkFault) -> usize {
    match fault {
        LinkFault::MissingClass { name } => first_needing(classes, name.as_slice()),
        LinkFault::DuplicateClass { name } => last_named(classes, name.as_slice()),
        LinkFault::CyclicHierarchy { name } => first_named(classes, name.as_slice()),
        LinkFault::BadSuper { name } => first_named(classes, name.as_slice()),
        LinkFault::DefaultMethod { name } => first_named(classes, name.as_slice()),
        _ => 0,
    }
}

/// The class file that has a fault of linking.
fn culprit_of(alloc: Global, files: &[Vec<u8>], fault: &Fault) -> Result<Culprit, Refused>
    requires { length files.now ≤ most_classes }
{
    let classes = read_classes(alloc, files)?;
    let at = match fault {
        Fault::Link(fault) => place_of(classes.as_slice(), fault),
        _ => 0,
    };
    Ok(Culprit {
        at,
        words: fault.text(alloc)?,
    })
}

/// Whether classes make a world, or the fault that they have.
#[tactic(auto, using(crate::proofs::Judgements::few_classes, crate::proofs::Judgements::classes_read))]
fn tried(alloc: Global, files: &[Vec<u8>]) -> Result<(), Refused>
    requires { length files.now ≤ most_classes }
{
    let classes = read_classes(alloc, files)?;
    let _world = link(alloc, classes)?;
    Ok(())
}

/// The class file that can't be linked with the others, where there is one.
fn unlinked(alloc: Global, files: &[Vec<u8>]) -> Result<Option<Culprit>, Stop>
    requires { length files.now ≤ most_classes }
{
    let fault = match tried(alloc, files) {
        Ok(()) => return Ok(None),
        Err(Refused::At { fault, .. }) => fault,
        Err(Refused::Memory) => return Err(Stop::Memory),
    };
    match culprit_of(alloc, files, &fault) {
        Ok(found) => Ok(Some(found)),
        Err(_) => Err(Stop::Memory),
    }
}

/// Leaves a class file out, which is there.
#[tactic(auto, using(crate::proofs::Kept::stay_without))]
fn leave(kept: &mut Kept, at: usize)
    ensures stay { StayRead (map (λ file. file.items) kept.old.files.items) (map (λ file. file.items) kept.new.files.items) }
    ensures fewer { length kept.new.files.items ≤ length kept.old.files.items }
{
    if at < kept.files.len() && at < kept.places.len() {
        kept.files.remove(at);
        kept.places.remove(at);
        kept.left_out = kept.left_out.saturating_add(1);
    }
}

/// The line that says that a class file is left out.
fn left_line(
    alloc: Global,
    words: &[String],
    kept: &Kept,
    found: &Culprit,
) -> Result<Seq<u8>, AllocError> {
    let name: &[u8] = match kept.places.get(found.at) {
        Some(place) => match words.get(*place) {
            Some(word) => word.as_bytes(),
            None => b"",
        },
        None => b"",
    };
    named(alloc, name, b" link: ", found.words.as_slice())
}

/// Leaves one class file out, where the others can't be linked with it, and puts a line for it; whether one is left out.
#[tactic(auto, using(crate::proofs::Telling::nothing_told, crate::proofs::Telling::nothing_begun, crate::proofs::Kept::stay))]
fn leave_one<O: Sink>(
    alloc: Global,
    words: &[String],
    kept: &mut Kept,
    out: &mut O,
) -> Result<bool, Stop>
    requires { length kept.old.files.items ≤ most_classes }
    ensures told { IfOk result (λ more. (s : Surveyed) → Tells O.taken s out.old out.new) }
    ensures begun { OnErr result ((s : Surveyed) → BeginsToTell O.taken s out.old out.new) }
    ensures stay { StayRead (map (λ file. file.items) kept.old.files.items) (map (λ file. file.items) kept.new.files.items) }
    ensures fewer { length kept.new.files.items ≤ length kept.old.files.items }
{
    let found = match unlinked(alloc, kept.files.as_slice()) {
        Ok(Some(found)) => found,
        Ok(None) => return Ok(false),
        Err(stop) => return Err(stop),
    };
    let line = match left_line(alloc, words, kept, &found) {
        Ok(line) => line,
        Err(AllocError) => return Err(Stop::Memory),
    };
    match put_other(alloc, out, Head::LeftOut, line.as_slice()) {
        Ok(()) => {
            leave(kept, found.at);
            Ok(true)
        }
        Err(stop) => Err(stop),
    }
}

/// Leaves class files out until the others make a world. A line is put for each.
#[tactic(auto, using(crate::proofs::Telling::nothing_told, crate::proofs::Telling::told_all, crate::proofs::Telling::begun_all, crate::proofs::Kept::stay, crate::proofs::Kept::stay_on))]
pub(crate) fn leave_out<O: Sink>(
    alloc: Global,
    words: &[String],
    kept: &mut Kept,
    out: &mut O,
) -> Result<(), Stop>
    requires { length kept.old.files.items ≤ most_classes }
    ensures told { OnOk result ((s : Surveyed) → Tells O.taken s out.old out.new) }
    ensures begun { OnErr result ((s : Surveyed) → BeginsToTell O.taken s out.old out.new) }
    ensures stay { StayRead (map (λ file. file.items) kept.old.files.items) (map (λ file. file.items) kept.new.files.items) }
    ensures few { length kept.new.files.items ≤ most_classes }
{
    for _round in 0..kept.files.len() {
        match leave_one(alloc, words, kept, out) {
            Ok(true) => {}
            Ok(false) => return Ok(()),
            Err(stop) => return Err(stop),
        }
    }
    Ok(())
}
