//! A survey of class files that were read.
ghost use Rattle.std.specs.Prelude.{◌≡◌, ◌≤◌, length, map, IfOk, OnErr, IsTrue, OnOk};
ghost use Rattle.class_base.specs.Limits.{most_classes};
ghost use Rattle.input_steps.specs.Classes.{AllSpell};
ghost use Rattle.survey.specs.Claims.{Surveyed, AreAllProved};
ghost use Rattle.survey.specs.Outside.{Tells, BeginsToTell};
ghost use Rattle.survey.specs.inner.Wording.{surveyed};

use crate::failure::Stop;
use crate::judging::{Scope, names_method};
use crate::lines::{Head, MethodWords};
use crate::putting::put_other;
use crate::reading::{Kept, named};
use crate::walking::{Tally, survey_classes};
use crate::words::Asked;
use class_read::ClassView;
use input_steps::{Refused, read_classes};
use input_text::{DescFault, DescText};
use io_ports::Sink;
use list_views::Seq;
use std::alloc::{AllocError, Global};

/// Whether a description names a method with code of a class.
fn names_one_of(alloc: Global, text: &[u8], class: &ClassView<'_>) -> Result<bool, AllocError> {
    for method in class.methods.as_slice() {
        let words = MethodWords {
            class: class.name,
            name: method.name,
            desc: method.desc,
        };
        if method.code.is_some() && names_method(alloc, text, &words)? {
            return Ok(true);
        }
    }
    Ok(false)
}

/// Whether a description names a method with code that is surveyed.
fn is_used(alloc: Global, text: &[u8], scope: &Scope<'_, '_>) -> Result<bool, AllocError> {
    for class in scope.classes {
        if names_one_of(alloc, text, class)? {
            return Ok(true);
        }
    }
    Ok(false)
}

/// Why a description is of no use, in words; None where it names a method that is surveyed.
fn desc_fault(
    alloc: Global,
    text: &[u8],
    scope: &Scope<'_, '_>,
) -> Result<Option<Seq<u8>>, AllocError> {
    let fault = match DescText::read(alloc, text) {
        Ok(_said) => DescFault::NoMethod,
        Err(DescFault::Memory) => return Err(AllocError),
        Err(fault) => fault,
    };
    if is_used(alloc, text, scope)? {
        return Ok(None);
    }
    Ok(Some(fault.text(alloc)?))
}

/// Puts the line of a description, where it is of no use; whether it is.
#[tactic(auto, using(crate::proofs::Telling::nothing_told, crate::proofs::Telling::nothing_begun))]
fn put_lost<O: Sink>(
    alloc: Global,
    name: &str,
    text: &[u8],
    scope: &Scope<'_, '_>,
    out: &mut O,
) -> Result<bool, Stop>
    ensures told { IfOk result (λ lost. (s : Surveyed) → Tells O.taken s out.old out.new) }
    ensures begun { OnErr result ((s : Surveyed) → BeginsToTell O.taken s out.old out.new) }
{
    match lost_line(alloc, name, text, scope) {
        Ok(Some(line)) => match put_other(alloc, out, Head::Refused, line.as_slice()) {
            Ok(()) => Ok(true),
            Err(stop) => Err(stop),
        },
        Ok(None) => Ok(false),
        Err(AllocError) => Err(Stop::Memory),
    }
}

/// The line of a description, where it is of no use.
fn lost_line(
    alloc: Global,
    name: &str,
    text: &[u8],
    scope: &Scope<'_, '_>,
) -> Result<Option<Seq<u8>>, AllocError> {
    match desc_fault(alloc, text, scope)? {
        Some(words) => Ok(Some(named(
            alloc,
            name.as_bytes(),
            b" description: ",
            words.as_slice(),
        )?)),
        None => Ok(None),
    }
}

/// A count with one more, where there is one.
fn counted(count: usize, more: bool) -> usize {
    if more { count.saturating_add(1) } else { count }
}

/// Puts a line for each description that is of no use; how many there are.
#[tactic(auto, using(crate::proofs::Telling::nothing_told, crate::proofs::Telling::told_all, crate::proofs::Telling::begun_all))]
fn put_all_lost<O: Sink>(
    alloc: Global,
    names: &[&str],
    scope: &Scope<'_, '_>,
    out: &mut O,
) -> Result<usize, Stop>
    ensures told { IfOk result (λ count. (s : Surveyed) → Tells O.taken s out.old out.new) }
    ensures begun { OnErr result ((s : Surveyed) → BeginsToTell O.taken s out.old out.new) }
{
    let mut lost: usize = 0;
    for n in 0..names.len().min(scope.descs.len()) {
        match put_lost(alloc, names[n], scope.descs[n].as_slice(), scope, out) {
            Ok(is_lost) => lost = counted(lost, is_lost),
            Err(stop) => return Err(stop),
        }
    }
    Ok(lost)
}

/// Puts a count behind a text.
fn put_count(
    alloc: Global,
    text: &mut Seq<u8>,
    name: &[u8],
    count: usize,
) -> Result<(), AllocError> {
    text.extend_from_slice(name)?;
    let digits = format!(in alloc; "{count}")?;
    text.extend_from_slice(digits.as_bytes())
}

/// How many lines and files there are of each sort, in words.
fn count_text(
    alloc: Global,
    tally: Tally,
    kept: &Kept,
    lost: usize,
) -> Result<Seq<u8>, AllocError> {
    let mut text = Seq::new(alloc);
    put_count(alloc, &mut text, b"yes=", tally.yes)?;
    put_count(alloc, &mut text, b" maybe=", tally.maybe)?;
    put_count(alloc, &mut text, b" refused=", tally.refused)?;
    put_count(alloc, &mut text, b" files=", kept.files.len())?;
    put_count(alloc, &mut text, b" left-out=", kept.left_out)?;
    put_count(
        alloc,
        &mut text,
        b" refused-files=",
        kept.refused.saturating_add(lost),
    )?;
    Ok(text)
}

/// Puts the line of counts.
#[tactic(auto, using(crate::proofs::Telling::nothing_begun))]
fn put_counts<O: Sink>(
    alloc: Global,
    tally: Tally,
    kept: &Kept,
    lost: usize,
    out: &mut O,
) -> Result<(), Stop>
    ensures told { OnOk result ((s : Surveyed) → Tells O.taken s out.old out.new) }
    ensures begun { OnErr result ((s : Surveyed) → BeginsToTell O.taken s out.old out.new) }
{
    match count_text(alloc, tally, kept, lost) {
        Ok(text) => put_other(alloc, out, Head::Count, text.as_slice()),
        Err(AllocError) => Err(Stop::Memory),
    }
}

/// The status: 3 where a file or a description is refused, else 0 where each method of each named class file is proved, else 1.
fn status_of(tally: Tally, kept: &Kept, lost: usize, named: usize) -> u8
    ensures all { result ≡ 0 → IsTrue tally.all }
    ensures whole { result ≡ 0 → length kept.now.files.items ≡ named }
{
    if kept.refused > 0 || lost > 0 {
        3
    } else if tally.all && kept.files.len() == named {
        0
    } else {
        1
    }
}

/// Puts the lines of a survey whose classes are read.
#[tactic(auto, using(crate::proofs::Telling::told_thrice, crate::proofs::Telling::begun_on, crate::proofs::Telling::begun_third, crate::proofs::Telling::all_proved))]
fn survey_scope<O: Sink>(
    alloc: Global,
    asked: &Asked<'_>,
    scope: &Scope<'_, '_>,
    kept: &Kept,
    out: &mut O,
) -> Result<u8, Stop>
    requires few { length scope.now.files.now ≤ most_classes }
    requires spelled { AllSpell (map (λ file. file.items) scope.now.files.now) scope.now.classes.now }
    ensures told { IfOk result (λ status. Tells O.taken (surveyed scope.now.files.now scope.now.descs.now) out.old out.new) }
    ensures begun { OnErr result (BeginsToTell O.taken (surveyed scope.now.files.now scope.now.descs.now) out.old out.new) }
    ensures all { IfOk result (λ status. status ≡ 0 → AreAllProved (surveyed scope.now.files.now scope.now.descs.now)) }
    ensures whole { IfOk result (λ status. status ≡ 0 → length kept.now.files.items ≡ length asked.now.classes.now) }
{
    let lost = match put_all_lost(alloc, asked.descs.as_slice(), scope, out) {
        Ok(lost) => lost,
        Err(stop) => return Err(stop),
    };
    let tally = match survey_classes(alloc, scope, out) {
        Ok(tally) => tally,
        Err(stop) => return Err(stop),
    };
    match put_counts(alloc, tally, kept, lost, out) {
        Ok(()) => Ok(status_of(tally, kept, lost, asked.classes.len())),
        Err(stop) => Err(stop),
    }
}

/// The classes that files spell.
fn classes_of_files<'a>(alloc: Global, files: &'a [Vec<u8>]) -> Result<Vec<ClassView<'a>>, Stop>
    requires { length files.now ≤ most_classes }
    ensures { IfOk result (λ classes. AllSpell (map (λ file. file.items) files.now) classes.items) }
{
    match read_classes(alloc, files) {
        Ok(classes) => Ok(classes),
        Err(Refused::At { .. }) => Err(Stop::Memory),
        Err(Refused::Memory) => Err(Stop::Memory),
    }
}

/// Puts the lines of a survey of class files that can be linked.
#[tactic(auto, using(crate::proofs::Telling::nothing_begun))]
pub(crate) fn survey_kept<O: Sink>(
    alloc: Global,
    asked: &Asked<'_>,
    descs: &[Vec<u8>],
    kept: &Kept,
    out: &mut O,
) -> Result<u8, Stop>
    requires { length kept.now.files.items ≤ most_classes }
    ensures told { IfOk result (λ status. Tells O.taken (surveyed kept.now.files.items descs.now) out.old out.new) }
    ensures begun { OnErr result (BeginsToTell O.taken (surveyed kept.now.files.items descs.now) out.old out.new) }
    ensures all { IfOk result (λ status. status ≡ 0 → AreAllProved (surveyed kept.now.files.items descs.now)) }
    ensures whole { IfOk result (λ status. status ≡ 0 → length kept.now.files.items ≡ length asked.now.classes.now) }
{
    let classes = match classes_of_files(alloc, kept.files.as_slice()) {
        Ok(classes) => classes,
        Err(stop) => return Err(stop),
    };
    let scope = Scope {
        files: kept.files.as_slice(),
        classes: classes.as_slice(),
        descs,
        why: asked.why,
    };
    survey_scope(alloc, asked, &scope, kept, out)
}
