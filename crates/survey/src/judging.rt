//! What is said of one method.
ghost use Rattle.std.specs.Prelude.{◌≡◌, ◌≤◌, length, map, slice_get, Some, IfOk, IfSome, IsTrue};
ghost use Rattle.std.specs.List.{AllByRecursion};
ghost use Rattle.class_base.specs.Limits.{most_classes};
ghost use Rattle.class_world.specs.Linking.{CanBeRead};
ghost use Rattle.class_world.specs.Members.{find_method};
ghost use Rattle.class_world.specs.Resolve.{has_body};
ghost use Rattle.class_world.specs.Worlds.{classes_of};
ghost use Rattle.class_program.specs.Views.{program_of};
ghost use Rattle.input_text.specs.Answers.{SaysOf};
ghost use Rattle.input_text.specs.Descriptions.{description_of};
ghost use Rattle.class_calls.specs.describe.Templates.{IsTemplate};
ghost use Rattle.prove_call.specs.Headline.{IsProved as SaysYes};
ghost use Rattle.survey.specs.Claims.{Surveyed, NamesMethod, IsGivenText, IsOpenText, IsProved};
ghost use Rattle.survey.specs.inner.Wording.{surveyed, IsMethodProgram, IsJudged};

use crate::lines::{Head, MethodWords, method_text};
use crate::survey_notes::{Sources, Touched, premises_of};
use crate::survey_why::{NARROWINGS, narrowed, put_advice, reason_text};
use class_calls::describe::{DescribeFault, template};
use class_program::Program;
use class_read::ClassView;
use class_world::{LinkFault, MethodRef, World};
use input_steps::{Fault, Place, Refused, close, link, read_classes};
use input_text::{DescFault, DescText};
use list_views::Seq;
use prove_call::{Answer, prove_line};
use std::alloc::{AllocError, Global};

/// The most nodes of a graph, as many as `prove` has without a number.
pub(crate) const NODES: u32 = 4_000;

/// What is surveyed.
#[derive(Clone, Copy)]
pub(crate) struct Scope<'s, 'a> {
    /// The class files, at most 256.
    pub(crate) files: &'s [Vec<u8>],
    /// The classes that they spell, in the same order.
    pub(crate) classes: &'s [ClassView<'a>],
    /// The descriptions that were handed in.
    pub(crate) descs: &'s [Vec<u8>],
    /// Whether advice is given.
    pub(crate) why: bool,
}

impl<'s, 'a> Scope<'s, 'a> {
    /// The files and their classes.
    pub(crate) fn sources(&self) -> Sources<'s, 'a> {
        Sources {
            files: self.files,
            classes: self.classes,
        }
    }
}

/// What is said of one method.
#[derive(Drop)]
pub(crate) enum Judged {
    /// Every run of it ends.
    Yes {
        /// Under a description that was handed in; else under its template.
        given: bool,
        /// The premises that its program touches.
        touched: Touched,
    },
    /// No more is known.
    No {
        /// What its line begins with.
        head: Head,
        /// What stands behind that; each further line, without its newline, is advice.
        rest: Vec<Seq<u8>>,
    },
}

/// Why a method can't be an entry: none has its names, or it is a static initialiser.
fn no_entry(alloc: Global, method: &MethodWords<'_>) -> Result<Refused, AllocError> {
    if method.name == b"<clinit>".as_slice() {
        let name = Seq::from_slice(alloc, method.class)?;
        return Ok(Refused::At {
            place: Place::Link,
            fault: Fault::Link(LinkFault::StaticInit { name }),
        });
    }
    Ok(Refused::At {
        place: Place::Description,
        fault: Fault::Desc(DescFault::NoMethod),
    })
}

/// The method of these names, which has a body.
fn entry_in(
    alloc: Global,
    world: &World<'_>,
    method: &MethodWords<'_>,
) -> Result<MethodRef, Refused>
    ensures found { IfOk result (λ entry. find_method (classes_of world.now) method.now.class.now method.now.name.now
        method.now.desc.now ≡ Some entry) }
    ensures body { IfOk result (λ entry. IsTrue (has_body (classes_of world.now) entry)) }
{
    match world.find(method.class, method.name, method.desc) {
        Some(entry) => {
            if world.has_body(entry) {
                Ok(entry)
            } else {
                Err(no_entry(alloc, method)?)
            }
        }
        None => Err(no_entry(alloc, method)?),
    }
}

/// The program of a method.
#[tactic(auto, using(crate::proofs::Judgements::method_program, crate::proofs::Judgements::few_classes, crate::proofs::Judgements::classes_read))]
fn method_program<'a>(
    alloc: Global,
    files: &'a [Vec<u8>],
    method: &MethodWords<'_>,
) -> Result<Program<'a>, Refused>
    requires { length files.now ≤ most_classes }
    ensures { IfOk result (λ program. IsMethodProgram (map (λ file. file.items) files.now) method.now.class.now method.now.name.now
        method.now.desc.now (program_of program)) }
{
    let classes = read_classes(alloc, files)?;
    let world = link(alloc, classes)?;
    let entry = entry_in(alloc, &world, method)?;
    close(alloc, world, entry)
}

/// Whether a description's text names a method.
fn is_of(said: &DescText, method: &MethodWords<'_>) -> bool
    ensures { IsTrue result → (said.now.entry.class ≡ method.now.class.now) × (said.now.entry.method ≡ method.now.name.now)
        × (said.now.entry.desc ≡ method.now.desc.now) }
{
    said.entry.class.as_slice() == method.class
        && said.entry.method.as_slice() == method.name
        && said.entry.desc.as_slice() == method.desc
}

/// Whether a description names a method. One that can't be read names none.
pub(crate) fn names_method(
    alloc: Global,
    text: &[u8],
    method: &MethodWords<'_>,
) -> Result<bool, AllocError>
    ensures { IfOk result (λ is. IsTrue is → NamesMethod method.now.class.now method.now.name.now method.now.desc.now text.now) }
{
    match DescText::read(alloc, text) {
        Ok(said) => Ok(is_of(&said, method)),
        Err(DescFault::Memory) => Err(AllocError),
        Err(_) => Ok(false),
    }
}

/// The first description that names a method.
#[tactic(auto, using(crate::proofs::Judgements::is_given))]
fn given_for<'s>(
    alloc: Global,
    descs: &'s [Vec<u8>],
    method: &MethodWords<'_>,
) -> Result<Option<&'s Vec<u8>>, AllocError>
    ensures { IfOk result (λ found. IfSome found (λ text. IsGivenText (map (λ desc. desc.items) descs.now) method.now.class.now
        method.now.name.now method.now.desc.now text.now.items)) }
{
    for text in descs {
        if names_method(alloc, text.as_slice(), method)? {
            return Ok(Some(text));
        }
    }
    Ok(None)
}

/// A text behind a method's words.
pub(crate) fn behind_method(
    alloc: Global,
    method: &MethodWords<'_>,
    words: &[u8],
) -> Result<Vec<Seq<u8>>, AllocError> {
    let mut text = method_text(alloc, method)?;
    text.extend_from_slice(words)?;
    let mut lines = Vec::new(alloc);
    lines.push(text)?;
    Ok(lines)
}

/// That a method is refused for a cause in words.
pub(crate) fn refused_for(
    alloc: Global,
    method: &MethodWords<'_>,
    words: &[u8],
) -> Result<Judged, AllocError>
    ensures { IfOk result (λ judged. (s : Surveyed) → IsJudged s method.now.class.now method.now.name.now method.now.desc.now judged) }
{
    Ok(Judged::No {
        head: Head::Refused,
        rest: behind_method(alloc, method, words)?,
    })
}

/// Puts a line behind others for the first narrower description of a method under which every run ends, where one is found.
fn put_narrower(
    alloc: Global,
    scope: &Scope<'_, '_>,
    rest: &mut Vec<Seq<u8>>,
    template: &[u8],
) -> Result<(), AllocError>
    requires { length scope.now.files.now ≤ most_classes }
{
    for narrowing in NARROWINGS.iter() {
        let Some(text) = narrowed(alloc, template, *narrowing)? else {
            continue;
        };
        if does(alloc, scope, text.as_slice()) {
            rest.push(Seq::from_slice(alloc, narrowing.words())?)?;
            return Ok(());
        }
    }
    rest.push(Seq::from_slice(
        alloc,
        b"none of the narrower inputs that were tried would do",
    )?)?;
    Ok(())
}

/// Whether every run ends under a description.
fn does(alloc: Global, scope: &Scope<'_, '_>, text: &[u8]) -> bool
    requires { length scope.now.files.now ≤ most_classes }
{
    match prove_line(alloc, text, scope.files, NODES) {
        Ok(answer) => answer.status == 0,
        Err(_) => false,
    }
}

/// Puts the line of a method whose runs may not end behind others, and, where it is asked for, advice: about the
/// reason, and whether narrower inputs than a template's would do. Nothing where no reason is kept.
fn put_maybe(
    alloc: Global,
    scope: &Scope<'_, '_>,
    method: &MethodWords<'_>,
    rest: &mut Vec<Seq<u8>>,
    program: &Program<'_>,
    template: Option<&[u8]>,
    answer: &Answer,
) -> Result<(), AllocError>
    requires { length scope.now.files.now ≤ most_classes }
{
    let Some(reason) = &answer.reason else {
        return Ok(());
    };
    let words = method_text(alloc, method)?;
    rest.push(reason_text(alloc, &scope.sources(), words.as_slice(), program, reason)?)?;
    if !scope.why {
        return Ok(());
    }
    put_advice(alloc, rest, &scope.sources(), program, reason)?;
    match template {
        Some(text) => put_narrower(alloc, scope, rest, text),
        None => Ok(()),
    }
}

/// That runs of a method may not end, and why no more is known.
fn maybe(
    alloc: Global,
    scope: &Scope<'_, '_>,
    method: &MethodWords<'_>,
    program: &Program<'_>,
    template: Option<&[u8]>,
    answer: &Answer,
) -> Result<Judged, AllocError>
    requires { length scope.now.files.now ≤ most_classes }
    ensures { IfOk result (λ judged. (s : Surveyed) → IsJudged s method.now.class.now method.now.name.now method.now.desc.now judged) }
{
    let mut rest = Vec::new(alloc);
    put_maybe(alloc, scope, method, &mut rest, program, template, answer)?;
    Ok(Judged::No {
        head: Head::Maybe,
        rest,
    })
}

/// What is said of a method by the answer for one of its descriptions.
fn told(
    alloc: Global,
    scope: &Scope<'_, '_>,
    method: &MethodWords<'_>,
    program: &Program<'_>,
    given: bool,
    template: Option<&[u8]>,
    answer: &Answer,
) -> Result<Judged, Refused>
    requires few { length scope.now.files.now ≤ most_classes }
    requires proved { answer.now.status ≡ 0 → IsProved (surveyed scope.now.files.now scope.now.descs.now) given method.now.class.now
        method.now.name.now method.now.desc.now }
    ensures { IfOk result (IsJudged (surveyed scope.now.files.now scope.now.descs.now) method.now.class.now method.now.name.now
        method.now.desc.now) }
{
    if answer.status == 0 {
        let touched = premises_of(alloc, &scope.sources(), program)?;
        Ok(Judged::Yes { given, touched })
    } else {
        Ok(maybe(alloc, scope, method, program, template, answer)?)
    }
}

/// What is said of a method under a description that was handed in.
#[tactic(auto, using(crate::proofs::Judgements::proved_as_given))]
fn judged_as_given(
    alloc: Global,
    scope: &Scope<'_, '_>,
    method: &MethodWords<'_>,
    program: &Program<'_>,
    text: &[u8],
) -> Result<Judged, Refused>
    requires few { length scope.now.files.now ≤ most_classes }
    requires given { IsGivenText (map (λ desc. desc.items) scope.now.descs.now) method.now.class.now method.now.name.now
        method.now.desc.now text.now }
    ensures { IfOk result (IsJudged (surveyed scope.now.files.now scope.now.descs.now) method.now.class.now method.now.name.now
        method.now.desc.now) }
{
    let answer = prove_line(alloc, text, scope.files, NODES)?;
    told(alloc, scope, method, program, true, None, &answer)
}

/// What is said of a method under its template.
#[tactic(auto, using(crate::proofs::Judgements::proved_as_open))]
fn judged_as_open(
    alloc: Global,
    scope: &Scope<'_, '_>,
    method: &MethodWords<'_>,
    program: &Program<'_>,
    text: &[u8],
) -> Result<Judged, Refused>
    requires few { length scope.now.files.now ≤ most_classes }
    requires open { IsOpenText (map (λ file. file.items) scope.now.files.now) method.now.class.now method.now.name.now
        method.now.desc.now text.now }
    ensures { IfOk result (IsJudged (surveyed scope.now.files.now scope.now.descs.now) method.now.class.now method.now.name.now
        method.now.desc.now) }
{
    let answer = prove_line(alloc, text, scope.files, NODES)?;
    told(alloc, scope, method, program, false, Some(text), &answer)
}

/// What is said of a method for which no description was handed in.
#[tactic(auto, using(crate::proofs::Judgements::is_open))]
fn judged_by_template(
    alloc: Global,
    scope: &Scope<'_, '_>,
    method: &MethodWords<'_>,
    program: &Program<'_>,
) -> Result<Judged, Refused>
    requires few { length scope.now.files.now ≤ most_classes }
    requires program { IsMethodProgram (map (λ file. file.items) scope.now.files.now) method.now.class.now method.now.name.now
        method.now.desc.now (program_of program.now) }
    ensures { IfOk result (IsJudged (surveyed scope.now.files.now scope.now.descs.now) method.now.class.now method.now.name.now
        method.now.desc.now) }
{
    match template(alloc, program) {
        Ok(text) => judged_as_open(alloc, scope, method, program, text.as_slice()),
        Err(DescribeFault::Memory) => Err(Refused::Memory),
        Err(_) => Ok(refused_for(alloc, method, b" description: Unwritable")?),
    }
}

/// What is said of a method: by the first description that was handed in and names it, else by its template.
///
/// # Errors
///
/// What `prove` refuses; want of memory.
pub(crate) fn judge(
    alloc: Global,
    scope: &Scope<'_, '_>,
    method: &MethodWords<'_>,
) -> Result<Judged, Refused>
    requires { length scope.now.files.now ≤ most_classes }
    ensures { IfOk result (IsJudged (surveyed scope.now.files.now scope.now.descs.now) method.now.class.now method.now.name.now
        method.now.desc.now) }
{
    let program = method_program(alloc, scope.files, method)?;
    match given_for(alloc, scope.descs, method)? {
        Some(text) => judged_as_given(alloc, scope, method, &program, text.as_slice()),
        None => judged_by_template(alloc, scope, method, &program),
    }
}
