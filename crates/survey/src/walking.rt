//! The methods of the classes, one after another.
ghost use Rattle.std.specs.Prelude.{◌≡◌, ◌≤◌, true, length, map, IfOk, IfErr, OnErr, IsTrue, Bool};
ghost use Rattle.std.specs.List.{AllByRecursion};
ghost use Rattle.class_base.specs.Limits.{most_classes};
ghost use Rattle.class_read.specs.View.{method_content};
ghost use Rattle.survey.specs.Claims.{Surveyed, AreTrue, IsProved, IsProvedMethod, IsProvedClass};
ghost use Rattle.survey.specs.Outside.{Tells, BeginsToTell};
ghost use Rattle.survey.specs.inner.Wording.{surveyed, IsJudged};

use crate::failure::Stop;
use crate::judging::{Judged, Scope, behind_method, judge};
use crate::lines::{Head, MethodWords, is_plain, method_text, yes_line};
use crate::putting::{add_line, add_other, put_text};
use crate::survey_notes::{Touched, put_fault_place, put_refusal, refusal_advice};
use class_read::{ClassView, MethodView};
use input_steps::{Fault, Place, Refused};
use io_ports::Sink;
use list_views::Seq;
use std::alloc::{AllocError, Global};

/// The sort of a method's line.
#[derive(Clone, Copy, PartialEq, Eq)]
pub(crate) enum Sort {
    /// It begins with YES.
    Yes,
    /// It begins with MAYBE.
    Maybe,
    /// It begins with REFUSED.
    Refused,
}

/// How many lines of each sort there are.
#[derive(Clone, Copy)]
pub(crate) struct Tally {
    /// Lines that begin with YES.
    pub(crate) yes: usize,
    /// Lines that begin with MAYBE.
    pub(crate) maybe: usize,
    /// Lines that begin with REFUSED.
    pub(crate) refused: usize,
    /// Whether all lines begin with YES.
    pub(crate) all: bool,
}

/// Nothing counted.
pub(crate) fn no_tally() -> Tally
    ensures { result.all ≡ true }
{
    Tally {
        yes: 0,
        maybe: 0,
        refused: 0,
        all: true,
    }
}

impl Tally {
    /// One line more.
    fn with(self, sort: Sort) -> Tally
        ensures all { IsTrue result.all → IsTrue self.all }
        ensures yes { IsTrue result.all → sort ≡ Sort.Yes }
    {
        match sort {
            Sort::Yes => Tally {
                yes: self.yes.saturating_add(1),
                ..self
            },
            Sort::Maybe => Tally {
                maybe: self.maybe.saturating_add(1),
                all: false,
                ..self
            },
            Sort::Refused => Tally {
                refused: self.refused.saturating_add(1),
                all: false,
                ..self
            },
        }
    }
}

/// The lines of one method.
#[derive(Drop)]
struct MethodLines {
    sort: Sort,
    text: Seq<u8>,
}

/// The lines of a method whose every run ends.
#[tactic(auto, using(crate::proofs::Truths::yes_lined))]
fn yes_lines(
    alloc: Global,
    method: &MethodWords<'_>,
    given: bool,
    touched: Touched,
) -> Result<MethodLines, AllocError>
    ensures { IfOk result (λ lines. (s : Surveyed) → IsProved s given method.now.class.now method.now.name.now method.now.desc.now
        → AreTrue s lines.text) }
{
    if is_plain(method.class) && is_plain(method.name) && is_plain(method.desc) {
        let line = yes_line(alloc, method, given, touched)?;
        let mut text = Seq::new(alloc);
        add_line(&mut text, line.as_slice())?;
        Ok(MethodLines {
            sort: Sort::Yes,
            text,
        })
    } else {
        unprintable(alloc, method)
    }
}

/// The lines of a method with a name that can't stand in a line as it is.
#[tactic(auto, using(crate::proofs::Truths::nothing_true))]
fn unprintable(alloc: Global, method: &MethodWords<'_>) -> Result<MethodLines, AllocError>
    ensures text { IfOk result (λ lines. (s : Surveyed) → AreTrue s lines.text) }
    ensures sort { IfOk result (λ lines. lines.sort ≡ Sort.Refused) }
{
    let mut rest = method_text(alloc, method)?;
    rest.extend_from_slice(b" name: Unprintable")?;
    let mut text = Seq::new(alloc);
    add_other(alloc, &mut text, Head::Refused, rest.as_slice())?;
    Ok(MethodLines {
        sort: Sort::Refused,
        text,
    })
}

/// The lines of a method of which no more is known: the first begins with the head, each further one is advice.
#[tactic(auto, using(crate::proofs::Truths::nothing_true))]
fn no_lines(alloc: Global, head: Head, rest: &[Seq<u8>]) -> Result<Seq<u8>, AllocError>
    ensures { IfOk result (λ text. (s : Surveyed) → AreTrue s text) }
{
    let mut text = Seq::new(alloc);
    let mut head = head;
    for line in rest {
        add_other(alloc, &mut text, head, line.as_slice())?;
        head = Head::Why;
    }
    Ok(text)
}

/// What stands behind the heads of a refused method's lines.
fn refusal(
    alloc: Global,
    scope: &Scope<'_, '_>,
    method: &MethodWords<'_>,
    place: Place,
    fault: &Fault,
) -> Result<Vec<Seq<u8>>, AllocError> {
    let own = method_text(alloc, method)?;
    let mut line = Seq::from_slice(alloc, own.as_slice())?;
    put_refusal(alloc, &mut line, own.as_slice(), place, fault)?;
    put_fault_place(alloc, &mut line, &scope.sources(), fault)?;
    let mut lines = Vec::new(alloc);
    lines.push(line)?;
    if scope.why {
        lines.push(Seq::from_slice(alloc, refusal_advice(fault))?)?;
    }
    Ok(lines)
}

/// The sort of a line that claims nothing.
fn sort_of(head: Head) -> Sort
    ensures { result ≡ Sort.Yes → ⊥ }
{
    match head {
        Head::Maybe => Sort::Maybe,
        _ => Sort::Refused,
    }
}

/// The lines that claim nothing, with their sort.
fn other_lines(alloc: Global, head: Head, rest: &[Seq<u8>]) -> Result<MethodLines, AllocError>
    ensures text { IfOk result (λ lines. (s : Surveyed) → AreTrue s lines.text) }
    ensures sort { IfOk result (λ lines. lines.sort ≡ Sort.Yes → ⊥) }
{
    let text = no_lines(alloc, head, rest)?;
    Ok(MethodLines {
        sort: sort_of(head),
        text,
    })
}

/// The lines of a method that is refused.
fn refused_lines(
    alloc: Global,
    scope: &Scope<'_, '_>,
    method: &MethodWords<'_>,
    refused: &Refused,
) -> Result<MethodLines, AllocError>
    ensures text { IfOk result (λ lines. (s : Surveyed) → AreTrue s lines.text) }
    ensures sort { IfOk result (λ lines. lines.sort ≡ Sort.Yes → ⊥) }
{
    let rest = match refused {
        Refused::At { place, fault } => refusal(alloc, scope, method, *place, fault)?,
        Refused::Memory => behind_method(alloc, method, b" memory")?,
    };
    other_lines(alloc, Head::Refused, rest.as_slice())
}

/// The lines of a method of which this is said.
fn judged_lines(
    alloc: Global,
    method: &MethodWords<'_>,
    judged: &Judged,
) -> Result<MethodLines, AllocError>
    ensures text { IfOk result (λ lines. (s : Surveyed) → IsJudged s method.now.class.now method.now.name.now method.now.desc.now
        judged.now → AreTrue s lines.text) }
    ensures proved { IfOk result (λ lines. lines.sort ≡ Sort.Yes → (s : Surveyed) → IsJudged s method.now.class.now
        method.now.name.now method.now.desc.now judged.now
        → (given : Bool) × IsProved s given method.now.class.now method.now.name.now method.now.desc.now) }
{
    match judged {
        Judged::Yes { given, touched } => yes_lines(alloc, method, *given, *touched),
        Judged::No { head, rest } => other_lines(alloc, *head, rest.as_slice()),
    }
}

/// The lines of a method.
fn method_lines(
    alloc: Global,
    scope: &Scope<'_, '_>,
    method: &MethodWords<'_>,
) -> Result<MethodLines, AllocError>
    requires { length scope.now.files.now ≤ most_classes }
    ensures text { IfOk result (λ lines. AreTrue (surveyed scope.now.files.now scope.now.descs.now) lines.text) }
    ensures proved { IfOk result (λ lines. lines.sort ≡ Sort.Yes
        → (given : Bool) × IsProved (surveyed scope.now.files.now scope.now.descs.now) given method.now.class.now method.now.name.now
        method.now.desc.now) }
{
    match judge(alloc, scope, method) {
        Ok(judged) => judged_lines(alloc, method, &judged),
        Err(refused) => refused_lines(alloc, scope, method, &refused),
    }
}

/// Puts the lines of a method with code.
#[tactic(auto, using(crate::proofs::Telling::nothing_begun))]
fn survey_words<O: Sink>(
    alloc: Global,
    scope: &Scope<'_, '_>,
    method: &MethodWords<'_>,
    out: &mut O,
) -> Result<Sort, Stop>
    requires { length scope.now.files.now ≤ most_classes }
    ensures told { IfOk result (λ sort. Tells O.taken (surveyed scope.now.files.now scope.now.descs.now) out.old out.new) }
    ensures begun { OnErr result (BeginsToTell O.taken (surveyed scope.now.files.now scope.now.descs.now) out.old out.new) }
    ensures proved { IfOk result (λ sort. sort ≡ Sort.Yes
        → (given : Bool) × IsProved (surveyed scope.now.files.now scope.now.descs.now) given method.now.class.now method.now.name.now
        method.now.desc.now) }
{
    match method_lines(alloc, scope, method) {
        Ok(lines) => match put_text(out, lines.text.as_slice()) {
            Ok(()) => Ok(lines.sort),
            Err(stop) => Err(stop),
        },
        Err(AllocError) => Err(Stop::Memory),
    }
}

/// Puts the lines of a method, where it has code.
#[tactic(auto, using(crate::proofs::Telling::nothing_told))]
fn survey_method<O: Sink>(
    alloc: Global,
    scope: &Scope<'_, '_>,
    class: &[u8],
    method: &MethodView<'_>,
    out: &mut O,
    tally: Tally,
) -> Result<Tally, Stop>
    requires { length scope.now.files.now ≤ most_classes }
    ensures told { IfOk result (λ t. Tells O.taken (surveyed scope.now.files.now scope.now.descs.now) out.old out.new) }
    ensures begun { OnErr result (BeginsToTell O.taken (surveyed scope.now.files.now scope.now.descs.now) out.old out.new) }
    ensures before { IfOk result (λ t. IsTrue t.all → IsTrue tally.all) }
    ensures proved { IfOk result (λ t. IsTrue t.all
        → IsProvedMethod (surveyed scope.now.files.now scope.now.descs.now) class.now (method_content method.now)) }
{
    if method.code.is_none() {
        return Ok(tally);
    }
    let words = MethodWords {
        class,
        name: method.name,
        desc: method.desc,
    };
    match survey_words(alloc, scope, &words, out) {
        Ok(sort) => Ok(tally.with(sort)),
        Err(stop) => Err(stop),
    }
}

/// Puts the lines of methods of a class, in their order.
#[tactic(auto, using(crate::proofs::Telling::nothing_told, crate::proofs::Telling::told_on, crate::proofs::Telling::begun_on, crate::proofs::Walks::each_more, crate::proofs::Walks::each_end))]
fn survey_methods<O: Sink>(
    alloc: Global,
    scope: &Scope<'_, '_>,
    class: &[u8],
    methods: &[MethodView<'_>],
    out: &mut O,
    tally: Tally,
) -> Result<Tally, Stop>
    requires { length scope.now.files.now ≤ most_classes }
    ensures told { IfOk result (λ t. Tells O.taken (surveyed scope.now.files.now scope.now.descs.now) out.old out.new) }
    ensures begun { OnErr result (BeginsToTell O.taken (surveyed scope.now.files.now scope.now.descs.now) out.old out.new) }
    ensures before { IfOk result (λ t. IsTrue t.all → IsTrue tally.all) }
    ensures proved { IfOk result (λ t. IsTrue t.all
        → AllByRecursion (IsProvedMethod (surveyed scope.now.files.now scope.now.descs.now) class.now) (map method_content methods.now)) }
{
    let mut so_far = tally;
    for method in methods {
        match survey_method(alloc, scope, class, method, out, so_far) {
            Ok(next) => so_far = next,
            Err(stop) => return Err(stop),
        }
    }
    Ok(so_far)
}

/// Puts the lines of the methods of a class, in the order of its file.
fn survey_class<O: Sink>(
    alloc: Global,
    scope: &Scope<'_, '_>,
    class: &ClassView<'_>,
    out: &mut O,
    tally: Tally,
) -> Result<Tally, Stop>
    requires { length scope.now.files.now ≤ most_classes }
    ensures told { IfOk result (λ t. Tells O.taken (surveyed scope.now.files.now scope.now.descs.now) out.old out.new) }
    ensures begun { OnErr result (BeginsToTell O.taken (surveyed scope.now.files.now scope.now.descs.now) out.old out.new) }
    ensures before { IfOk result (λ t. IsTrue t.all → IsTrue tally.all) }
    ensures proved { IfOk result (λ t. IsTrue t.all
        → IsProvedClass (surveyed scope.now.files.now scope.now.descs.now) class.now) }
{
    match survey_methods(
        alloc,
        scope,
        class.name,
        class.methods.as_slice(),
        out,
        tally,
    ) {
        Ok(next) => Ok(next),
        Err(stop) => Err(stop),
    }
}

/// Puts the lines of the methods of classes, in their order.
#[tactic(auto, using(crate::proofs::Telling::nothing_told, crate::proofs::Telling::told_on, crate::proofs::Telling::begun_on, crate::proofs::Walks::item_more, crate::proofs::Walks::item_end))]
pub(crate) fn survey_classes<O: Sink>(
    alloc: Global,
    scope: &Scope<'_, '_>,
    out: &mut O,
) -> Result<Tally, Stop>
    requires { length scope.now.files.now ≤ most_classes }
    ensures told { IfOk result (λ t. Tells O.taken (surveyed scope.now.files.now scope.now.descs.now) out.old out.new) }
    ensures begun { OnErr result (BeginsToTell O.taken (surveyed scope.now.files.now scope.now.descs.now) out.old out.new) }
    ensures proved { IfOk result (λ t. IsTrue t.all
        → AllByRecursion (IsProvedClass (surveyed scope.now.files.now scope.now.descs.now)) scope.now.classes.now) }
{
    let mut so_far = no_tally();
    for class in scope.classes {
        match survey_class(alloc, scope, class, out, so_far) {
            Ok(next) => so_far = next,
            Err(stop) => return Err(stop),
        }
    }
    Ok(so_far)
}
