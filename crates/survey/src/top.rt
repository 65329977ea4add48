//! The call behind the program: from the words of the command line to the exit status.
ghost use Rattle.std.specs.Prelude.{◌≡◌, ◌≢◌, ◌≤◌, ℕ, length, map, string_bytes, IfOk, OnErr};
ghost use Rattle.class_base.specs.Limits.{most_classes};
ghost use Rattle.survey.specs.Outside.{AreSome, HasSurveyed};
ghost use Rattle.survey.specs.Words.{class_words, desc_words};

use crate::failure::Stop;
use crate::leaving::leave_out;
use crate::reading::{read_descs, read_files};
use crate::surveying::survey_kept;
use crate::words::Asked;
use io_ports::{FileFault, Files, Sink};
use list_views::Seq;
use std::alloc::{AllocError, Global};

/// Puts the lines of a survey of class files whose descriptions are read.
#[tactic(auto, using(crate::proofs::Ending::ends, crate::proofs::Ending::breaks, crate::proofs::Ending::ends_early))]
fn survey_described<F: Files, O: Sink>(
    alloc: Global,
    asked: &Asked<'_>,
    descs: &[Vec<u8>],
    files: &mut F,
    out: &mut O,
) -> Result<u8, Stop>
    requires few { length asked.now.classes.now ≤ most_classes }
    requires descs { AreSome (F.held files.old) (map (λ name. name.now) asked.now.descs.items) (map (λ desc. desc.items) descs.now) }
    ensures told { IfOk result (λ status. HasSurveyed (F.held files.old) O.taken (map string_bytes asked.now.classes.now)
        (map (λ name. name.now) asked.now.descs.items) out.old out.new status) }
    ensures begun { OnErr result ((status : ℕ) → status ≢ 0
        → HasSurveyed (F.held files.old) O.taken (map string_bytes asked.now.classes.now)
        (map (λ name. name.now) asked.now.descs.items) out.old out.new status) }
{
    let mut kept = match read_files(alloc, asked.classes, files, out) {
        Ok(kept) => kept,
        Err(stop) => return Err(stop),
    };
    match leave_out(alloc, asked.classes, &mut kept, out) {
        Ok(()) => match survey_kept(alloc, asked, descs, &kept, out) {
            Ok(status) => Ok(status),
            Err(stop) => Err(stop),
        },
        Err(stop) => Err(stop),
    }
}

/// Puts the lines of a survey.
#[tactic(auto, using(crate::proofs::Ending::never_begun))]
fn survey_asked<F: Files, O: Sink>(
    alloc: Global,
    asked: &Asked<'_>,
    files: &mut F,
    out: &mut O,
) -> Result<u8, Stop>
    requires few { length asked.now.classes.now ≤ most_classes }
    ensures told { IfOk result (λ status. HasSurveyed (F.held files.old) O.taken (map string_bytes asked.now.classes.now)
        (map (λ name. name.now) asked.now.descs.items) out.old out.new status) }
    ensures begun { OnErr result ((status : ℕ) → status ≢ 0
        → HasSurveyed (F.held files.old) O.taken (map string_bytes asked.now.classes.now)
        (map (λ name. name.now) asked.now.descs.items) out.old out.new status) }
{
    match read_descs(alloc, asked.descs.as_slice(), files) {
        Ok(descs) => match survey_described(alloc, asked, descs.as_slice(), files, out) {
            Ok(status) => Ok(status),
            Err(stop) => Err(stop),
        },
        Err(stop) => Err(stop),
    }
}

/// The line that says that the description of a number was not read.
fn unread_line(
    alloc: Global,
    asked: &Asked<'_>,
    n: usize,
    fault: FileFault,
) -> Result<Seq<u8>, AllocError> {
    let mut line = Seq::from_slice(alloc, b"survey: read ")?;
    if let Some(name) = asked.descs.get(n) {
        line.extend_from_slice(name.as_bytes())?;
    }
    line.extend_from_slice(b": ")?;
    line.extend_from_slice(fault.name())?;
    line.extend_from_slice(b"\n")?;
    Ok(line)
}

/// The line that says why a survey has ended before its end.
fn stop_line(alloc: Global, asked: &Asked<'_>, stop: Stop) -> Result<Seq<u8>, AllocError> {
    match stop {
        Stop::Unread(n, fault) => unread_line(alloc, asked, n, fault),
        Stop::Write => Seq::from_slice(alloc, b"survey: write: Failed\n"),
        Stop::Memory => Seq::from_slice(alloc, MEMORY),
    }
}

/// The words of a survey.
const USAGE: &[u8] = b"survey: usage\n[--why] [--desc FILE].. CLASS..\n";

/// That memory ran out.
const MEMORY: &[u8] = b"survey: memory\n";

/// Says why a survey has ended before its end; a failure to do so changes nothing.
fn report<E: Sink>(alloc: Global, asked: &Asked<'_>, stop: Stop, err: &mut E) {
    match stop_line(alloc, asked, stop) {
        Ok(line) => {
            let _ = err.put(line.as_slice());
        }
        Err(AllocError) => {
            let _ = err.put(MEMORY);
        }
    }
}

/// The status of a survey, and why it has ended before its end.
fn ended<E: Sink>(alloc: Global, asked: &Asked<'_>, ended: Result<u8, Stop>, err: &mut E) -> u8
    ensures done { IfOk ended (λ status. result ≡ status) }
    ensures stopped { OnErr ended (result ≢ 0) }
{
    match ended {
        Ok(status) => status,
        Err(stop) => {
            report(alloc, asked, stop, err);
            stop.status()
        }
    }
}

/// Puts a line that says why there is no survey; the status.
fn without<E: Sink>(line: &[u8], status: u8, err: &mut E) -> u8
    ensures { result ≡ status }
{
    let _ = err.put(line);
    status
}

/// Surveys the class files that the words name: `[--why] [--desc FILE].. CLASS..`, 1 to 256 class files and at most
/// 256 descriptions. To `out` it puts, each as soon as it is known:
///
/// - `REFUSED FILE class: FAULT` and `REFUSED FILE read: CAUSE` for a file that spells no class or wasn't read;
/// - `LEFT OUT FILE link: FAULT` for a class that can't be linked with the others, which are surveyed without it;
/// - `REFUSED FILE description: FAULT` for a description that names no method that is surveyed;
/// - for each method with code, in the order of the words and of the class's file, `YES METHOD`, `MAYBE REASON METHOD
///   PLACES` or `REFUSED METHOD FAULT`;
/// - a line of counts.
///
/// A method is proved under the first description that names it, then `described` stands behind it, else under its
/// template. Behind a YES stands a word for each premise that its program touches: `handles-errors`,
/// `compares-exceptions`, `constant-value`. With `--why` lines of advice follow, which begin with blanks. To `err` it
/// puts a line where it ends before the counts. The exit status is
///
/// - 0: each method with code of each named class file is proved;
/// - 1: some aren't, or a class file is left out;
/// - 3: a class file or a description is refused;
/// - 4: the words are none of a survey;
/// - 5: a description was not read;
/// - 6: writing to `out` failed;
/// - 7: want of memory.
#[tactic(auto, using(crate::proofs::Ending::never_begun))]
pub fn survey<F: Files, O: Sink, E: Sink>(
    alloc: Global,
    words: &[String],
    files: &mut F,
    out: &mut O,
    err: &mut E,
) -> u8
    // Each line that begins with YES is true of the class files that are surveyed. Status 0 says that each method with code is proved.
    ensures headline { HasSurveyed (F.held files.old) O.taken (class_words (map string_bytes words.now))
        (desc_words (map string_bytes words.now)) out.old out.new result }
{
    match Asked::from_words(alloc, words) {
        Ok(Some(asked)) => {
            let done = survey_asked(alloc, &asked, files, out);
            ended(alloc, &asked, done, err)
        }
        Ok(None) => without(USAGE, 4, err),
        Err(AllocError) => without(MEMORY, 7, err),
    }
}
