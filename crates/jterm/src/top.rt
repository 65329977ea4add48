//! The call behind the program: from the words of the command line to the exit status.
ghost use Rattle.std.specs.Prelude.{◌≡◌, ◌⊎◌, ◌≤◌, ◌^◌, ℕ, List, ◌∷◌, [], map, string_bytes, Some, IfOk, IfErr};
ghost use Rattle.std.specs.Io.KnownBytes.{Appends};
ghost use Rattle.its_call.specs.Answers.{IsEnding};
ghost use Rattle.its_call.specs.Lines as its;
ghost use Rattle.class_calls.specs.declared.command_rows.table.Request.TheVariants.{Generate};
ghost use Rattle.class_calls.specs.command_rows.Words.{IsCommand};
ghost use Rattle.jterm.specs.Words.{IsProve, IsCheck, IsMigrate, IsBound, IsLoop, IsIts, IsThrows};
ghost use Rattle.check_call.specs.Lines.{accepted_line};
ghost use Rattle.cert_making.specs.migrate_call.Headline.{IsMigrated};
ghost use Rattle.cert_calls.specs.loop_call.Headline.{AllGoOnForEver};
ghost use Rattle.cert_calls.specs.loop_call.Lines.{no_line};
ghost use Rattle.cert_calls.specs.throws_call.Headline.{AllEndAsSaid};
ghost use Rattle.cert_calls.specs.bound_call.Headline.{AllEndWithin};
ghost use Rattle.prove_call.specs.Lines.{yes_line};
ghost use Rattle.desc_steps.specs.Headline.{AllEnd};
ghost use Rattle.generate_text.specs.Descriptions.{description};
ghost use Rattle.jterm.specs.GenerateAnswers.{IsClass};
ghost use Rattle.jterm.specs.GenerateLines.{yes_begin};
ghost use Rattle.jterm.specs.Lines.{memory_line, write_line};
ghost use Rattle.jterm.specs.Outside.{AreTold, FirstAreRead, Puts, Begins, Claims, IsWritten, limit_at};
ghost use Rattle.jterm.specs.CallEnds.{CallEnds};
ghost use Rattle.jterm.specs.inner.Failure.{HasCause, AreOfCommand, IsAnswered, HasLine, status_of, line_of};

use crate::inputs::{Failure, read_inputs};
use crate::lines::{memory_text, read_text, write_text};
use crate::{Verdict, decide};
use cert_form::MOST_CERTIFICATE_BYTES;
use class_base::MOST_FILE_BYTES;
use class_calls::command_rows::{Asked, usage_text};
use input_steps::{Refused, refusal_text};
use io_ports::{Files, Sink};
use list_views::Seq;
use std::alloc::{AllocError, Global};

/// What a call came to.
#[derive(Drop)]
pub struct Done {
    /// The exit status.
    pub status: u8,
    /// What `decide` answered, where it answered.
    pub verdict: Option<Verdict>,
}

// Reads the files of a command, a certificate of at most `certificate` bytes and each other file of at most `other`, and
// decides over their contents.
fn answer<'a, F: Files>(
    alloc: Global,
    command: &Asked<'a>,
    files: &mut F,
    certificate: usize,
    other: usize,
) -> Result<Verdict, Failure<'a>>
    requires certificate { certificate ≤ 2 ^ 31 }
    requires other { other ≤ 2 ^ 31 }
    requires command { AreOfCommand command.now.request (map string_bytes command.now.files.now) }
    ensures answered { IfOk result (λ verdict. IsAnswered (limit_at certificate other command.now.request) command.now.request
        (map string_bytes command.now.files.now) (F.held files.old) verdict) }
    ensures cause { IfErr result (λ failure. HasCause F.held F.faults F.leaves (limit_at certificate other command.now.request)
        command.now.request
        (map string_bytes command.now.files.now) files.old files.new failure) }
    ensures reads { FirstAreRead F.leaves (map string_bytes command.now.files.now) files.old files.new }
{
    let inputs = read_inputs(alloc, command, files, certificate, other)?;
    match decide(alloc, &command.request, &inputs) {
        Ok(verdict) => Ok(verdict),
        Err(Refused::At { place, fault }) => Err(Failure::Broken { place, fault }),
        Err(Refused::Memory) => Err(Failure::NoMemory),
    }
}

// Puts a line. A failure changes nothing.
fn put_line<E: Sink>(err: &mut E, line: &[u8])
    ensures { Puts E.faults E.taken err.old err.new line.now }
{
    let _ = err.put(line);
}

// The line that says why a call has no verdict. Want of memory has none of its own.
fn line(alloc: Global, failure: &Failure<'_>) -> Result<Seq<u8>, AllocError>
    ensures text { IfOk result (λ line. line ≡ line_of failure.now) }
    ensures has_line { IfOk result (λ line. HasLine failure.now) }
{
    match failure {
        Failure::Unread { name, fault } => read_text(alloc, name.as_slice(), *fault),
        Failure::Broken { place, fault } => refusal_text(alloc, *place, fault),
        Failure::NoMemory => Err(AllocError),
    }
}

fn status(failure: &Failure<'_>) -> u8
    ensures { result ≡ status_of failure.now }
{
    match failure {
        Failure::Unread { .. } => 5,
        Failure::Broken { .. } => 3,
        Failure::NoMemory => 7,
    }
}

// Says why there is no verdict, and gives the exit status.
fn report<E: Sink>(alloc: Global, failure: &Failure<'_>, err: &mut E) -> u8
    ensures { ((result ≡ status_of failure.now) × HasLine failure.now × Puts E.faults E.taken err.old err.new (line_of failure.now))
        ⊎ ((result ≡ 7) × Puts E.faults E.taken err.old err.new memory_line) }
{
    match line(alloc, failure) {
        Ok(line) => {
            put_line(err, line.as_slice());
            status(failure)
        }
        Err(_) => {
            put_line(err, memory_text());
            7
        }
    }
}

// Writes the output of a verdict.
fn write_out<O: Sink, E: Sink>(verdict: Verdict, out: &mut O, err: &mut E) -> Done
    ensures verdict { result.verdict ≡ Some verdict }
    ensures written { IsWritten O.faults O.taken out.old out.new verdict result.status }
    ensures line { ((result.status ≡ verdict.status) × (err.new ≡ err.old))
        ⊎ ((result.status ≡ 6) × Puts E.faults E.taken err.old err.new write_line) }
{
    let status = match out.put(verdict.out.as_slice()) {
        Ok(()) => verdict.status,
        Err(_) => {
            put_line(err, write_text());
            6
        }
    };
    Done {
        status,
        verdict: Some(verdict),
    }
}

/// Reads the words of the command line and the files that they name, decides over their contents, writes the output
/// to `out` and a line for a call without one to `err`, and gives the exit status:
///
/// - 0: YES and a certificate, ACCEPTED, how a run ended, the class file's bytes, the line of a class that is made, a
///   certificate in form 2, NO, in which ways runs end, or YES to rules;
/// - 1: MAYBE, and why no certificate is given, or the rules that are left;
/// - 2: the certificate is refused;
/// - 3: the input is refused;
/// - 4: the words are no command;
/// - 5: a file was not read;
/// - 6: writing to `out` failed;
/// - 7: want of memory.
///
/// A failure of `err` changes no status.
pub fn jterm<F: Files, O: Sink, E: Sink>(
    alloc: Global,
    words: &[String],
    files: &mut F,
    out: &mut O,
    err: &mut E,
) -> Done
    // Where YES is claimed, every state that the description fits comes to an end, for the contents of the files.
    ensures headline { (d : List ℕ) (cs : List (List ℕ)) (desc : List ℕ) (classes : List (List ℕ))
        → IsProve (map string_bytes words.now) d cs → AreTold (F.held files.old) (d ∷ cs) (desc ∷ classes)
        → Claims yes_line O.taken out.old out.new result.status → AllEnd classes desc }

    // So it does where ACCEPTED is claimed.
    ensures headline_of_check { (c d : List ℕ) (cs : List (List ℕ)) (cert desc : List ℕ) (classes : List (List ℕ))
        → IsCheck (map string_bytes words.now) c d cs → AreTold (F.held files.old) (c ∷ d ∷ cs) (cert ∷ desc ∷ classes)
        → Claims accepted_line O.taken out.old out.new result.status → AllEnd classes desc }

    // So it does of the class that is made where `blocks N answer YES` is put.
    ensures headline_of_generate { (n : ℕ) (class : List ℕ) → IsCommand (map string_bytes words.now) (Generate n) [] → IsClass n class
        → Begins (yes_begin n) O.taken out.old out.new → AllEnd (class ∷ []) description }

    // Where the status is 0 for a certificate whose runs' ends are asked for, every state that the description fits
    // has a run that ends in a way that the lines say which were put.
    ensures headline_of_throws { (c d : List ℕ) (cs : List (List ℕ)) (cert desc : List ℕ) (classes : List (List ℕ))
        → IsThrows (map string_bytes words.now) c d cs → AreTold (F.held files.old) (c ∷ d ∷ cs) (cert ∷ desc ∷ classes)
        → result.status ≡ 0
        → (lines : List ℕ) × Appends (O.taken out.old) (O.taken out.new) lines × AllEndAsSaid classes desc lines }

    // Where the status is 0 for a bound, every state that the description fits has a run that ends after at most the
    // value of the bound that the lines say which were put.
    ensures headline_of_bound { (b c d : List ℕ) (cs : List (List ℕ)) (bound cert desc : List ℕ) (classes : List (List ℕ))
        → IsBound (map string_bytes words.now) b c d cs → AreTold (F.held files.old) (b ∷ c ∷ d ∷ cs) (bound ∷ cert ∷ desc ∷ classes)
        → result.status ≡ 0
        → (lines : List ℕ) × Appends (O.taken out.old) (O.taken out.new) lines × AllEndWithin classes desc lines }

    // Where NO is claimed, every state that the description fits goes on for ever, and the given state is one.
    ensures headline_of_loop { (c s d : List ℕ) (cs : List (List ℕ)) (cert state desc : List ℕ) (classes : List (List ℕ))
        → IsLoop (map string_bytes words.now) c s d cs → AreTold (F.held files.old) (c ∷ s ∷ d ∷ cs) (cert ∷ state ∷ desc ∷ classes)
        → Claims no_line O.taken out.old out.new result.status → AllGoOnForEver classes desc state }

    // Where the status is 0 for a certificate that is to be written in form 2, it is accepted, and what was put is that.
    ensures headline_of_migrate { (c d : List ℕ) (cs : List (List ℕ)) (cert desc : List ℕ) (classes : List (List ℕ))
        → IsMigrate (map string_bytes words.now) c d cs → AreTold (F.held files.old) (c ∷ d ∷ cs) (cert ∷ desc ∷ classes)
        → result.status ≡ 0
        → (text : List ℕ) × Appends (O.taken out.old) (O.taken out.new) text × IsMigrated classes desc cert text }

    // Where YES is claimed for a text of rules, there is no infinite sequence of locations with whole numbers for the
    // variables in which each neighbours meet all rows of one rule between them.
    ensures headline_of_its { (r text : List ℕ)
        → IsIts (map string_bytes words.now) r → AreTold (F.held files.old) (r ∷ []) (text ∷ [])
        → Claims its.yes_line O.taken out.old out.new result.status → IsEnding text }

    // How the call ends: a field for each promise.
    ensures ends { CallEnds
        (record {
          held = F.held;
          faults = F.faults;
          leaves = F.leaves;
          out_faults = O.faults;
          out_taken = O.taken;
          err_faults = E.faults;
          err_taken = E.taken;
        })
        (map string_bytes words.now) (record { old = files.old; new = files.new }) (record { old = out.old; new = out.new })
        (record { old = err.old; new = err.new }) result }
{
    let Some(command) = Asked::from_words(words) else {
        put_line(err, usage_text());
        return Done {
            status: 4,
            verdict: None,
        };
    };
    match answer(
        alloc,
        &command,
        files,
        MOST_CERTIFICATE_BYTES,
        MOST_FILE_BYTES,
    ) {
        Ok(verdict) => write_out(verdict, out, err),
        Err(failure) => Done {
            status: report(alloc, &failure, err),
            verdict: None,
        },
    }
}
