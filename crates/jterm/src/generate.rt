//! The command `generate`.
ghost use Rattle.std.specs.Prelude.{◌≡◌, ◌≤◌, ◌∷◌, [], ◌==◌, Ok, length, map};
ghost use Rattle.class_base.specs.Limits.{most_classes};
ghost use Rattle.class_calls.specs.asm_call.Answers as asm;
ghost use Rattle.desc_steps.specs.Answers.{AnswersAs};
ghost use Rattle.generate_text.specs.Listings.{listing_of};
ghost use Rattle.jterm.specs.GenerateAnswers.{Proves, AnswersFiles, Answers};
ghost use Rattle.jterm.specs.GenerateHeadline.{FilesEndIfYes, AllEndIfYes};
ghost use Rattle.jterm.specs.inner.GenerateSaid.{generated_of};

use crate::made_cert::is_accepted;
use crate::made_line::{blocks_line, check_word, first_line};
use abs_cells::PackedPairs;
use class_calls::asm_call::class_file;
use generate_text::{description, listing};
use input_steps::Refused;
use list_views::Seq;
use prove_call::{Answer, prove_line};
use prove_core::Reason;
use std::alloc::Global;
use term_graph::MOST_NODES;

/// What is said of the class that was made.
#[derive(Drop)]
pub struct Generated {
    /// The bytes for the output.
    pub out: Seq<u8>,
    /// Why no certificate is given, where none is.
    pub reason: Option<Reason<PackedPairs>>,
}

/// The class file of so many blocks.
fn class_of(alloc: Global, n: u32) -> Result<Seq<u8>, Refused>
    ensures { asm.Answers (listing_of n) result }
{
    let listing = listing(alloc, n as usize)?;
    class_file(alloc, listing.as_slice())
}

/// Whether `prove` gives a certificate, which `check` then accepts.
#[tactic(auto, using(crate::proofs::GenerateSaying::has_accepted))]
fn is_certified(alloc: Global, answer: &Answer, files: &[Vec<u8>]) -> Result<bool, Refused>
    requires few { length files.now ≤ most_classes }
    requires proves { Proves (map (λ file. file.items) files.now) (Ok answer.now) }
    ensures { AnswersAs (answer.now.status == 0) result }
{
    if answer.status == 0 {
        is_accepted(alloc, answer.out.as_slice(), files)
    } else {
        Ok(false)
    }
}

/// The line for an answer of `prove`, and its reason.
fn told(alloc: Global, n: u32, answer: Answer, is_accepted: bool) -> Result<Generated, Refused>
    ensures { AnswersAs (generated_of n answer is_accepted) result }
{
    let answered = first_line(answer.out.as_slice());
    let out = blocks_line(alloc, n, answered, check_word(is_accepted))?;
    Ok(Generated {
        out,
        reason: answer.reason,
    })
}

/// What is said of the program of these files.
fn of_files(alloc: Global, n: u32, files: &[Vec<u8>]) -> Result<Generated, Refused>
    requires few { length files.now ≤ most_classes }
    ensures answers { AnswersFiles n (map (λ file. file.items) files.now) result }
    ensures headline { FilesEndIfYes n (map (λ file. file.items) files.now) result }
{
    let answer = prove_line(alloc, description(), files, MOST_NODES as u32)?;
    let is_accepted = is_certified(alloc, &answer, files)?;
    told(alloc, n, answer, is_accepted)
}

/// What is said of a class file.
fn of_class(alloc: Global, n: u32, class: Seq<u8>) -> Result<Generated, Refused>
    ensures answers { AnswersFiles n (class ∷ []) result }
    ensures headline { FilesEndIfYes n (class ∷ []) result }
{
    let files = [class.into_vec()];
    of_files(alloc, n, &files)
}

/// What `generate` puts on its output: the line `blocks N answer A check C`. A is `YES` where `prove` finds a
/// certificate within 20,000 nodes that every run of the method of so many loops ends, whatever the int and whatever
/// the tree, and C is `ACCEPTED` then, since `check` accepts the bytes of the certificate. Else A is the first line
/// of what `prove` says, for a reason that holds, and C is `none`.
///
/// # Errors
///
/// The first fault of the listing, or of the description and the class that it says, with its place. Want of memory.
pub fn generate_line(alloc: Global, n: u32) -> Result<Generated, Refused>
    ensures answers { Answers n result }
    ensures headline { AllEndIfYes n result }
{
    match class_of(alloc, n) {
        Ok(class) => of_class(alloc, n, class),
        Err(refused) => Err(refused),
    }
}
