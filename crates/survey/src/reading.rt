//! The files that the words name.
ghost use Rattle.std.specs.Prelude.{◌≡◌, ◌≤◌, ◌<◌, ◌∷◌, ◌++◌, [], length, map, slice_index_or, string_bytes, IfOk, OnOk, OnErr};
ghost use Rattle.io_ports.specs.Told.{IsContent};
ghost use Rattle.survey.specs.Claims.{Surveyed};
ghost use Rattle.survey.specs.Outside.{AreSome, Tells, BeginsToTell};
ghost use Rattle.survey.specs.inner.Wording.{IsRead, GrowsRead};

use crate::failure::Stop;
use crate::lines::Head;
use crate::putting::put_other;
use class_base::MOST_FILE_BYTES;
use class_read::{ClassFault, ClassView};
use io_ports::{FileFault, Files, Sink};
use list_views::Seq;
use std::alloc::{AllocError, Global};

/// What a read gives.
#[derive(Drop)]
pub(crate) enum Read {
    /// The content of a class file that spells a class.
    Content(Vec<u8>),
    /// Why there is none, in words.
    Broken(Seq<u8>),
}

/// The class files that are surveyed.
#[derive(Drop)]
pub(crate) struct Kept {
    /// Their contents.
    pub(crate) files: Vec<Vec<u8>>,
    /// The places of the words that name them.
    pub(crate) places: Vec<usize>,
    /// How many were refused.
    pub(crate) refused: usize,
    /// How many were left out.
    pub(crate) left_out: usize,
}

/// A file's name, and words behind it.
pub(crate) fn named(
    alloc: Global,
    name: &[u8],
    place: &[u8],
    words: &[u8],
) -> Result<Seq<u8>, AllocError> {
    let mut line = Seq::from_slice(alloc, name)?;
    line.extend_from_slice(place)?;
    line.extend_from_slice(words)?;
    Ok(line)
}

/// Why a content spells no class, in words; None where it spells one.
fn class_fault(alloc: Global, content: &[u8]) -> Result<Option<Seq<u8>>, AllocError> {
    match ClassView::read(alloc, content) {
        Ok(_) => Ok(None),
        Err(ClassFault::Memory) => Err(AllocError),
        Err(fault) => Ok(Some(fault.text(alloc)?)),
    }
}

/// What becomes of a content: it is kept where it spells a class.
fn tested(alloc: Global, name: &str, content: Vec<u8>) -> Result<Read, AllocError>
    ensures { IfOk result (IsRead (λ bytes. bytes ≡ content.items)) }
{
    match class_fault(alloc, content.as_slice())? {
        None => Ok(Read::Content(content)),
        Some(words) => Ok(Read::Broken(named(
            alloc,
            name.as_bytes(),
            b" class: ",
            words.as_slice(),
        )?)),
    }
}

/// What is read under a name that is a class file's.
fn read_class<F: Files>(alloc: Global, name: &str, files: &mut F) -> Result<Read, Stop>
    ensures content { IfOk result (IsRead (IsContent (F.held files.old name.now))) }
    ensures held { F.held files.new ≡ F.held files.old }
{
    match files.read(alloc, name, MOST_FILE_BYTES) {
        Ok(content) => Ok(tested(alloc, name, content)?),
        Err(FileFault::Memory) => Err(Stop::Memory),
        Err(fault) => Ok(Read::Broken(named(alloc, name.as_bytes(), b" read: ", fault.name())?)),
    }
}

/// Puts a content behind others.
fn push_content(contents: &mut Vec<Vec<u8>>, content: Vec<u8>) -> Result<(), AllocError>
    ensures { OnOk result (contents.new.items ≡ contents.old.items ++ content ∷ []) }
{
    contents.push(content)?;
    Ok(())
}

/// Keeps a class file, which the word at a place names.
fn keep(kept: &mut Kept, place: usize, content: Vec<u8>) -> Result<(), AllocError>
    ensures { OnOk result (kept.new.files.items ≡ kept.old.files.items ++ content ∷ []) }
{
    kept.places.push(place)?;
    kept.files.push(content)?;
    Ok(())
}

/// Puts the line of a file that isn't kept.
#[tactic(auto)]
fn refuse<O: Sink>(alloc: Global, line: &[u8], kept: &mut Kept, out: &mut O) -> Result<(), Stop>
    ensures told { OnOk result ((s : Surveyed) → Tells O.taken s out.old out.new) }
    ensures begun { OnErr result ((s : Surveyed) → BeginsToTell O.taken s out.old out.new) }
    ensures same { kept.new.files.items ≡ kept.old.files.items }
{
    kept.refused = kept.refused.saturating_add(1);
    put_other(alloc, out, Head::Refused, line)
}

/// Reads the class file of a word at a place: it is kept, or a line is put for it.
#[tactic(auto, using(crate::proofs::Telling::nothing_told, crate::proofs::Telling::nothing_begun, crate::proofs::Kept::grows_by, crate::proofs::Kept::grows_not))]
fn read_file<F: Files, O: Sink>(
    alloc: Global,
    name: &str,
    place: usize,
    files: &mut F,
    kept: &mut Kept,
    out: &mut O,
) -> Result<(), Stop>
    ensures told { OnOk result ((s : Surveyed) → Tells O.taken s out.old out.new) }
    ensures begun { OnErr result ((s : Surveyed) → BeginsToTell O.taken s out.old out.new) }
    ensures grows { OnOk result (GrowsRead (F.held files.old name.now) kept.old.files.items kept.new.files.items) }
    ensures held { F.held files.new ≡ F.held files.old }
{
    match read_class(alloc, name, files) {
        Ok(Read::Content(content)) => match keep(kept, place, content) {
            Ok(()) => Ok(()),
            Err(AllocError) => Err(Stop::Memory),
        },
        Ok(Read::Broken(line)) => match refuse(alloc, line.as_slice(), kept, out) {
            Ok(()) => Ok(()),
            Err(stop) => Err(stop),
        },
        Err(stop) => Err(stop),
    }
}

/// The class files that words name, and that spell classes. A line is put for each other one.
#[tactic(auto, using(crate::proofs::Telling::nothing_told, crate::proofs::Telling::told_all, crate::proofs::Telling::begun_all, crate::proofs::Kept::some_grown, crate::proofs::Kept::grown_few, crate::proofs::Kept::some_all))]
pub(crate) fn read_files<F: Files, O: Sink>(
    alloc: Global,
    words: &[String],
    files: &mut F,
    out: &mut O,
) -> Result<Kept, Stop>
    ensures told { IfOk result (λ kept. (s : Surveyed) → Tells O.taken s out.old out.new) }
    ensures begun { OnErr result ((s : Surveyed) → BeginsToTell O.taken s out.old out.new) }
    ensures some { IfOk result (λ kept. AreSome (F.held files.old) (map string_bytes words.now)
        (map (λ file. file.items) kept.files.items)) }
    ensures held { IfOk result (λ kept. F.held files.new ≡ F.held files.old) }
    ensures few { IfOk result (λ kept. length kept.files.items ≤ length words.now) }
{
    let mut kept = Kept {
        files: Vec::new(alloc),
        places: Vec::new(alloc),
        refused: 0,
        left_out: 0,
    };
    for (place, word) in words.iter().enumerate() {
        match read_file(alloc, word.as_str(), place, files, &mut kept, out) {
            Ok(()) => {}
            Err(stop) => return Err(stop),
        }
    }
    Ok(kept)
}

/// Reads the description of a word at a place.
#[tactic(auto, using(crate::proofs::Kept::grows_by))]
fn read_desc<F: Files>(
    alloc: Global,
    name: &str,
    place: usize,
    files: &mut F,
    descs: &mut Vec<Vec<u8>>,
) -> Result<(), Stop>
    ensures grows { OnOk result (GrowsRead (F.held files.old name.now) descs.old.items descs.new.items) }
    ensures held { F.held files.new ≡ F.held files.old }
{
    match files.read(alloc, name, MOST_FILE_BYTES) {
        Ok(content) => match push_content(descs, content) {
            Ok(()) => Ok(()),
            Err(AllocError) => Err(Stop::Memory),
        },
        Err(FileFault::Memory) => Err(Stop::Memory),
        Err(fault) => Err(Stop::Unread(place, fault)),
    }
}

/// The word at a place.
fn word_at<'a>(words: &[&'a str], place: usize) -> &'a str
    requires { place < length words.now }
    ensures { result ≡ slice_index_or words.now place result }
{
    words[place]
}

/// The descriptions that words name.
#[tactic(auto, using(crate::proofs::Kept::some_grown, crate::proofs::Kept::some_all))]
pub(crate) fn read_descs<F: Files>(
    alloc: Global,
    words: &[&str],
    files: &mut F,
) -> Result<Vec<Vec<u8>>, Stop>
    ensures some { IfOk result (λ descs. AreSome (F.held files.old) (map (λ name. name.now) words.now)
        (map (λ desc. desc.items) descs.items)) }
    ensures held { F.held files.new ≡ F.held files.old }
{
    let mut descs = Vec::new(alloc);
    for place in 0..words.len() {
        match read_desc(alloc, word_at(words, place), place, files, &mut descs) {
            Ok(()) => {}
            Err(stop) => return Err(stop),
        }
    }
    Ok(descs)
}
