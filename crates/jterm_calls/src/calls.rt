//! Calls over ports in memory, with classes written as listings.
use io_ports::{MemoryFiles, MemorySink};
use jterm::jterm;
use std::alloc::{AllocError, Global};

/// A description of a method without parameters.
pub(crate) const DESC: &[u8] =
    b"{\"form\":1,\"class\":\"A\",\"method\":\"f\",\"desc\":\"()I\",\"params\":[],\"same\":[],\"share\":[]}";

/// A state of the same method.
pub(crate) const STATE: &[u8] =
    b"{\"form\":1,\"class\":\"A\",\"method\":\"f\",\"desc\":\"()I\",\"args\":[],\"heap\":[]}";

/// A certificate of the method that `LISTING` has, up to its cuts and its proof.
pub(crate) const NODES: &[u8] =
    b"{\"form\":2,\"nodes\":[{\"by\":[\"expand\",[1]],\"state\":{\"frames\":[[0,0,[],[]]],\"throw\":-1,\
      \"cells\":[],\"eq\":[],\"share\":[]}},{\"by\":[\"end\"]}]";

/// Its cuts and its proof.
pub(crate) const REST: &[u8] = b",\"cuts\":[0],\"proof\":[[\"empty\"]]}";

/// A static method that returns 7.
pub(crate) const LISTING: &[u8] =
    b"class A\nmethod f ()I static stack 1 locals 0\nbipush 7\nireturn\nend\n";

// What a call came to: its status, what it put on the two outputs, and whether a reason is kept.
#[derive(Drop)]
pub(crate) struct Outcome {
    pub(crate) status: u8,
    pub(crate) out: MemorySink,
    pub(crate) err: MemorySink,
    pub(crate) has_reason: bool,
}

// Whether a call came to this status.
pub(crate) fn has_status(
    outcome: Result<Outcome, AllocError>,
    status: u8,
) -> Result<bool, AllocError> {
    Ok(outcome?.status == status)
}

// Whether a call came to this status, and put this on its output for errors.
pub(crate) fn errs(
    outcome: Result<Outcome, AllocError>,
    status: u8,
    err: &[u8],
) -> Result<bool, AllocError> {
    let outcome = outcome?;
    Ok(outcome.status == status && outcome.err.bytes() == err)
}

// Whether a call came to this status, and put these on its two outputs.
pub(crate) fn comes_to(
    outcome: Result<Outcome, AllocError>,
    status: u8,
    out: &[u8],
    err: &[u8],
) -> Result<bool, AllocError> {
    let outcome = outcome?;
    Ok(outcome.status == status && outcome.out.bytes() == out && outcome.err.bytes() == err)
}

// A call with these words over these files, of which the reads with these numbers fail, and with so much room on its
// output.
pub(crate) fn call(
    alloc: Global,
    words: &[&str],
    held: Vec<(String, Vec<u8>)>,
    failing: &[u64],
    room: usize,
) -> Result<Outcome, AllocError> {
    heard(alloc, words, held, failing, room, 300)
}

// The same with so much room for lines of errors.
pub(crate) fn heard(
    alloc: Global,
    words: &[&str],
    held: Vec<(String, Vec<u8>)>,
    failing: &[u64],
    room: usize,
    lines: usize,
) -> Result<Outcome, AllocError> {
    let mut texts = Vec::new(alloc);
    for word in words {
        texts.push(String::from_str(alloc, word)?)?;
    }
    let mut files = MemoryFiles::new(held, Vec::from_slice(alloc, failing)?);
    let mut out = MemorySink::new(alloc, room, Vec::new(alloc))?;
    let mut err = MemorySink::new(alloc, lines, Vec::new(alloc))?;
    let done = jterm(alloc, &texts, &mut files, &mut out, &mut err);
    let has_reason = match &done.verdict {
        Some(verdict) => verdict.reason.is_some(),
        None => false,
    };
    Ok(Outcome {
        status: done.status,
        out,
        err,
        has_reason,
    })
}

// Whether these words are no command.
pub(crate) fn is_no_command(alloc: Global, words: &[&str]) -> Result<bool, AllocError> {
    has_status(call(alloc, words, Vec::new(alloc), &[], 100), 4)
}

// Whether none of these rows of words is a command.
pub(crate) fn are_no_commands(alloc: Global, rows: &[&[&str]]) -> Result<bool, AllocError> {
    for words in rows {
        if !is_no_command(alloc, words)? {
            return Ok(false);
        }
    }
    Ok(true)
}

pub(crate) fn file(
    alloc: Global,
    name: &str,
    content: &[u8],
) -> Result<(String, Vec<u8>), AllocError> {
    Ok((
        String::from_str(alloc, name)?,
        Vec::from_slice(alloc, content)?,
    ))
}

// Files of these contents, one that is named first and `a`, a class.
pub(crate) fn two_files(
    alloc: Global,
    name: &str,
    content: &[u8],
    class: &[u8],
) -> Result<Vec<(String, Vec<u8>)>, AllocError> {
    let mut held = Vec::new(alloc);
    held.push(file(alloc, name, content)?)?;
    held.push(file(alloc, "a", class)?)?;
    Ok(held)
}

// A certificate `c`, a description `d` and a class `a`.
pub(crate) fn three_files(
    alloc: Global,
    cert: &[u8],
    desc: &[u8],
    class: &[u8],
) -> Result<Vec<(String, Vec<u8>)>, AllocError> {
    let mut held = two_files(alloc, "d", desc, class)?;
    held.push(file(alloc, "c", cert)?)?;
    Ok(held)
}

// The text of a certificate with these cuts and this proof.
pub(crate) fn ended(alloc: Global, rest: &[u8]) -> Result<Vec<u8>, AllocError> {
    let mut text = Vec::from_slice(alloc, NODES)?;
    text.extend_from_slice(rest)?;
    Ok(text)
}

// The class file of a listing.
pub(crate) fn assembled(alloc: Global, listing: &[u8]) -> Result<Outcome, AllocError> {
    let mut held = Vec::new(alloc);
    held.push(file(alloc, "a.listing", listing)?)?;
    call(alloc, &["asm", "a.listing"], held, &[], 100_000)
}

// What is said of `A.f()I` in the class of `LISTING`, where the reads with these numbers fail.
pub(crate) fn proved(alloc: Global, failing: &[u64], room: usize) -> Result<Outcome, AllocError> {
    let class = assembled(alloc, LISTING)?;
    let held = two_files(alloc, "d", DESC, class.out.bytes())?;
    call(alloc, &["prove", "d", "a"], held, failing, room)
}

// What a command over certificates says of one for `A.f()I` in the class of `LISTING` and this description, where the reads with these
// numbers fail, and with so much room on the two outputs.
pub(crate) fn certified(
    alloc: Global,
    word: &str,
    cert: &[u8],
    desc: &[u8],
    failing: &[u64],
    room: usize,
    lines: usize,
) -> Result<Outcome, AllocError> {
    let class = assembled(alloc, LISTING)?;
    let held = three_files(alloc, cert, desc, class.out.bytes())?;
    heard(alloc, &[word, "c", "d", "a"], held, failing, room, lines)
}

// The same of `check`.
pub(crate) fn checked(
    alloc: Global,
    cert: &[u8],
    desc: &[u8],
    failing: &[u64],
    room: usize,
    lines: usize,
) -> Result<Outcome, AllocError> {
    certified(alloc, "check", cert, desc, failing, room, lines)
}

// What `bound` says of a bound and of a certificate for `A.f()I` in the class of `LISTING`.
pub(crate) fn bounded(alloc: Global, bound: &[u8], cert: &[u8]) -> Result<Outcome, AllocError> {
    let class = assembled(alloc, LISTING)?;
    let mut held = three_files(alloc, cert, DESC, class.out.bytes())?;
    held.push(file(alloc, "b", bound)?)?;
    call(alloc, &["bound", "b", "c", "d", "a"], held, &[], 100)
}

// What `loop` says of a certificate, a state and a description for the class of a listing, where the reads with these numbers fail.
pub(crate) fn looped(
    alloc: Global,
    listing: &[u8],
    cert: &[u8],
    state: &[u8],
    desc: &[u8],
    failing: &[u64],
) -> Result<Outcome, AllocError> {
    let class = assembled(alloc, listing)?;
    let mut held = three_files(alloc, cert, desc, class.out.bytes())?;
    held.push(file(alloc, "s", state)?)?;
    call(alloc, &["loop", "c", "s", "d", "a"], held, failing, 100)
}

// Whether a certificate is answered with this status and this line.
pub(crate) fn says(
    alloc: Global,
    cert: &[u8],
    status: u8,
    line: &[u8],
) -> Result<bool, AllocError> {
    let outcome = checked(alloc, cert, DESC, &[], 100, 100)?;
    Ok(outcome.status == status && outcome.out.bytes() == line)
}

// How a run of so many steps from `STATE` ends in the class of `LISTING`, where the reads with these numbers fail.
pub(crate) fn ran(alloc: Global, fuel: &str, failing: &[u64]) -> Result<Outcome, AllocError> {
    let class = assembled(alloc, LISTING)?;
    let held = two_files(alloc, "s", STATE, class.out.bytes())?;
    call(alloc, &["run", fuel, "s", "a"], held, failing, 100)
}
