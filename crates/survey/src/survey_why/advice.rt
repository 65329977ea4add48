//! Advice about a MAYBE.

use crate::survey_notes::{CodePlace, Places, Sources};
use crate::survey_why::changes::{Change, Known, changes_on};
use crate::survey_why::cuts::{add_node, place_of, running};
use crate::survey_why::ways::{Way, ways_numbered};
use abs_cells::PackedPairs;
use chain_proofs::LeftRule;
use class_program::Program;
use list_views::Seq;
use prove_core::{Cert, Reason};
use std::alloc::{AllocError, Global};

/// The most rules of which something is told.
const MOST_RULES: usize = 8;

/// Puts a number with its sign behind a text.
fn put_signed(alloc: Global, text: &mut Seq<u8>, number: &i64) -> Result<(), AllocError> {
    let digits = format!(in alloc; "{number}")?;
    text.extend_from_slice(digits.as_bytes())
}

/// Puts a local's name at a place behind a text, or its number where the name isn't known.
fn put_local(
    alloc: Global,
    text: &mut Seq<u8>,
    sources: &Sources<'_, '_>,
    place: Option<CodePlace<'_>>,
    local: u16,
) -> Result<(), AllocError> {
    if let Some(place) = place {
        if let Some(name) = sources.variable(alloc, place, local)? {
            return text.extend_from_slice(name.as_slice());
        }
    }
    text.extend_from_slice(b"local ")?;
    let digits = format!(in alloc; "{local}")?;
    text.extend_from_slice(digits.as_bytes())
}

/// Puts how a local changes behind a text.
fn put_change(
    alloc: Global,
    text: &mut Seq<u8>,
    sources: &Sources<'_, '_>,
    place: Option<CodePlace<'_>>,
    change: Change,
) -> Result<(), AllocError> {
    put_local(alloc, text, sources, place, change.local)?;
    match change.known {
        Known::Local(local, plus) => {
            text.extend_from_slice(b" = ")?;
            put_local(alloc, text, sources, place, local)?;
            text.extend_from_slice(if plus < 0 { b" " } else { b" +" })?;
            put_signed(alloc, text, &plus)
        }
        Known::Number(number) => {
            text.extend_from_slice(b" = ")?;
            put_signed(alloc, text, &number)
        }
        Known::Nothing => text.extend_from_slice(b" by another sum"),
    }
}

/// Puts the changes along a path behind a text.
fn put_changes(
    alloc: Global,
    text: &mut Seq<u8>,
    sources: &Sources<'_, '_>,
    place: Option<CodePlace<'_>>,
    changes: &[Change],
) -> Result<(), AllocError> {
    if changes.is_empty() {
        return text.extend_from_slice(b" no int in a local changes");
    }
    for (n, change) in changes.iter().enumerate() {
        text.extend_from_slice(if n == 0 { b" " } else { b", " })?;
        put_change(alloc, text, sources, place, *change)?;
    }
    Ok(())
}

/// What is told of a path that can be taken again and again.
fn way_text(
    alloc: Global,
    sources: &Sources<'_, '_>,
    program: &Program<'_>,
    cert: &Cert<PackedPairs>,
    way: &Way,
) -> Result<Seq<u8>, AllocError> {
    let mut places = Places::new(alloc);
    for n in way.nodes.as_slice() {
        add_node(alloc, &mut places, sources, program, &cert.graph, *n)?;
    }
    let mut text = Seq::from_slice(alloc, b"way over")?;
    places.put(alloc, &mut text)?;
    text.extend_from_slice(b":")?;
    let changes = changes_on(alloc, program, &cert.graph, way)?;
    let place = match way.nodes.as_slice().first() {
        Some(first) => match running(&cert.graph, *first) {
            Some(frame) => place_of(program, frame),
            None => None,
        },
        None => None,
    };
    put_changes(alloc, &mut text, sources, place, changes.as_slice())?;
    Ok(text)
}

/// The numbers of the first rules that are left.
fn first_rules(alloc: Global, left: &[LeftRule]) -> Result<Seq<u32>, AllocError> {
    let mut numbers = Seq::new(alloc);
    for rule in left.iter().take(MOST_RULES) {
        numbers.push(rule.rule)?;
    }
    Ok(numbers)
}

/// Whether a local that is known changes by a fixed number on each of these paths.
fn is_counted(changes: &[Vec<Change>]) -> bool {
    changes.iter().all(|own| {
        own.as_slice().iter().any(|change| {
            matches!(change.known, Known::Local(local, plus) if local == change.local && plus != 0)
        })
    })
}

/// Puts what is told of the rules that are left behind other lines.
fn put_rules(
    alloc: Global,
    lines: &mut Vec<Seq<u8>>,
    sources: &Sources<'_, '_>,
    program: &Program<'_>,
    cert: &Cert<PackedPairs>,
    left: &[LeftRule],
) -> Result<(), AllocError> {
    let numbers = first_rules(alloc, left)?;
    let ways = ways_numbered(alloc, &cert.graph, cert.cuts.as_slice(), numbers.as_slice())?;
    let mut all = Vec::new(alloc);
    for way in ways.as_slice() {
        lines.push(way_text(alloc, sources, program, cert, way)?)?;
        all.push(changes_on(alloc, program, &cert.graph, way)?)?;
    }
    let advice: &[u8] = if is_counted(all.as_slice()) {
        b"can an int wrap before the loop ends, or does the test end on the other side? Describe fewer inputs, or test with < or > in place of <=, >= and !="
    } else {
        b"on some way no local changes by a fixed number: copy a field into a local before the loop, or count the rounds in an int of its own"
    };
    lines.push(Seq::from_slice(alloc, advice)?)?;
    Ok(())
}

/// The advice for the other reasons.
fn limit_advice(reason: &Reason<PackedPairs>) -> &'static [u8] {
    match reason {
        Reason::Nodes(_) => {
            b"the graph has more than 4000 nodes: describe narrower intervals, write fewer branches in loops, or ask `jterm prove --nodes 20000`"
        }
        Reason::Ids(_) => b"more than 512 ints at one place: use fewer locals, or split the method",
        Reason::Paths(_) => {
            b"too many paths: branches that follow one another in a loop multiply them, so put some into loops of their own"
        }
        Reason::Bytes { .. } => b"the certificate is too long: split the method",
        Reason::Component { .. } => b"these ways can be taken again and again, so far as is known",
    }
}

/// Puts advice about a reason behind other lines, a line for each path that is left and one for what would help.
///
/// # Errors
///
/// Want of memory.
pub fn put_advice(
    alloc: Global,
    lines: &mut Vec<Seq<u8>>,
    sources: &Sources<'_, '_>,
    program: &Program<'_>,
    reason: &Reason<PackedPairs>,
) -> Result<(), AllocError> {
    lines.push(Seq::from_slice(alloc, limit_advice(reason))?)?;
    match reason {
        Reason::Component { cert, left } => {
            put_rules(alloc, lines, sources, program, cert, left.as_slice())
        }
        _ => Ok(()),
    }
}
