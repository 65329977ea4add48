//! Where the cuts of a kept graph stand.

use crate::survey_notes::{CodePlace, Places, Sources};
use abs_cells::{AbsFrame, PackedPairs};
use class_program::{Method, Program};
use list_views::Seq;
use prove_core::Reason;
use std::alloc::{AllocError, Global};
use term_graph::Graph;

/// The running frame of a node: the last one.
pub(crate) fn running(graph: &Graph<PackedPairs>, n: u32) -> Option<&AbsFrame> {
    if (n as usize) >= graph.len() {
        return None;
    }
    graph.at(n).state().frames().last()
}

/// How many frames a node has.
pub(crate) fn depth(graph: &Graph<PackedPairs>, n: u32) -> usize {
    if (n as usize) >= graph.len() {
        return 0;
    }
    graph.at(n).state().frames().len()
}

/// The method of a frame.
pub(crate) fn method_of<'m, 'a>(
    program: &'m Program<'a>,
    frame: &AbsFrame,
) -> Option<&'m Method<'a>> {
    program.methods.get(frame.method() as usize)
}

/// The place of a frame.
pub(crate) fn place_of<'m>(program: &'m Program<'_>, frame: &AbsFrame) -> Option<CodePlace<'m>> {
    let method = method_of(program, frame)?;
    if (method.class as usize) >= program.world.len() {
        return None;
    }
    Some(CodePlace {
        class: program.world.view(method.class).name,
        name: method.name.as_slice(),
        desc: method.desc.as_slice(),
        pc: frame.pc(),
    })
}

/// Takes the place of a node, where it has one.
pub(crate) fn add_node(
    alloc: Global,
    places: &mut Places,
    sources: &Sources<'_, '_>,
    program: &Program<'_>,
    graph: &Graph<PackedPairs>,
    n: u32,
) -> Result<(), AllocError> {
    let Some(frame) = running(graph, n) else {
        return Ok(());
    };
    match place_of(program, frame) {
        Some(place) => places.add(alloc, sources, place),
        None => Ok(()),
    }
}

/// The name of a reason.
fn reason_name(reason: &Reason<PackedPairs>) -> &'static [u8] {
    match reason {
        Reason::Nodes(_) => b"nodes ",
        Reason::Ids(_) => b"ids ",
        Reason::Paths(_) => b"paths ",
        Reason::Bytes { .. } => b"bytes ",
        Reason::Component { .. } => b"component ",
    }
}

/// A reason with a method in words, and, for a component, the places of the cuts at the ends of the rules that are left.
///
/// # Errors
///
/// Want of memory.
pub fn reason_text(
    alloc: Global,
    sources: &Sources<'_, '_>,
    method: &[u8],
    program: &Program<'_>,
    reason: &Reason<PackedPairs>,
) -> Result<Seq<u8>, AllocError> {
    let mut text = Seq::from_slice(alloc, reason_name(reason))?;
    text.extend_from_slice(method)?;
    if let Reason::Component { cert, left } = reason {
        let mut places = Places::new(alloc);
        for rule in left.as_slice() {
            add_node(alloc, &mut places, sources, program, &cert.graph, rule.from)?;
            add_node(alloc, &mut places, sources, program, &cert.graph, rule.to)?;
        }
        places.put(alloc, &mut text)?;
    }
    Ok(text)
}
