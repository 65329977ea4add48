//! The report of a graph.
ghost use Rattle.std.specs.Prelude.{◌≡◌, ◌<◌, length, IfOk};
ghost use Rattle.throw_report.specs.Laws.{AllWalksEndSo};
ghost use Rattle.throw_report.specs.Reports.{IsReport};
ghost use Rattle.throw_report.specs.inner.Words.{AreMarked, AddsMarked, AddsNode, class_of, class_in, is_end, with_end};

use crate::laws::walks_end_as_reported;
use crate::reaching::{is_marked, reached_nodes};
use crate::rising::with_number;
use crate::ways::Report;
use abs_cells::{AbsState, Cell, Id, Pairs};
use list_views::Seq;
use std::alloc::{AllocError, Global};
use term_graph::{By, NodeSource};

/// The class of the object that a cell knows.
fn class_of(cell: &Cell) -> Option<u32>
    ensures { result ≡ class_of cell.now }
{
    match cell {
        Cell::Obj(class, _) => Some(*class),
        _ => None,
    }
}

/// The class of the object that an id stands for, where its cell knows it.
fn class_in(cells: &[(Id, Cell)], id: Id) -> Option<u32>
    ensures { result ≡ class_in cells.now id }
{
    for (other, cell) in cells {
        if *other == id {
            return class_of(cell);
        }
    }
    None
}

/// A report with the way in which runs end that come to a state with which they end.
fn with_end<P: Pairs>(
    alloc: Global,
    report: Report,
    state: &AbsState<P>,
) -> Result<Report, AllocError>
    ensures { IfOk result (λ more. more ≡ with_end state.now report) }
{
    let Some(id) = state.throwing() else {
        return Ok(Report {
            returns: true,
            throws: report.throws,
        });
    };
    let Some(class) = class_in(state.cells(), id) else {
        return Ok(report);
    };
    Ok(Report {
        returns: report.returns,
        throws: with_number(alloc, report.throws.as_slice(), class)?,
    })
}

/// Whether a node says that runs end.
fn is_end(by: &By) -> bool
    ensures { result ≡ is_end by.now }
{
    matches!(by, By::End)
}

/// A report with the way in which runs end at a node, if it is an `End` node.
#[tactic(auto, using(crate::proofs::Adding::adds_nothing, crate::proofs::Adding::adds_end))]
fn with_node<P: Pairs, S: NodeSource<P>>(
    alloc: Global,
    source: &mut S,
    n: u32,
    report: Report,
) -> Result<Report, AllocError>
    requires there { n < length (S.graph source.old) }
    ensures adds { IfOk result (AddsNode (S.graph source.old) n report) }
    ensures same { S.graph source.new ≡ S.graph source.old }
{
    let by = source.by(alloc, n)?;
    if !is_end(&by) {
        return Ok(report);
    }
    let node = source.node(alloc, n)?;
    with_end(alloc, report, node.state())
}

/// The same, if the node is marked.
fn with_marked<P: Pairs, S: NodeSource<P>>(
    alloc: Global,
    source: &mut S,
    marks: &[bool],
    n: u32,
    report: Report,
) -> Result<Report, AllocError>
    requires there { n < length (S.graph source.old) }
    ensures adds { IfOk result (AddsMarked (S.graph source.old) marks.now n report) }
    ensures same { S.graph source.new ≡ S.graph source.old }
{
    if is_marked(marks, n) {
        with_node(alloc, source, n, report)
    } else {
        Ok(report)
    }
}

/// The ways in which runs end at marked nodes.
fn reported<P: Pairs, S: NodeSource<P>>(
    alloc: Global,
    source: &mut S,
    marks: &[bool],
) -> Result<Report, AllocError>
    requires marked { AreMarked (S.graph source.old) marks.now }
    ensures report { IfOk result (IsReport (S.graph source.old)) }
    ensures same { S.graph source.new ≡ S.graph source.old }
{
    let mut report = Report {
        returns: false,
        throws: Seq::new(alloc),
    };
    for n in 0..source.count() {
        let more = with_marked(alloc, source, marks, n, report)?;
        report = more;
    }
    Ok(report)
}

/// How runs can end, by the `End` nodes of a graph that edges reach from node 0, node 0 included: one in normal mode is a return,
/// one in throwing mode a throw of an object of the thrown cell's class.
///
/// It asks nothing of the graph. Of a good one each thrown cell is an `Obj`, and each run that comes to an `End` node by a walk of states
/// that fit ends in one of these ways.
///
/// # Errors
///
/// Want of memory.
pub fn report<P: Pairs, S: NodeSource<P>>(
    alloc: Global,
    source: &mut S,
) -> Result<Report, AllocError>
    ensures report { IfOk result (IsReport (S.graph source.old)) }
    ensures walks { IfOk result (AllWalksEndSo (S.graph source.old)) }
    ensures same { S.graph source.new ≡ S.graph source.old }
{
    walks_end_as_reported();
    let marks = reached_nodes(alloc, source)?;
    let report = reported(alloc, source, marks.as_slice())?;
    Ok(report)
}
