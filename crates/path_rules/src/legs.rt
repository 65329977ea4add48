//! The rows of a path's edges.
ghost use Rattle.std.specs.Prelude.{◌≡◌, ◌≤◌, ◌^◌, ◌++◌, map, filter, All, OnOk, IfOk, Some};
ghost use Rattle.std.specs.List.{flat_map};
ghost use Rattle.abs_cells.specs.Cells.{is_int};
ghost use Rattle.abs_cells.specs.Sound.{AreIdsRising};
ghost use Rattle.abs_reach.specs.Instances.{image_in};
ghost use Rattle.abs_reach.specs.Keys.{AreKeysRising};
ghost use Rattle.term_enc.specs.Sizes.{collected};
ghost use Rattle.term_graph.specs.Edges.{id_after, is_size_variable};
ghost use Rattle.term_graph.specs.declared.links.Link.{Link};
ghost use Rattle.path_rules.specs.inner.Building.{size_of_terms, variable_by, AreKeyed, IsSmall};
ghost use Rattle.path_rules.specs.Rules.{has_int, ids_with, image_row, link_row, rows_of_child, rows_of_instance, rows_of_leg};
ghost use Rattle.path_rules.specs.Rules.{rows_of_size, tie, variable_of};
ghost use Rattle.path_rules.specs.inner.Sizing.{rows_of_image, sized};
ghost use Rattle.path_rules.specs.Sizing.{size_at};
ghost use Rattle.path_rules.specs.Stops.{Leg, child, leg_by};

use crate::numbers::is_size_variable;
use crate::sizes::push_size;
use crate::stops::Stop;
use crate::terms::with_term;
use abs_cells::{Id, Pairs};
use abs_reach::{Marks, place_of};
use lin_core::{RowKind, WRow};
use list_views::Seq;
use std::alloc::{AllocError, Global};
use term_graph::{By, Link, LinkRow, Side};

/// Two terms with the numbers 1 and -1, rising by their variables.
fn tied(alloc: Global, plus: u32, minus: u32) -> Result<Seq<(u32, i64)>, AllocError>
    ensures { IfOk result (λ terms. terms ≡ (tie plus minus).terms) }
{
    if plus < minus {
        Seq::from_slice(alloc, &[(plus, 1), (minus, -1)])
    } else if minus < plus {
        Seq::from_slice(alloc, &[(minus, -1), (plus, 1)])
    } else {
        Ok(Seq::new(alloc))
    }
}

/// One variable is another.
fn tie(alloc: Global, plus: u32, minus: u32) -> Result<WRow, AllocError>
    ensures { IfOk result (λ row. row ≡ tie plus minus) }
{
    Ok(WRow {
        kind: RowKind::IsZero,
        terms: tied(alloc, plus, minus)?,
        constant: 0,
        weights: Seq::new(alloc),
    })
}

/// Adds a row for each id that is an int of two stops: its two variables are one.
fn push_ties<P: Pairs>(
    alloc: Global,
    rows: &mut Seq<WRow>,
    stop: &Stop<P>,
    after: &Stop<P>,
) -> Result<(), AllocError>
    ensures { OnOk result
        (rows.new ≡ rows.old ++ map
        (λ id. tie (variable_of stop.now.first stop.now.node.state id) (variable_of after.now.first after.now.node.state id))
        (filter (has_int after.now.node.state) (ids_with is_int stop.now.node.state))) }
{
    for (id, cell) in stop.state().cells() {
        if cell.is_int() && after.has_int(*id) {
            rows.push(tie(alloc, stop.variable(*id), after.variable(*id))?)?;
        }
    }
    Ok(())
}

/// The variable of a term of a link, and its number.
fn variable_by<P: Pairs>(stop: &Stop<P>, after: &Stop<P>, term: &(Side, Id, i64)) -> (u32, i64)
    ensures { result ≡ variable_by stop.now.first stop.now.node.state after.now.first after.now.node.state term.now }
{
    let variable = match term.0 {
        Side::Before => stop.variable(term.1),
        Side::After => after.variable(term.1),
    };
    (variable, term.2)
}

/// The terms of a link's row over the variables of its two stops.
#[tactic(auto, using(crate::proofs::Collecting::none_collected))]
fn link_terms<P: Pairs>(
    alloc: Global,
    stop: &Stop<P>,
    after: &Stop<P>,
    terms: &[(Side, Id, i64)],
) -> Result<Seq<(u32, i64)>, AllocError>
    requires small { size_of_terms terms.now ≤ 2 ^ 62 }
    ensures { IfOk result
        (λ sum. sum ≡ collected (map (variable_by stop.now.first stop.now.node.state after.now.first after.now.node.state) terms.now)) }
{
    let mut sum = Seq::new(alloc);
    let mut left = terms.len();
    while left > 0 {
        left -= 1;
        let term = variable_by(stop, after, &terms[left]);
        sum = with_term(alloc, sum.as_slice(), &term)?;
    }
    Ok(sum)
}

/// A row of a link over the variables of its two stops.
fn link_row<P: Pairs>(
    alloc: Global,
    stop: &Stop<P>,
    after: &Stop<P>,
    row: &LinkRow,
) -> Result<WRow, AllocError>
    requires small { IsSmall row.now }
    ensures { IfOk result
        (λ made. made ≡ link_row (variable_of stop.now.first stop.now.node.state)
        (variable_of after.now.first after.now.node.state) row.now) }
{
    Ok(WRow {
        kind: row.kind,
        terms: link_terms(alloc, stop, after, row.terms.as_slice())?,
        constant: row.constant,
        weights: Seq::new(alloc),
    })
}

/// Adds the rows of a link.
fn push_link_rows<P: Pairs>(
    alloc: Global,
    rows: &mut Seq<WRow>,
    stop: &Stop<P>,
    after: &Stop<P>,
    link: &[LinkRow],
) -> Result<(), AllocError>
    requires small { All IsSmall link.now }
    ensures { OnOk result
        (rows.new ≡ rows.old ++ map
        (link_row (variable_of stop.now.first stop.now.node.state) (variable_of after.now.first after.now.node.state)) link.now) }
{
    for row in link {
        rows.push(link_row(alloc, stop, after, row)?)?;
    }
    Ok(())
}

/// The id that stands in a child for an id: the one that it was merged into, or itself.
fn id_after(merged: Option<(Id, Id)>, id: Id) -> Id
    ensures { result ≡ id_after merged id }
{
    match merged {
        Some((goes, stays)) => { if goes == id { stays } else { id } }
        None => id,
    }
}

/// Adds the row of each size variable: it is the size of the id that stands for its own in the child.
fn push_child_sizes<P: Pairs>(
    alloc: Global,
    rows: &mut Seq<WRow>,
    stop: &Stop<P>,
    merged: Option<(Id, Id)>,
    after: &Stop<P>,
    marks: &mut Marks,
) -> Result<(), AllocError>
    ensures { OnOk result
        (rows.new ≡ rows.old ++ flat_map (λ id. rows_of_size (variable_of stop.now.first stop.now.node.state id) after.now.first
        after.now.node.state (size_at after.now.node.state (id_after merged id))) (ids_with is_size_variable stop.now.node.state)) }
{
    for (id, cell) in stop.state().cells() {
        if is_size_variable(cell) {
            push_size(
                alloc,
                rows,
                stop.variable(*id),
                after,
                id_after(merged, *id),
                marks,
            )?;
        }
    }
    Ok(())
}

/// Adds the rows of an edge to a child.
fn push_child<P: Pairs>(
    alloc: Global,
    rows: &mut Seq<WRow>,
    stop: &Stop<P>,
    link: &Link,
    after: &Stop<P>,
    marks: &mut Marks,
) -> Result<(), AllocError>
    requires small { All IsSmall link.now.rows }
    requires rising { AreIdsRising 0 after.now.node.state.cells }
    ensures { OnOk result (rows.new ≡ rows.old ++ rows_of_child stop.now.first (sized stop.now.node.state) link.now after.now.first
        (sized after.now.node.state)) }
{
    push_ties(alloc, rows, stop, after)?;
    push_link_rows(alloc, rows, stop, after, link.rows.as_slice())?;
    push_child_sizes(alloc, rows, stop, link.merged, after, marks)
}

/// The image of an id, in as many steps as the count of the entries has digits.
#[tactic(auto, using(crate::proofs::EdgeRows::image_there, crate::proofs::EdgeRows::no_image))]
fn image_of(entries: &[(Id, Id)], id: Id) -> Option<Id>
    requires { AreKeysRising 0 entries.now }
    ensures { result ≡ image_in entries.now id }
{
    match place_of(entries, id) {
        Some(place) => Some(entries[place].1),
        None => None,
    }
}

/// Adds a row for each int of the state of which one is an instance: it is its image.
fn push_images<P: Pairs>(
    alloc: Global,
    rows: &mut Seq<WRow>,
    stop: &Stop<P>,
    entries: &[(Id, Id)],
    target: &Stop<P>,
) -> Result<(), AllocError>
    requires { AreKeysRising 0 entries.now }
    ensures { OnOk result
        (rows.new ≡ rows.old ++ flat_map
        (λ id. image_row stop.now.first (sized stop.now.node.state) (variable_of target.now.first target.now.node.state id)
        (image_in entries.now id)) (ids_with is_int target.now.node.state)) }
{
    for (id, cell) in target.state().cells() {
        if cell.is_int() {
            if let Some(image) = image_of(entries, *id) {
                rows.push(tie(alloc, target.variable(*id), stop.variable(image))?)?;
            }
        }
    }
    Ok(())
}

/// Adds the row that says that a variable is the size of an id's image, if there is an image and it is sized.
fn push_image_size<P: Pairs>(
    alloc: Global,
    rows: &mut Seq<WRow>,
    stop: &Stop<P>,
    variable: u32,
    image: Option<Id>,
    marks: &mut Marks,
) -> Result<(), AllocError>
    ensures { OnOk result (rows.new ≡ rows.old ++ rows_of_image variable stop.now.first stop.now.node.state image) }
{
    match image {
        Some(image) => push_size(alloc, rows, variable, stop, image, marks),
        None => Ok(()),
    }
}

/// Adds the row of each size variable of the state of which one is an instance: it is the size of its image.
fn push_image_sizes<P: Pairs>(
    alloc: Global,
    rows: &mut Seq<WRow>,
    stop: &Stop<P>,
    entries: &[(Id, Id)],
    target: &Stop<P>,
    marks: &mut Marks,
) -> Result<(), AllocError>
    requires { AreKeysRising 0 entries.now }
    ensures { OnOk result
        (rows.new ≡ rows.old ++ flat_map
        (λ id. rows_of_image (variable_of target.now.first target.now.node.state id) stop.now.first stop.now.node.state
        (image_in entries.now id)) (ids_with is_size_variable target.now.node.state)) }
{
    for (id, cell) in target.state().cells() {
        if is_size_variable(cell) {
            push_image_size(
                alloc,
                rows,
                stop,
                target.variable(*id),
                image_of(entries, *id),
                marks,
            )?;
        }
    }
    Ok(())
}

/// Adds the rows of an edge to the state of which one is an instance.
fn push_instance<P: Pairs>(
    alloc: Global,
    rows: &mut Seq<WRow>,
    stop: &Stop<P>,
    entries: &[(Id, Id)],
    target: &Stop<P>,
    marks: &mut Marks,
) -> Result<(), AllocError>
    requires keys { AreKeysRising 0 entries.now }
    requires rising { AreIdsRising 0 stop.now.node.state.cells }
    ensures { OnOk result (rows.new ≡ rows.old ++ rows_of_instance stop.now.first (sized stop.now.node.state) entries.now
        target.now.first (sized target.now.node.state)) }
{
    push_images(alloc, rows, stop, entries, target)?;
    push_image_sizes(alloc, rows, stop, entries, target, marks)
}

/// Adds the rows of the edge of a place.
pub(crate) fn push_leg<P: Pairs>(
    alloc: Global,
    rows: &mut Seq<WRow>,
    stop: &Stop<P>,
    links: &[Link],
    place: usize,
    after: &Stop<P>,
    marks: &mut Marks,
) -> Result<(), AllocError>
    requires small { (link : Link) → leg_by stop.now.node.by links.now place ≡ Some (child link) → All IsSmall link.rows }
    requires keyed { AreKeyed stop.now.node.by }
    requires here { AreIdsRising 0 stop.now.node.state.cells }
    requires there { AreIdsRising 0 after.now.node.state.cells }
    ensures { OnOk result ((leg : Leg) → leg_by stop.now.node.by links.now place ≡ Some leg
        → rows.new ≡ rows.old ++ rows_of_leg stop.now.first (sized stop.now.node.state) leg after.now.first
        (sized after.now.node.state)) }
{
    match stop.node().by() {
        By::Expand(_) => match links.get(place) {
            Some(link) => push_child(alloc, rows, stop, link, after, marks),
            None => Ok(()),
        },
        By::Instance { map, .. } => {
            push_instance(alloc, rows, stop, map.as_slice(), after, marks)
        }
        By::End | By::Todo => Ok(()),
    }
}
