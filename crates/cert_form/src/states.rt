//! Abstract states.
ghost use Rattle.std.specs.Prelude.{◌≡◌, ◌<◌, codes, IfOk};
ghost use Rattle.abs_cells.specs.PairLists.{IsRising, is_before};
ghost use Rattle.json_view.specs.Located.{located};
ghost use Rattle.json_view.specs.Reading.{item_count};
ghost use Rattle.cert_form.specs.Answers.{Says};
ghost use Rattle.cert_form.specs.Fields.{nth, of_length, field, maybe_id};
ghost use Rattle.cert_form.specs.States.{is_next_pair, two_ids, ordered_pair, locals_of, frame_parts, frame_of, cells_of, frames_of};
ghost use Rattle.cert_form.specs.States.{pairs_of, state_of};

use crate::cells::nth_ids;
use crate::fault::CertFault;
use crate::lists::{Said, list};
use crate::names::ClassNames;
use crate::numbers::{maybe_id, nth_id, nth_number, nth_place, ordered};
use crate::values::{items, only, past, wrong};
use crate::{numbers, values};
use abs_cells::{AbsFrame, AbsState, Cell, Id, MOST_IDS, Pairs};
use json_view::View;
use list_views::Seq;
use std::alloc::{AllocError, Global};
use std::marker::Model;

/// Lists whose pairs rise.
pub(crate) struct Rising;

/// Whether the first pair stands before the second one.
fn is_before(p: &(Id, Id), q: &(Id, Id)) -> bool
    ensures { result ≡ is_before p.now q.now }
{
    if p.0 == q.0 { p.1 < q.1 } else { p.0 < q.0 }
}

/// Whether a pair may come behind these.
fn is_next_pair(front: &[(Id, Id)], pair: &(Id, Id)) -> bool
    ensures { result ≡ is_next_pair front.now pair.now }
{
    match front.get(front.len().saturating_sub(1)) {
        Some(last) => is_before(last, pair),
        None => true,
    }
}

/// Two ids.
#[tactic(auto, unfolding(crate::specs::States::two_ids))]
pub(crate) fn two_ids(alloc: Global, view: &View<'_, '_>) -> Result<(Id, Id), CertFault>
    requires { item_count (located view.now).value ≡ 2 }
    ensures { Says result (two_ids (located view.now)) }
{
    let a = nth_id(alloc, view, 0)?;
    let b = nth_id(alloc, view, 1)?;
    Ok((a, b))
}

/// A pair behind these.
#[tactic(auto, unfolding(crate::specs::States::ordered_pair))]
fn ordered_pair(
    alloc: Global,
    front: &[(Id, Id)],
    view: &View<'_, '_>,
) -> Result<(Id, Id), CertFault>
    requires { item_count (located view.now).value ≡ 2 }
    ensures { Says result (ordered_pair front.now (located view.now)) }
{
    let pair = two_ids(alloc, view)?;
    ordered(alloc, view, pair.0 < pair.1 && is_next_pair(front, &pair))?;
    Ok(pair)
}

impl Said<Rising> for (Id, Id) {
    ghost use Rattle.cert_form.specs.States.{pair_in};

    ghost reader = { λ _. pair_in };

    #[tactic(auto, unfolding(crate::specs::States::pair_in, crate::specs::Fields::of_length))]
    fn read(
        alloc: Global,
        _: &Rising,
        front: &[(Id, Id)],
        view: &View<'_, '_>,
    ) -> Result<(Id, Id), CertFault> {
        if items(alloc, view)? == 2 {
            ordered_pair(alloc, front, view)
        } else {
            wrong(alloc, view)
        }
    }
}

/// The ids of local variables.
#[tactic(auto, unfolding(crate::specs::States::locals_of, crate::specs::Fields::nth))]
fn nth_locals(alloc: Global, view: &View<'_, '_>, n: usize) -> Result<Seq<Option<Id>>, CertFault>
    requires { n < item_count (located view.now).value }
    ensures { Says result (nth n locals_of (located view.now)) }
{
    list(alloc, &(), &view.item(n))
}

/// The parts of a frame.
#[tactic(auto, unfolding(crate::specs::States::frame_parts))]
fn frame_parts(alloc: Global, view: &View<'_, '_>) -> Result<AbsFrame, CertFault>
    requires { item_count (located view.now).value ≡ 4 }
    ensures { Says result (frame_parts (located view.now)) }
{
    let method = nth_number(alloc, view, 0)?;
    let pc = nth_place(alloc, view, 1)?;
    let locals = nth_locals(alloc, view, 2)?;
    let stack = nth_ids(alloc, view, 3)?;
    Ok(AbsFrame::new(method, pc, locals, stack))
}

impl Said<()> for AbsFrame {
    ghost use Rattle.cert_form.specs.States.{frame_of};

    ghost reader = { λ _ _. frame_of };

    #[tactic(auto, unfolding(crate::specs::States::frame_of, crate::specs::Fields::of_length))]
    fn read(
        alloc: Global,
        _: &(),
        _: &[AbsFrame],
        view: &View<'_, '_>,
    ) -> Result<AbsFrame, CertFault> {
        if items(alloc, view)? == 4 {
            frame_parts(alloc, view)
        } else {
            wrong(alloc, view)
        }
    }
}

/// The cells of a state.
#[tactic(auto, unfolding(crate::specs::States::cells_of, crate::specs::Fields::at_most))]
fn cells(
    alloc: Global,
    names: &ClassNames,
    view: &View<'_, '_>,
) -> Result<Seq<(Id, Cell)>, CertFault>
    ensures { Says result (cells_of names.now (located view.now)) }
{
    if items(alloc, view)? > MOST_IDS {
        past(alloc, view)
    } else {
        list(alloc, names, view)
    }
}

/// The cells of the field `cells`.
#[tactic(auto, unfolding(crate::specs::Fields::field))]
fn cells_field(
    alloc: Global,
    names: &ClassNames,
    view: &View<'_, '_>,
) -> Result<Seq<(Id, Cell)>, CertFault>
    ensures { Says result (field (codes "cells") (cells_of names.now) (located view.now)) }
{
    let field = values::field(alloc, view, "cells")?;
    cells(alloc, names, &field)
}

/// The frames of the field `frames`.
#[tactic(auto, unfolding(crate::specs::Fields::field, crate::specs::States::frames_of))]
fn frames_field(alloc: Global, view: &View<'_, '_>) -> Result<Seq<AbsFrame>, CertFault>
    ensures { Says result (field (codes "frames") frames_of (located view.now)) }
{
    let field = values::field(alloc, view, "frames")?;
    list(alloc, &(), &field)
}

/// The pairs of a field.
#[tactic(auto, unfolding(crate::specs::Fields::field, crate::specs::States::pairs_of))]
fn listed_field(alloc: Global, view: &View<'_, '_>, name: &str) -> Result<Seq<(Id, Id)>, CertFault>
    ensures said { Says result (field name.now pairs_of (located view.now)) }
    ensures rising { IfOk result IsRising }
{
    let field = values::field(alloc, view, name)?;
    list(alloc, &Rising, &field)
}

/// The id of the field `throw`.
#[tactic(auto, unfolding(crate::specs::Fields::field))]
fn throw_field(alloc: Global, view: &View<'_, '_>) -> Result<Option<Id>, CertFault>
    ensures { Says result (field (codes "throw") maybe_id (located view.now)) }
{
    let field = values::field(alloc, view, "throw")?;
    maybe_id(alloc, &field)
}

/// The parts of a state, its pairs as lists. It is seen as an abstract state.
#[derive(Drop)]
pub(crate) struct StateParts {
    frames: Seq<AbsFrame>,
    throwing: Option<Id>,
    cells: Seq<(Id, Cell)>,
    eq: Seq<(Id, Id)>,
    share: Seq<(Id, Id)>,
}

impl Model for StateParts {
    ghost use Rattle.std.specs.Prelude.{reverse};
    ghost use Rattle.abs_cells.specs.AbstractStates.{AbstractState};
    ghost use Rattle.abs_cells.specs.PairLists.{IsRising};

    ghost Value = { AbstractState };

    ghost view = { λ s. record { frames = reverse s.frames; throwing = s.throwing; cells = s.cells; eq = s.eq; share = s.share } };

    ghost invariant = { λ s. IsRising s.eq × IsRising s.share };
}

impl StateParts {
    /// The state of the parts.
    pub(crate) fn into_state<P: Pairs>(self, alloc: Global) -> Result<AbsState<P>, AllocError>
        ensures { IfOk result (λ state. state ≡ self) }
    {
        let eq = pairs(alloc, self.eq.as_slice())?;
        let share = pairs(alloc, self.share.as_slice())?;
        Ok(AbsState::new(self.frames, self.throwing, self.cells, eq, share))
    }
}

/// The set of rising pairs.
fn pairs<P: Pairs>(alloc: Global, rising: &[(Id, Id)]) -> Result<P, AllocError>
    requires { IsRising rising.now }
    ensures { IfOk result (λ set. P.pairs set ≡ rising.now) }
{
    let mut set = P::empty(alloc);
    for pair in rising {
        set.add(pair.0, pair.1)?;
    }
    Ok(set)
}

/// The parts of a state.
#[tactic(auto, unfolding(crate::specs::States::state_of, crate::specs::Fields::only))]
pub(crate) fn state(
    alloc: Global,
    names: &ClassNames,
    view: &View<'_, '_>,
) -> Result<StateParts, CertFault>
    ensures { Says result (state_of names.now (located view.now)) }
{
    only(alloc, view, "cells eq frames share throw")?;
    let cells = cells_field(alloc, names, view)?;
    let eq = listed_field(alloc, view, "eq")?;
    let frames = frames_field(alloc, view)?;
    let share = listed_field(alloc, view, "share")?;
    let throwing = throw_field(alloc, view)?;
    Ok(StateParts {
        frames,
        throwing,
        cells,
        eq,
        share,
    })
}
