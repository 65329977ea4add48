//! The forms of rank steps over the inputs.
ghost use Rattle.std.specs.Prelude.{◌≡◌, ◌≤◌, ◌++◌, ℕ, Bool, None, Some, IfOk, MatchOption, OnOk, length};
ghost use Rattle.abs_cells.specs.AbstractStates.{AbstractState};
ghost use Rattle.descent.specs.Rankings.{form_at};
ghost use Rattle.abs_cells.specs.Sound.{IsWellFormed};
ghost use Rattle.bound_check.specs.Parts.{rank_at, untaken_from};
ghost use Rattle.bound_check.specs.Entries.{whole_forms};
ghost use Rattle.bound_check.specs.Bounds.{root_form, entry_of, term_of, terms_from};
ghost use Rattle.bound_check.specs.inner.Forms.{has_int, is_sized, kept_ints, kept_sizes, weights_of, form_over};

use crate::bound::RootForm;
use crate::entries::rank_at;
use crate::parts::{added, count_of};
use abs_cells::{AbsState, Id, Pairs};
use abs_reach::{Marks, cell_of};
use bound_text::BoundEntry;
use descent::{CutForm, ProofStep, RankStep};
use list_views::Seq;
use std::alloc::{AllocError, Global};
use term_enc::encode;

/// Whether an id is an int of a state.
fn has_int<P: Pairs>(state: &AbsState<P>, id: Id) -> bool
    requires good { IsWellFormed state.now }
    ensures { result ≡ has_int state.now id }
{
    match cell_of(state.cells(), id) {
        Some(cell) => cell.is_int(),
        None => false,
    }
}

/// Whether an id is sized in a state.
#[tactic(auto, using(crate::proofs::Sizes::encoded_sized, crate::proofs::Sizes::int_no_size, crate::proofs::Sizes::none_no_size))]
fn is_sized<P: Pairs>(
    alloc: Global,
    state: &AbsState<P>,
    id: Id,
    marks: &mut Marks,
) -> Result<bool, AllocError>
    requires good { IsWellFormed state.now }
    ensures { IfOk result (λ sized. sized ≡ is_sized state.now id) }
{
    match cell_of(state.cells(), id) {
        Some(cell) => {
            if cell.is_int() {
                Ok(false)
            } else {
                let pattern = encode(alloc, state, id, marks)?;
                Ok(pattern.is_some())
            }
        }
        None => Ok(false),
    }
}

/// The multiples of ids that are ints of a state.
fn kept_ints<P: Pairs>(
    alloc: Global,
    state: &AbsState<P>,
    entries: &[(Id, i64)],
) -> Result<Seq<(Id, i64)>, AllocError>
    requires good { IsWellFormed state.now }
    ensures { IfOk result (λ kept. kept ≡ kept_ints state.now entries.now) }
{
    let mut kept = Seq::new(alloc);
    for entry in entries {
        if has_int(state, entry.0) {
            kept.push(*entry)?;
        }
    }
    Ok(kept)
}

/// The multiples of ids that are sized in a state.
fn kept_sizes<P: Pairs>(
    alloc: Global,
    state: &AbsState<P>,
    entries: &[(Id, i64)],
    marks: &mut Marks,
) -> Result<Seq<(Id, i64)>, AllocError>
    requires good { IsWellFormed state.now }
    ensures { IfOk result (λ kept. kept ≡ kept_sizes (is_sized state.now) entries.now) }
{
    let mut kept = Seq::new(alloc);
    for entry in entries {
        if is_sized(alloc, state, entry.0, marks)? {
            kept.push(*entry)?;
        }
    }
    Ok(kept)
}

/// The form of a cut, the first that is listed.
fn form_at(forms: &[CutForm], cut: u32) -> Option<&CutForm>
    ensures { MatchOption result (form_at forms.now cut ≡ None) (λ form. form_at forms.now cut ≡ Some form.now) }
{
    for form in forms {
        if form.cut == cut {
            return Some(form);
        }
    }
    None
}

/// A step's whole form at node 0.
#[tactic(auto, using(crate::proofs::Joined::own_form, crate::proofs::Joined::added_form, crate::proofs::Joined::no_form))]
fn first_form<'a>(step: &'a RankStep, entry: &'a BoundEntry) -> Option<&'a CutForm>
    ensures { MatchOption result (form_at (whole_forms step.now entry.now) 0 ≡ None)
        (λ form. form_at (whole_forms step.now entry.now) 0 ≡ Some form.now) }
{
    match form_at(step.forms.as_slice(), 0) {
        Some(form) => Some(form),
        None => form_at(entry.forms.as_slice(), 0),
    }
}

/// The weights by which a step counts sizes.
fn weights_of(alloc: Global, step: &RankStep) -> Result<Seq<(u32, i64)>, AllocError>
    ensures { IfOk result (λ weights. weights ≡ weights_of step.now) }
{
    if step.size {
        Seq::from_slice(alloc, step.weights.as_slice())
    } else {
        Ok(Seq::new(alloc))
    }
}

/// A form over the ints and sizes of a state.
fn some_form<P: Pairs>(
    alloc: Global,
    root: &AbsState<P>,
    form: &CutForm,
    step: &RankStep,
    marks: &mut Marks,
) -> Result<RootForm, AllocError>
    requires good { IsWellFormed root.now }
    ensures { IfOk result (λ over. over ≡ form_over root.now (is_sized root.now) (Some form.now) step.now) }
{
    let ints = kept_ints(alloc, root, form.ints.as_slice())?;
    let sizes = kept_sizes(alloc, root, form.sizes.as_slice(), marks)?;
    let weights = weights_of(alloc, step)?;
    Ok(RootForm {
        constant: form.constant,
        ints,
        sizes,
        weights,
    })
}

/// The form that is 0.
fn no_form(alloc: Global, step: &RankStep) -> Result<RootForm, AllocError>
    ensures { IfOk result (λ over. (root : AbstractState) (sized : ℕ → Bool) → over ≡ form_over root sized None step.now) }
{
    let weights = weights_of(alloc, step)?;
    Ok(RootForm {
        constant: 0,
        ints: Seq::new(alloc),
        sizes: Seq::new(alloc),
        weights,
    })
}

/// A step's whole form at node 0, without the multiples of ids that are no ints or are not sized there.
fn root_form<P: Pairs>(
    alloc: Global,
    root: &AbsState<P>,
    step: &RankStep,
    entry: &BoundEntry,
    marks: &mut Marks,
) -> Result<RootForm, AllocError>
    requires good { IsWellFormed root.now }
    ensures { IfOk result (λ form. form ≡ root_form root.now (is_sized root.now) step.now entry.now) }
{
    match first_form(step, entry) {
        Some(form) => some_form(alloc, root, form, step, marks),
        None => no_form(alloc, step),
    }
}

/// The entry of a step, the first that names it.
fn entry_of(entries: &[BoundEntry], step: u32) -> Option<&BoundEntry>
    ensures { MatchOption result (entry_of step entries.now ≡ None) (λ entry. entry_of step entries.now ≡ Some entry.now) }
{
    for entry in entries {
        if entry.step == step {
            return Some(entry);
        }
    }
    None
}

/// Adds the term of a step, if it is a rank step with an entry.
fn put_term<P: Pairs>(
    alloc: Global,
    root: &AbsState<P>,
    steps: &[ProofStep],
    counts: &[u64],
    entries: &[BoundEntry],
    n: u32,
    terms: &mut Seq<(u64, RootForm)>,
    marks: &mut Marks,
) -> Result<(), AllocError>
    requires good { IsWellFormed root.now }
    requires counts { counts.now ≡ untaken_from 0 steps.now }
    ensures { OnOk result (terms.new ≡ terms.old ++ term_of root.now (is_sized root.now) steps.now n (rank_at steps.now n)
        (entry_of n entries.now)) }
{
    let Some(step) = rank_at(steps, n) else {
        return Ok(());
    };
    let Some(entry) = entry_of(entries, n) else {
        return Ok(());
    };
    let number = added(1, count_of(counts, n))?;
    let form = root_form(alloc, root, step, entry, marks)?;
    terms.push((number, form))?;
    Ok(())
}

/// The terms of all rank steps, where `counts` has for each step how many parts no step takes.
///
/// # Errors
///
/// Want of memory.
pub(crate) fn terms<P: Pairs>(
    alloc: Global,
    root: &AbsState<P>,
    steps: &[ProofStep],
    counts: &[u64],
    entries: &[BoundEntry],
) -> Result<Seq<(u64, RootForm)>, AllocError>
    requires good { IsWellFormed root.now }
    requires few { length steps.now ≤ 4294967295 }
    requires counts { counts.now ≡ untaken_from 0 steps.now }
    ensures { IfOk result (λ terms. terms ≡ terms_from root.now (is_sized root.now) steps.now entries.now 0 steps.now) }
{
    let mut marks = Marks::new(alloc)?;
    let mut terms = Seq::new(alloc);
    for n in 0..steps.len() as u32 {
        put_term(
            alloc, root, steps, counts, entries, n, &mut terms, &mut marks,
        )?;
    }
    Ok(terms)
}
