//! Which child of a split by class is the first that has too many ids.
ghost use Rattle.std.specs.Prelude.{◌≡◌, ◌<◌, ◌≤◌, ◌+◌, nat_lt, if◌then◌else◌, [], ◌∷◌, length, IfOk, Ok, Err};
ghost use Rattle.jvm_values.specs.TypedHeaps.{world_types};
ghost use Rattle.abs_cells.specs.Limits.{most_ids};
ghost use Rattle.abs_heap.specs.Refining.{element_below, instances_below, listed, cases_below};
ghost use Rattle.abs_heap.specs.inner.Splitting.{instances_among, numbers_among, crowds, first_crowd};

use crate::below::{element_below, is_instance_below, is_numbers_below};
use crate::children::has_room;
use abs_cells::{AbsState, Pairs};
use jvm_values::{Kind, Ty, Types};

/// How many cases have passed with one more, or the number of this one, if its child, which has so many more ids than the
/// state, has too many.
fn past_case<P: Pairs>(state: &AbsState<P>, more: usize, passed: usize) -> Result<usize, usize>
    requires { passed < 8589934592 }
    ensures { result ≡ (if nat_lt most_ids (length state.now.cells + more) then Err passed else Ok (passed + 1)) }
{
    if has_room(state, more) {
        Ok(passed + 1)
    } else {
        Err(passed)
    }
}

/// The same with the case of a class, if an object below a type may be an instance of it.
fn past_instance<T: Types, P: Pairs>(
    types: &T,
    state: &AbsState<P>,
    bound: Ty,
    class: u32,
    passed: usize,
) -> Result<usize, usize>
    requires class { class < T.classes types.now }
    requires low { passed < 8589934592 }
    ensures { result ≡ first_crowd
        (crowds (world_types (T.sub types.now) (T.erase types.now) (T.classes types.now) (T.fields types.now)
        (T.can_be_made types.now)) state.now)
        (instances_among (world_types (T.sub types.now) (T.erase types.now) (T.classes types.now) (T.fields types.now)
        (T.can_be_made types.now)) bound (class ∷ [])) passed }
{
    if is_instance_below(types, bound, class) {
        past_case(state, types.fields(class).len(), passed)
    } else {
        Ok(passed)
    }
}

/// How many cases of classes there are below a type, or the number of the first whose child has too many ids.
fn past_instances<T: Types, P: Pairs>(
    types: &T,
    state: &AbsState<P>,
    bound: Ty,
) -> Result<usize, usize>
    ensures is { result ≡ first_crowd
        (crowds (world_types (T.sub types.now) (T.erase types.now) (T.classes types.now) (T.fields types.now)
        (T.can_be_made types.now)) state.now)
        (instances_below (world_types (T.sub types.now) (T.erase types.now) (T.classes types.now) (T.fields types.now)
        (T.can_be_made types.now)) bound) 0 }
    ensures low { IfOk result (λ passed. passed < 4294967296) }
{
    let mut passed = 0;
    let mut class = 0;
    while class < types.classes() {
        passed = past_instance(types, state, bound, class, passed)?;
        class += 1;
    }
    Ok(passed)
}

/// How many cases have passed with that of the arrays of a kind, if an object below a type may be one, or its number.
fn past_numbers<T: Types, P: Pairs>(
    types: &T,
    state: &AbsState<P>,
    bound: Ty,
    kind: Kind,
    passed: usize,
) -> Result<usize, usize>
    requires { passed < 8589934592 }
    ensures { result ≡ first_crowd
        (crowds (world_types (T.sub types.now) (T.erase types.now) (T.classes types.now) (T.fields types.now)
        (T.can_be_made types.now)) state.now)
        (numbers_among (world_types (T.sub types.now) (T.erase types.now) (T.classes types.now) (T.fields types.now)
        (T.can_be_made types.now)) bound (kind ∷ [])) passed }
{
    if is_numbers_below(types, bound, kind) {
        past_case(state, 1, passed)
    } else {
        Ok(passed)
    }
}

/// The same with the arrays of all of some kinds, in order, or the number of the first whose child has too many ids.
fn past_all_numbers<T: Types, P: Pairs>(
    types: &T,
    state: &AbsState<P>,
    bound: Ty,
    kinds: &[Kind],
    passed: usize,
) -> Result<usize, usize>
    requires { passed + length kinds.now < 8589934592 }
    ensures is { result ≡ first_crowd
        (crowds (world_types (T.sub types.now) (T.erase types.now) (T.classes types.now) (T.fields types.now)
        (T.can_be_made types.now)) state.now)
        (numbers_among (world_types (T.sub types.now) (T.erase types.now) (T.classes types.now) (T.fields types.now)
        (T.can_be_made types.now)) bound kinds.now) passed }
    ensures low { IfOk result (λ all. all ≤ passed + length kinds.now) }
{
    let mut all = passed;
    for kind in kinds {
        all = past_numbers(types, state, bound, *kind, all)?;
    }
    Ok(all)
}

/// The same with the arrays of references, if an object below a type may be one.
fn past_references<T: Types, P: Pairs>(
    types: &T,
    state: &AbsState<P>,
    bound: Ty,
    passed: usize,
) -> Result<usize, usize>
    requires { passed < 8589934592 }
    ensures { result ≡ first_crowd
        (crowds (world_types (T.sub types.now) (T.erase types.now) (T.classes types.now) (T.fields types.now)
        (T.can_be_made types.now)) state.now)
        (listed (element_below (world_types (T.sub types.now) (T.erase types.now) (T.classes types.now) (T.fields types.now)
        (T.can_be_made types.now)) bound)) passed }
{
    if element_below(types, bound).is_some() {
        past_case(state, 1, passed)
    } else {
        Ok(passed)
    }
}

/// How many cases there are below a type, or the number of the first whose child has too many ids.
pub(crate) fn past_cases<T: Types, P: Pairs>(
    types: &T,
    state: &AbsState<P>,
    bound: Ty,
) -> Result<usize, usize>
    ensures { result ≡ first_crowd
        (crowds (world_types (T.sub types.now) (T.erase types.now) (T.classes types.now) (T.fields types.now)
        (T.can_be_made types.now)) state.now)
        (cases_below (world_types (T.sub types.now) (T.erase types.now) (T.classes types.now) (T.fields types.now)
        (T.can_be_made types.now)) bound) 0 }
{
    let kinds = [
        Kind::Boolean,
        Kind::Char,
        Kind::Byte,
        Kind::Short,
        Kind::Int,
    ];
    let instances = past_instances(types, state, bound)?;
    let numbers = past_all_numbers(types, state, bound, &kinds, instances)?;
    past_references(types, state, bound, numbers)
}
