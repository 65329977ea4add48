//! The least of ids.
ghost use Rattle.std.specs.Prelude.{◌≡◌};
ghost use Rattle.abs_match.specs.inner.Matching.{lower_of};

use abs_cells::Id;

/// The lower of two ids, where there are any.
pub(crate) fn lower_of(a: Option<Id>, b: Option<Id>) -> Option<Id>
    ensures { result ≡ lower_of a b }
{
    match (a, b) {
        (None, other) => other,
        (Some(id), None) => Some(id),
        (Some(one), Some(other)) => { if one < other { Some(one) } else { Some(other) } }
    }
}
