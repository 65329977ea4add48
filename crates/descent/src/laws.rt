//! Laws about forms, for the proofs of other crates. They run nothing.
ghost use Rattle.descent.specs.Laws.{RankingsKeepLaws};
ghost use Rattle.descent.specs.Steps.{ClosedProofsEnd};

/// Where nothing is missing for a weak rule its form never rises, for a strict one it falls by at least 1, for a bounded one
/// it starts at 0 or above; and from one turn of a chain to the next the form keeps its value.
pub fn rankings_keep_laws()
    ensures { RankingsKeepLaws }
{}

/// Where a proof is closed, every chain of the rules ends: every turn is accessible under "comes right after".
pub fn closed_proofs_end()
    ensures { ClosedProofsEnd }
{}
