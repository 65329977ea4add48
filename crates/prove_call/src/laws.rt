//! The law of refusals, for the proofs of other crates and for readers. It runs nothing.
ghost use Rattle.prove_call.specs.Laws.{RefusalsAreOne};

/// Want of memory aside, a description and class files are refused with one place and fault, or never.
pub fn refusals_are_one()
    ensures { RefusalsAreOne }
{}
