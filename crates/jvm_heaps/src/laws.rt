//! Laws about heaps, for the proofs of other crates. They run nothing.
ghost use Rattle.jvm_heaps.specs.AcyclicTerms.{AcyclicHaveTerms, TypedHaveTerms};

/// A reference or null whose region has no cycle has a term, where no reference leads past the heap's end; so has each
/// such value of a typed heap.
pub fn acyclic_have_terms()
    ensures closed { AcyclicHaveTerms }
    ensures typed { TypedHaveTerms }
{}
