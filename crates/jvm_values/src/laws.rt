//! Laws about heaps, for the proofs of other crates. They run nothing.
ghost use Rattle.jvm_values.specs.TypedHeaps.{TypedHeapsAreClosed};

/// In a heap that has its world's types no object holds a reference past the heap's end.
pub fn typed_heaps_are_closed()
    ensures { TypedHeapsAreClosed }
{}
