//! Laws about the terms and sizes of sized ids, for the proofs of other crates. They run nothing.
ghost use Rattle.term_enc.specs.Laws.{SizeVariablesAreSized, TermsFillPatterns, SizesAreOfPatterns, SizesAreWeights};
ghost use Rattle.term_enc.specs.Laws.{EdgeSizesAreRows, InstanceSizesAreRows};

/// An id whose size is a variable is sized, and its pattern is that variable.
pub fn size_variables_are_sized()
    ensures { SizeVariablesAreSized }
{}

/// What a sized id stands for has a term, and that is exactly its pattern with each variable replaced by its value's term.
pub fn terms_fill_patterns()
    ensures { TermsFillPatterns }
{}

/// The size of that term is the size of the pattern, whatever the classes weigh; and by a list of weights it is what the term weighs.
pub fn sizes_are_of_patterns()
    ensures patterns { SizesAreOfPatterns }
    ensures weights { SizesAreWeights }
{}

/// The size of an id before an edge, where that is a variable, is the size of the pattern of the id that stands for it after the edge,
/// as a row of a path rule says it: at an edge to a child, and at one to the state of which one is an instance.
pub fn sizes_are_rows()
    ensures children { EdgeSizesAreRows }
    ensures instances { InstanceSizesAreRows }
{}
