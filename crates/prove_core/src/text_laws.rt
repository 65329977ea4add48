//! That what is found is within the limits of certificates, so that its text is read again. The laws are calls that do nothing when they
//! run.
ghost use Rattle.prove_core.specs.TextLaws.{ProofsAreReadable, DisciplinedGraphsHaveFewIds, GoodGraphsAreReadable};

/// A closed proof without idle steps is within the limits of the text.
pub fn proofs_are_readable()
    ensures { ProofsAreReadable }
{}

/// No state of a graph that grew has more than 512 ids.
pub fn disciplined_graphs_have_few_ids()
    ensures { DisciplinedGraphsHaveFewIds }
{}

/// A good graph in memory is within the limits of the text, where no state has more than 512 ids.
pub fn good_graphs_are_readable()
    ensures { GoodGraphsAreReadable }
{}
