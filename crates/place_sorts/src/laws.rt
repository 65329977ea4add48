//! Laws of the cases of abstract ints. They are calls that do nothing when they run.
ghost use Rattle.place_sorts.specs.Laws.{BranchesStayInts, ResultsStayInts};

/// The cases of an operator on two intervals of ints have intervals of ints alone.
pub fn results_stay_ints()
    ensures { ResultsStayInts }
{}

/// So have the cases of a comparison, and the case of a relation.
pub fn branches_stay_ints()
    ensures { BranchesStayInts }
{}
