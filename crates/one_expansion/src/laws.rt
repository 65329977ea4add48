//! The laws that an expansion is one. They are calls that do nothing when they run.
ghost use Rattle.one_expansion.specs.Laws.{ChildrenAreOne, AnswersAreOne};

/// A state has one list of children: each child's state and its link are determined, of every program and state.
pub fn children_are_one()
    ensures { ChildrenAreOne }
{}

/// An expansion has one answer, but for want of memory.
pub fn answers_are_one()
    ensures { AnswersAreOne }
{}
