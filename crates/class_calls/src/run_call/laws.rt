//! Laws of the answer. These functions do nothing; their contracts are the laws.
ghost use Rattle.class_calls.specs.run_call.Laws.{AnswersAreOne};

/// Want of memory aside, there is one answer.
pub fn answers_are_one()
    ensures { AnswersAreOne }
{}
