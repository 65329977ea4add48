//! Laws about descriptions, for the proofs of other crates and for readers. They run nothing.
ghost use Rattle.desc_steps.specs.Laws.{NamesOne, SomeStateFits};

/// A description of a program that has typings fits some state exactly where each of its inputs can be given: then what is said of its
/// inputs is said of something.
pub fn some_state_fits()
    ensures { SomeStateFits }
{}

/// Class files and a description name at most one program, and say at most one thing of its inputs: so neither is chosen by `AllEnd`.
pub fn names_one()
    ensures { NamesOne }
{}
