//! Laws about widenings, for the proofs of other crates. They run nothing.
ghost use Rattle.abs_widen.specs.Laws.{WideningsAreFew, WideningsAreSound, WideningsAreWider};

/// Both states are instances of the one's widening by the other.
pub fn widenings_are_wider()
    ensures { WideningsAreWider }
{}

/// A widening of two sound states is sound.
pub fn widenings_are_sound()
    ensures { WideningsAreSound }
{}

/// Where there is a widening there are not too many pairs: `TooManyIds` is the answer exactly where there are.
pub fn widenings_are_few()
    ensures { WideningsAreFew }
{}
