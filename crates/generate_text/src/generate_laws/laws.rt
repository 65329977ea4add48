//! A law about the listings that are made, for the proofs of other crates and for readers. It runs nothing.
ghost use Rattle.generate_text.specs.generate_laws.Laws.{ListingsAssemble};

/// The listings of 1 to 100 blocks say classes.
pub fn listings_assemble()
    ensures { ListingsAssemble }
{}
