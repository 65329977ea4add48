//! Where the instructions of a code begin, as marks: the test of a place takes no search.
use crate::insn::Insn;
use std::alloc::{AllocError, Global};

/// A mark for each place where an instruction begins.
#[derive(Drop)]
pub struct Starts {
    marks: Vec<bool>,
}

impl Starts {
    ghost use Rattle.std.specs.Prelude.{◌≡◌, ◌==◌, ◌||◌, ℕ, IfOk, OnOk};
    ghost use Rattle.code_forms.specs.Marks.{marked, starts, stands};

    /// The places of the instructions.
    ///
    /// # Errors
    ///
    /// Want of memory.
    pub fn of(alloc: Global, insns: &[(u16, Insn)]) -> Result<Starts, AllocError>
        ensures { IfOk result (λ s. (place : ℕ) → marked s place ≡ stands (starts insns.now) place) }
    {
        let mut found = Starts {
            marks: Vec::new(alloc),
        };
        for insn in insns {
            found.mark(insn.0)?;
        }
        Ok(found)
    }

    fn mark(&mut self, place: u16) -> Result<(), AllocError>
        ensures { OnOk result ((q : ℕ) → marked self.new q ≡ (place == q || marked self.old q)) }
    {
        let place = usize::from(place);
        while self.marks.len() <= place {
            self.marks.push(false)?;
        }
        self.marks[place] = true;
        Ok(())
    }

    /// Whether an instruction begins at the place.
    pub fn has(&self, place: u16) -> bool
        ensures { result ≡ marked self.now place }
    {
        self.marks.get(usize::from(place)).copied().unwrap_or(false)
    }
}
