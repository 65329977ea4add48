//! Laws of programs: what follows from the definitions. These functions do nothing; their contracts are the laws.
ghost use Rattle.std.specs.Prelude.{◌≡◌, ℕ, Option, Some};
ghost use Rattle.class_program.specs.declared.op.Op.{Op};
ghost use Rattle.class_program.specs.Programs.{Program, insn_at};
ghost use Rattle.class_program.specs.Good.{IsGood, IsGoodAt};

/// What stands at a place of a closed program is a good instruction, and where it has a next place, an instruction of the
/// same method stands there.
pub fn closed_instructions_are_good()
    ensures { (p : Program) → IsGood p → (number pc : ℕ) (op : Op) (next : Option ℕ)
        → insn_at p.methods number pc ≡ Some (op, next) → IsGoodAt p number pc op next }
{}
