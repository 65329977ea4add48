//! Laws of forms: what follows from the definitions. These functions do nothing; their contracts are the laws.
ghost use Rattle.std.specs.Prelude.{IsTrue};
ghost use Rattle.std.specs.Option.{is_some};
ghost use Rattle.std.specs.List.{AllByRecursion};
ghost use Rattle.class_program.specs.Programs.{Program};
ghost use Rattle.class_program.specs.declared.program.Method.{Method};
ghost use Rattle.class_program.specs.declared.op.Op.{Op};
ghost use Rattle.class_program.specs.Good.{IsGood, IsGoodOp};
ghost use Rattle.op_forms.specs.Forms.{form_of};
ghost use Rattle.op_forms.specs.Widths.{FormsAreInWidth};

/// Each instruction of a closed program has a form.
pub fn good_ops_have_forms()
    ensures one { (p : Program) (m : Method) (op : Op) → IsGoodOp p m op → IsTrue (is_some (form_of op)) }
    ensures all { (p : Program) → IsGood p → AllByRecursion (λ m. AllByRecursion (λ x. IsTrue (is_some (form_of x.1))) m.insns) p.methods }
{}

/// What stands at a place of a program whose numbers are of their fields' widths pushes an int, and adds one of 16 bits.
pub fn forms_are_in_width()
    ensures { FormsAreInWidth }
{}
