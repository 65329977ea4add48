//! The first of several faults.

ghost use Rattle.std.specs.Prelude.{◌≡◌, None};
ghost use Rattle.asm_lines.specs.Firsts.{rank, is_before, with_fault, with_faults, unless};

use crate::fault::AsmFault;

/// The number of the fault's kind, and its line.
fn rank(fault: AsmFault) -> (usize, u8)
    ensures { result ≡ rank fault }
{
    match fault {
        AsmFault::Syntax { line } => (line, 1),
        AsmFault::UnknownOpcode { line } => (line, 2),
        AsmFault::UnknownLabel { line } => (line, 3),
        AsmFault::DuplicateLabel { line } => (line, 4),
        AsmFault::OutOfRange { line } => (line, 5),
        AsmFault::NoEnd { line } => (line, 6),
        AsmFault::Memory => (0, 0),
    }
}

/// Whether the first fault comes before the second: on an earlier line, or on the same line with the lesser number.
fn is_before(a: AsmFault, b: AsmFault) -> bool
    ensures { result ≡ is_before a b }
{
    let (a_line, a_kind) = rank(a);
    let (b_line, b_kind) = rank(b);
    a_line < b_line || (a_line == b_line && a_kind < b_kind)
}

/// The first fault so far.
#[derive(Clone, Copy)]
pub struct First {
    /// None so far where there is none.
    pub fault: Option<AsmFault>,
}

impl First {
    /// No fault so far.
    pub fn none() -> First
        ensures { result.fault ≡ None }
    {
        First { fault: None }
    }

    /// A fault where the line breaks a rule.
    pub fn unless(&mut self, good: bool, line: usize)
        ensures { self.new.fault ≡ with_faults self.old.fault (unless good line) }
    {
        if !good {
            self.add(AsmFault::OutOfRange { line });
        }
    }

    /// One more fault.
    pub fn add(&mut self, fault: AsmFault)
        ensures { self.new.fault ≡ with_fault self.old.fault fault }
    {
        let is_first = match self.fault {
            None => true,
            Some(first) => is_before(fault, first),
        };
        if is_first {
            self.fault = Some(fault);
        }
    }
}
