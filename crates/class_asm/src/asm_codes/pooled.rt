//! The lines of a method with what they name in the pool.

ghost use Rattle.std.specs.Prelude.{◌≡◌};
ghost use Rattle.class_asm.specs.asm_codes.Pooled.{pooled_line};

use asm_lines::CodeLine;
use std::marker::Model;

/// What a line names in the pool.
#[derive(Clone, Copy)]
pub struct PoolOperand {
    /// The index of the entry that the line names; 0 where it names none.
    pub entry: u16,
    /// For `invokeinterface` the words of the receiver and the arguments; else 0.
    pub words: u8,
}

/// A line of a method with what it names in the pool. It is seen as the two.
#[derive(Drop)]
pub struct PooledLine<'a> {
    code: &'a CodeLine,
    need: Option<PoolOperand>,
}

impl<'a> Model for PooledLine<'a> {
    ghost use Rattle.class_asm.specs.asm_codes.Pooled.{Pooled, pooled_line};

    ghost Value = { Pooled };

    ghost view = { λ x. pooled_line x.code.now x.need };
}

impl<'a> PooledLine<'a> {
    /// The line with what it names; none where that breaks a rule, or has no room in the pool.
    pub fn new(code: &'a CodeLine, need: Option<PoolOperand>) -> PooledLine<'a>
        ensures { result ≡ pooled_line code.now need }
    {
        PooledLine { code, need }
    }

    /// The line.
    pub(crate) fn code(&self) -> &'a CodeLine
        ensures { result.now ≡ self.now.code }
    {
        self.code
    }

    /// What it names.
    pub(crate) fn need(&self) -> Option<PoolOperand>
        ensures { result ≡ self.now.need }
    {
        self.need
    }
}
