//! The instructions of a method, each found by its place.
ghost use Rattle.std.specs.Prelude.{◌≡◌, IsTrue};
ghost use Rattle.std.specs.Option.{option_map};
ghost use Rattle.class_program.specs.Instructions.{instruction_at, is_placed, at_seen, place_of, nth_at};
ghost use Rattle.class_program.specs.Widths.{AreInWidth};

use crate::op::Op;
use list_views::Seq;
use std::marker::Model;

/// The instructions of a method, each with its place in bytes from the code's start. The places rise, and the first is 0.
/// Each number is of its field's width. It is seen as their list.
#[derive(Drop)]
pub struct Instructions {
    items: Seq<(u16, Op)>,
}

impl Model for Instructions {
    ghost use Rattle.std.specs.Prelude.{ℕ, List, IsTrue};
    ghost use Rattle.class_program.specs.declared.op.Op.{Op};

    ghost Value = { List (ℕ × Op) };

    ghost use Rattle.class_program.specs.Instructions.{is_placed};
    ghost use Rattle.class_program.specs.Widths.{AreInWidth};

    ghost view = { λ s. s.items };

    ghost invariant = { λ s. IsTrue (is_placed s.items) × AreInWidth s.items };
}

/// How many instructions stand before a place.
fn count_before(insns: &[(u16, Op)], pc: u16) -> usize
    requires { IsTrue (is_placed insns.now) }
    ensures { instruction_at insns.now pc ≡ nth_at insns.now result pc }
{
    insns.partition_point(|insn| insn.0 < pc)
}

/// The place of the instruction with so many before it.
fn place_of(insns: &[(u16, Op)], i: usize) -> Option<u16>
    ensures { result ≡ place_of insns.now i }
{
    match insns.get(i) {
        Some(insn) => Some(insn.0),
        None => None,
    }
}

/// The instruction with so many before it, where it stands at that place, and the place of the next one.
fn nth_at(insns: &[(u16, Op)], i: usize, pc: u16) -> Option<(&Op, Option<u16>)>
    ensures { option_map at_seen result ≡ nth_at insns.now i pc }
{
    let insn = insns.get(i)?;
    if insn.0 == pc {
        Some((&insn.1, place_of(insns, i + 1)))
    } else {
        None
    }
}

impl Instructions {
    /// Instructions whose places rise from 0, with numbers of their fields' widths.
    pub(crate) fn new(items: Seq<(u16, Op)>) -> Instructions
        requires placed { IsTrue (is_placed items) }
        requires widths { AreInWidth items }
        ensures { result ≡ items }
    {
        Instructions { items }
    }

    /// The instructions in order, each with its place.
    pub fn as_slice(&self) -> &[(u16, Op)]
        ensures list { result.now ≡ self.now }
        ensures placed { IsTrue (is_placed result.now) }
    {
        self.items.as_slice()
    }

    /// The instructions as a list.
    pub(crate) fn into_seq(self) -> Seq<(u16, Op)>
        ensures list { result ≡ self }
        ensures placed { IsTrue (is_placed result) }
        ensures widths { AreInWidth result }
    {
        self.items
    }

    /// The instruction at a place, and the place of the next one, which the last one does not have; None exactly where
    /// no instruction stands there. It is found by halving, and takes no memory.
    pub fn at(&self, pc: u16) -> Option<(&Op, Option<u16>)>
        ensures { option_map at_seen result ≡ instruction_at self.now pc }
    {
        let insns = self.as_slice();
        nth_at(insns, count_before(insns, pc), pc)
    }
}
