//! How the locals of a loop change along a path, as its instructions say it: by adding constants, in sums of one local and a constant.

use crate::survey_why::cuts::{depth, running};
use crate::survey_why::ways::Way;
use abs_cells::{AbsFrame, PackedPairs};
use class_program::{Op, Program};
use code_forms::Insn;
use std::alloc::{AllocError, Global};
use term_graph::Graph;

/// What is known of an int: that it is what a local was at the start of the path, or 0, and so much more; else nothing.
#[derive(Clone, Copy, PartialEq, Eq)]
pub(crate) enum Known {
    /// A local's first value, and so much more.
    Local(u16, i64),
    /// A number.
    Number(i64),
    /// Nothing.
    Nothing,
}

/// A local, and what it holds; locals that aren't listed hold their first values.
#[derive(Clone, Copy)]
pub(crate) struct Change {
    /// The local's number.
    pub(crate) local: u16,
    /// What it holds at the end of the path.
    pub(crate) known: Known,
}

/// The ints of a frame while a path is gone.
#[derive(Drop)]
struct Ints {
    changes: Vec<Change>,
    stack: Vec<Known>,
}

/// What an instruction does with ints, as far as that is followed.
#[derive(Clone, Copy)]
enum Act {
    /// It pushes a number.
    Push(i64),
    /// It pushes a local's value.
    Load(u16),
    /// It pops a value into a local.
    Store(u16),
    /// It adds a number to a local.
    Add(u16, i64),
    /// It adds the two on top.
    Sum,
    /// It subtracts the one on top from the one below.
    Difference,
    /// Something else.
    Other,
}

/// A known value and so much more.
fn more(known: Known, by: i64) -> Known {
    match known {
        Known::Local(local, plus) => Known::Local(local, plus.saturating_add(by)),
        Known::Number(number) => Known::Number(number.saturating_add(by)),
        Known::Nothing => Known::Nothing,
    }
}

/// The sum of two values.
fn sum(a: Known, b: Known) -> Known {
    match (a, b) {
        (Known::Number(number), other) => more(other, number),
        (other, Known::Number(number)) => more(other, number),
        _ => Known::Nothing,
    }
}

/// The first value without the second.
fn difference(a: Known, b: Known) -> Known {
    match b {
        Known::Number(number) => more(a, number.saturating_neg()),
        _ => Known::Nothing,
    }
}

/// A constant's or a local's push.
fn pushes(insn: &Insn) -> Option<Act> {
    match insn {
        Insn::IconstM1 => Some(Act::Push(-1)),
        Insn::Iconst0 => Some(Act::Push(0)),
        Insn::Iconst1 => Some(Act::Push(1)),
        Insn::Iconst2 => Some(Act::Push(2)),
        Insn::Iconst3 => Some(Act::Push(3)),
        Insn::Iconst4 => Some(Act::Push(4)),
        Insn::Iconst5 => Some(Act::Push(5)),
        Insn::Bipush(number) => Some(Act::Push(i64::from(*number))),
        Insn::Sipush(number) => Some(Act::Push(i64::from(*number))),
        Insn::Iload(local) => Some(Act::Load(u16::from(*local))),
        Insn::Iload0 => Some(Act::Load(0)),
        Insn::Iload1 => Some(Act::Load(1)),
        Insn::Iload2 => Some(Act::Load(2)),
        Insn::Iload3 => Some(Act::Load(3)),
        Insn::WideIload(local) => Some(Act::Load(*local)),
        _ => None,
    }
}

/// What an instruction that pushes nothing new does.
fn changes(insn: &Insn) -> Act {
    match insn {
        Insn::Istore(local) => Act::Store(u16::from(*local)),
        Insn::Istore0 => Act::Store(0),
        Insn::Istore1 => Act::Store(1),
        Insn::Istore2 => Act::Store(2),
        Insn::Istore3 => Act::Store(3),
        Insn::WideIstore(local) => Act::Store(*local),
        Insn::Iinc(local, by) => Act::Add(u16::from(*local), i64::from(*by)),
        Insn::WideIinc(local, by) => Act::Add(*local, i64::from(*by)),
        Insn::Iadd => Act::Sum,
        Insn::Isub => Act::Difference,
        _ => Act::Other,
    }
}

/// What an instruction does.
fn act_of(op: &Op) -> Act {
    match op {
        Op::Plain(insn) => match pushes(insn) {
            Some(act) => act,
            None => changes(insn),
        },
        Op::Constant(number) => Act::Push(i64::from(*number)),
        _ => Act::Other,
    }
}

impl Ints {
    /// What a local holds.
    fn held(&self, local: u16) -> Known {
        for change in self.changes.as_slice() {
            if change.local == local {
                return change.known;
            }
        }
        Known::Local(local, 0)
    }

    /// A local holds another value.
    fn hold(&mut self, local: u16, known: Known) -> Result<(), AllocError> {
        for n in 0..self.changes.len() {
            if self.changes[n].local == local {
                self.changes[n] = Change { local, known };
                return Ok(());
            }
        }
        self.changes.push(Change { local, known })?;
        Ok(())
    }

    /// The value on top, which is taken.
    fn popped(&mut self) -> Known {
        match self.stack.pop() {
            Some(known) => known,
            None => Known::Nothing,
        }
    }

    /// Follows an instruction.
    fn follow(&mut self, act: Act) -> Result<(), AllocError> {
        match act {
            Act::Push(number) => self.stack.push(Known::Number(number))?,
            Act::Load(local) => {
                let held = self.held(local);
                self.stack.push(held)?;
            }
            Act::Store(local) => {
                let known = self.popped();
                self.hold(local, known)?;
            }
            Act::Add(local, by) => {
                let held = self.held(local);
                self.hold(local, more(held, by))?;
            }
            Act::Sum => {
                let b = self.popped();
                let a = self.popped();
                self.stack.push(sum(a, b))?;
            }
            Act::Difference => {
                let b = self.popped();
                let a = self.popped();
                self.stack.push(difference(a, b))?;
            }
            Act::Other => self.stack.clear(),
        }
        Ok(())
    }
}

/// The instruction that a node's running frame is at, where the frame has this depth and belongs to this method.
fn act_at(
    program: &Program<'_>,
    graph: &Graph<PackedPairs>,
    n: u32,
    first: &AbsFrame,
    level: usize,
) -> Option<Act> {
    let frame = running(graph, n)?;
    if depth(graph, n) != level || frame.method() != first.method() {
        return None;
    }
    let method = program.methods.get(frame.method() as usize)?;
    let (op, _) = method.insns.at(frame.pc())?;
    Some(act_of(op))
}

/// Whether two nodes stand at one place: then the second is a case of the first, and no instruction lies between.
fn is_case(graph: &Graph<PackedPairs>, a: u32, b: u32) -> bool {
    match (running(graph, a), running(graph, b)) {
        (Some(one), Some(other)) => {
            depth(graph, a) == depth(graph, b)
                && one.method() == other.method()
                && one.pc() == other.pc()
        }
        _ => false,
    }
}

/// How the locals of the frame at the start of a path change along it.
///
/// # Errors
///
/// Want of memory.
pub(crate) fn changes_on(
    alloc: Global,
    program: &Program<'_>,
    graph: &Graph<PackedPairs>,
    way: &Way,
) -> Result<Vec<Change>, AllocError> {
    let mut ints = Ints {
        changes: Vec::new(alloc),
        stack: Vec::new(alloc),
    };
    let nodes = way.nodes.as_slice();
    let Some(start) = nodes.first() else {
        return Ok(ints.changes);
    };
    let Some(first) = running(graph, *start) else {
        return Ok(ints.changes);
    };
    let level = depth(graph, *start);
    for n in 1..nodes.len() {
        if !is_case(graph, nodes[n - 1], nodes[n]) {
            match act_at(program, graph, nodes[n - 1], first, level) {
                Some(act) => ints.follow(act)?,
                None => ints.stack.clear(),
            }
        }
    }
    Ok(ints.changes)
}
