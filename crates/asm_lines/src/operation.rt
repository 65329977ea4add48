//! What the lines of instructions say.

ghost use Rattle.std.specs.Prelude.{◌≡◌, ℕ, List, ◌∷◌, [], ◌++◌, IfOk, OnOk, map};
ghost use Rattle.code_decode.specs.Names.{name_of};
ghost use Rattle.code_forms.specs.Spellings.{spelling};
ghost use Rattle.list_views.specs.Results.{Answers};
ghost use Rattle.asm_lines.specs.Statements.{Gives, one_word};
ghost use Rattle.asm_lines.specs.Operations.{single, template, named, all_names, opcode_in, kind_code, one_number, load_value};
ghost use Rattle.asm_lines.specs.Operations.{load_operation, member_operation, increment_operation, some_labels, table_operation};
ghost use Rattle.asm_lines.specs.Operations.{cases_of, lookup_operation, array_operation, byte_operands, pair_operands};
ghost use Rattle.asm_lines.specs.Operations.{jump_operands, operands};

use crate::fault::AsmFault;
use crate::number::Number;
use crate::statement::{copy, is, next_word, no_more, number_word};
use code_decode::{SpellingView, name, spelling_of};
use code_forms::{Insn, plain, with_byte, with_jump, with_pair};
use list_views::Seq;
use std::alloc::{AllocError, Global};
use std::marker::Model;

/// An instruction with its operands as they are written.
#[derive(Drop)]
pub enum Operation {
    /// The opcode alone.
    Plain(u8),
    /// An opcode that takes a local.
    Local(u8, Number),
    /// `bipush`.
    Bipush(Number),
    /// `sipush`.
    Sipush(Number),
    /// `ldc` or `ldc_w` of an `int`, by its opcode.
    LoadInt(u8, Number),
    /// `ldc` or `ldc_w` of a string, by its opcode.
    LoadString(u8, Seq<u8>),
    /// A field's or a method's opcode, with the class, the name and the descriptor.
    Member(u8, Seq<u8>, Seq<u8>, Seq<u8>),
    /// An opcode that takes a class.
    Class(u8, Seq<u8>),
    /// `newarray`, with the code of the element type.
    Newarray(u8),
    /// `iinc`, with the local and the number that is added.
    Iinc(Number, Number),
    /// A jump with its label.
    Jump(u8, Seq<u8>),
    /// `goto_w` with its label.
    GotoW(Seq<u8>),
    /// `tableswitch`: the lowest key, the default, and the labels of the keys from the lowest on.
    Tableswitch(Number, Seq<u8>, Seq<Seq<u8>>),
    /// `lookupswitch`: the default, and the keys with their labels.
    Lookupswitch(Seq<u8>, Seq<(Number, Seq<u8>)>),
}

/// The instructions' names with their opcodes.
#[derive(Drop)]
pub(crate) struct Names {
    names: Seq<(&'static [u8], u8)>,
}

impl Model for Names {
    ghost use Rattle.std.specs.Prelude.{List, ℕ, map};

    ghost Value = { List (List ℕ × ℕ) };

    ghost view = { λ n. map (λ e. (e.0.now, e.1)) n.names };
}

fn single(alloc: Global, op: u8) -> Option<Insn>
    ensures { result ≡ single op }
{
    match op {
        16 => Some(Insn::Bipush(0)),
        17 => Some(Insn::Sipush(0)),
        132 => Some(Insn::Iinc(0, 0)),
        170 => Some(Insn::Tableswitch {
            default: 0,
            low: 0,
            targets: Seq::new(alloc),
        }),
        171 => Some(Insn::Lookupswitch {
            default: 0,
            cases: Seq::new(alloc),
        }),
        185 => Some(Insn::Invokeinterface(0, 0)),
        188 => Some(Insn::Newarray(0)),
        200 => Some(Insn::GotoW(0)),
        _ => None,
    }
}

/// An instruction of the opcode, with zeros as operands.
pub(crate) fn template(alloc: Global, op: u8) -> Option<Insn>
    ensures { result ≡ template op }
{
    if let Some(insn) = plain(op) {
        return Some(insn);
    }
    if let Some(insn) = with_byte(op, 0) {
        return Some(insn);
    }
    if let Some(insn) = with_pair(op, 0) {
        return Some(insn);
    }
    if let Some(insn) = with_jump(op, 0) {
        return Some(insn);
    }
    single(alloc, op)
}

fn opcode_in(names: &[(&'static [u8], u8)], word: &[u8]) -> Option<u8>
    ensures { result ≡ opcode_in (map (λ e. (e.0.now, e.1)) names.now) word.now }
{
    for entry in names {
        if entry.0 == word {
            return Some(entry.1);
        }
    }
    None
}

/// Puts an instruction's name with its opcode behind names.
#[tactic(auto, using(crate::proofs::Opcodes::one_name))]
fn push_name(names: &mut Seq<(&'static [u8], u8)>, insn: &Insn, op: u8) -> Result<(), AllocError>
    ensures { OnOk result (map {B = List ℕ × ℕ} (λ e. (e.0.now, e.1)) names.new ≡ map (λ e. (e.0.now, e.1)) names.old
        ++ (name_of insn.now, op) ∷ []) }
{
    names.push((name(insn).as_bytes(), op))?;
    Ok(())
}

fn add_name(alloc: Global, names: &mut Seq<(&'static [u8], u8)>, op: u8) -> Result<(), AllocError>
    ensures { OnOk result (map (λ e. (e.0.now, e.1)) names.new ≡ map (λ e. (e.0.now, e.1)) names.old ++ named op) }
{
    match template(alloc, op) {
        Some(insn) => push_name(names, &insn, op),
        None => Ok(()),
    }
}

impl Names {
    /// The names of all instructions.
    #[tactic(auto, using(crate::proofs::Opcodes::names_more))]
    pub(crate) fn new(alloc: Global) -> Result<Names, AllocError>
        ensures { IfOk result (λ n. n ≡ all_names) }
    {
        let mut names = Seq::new(alloc);
        for op in 0..201u8 {
            add_name(alloc, &mut names, op)?;
        }
        Ok(Names { names })
    }

    /// The opcode of the name.
    pub(crate) fn opcode(&self, word: &[u8]) -> Option<u8>
        ensures { result ≡ opcode_in self.now word.now }
    {
        opcode_in(self.names.as_slice(), word)
    }
}

/// The code of a primitive type in `newarray`.
fn kind_code(word: &Seq<u8>) -> Option<u8>
    ensures { result ≡ kind_code word.now }
{
    if is(word, b"boolean") {
        Some(4)
    } else if is(word, b"char") {
        Some(5)
    } else if is(word, b"float") {
        Some(6)
    } else if is(word, b"double") {
        Some(7)
    } else if is(word, b"byte") {
        Some(8)
    } else if is(word, b"short") {
        Some(9)
    } else if is(word, b"int") {
        Some(10)
    } else if is(word, b"long") {
        Some(11)
    } else {
        None
    }
}

#[tactic(auto, unfolding(crate::specs::Statements::one_word))]
fn one_word<'a>(line: usize, words: &'a [Seq<u8>]) -> Result<&'a Seq<u8>, AsmFault>
    ensures { Answers (λ x. x.now) result (one_word line words.now) }
{
    let (word, rest) = next_word(line, words)?;
    no_more(line, rest)?;
    Ok(word)
}

#[tactic(auto, unfolding(crate::specs::Operations::one_number))]
fn one_number(line: usize, words: &[Seq<u8>]) -> Result<Number, AsmFault>
    ensures { Answers (λ x. x) result (one_number line words.now) }
{
    let word = one_word(line, words)?;
    number_word(line, word)
}

#[tactic(auto, unfolding(crate::specs::Operations::load_value))]
fn load_value(
    alloc: Global,
    line: usize,
    op: u8,
    kind: &Seq<u8>,
    value: &Seq<u8>,
) -> Result<Operation, AsmFault>
    ensures { Gives (λ x. x) result (load_value line op kind.now value.now) }
{
    if is(kind, b"int") {
        Ok(Operation::LoadInt(op, number_word(line, value)?))
    } else if is(kind, b"string") {
        Ok(Operation::LoadString(op, copy(alloc, value)?))
    } else {
        Err(AsmFault::Syntax { line })
    }
}

#[tactic(auto, unfolding(crate::specs::Operations::load_operation))]
fn load_operation(
    alloc: Global,
    line: usize,
    op: u8,
    words: &[Seq<u8>],
) -> Result<Operation, AsmFault>
    ensures { Gives (λ x. x) result (load_operation line op words.now) }
{
    let (kind, rest) = next_word(line, words)?;
    let (value, rest) = next_word(line, rest)?;
    no_more(line, rest)?;
    load_value(alloc, line, op, kind, value)
}

fn copied_member(
    alloc: Global,
    op: u8,
    class: &Seq<u8>,
    name: &Seq<u8>,
    desc: &Seq<u8>,
) -> Result<Operation, AllocError>
    ensures { IfOk result (λ o. o ≡ Operation.Member op class.now name.now desc.now) }
{
    let class = copy(alloc, class)?;
    let name = copy(alloc, name)?;
    let desc = copy(alloc, desc)?;
    Ok(Operation::Member(op, class, name, desc))
}

#[tactic(auto, unfolding(crate::specs::Operations::member_operation))]
fn member_operation(
    alloc: Global,
    line: usize,
    op: u8,
    words: &[Seq<u8>],
) -> Result<Operation, AsmFault>
    ensures { Gives (λ x. x) result (member_operation line op words.now) }
{
    let (class, rest) = next_word(line, words)?;
    let (name, rest) = next_word(line, rest)?;
    let (desc, rest) = next_word(line, rest)?;
    no_more(line, rest)?;
    Ok(copied_member(alloc, op, class, name, desc)?)
}

#[tactic(auto, unfolding(crate::specs::Operations::increment_operation))]
fn increment_operation(line: usize, words: &[Seq<u8>]) -> Result<Operation, AsmFault>
    ensures { Answers (λ x. x) result (increment_operation line words.now) }
{
    let (local, rest) = next_word(line, words)?;
    let (value, rest) = next_word(line, rest)?;
    no_more(line, rest)?;
    let local = number_word(line, local)?;
    let value = number_word(line, value)?;
    Ok(Operation::Iinc(local, value))
}

pub(crate) fn copies(alloc: Global, words: &[Seq<u8>]) -> Result<Seq<Seq<u8>>, AllocError>
    ensures { IfOk result (λ s. s ≡ words.now) }
{
    let mut all = Seq::new(alloc);
    for word in words {
        all.push(copy(alloc, word)?)?;
    }
    Ok(all)
}

/// That there is a label.
fn some_labels(line: usize, words: &[Seq<u8>]) -> Result<(), AsmFault>
    ensures { Answers (λ _. words.now) result (some_labels line words.now) }
{
    if words.is_empty() {
        Err(AsmFault::Syntax { line })
    } else {
        Ok(())
    }
}

fn copied_table(
    alloc: Global,
    low: Number,
    default: &Seq<u8>,
    labels: &[Seq<u8>],
) -> Result<Operation, AllocError>
    ensures { IfOk result (λ o. o ≡ Operation.Tableswitch low default.now labels.now) }
{
    let default = copy(alloc, default)?;
    let labels = copies(alloc, labels)?;
    Ok(Operation::Tableswitch(low, default, labels))
}

#[tactic(auto, unfolding(crate::specs::Operations::table_operation))]
fn table_operation(alloc: Global, line: usize, words: &[Seq<u8>]) -> Result<Operation, AsmFault>
    ensures { Gives (λ x. x) result (table_operation line words.now) }
{
    let (low, rest) = next_word(line, words)?;
    let (default, rest) = next_word(line, rest)?;
    some_labels(line, rest)?;
    let low = number_word(line, low)?;
    Ok(copied_table(alloc, low, default, rest)?)
}

#[tactic(auto, using(crate::proofs::Cases::begins, crate::proofs::Cases::no_number, crate::proofs::Cases::no_label, crate::proofs::Cases::done))]
fn cases_of(
    alloc: Global,
    line: usize,
    words: &[Seq<u8>],
) -> Result<Seq<(Number, Seq<u8>)>, AsmFault>
    ensures { Gives (λ x. x) result (cases_of line words.now) }
{
    let mut cases = Seq::new(alloc);
    let mut rest = words;
    while let Some((key, after)) = rest.split_first() {
        let (label, after) = next_word(line, after)?;
        let key = number_word(line, key)?;
        cases.push((key, copy(alloc, label)?))?;
        rest = after;
    }
    Ok(cases)
}

#[tactic(auto, unfolding(crate::specs::Operations::lookup_operation))]
fn lookup_operation(alloc: Global, line: usize, words: &[Seq<u8>]) -> Result<Operation, AsmFault>
    ensures { Gives (λ x. x) result (lookup_operation line words.now) }
{
    let (default, rest) = next_word(line, words)?;
    let default = copy(alloc, default)?;
    let cases = cases_of(alloc, line, rest)?;
    Ok(Operation::Lookupswitch(default, cases))
}

#[tactic(auto, unfolding(crate::specs::Operations::array_operation))]
fn array_operation(line: usize, words: &[Seq<u8>]) -> Result<Operation, AsmFault>
    ensures { Answers (λ x. x) result (array_operation line words.now) }
{
    let kind = one_word(line, words)?;
    match kind_code(kind) {
        Some(code) => Ok(Operation::Newarray(code)),
        None => Err(AsmFault::Syntax { line }),
    }
}

/// The operands where those of the code are one number of one byte.
fn byte_operands(
    alloc: Global,
    line: usize,
    op: u8,
    words: &[Seq<u8>],
) -> Result<Operation, AsmFault>
    ensures { Gives (λ x. x) result (byte_operands line op words.now) }
{
    if op == 18 {
        load_operation(alloc, line, op, words)
    } else {
        Ok(Operation::Local(op, one_number(line, words)?))
    }
}

/// The operands where those of the code are one number of two bytes.
fn pair_operands(
    alloc: Global,
    line: usize,
    op: u8,
    words: &[Seq<u8>],
) -> Result<Operation, AsmFault>
    ensures { Gives (λ x. x) result (pair_operands line op words.now) }
{
    if op == 19 {
        load_operation(alloc, line, op, words)
    } else if op <= 184 {
        member_operation(alloc, line, op, words)
    } else {
        let class = one_word(line, words)?;
        Ok(Operation::Class(op, copy(alloc, class)?))
    }
}

/// The label of a jump.
fn jump_operands(
    alloc: Global,
    line: usize,
    op: u8,
    words: &[Seq<u8>],
) -> Result<Operation, AsmFault>
    ensures { Gives (λ x. x) result (jump_operands line op words.now) }
{
    let label = one_word(line, words)?;
    Ok(Operation::Jump(op, copy(alloc, label)?))
}

/// The instruction of the opcode with the operands that the words say.
#[tactic(auto, unfolding(crate::specs::Operations::operands))]
pub(crate) fn operands(
    alloc: Global,
    line: usize,
    insn: &Insn,
    words: &[Seq<u8>],
) -> Result<Operation, AsmFault>
    ensures { Gives (λ x. x) result (operands line (spelling insn.now) words.now) }
{
    match spelling_of(insn) {
        SpellingView::Plain(op) => {
            no_more(line, words)?;
            Ok(Operation::Plain(op))
        }
        SpellingView::Byte(op, _) => byte_operands(alloc, line, op, words),
        SpellingView::Pair(op, _) => pair_operands(alloc, line, op, words),
        SpellingView::SignedByte(_, _) => Ok(Operation::Bipush(one_number(line, words)?)),
        SpellingView::SignedPair(_, _) => Ok(Operation::Sipush(one_number(line, words)?)),
        SpellingView::Jump(op, _) => jump_operands(alloc, line, op, words),
        SpellingView::FarJump(_, _) => {
            let label = one_word(line, words)?;
            Ok(Operation::GotoW(copy(alloc, label)?))
        }
        SpellingView::Increment(_, _, _) => increment_operation(line, words),
        SpellingView::Table(_, _, _, _) => table_operation(alloc, line, words),
        SpellingView::Lookup(_, _, _) => lookup_operation(alloc, line, words),
        SpellingView::Interface(op, _, _) => member_operation(alloc, line, op, words),
        SpellingView::Array(_, _) => array_operation(line, words),
        _ => Err(AsmFault::UnknownOpcode { line }),
    }
}
