//! Which entries of the pool the lines of a listing need, in the order of the class's file.

ghost use Rattle.std.specs.Prelude.{◌≡◌, ◌∷◌, ◌++◌, ◌&&◌, ◌^◌, [], OnOk, IfOk, Some, None, map, nat_lt, if◌then◌else◌};
ghost use Rattle.std.specs.List.{flat_map};
ghost use Rattle.std.specs.Option.{option_map, option_and_then, option_to_list};
ghost use Rattle.class_base.specs.ClassNames.{is_class_name};
ghost use Rattle.class_base.specs.Types.{array_depth};
ghost use Rattle.class_asm.specs.asm_pool.Entries.{Class, Float, Member, seen};
ghost use Rattle.class_asm.specs.asm_pool.Needs.{member_tag, counted_words, is_member_descriptor, is_class_or_array, allowed, operation_entry};
ghost use Rattle.class_asm.specs.asm_pool.Needs.{catch_entry, insn_entries, catch_entries, attribute_entries, line_needs, code_needs};
ghost use Rattle.class_asm.specs.asm_pool.Needs.{field_needs, method_needs, attribute_needs, constant_entry, constant_needs, super_of};
ghost use Rattle.class_asm.specs.asm_pool.Needs.{class_needs, listing_needs};
ghost use Rattle.class_asm.specs.asm_pool.Pools.{needed};

use crate::asm_pool::entry::Entry;
use asm_lines::{
    AttributeLine, ClassLine, CodeLine, Constant, FieldLine, Item, Listing, MethodLines, Operation,
};
use class_base::{MemberKind, is_class_name, is_descriptor, method_words};
use list_views::Seq;
use std::alloc::{AllocError, Global};
use std::marker::Model;

/// The tag of the entry by which an instruction names a member.
fn member_tag(op: u8) -> u8
    ensures { result ≡ member_tag op }
{
    if op <= 181 {
        9
    } else if op == 185 {
        11
    } else {
        10
    }
}

/// What the count byte of `invokeinterface` holds: the words of the receiver and the arguments; 0 where it can't.
pub fn counted_words(desc: &[u8]) -> u8
    ensures { result ≡ counted_words desc.now }
{
    match method_words(desc) {
        Some(words) => { if words <= 254 { (words + 1) as u8 } else { 0 } }
        None => 0,
    }
}

fn is_member_descriptor(op: u8, desc: &[u8]) -> bool
    ensures { result ≡ is_member_descriptor op desc.now }
{
    if op <= 181 {
        is_descriptor(MemberKind::Field, 0, desc)
    } else if op == 185 {
        0 < counted_words(desc)
    } else {
        method_words(desc).is_some()
    }
}

fn begins_array(name: &[u8]) -> bool
    ensures { result ≡ nat_lt 0 (array_depth name.now) }
{
    match name.first() {
        Some(b) => *b == b'[',
        None => false,
    }
}

fn is_class_or_array(name: &[u8]) -> bool
    ensures { result ≡ is_class_or_array name.now }
{
    is_class_name(name) || (begins_array(name) && is_descriptor(MemberKind::Field, 0, name))
}

fn allowed<'a>(good: bool, entry: Entry<'a>) -> Option<Entry<'a>>
    ensures { option_map seen result ≡ allowed good (seen entry.entry) }
{
    if good && entry.has_text() {
        Some(entry)
    } else {
        None
    }
}

/// The entry that an instruction needs, unless it breaks a rule on names, descriptors and numbers.
pub fn operation_entry(operation: &Operation) -> Option<Entry<'_>>
    ensures { option_map seen result ≡ operation_entry operation.now }
{
    match operation {
        Operation::LoadInt(_, number) => match number.int() {
            Some(value) => Some(Entry::Integer(value)),
            None => None,
        },
        Operation::LoadString(_, text) => allowed(true, Entry::Str(text.as_slice())),
        Operation::Member(op, class, name, desc) => member_entry(*op, class, name, desc),
        Operation::Class(_, name) => {
            let name = name.as_slice();
            allowed(is_class_or_array(name), Entry::Class(name))
        }
        _ => None,
    }
}

fn member_entry<'a>(
    op: u8,
    class: &'a Seq<u8>,
    name: &'a Seq<u8>,
    desc: &'a Seq<u8>,
) -> Option<Entry<'a>>
    ensures { option_map seen result ≡ allowed (is_class_name class.now && is_member_descriptor op desc.now)
        (Member (member_tag op) class.now name.now desc.now) }
{
    let class = class.as_slice();
    let name = name.as_slice();
    let desc = desc.as_slice();
    let good = is_class_name(class) && is_member_descriptor(op, desc);
    allowed(good, Entry::Member(member_tag(op), class, name, desc))
}

/// The entry of the class that is caught, unless its name is none.
pub fn catch_entry(class: &Option<Seq<u8>>) -> Option<Entry<'_>>
    ensures { option_map seen result ≡ catch_entry class.now }
{
    match class {
        Some(name) => {
            let name = name.as_slice();
            allowed(is_class_name(name), Entry::Class(name))
        }
        None => None,
    }
}

/// The entry that a `constant` line says, unless its number doesn't fit.
pub fn constant_entry(constant: &Constant) -> Option<Entry<'_>>
    ensures { option_map seen result ≡ constant_entry constant.now }
{
    match constant {
        Constant::Long(number) => match number.signed() {
            Some(value) => Some(Entry::Long(value.cast_unsigned())),
            None => None,
        },
        Constant::Float(number) => float_entry(number.unsigned()),
        Constant::Double(number) => match number.unsigned() {
            Some(bits) => Some(Entry::Double(bits)),
            None => None,
        },
        Constant::Str(text) => Some(Entry::Str(text.as_slice())),
    }
}

fn float_entry(bits: Option<u64>) -> Option<Entry<'static>>
    ensures { option_map seen result ≡ option_and_then (λ bits. if nat_lt bits (2 ^ 32) then Some (Float bits) else None) bits }
{
    match bits {
        Some(bits) => {
            if bits < 0x1_0000_0000 {
                Some(Entry::Float(bits as u32))
            } else {
                None
            }
        }
        None => None,
    }
}

/// What the lines of a listing need of its pool, each entry with its line. It is seen as the list, in its order.
#[derive(Drop)]
pub struct Needs<'a> {
    needs: Vec<(Entry<'a>, usize)>,
}

impl<'a> Model for Needs<'a> {
    ghost use Rattle.std.specs.Prelude.{List, ℕ, map};
    ghost use Rattle.class_asm.specs.asm_pool.Entries.{Entry, seen};

    ghost Value = { List (Entry × ℕ) };

    ghost view = { λ n. map (λ e. (seen e.0, e.1)) n.needs.items };
}

impl<'a> Needs<'a> {
    /// No needs.
    fn new(alloc: Global) -> Needs<'a>
        ensures { result ≡ [] }
    {
        Needs {
            needs: Vec::new(alloc),
        }
    }

    /// The needs as a slice.
    pub(crate) fn as_slice(&self) -> &[(Entry<'a>, usize)]
        ensures { map (λ e. (seen e.0, e.1)) result.now ≡ self.now }
    {
        self.needs.as_slice()
    }

    /// One more.
    fn push(&mut self, line: usize, entry: Entry<'a>) -> Result<(), AllocError>
        ensures { OnOk result (self.new ≡ self.old ++ needed line (seen entry.entry ∷ [])) }
    {
        self.needs.push((entry, line))?;
        Ok(())
    }

    /// One more, where there is an entry.
    fn push_some(&mut self, line: usize, entry: Option<Entry<'a>>) -> Result<(), AllocError>
        ensures { OnOk result (self.new ≡ self.old ++ needed line (option_to_list (option_map seen entry.entry))) }
    {
        match entry {
            Some(entry) => self.push(line, entry),
            None => Ok(()),
        }
    }

    fn insn(&mut self, code: &'a CodeLine) -> Result<(), AllocError>
        ensures { OnOk result (self.new ≡ self.old ++ line_needs insn_entries code.now) }
    {
        match &code.item {
            Item::Insn(operation) => self.push_some(code.line, operation_entry(operation)),
            _ => Ok(()),
        }
    }

    fn catch(&mut self, code: &'a CodeLine) -> Result<(), AllocError>
        ensures { OnOk result (self.new ≡ self.old ++ line_needs catch_entries code.now) }
    {
        match &code.item {
            Item::Catch(entry) => self.push_some(code.line, catch_entry(&entry.class)),
            _ => Ok(()),
        }
    }

    fn code_attribute(&mut self, code: &'a CodeLine) -> Result<(), AllocError>
        ensures { OnOk result (self.new ≡ self.old ++ line_needs attribute_entries code.now) }
    {
        match &code.item {
            Item::Attribute(x) => self.push(code.line, Entry::Utf8(x.name.as_slice())),
            _ => Ok(()),
        }
    }

    fn insns(&mut self, lines: &'a [CodeLine]) -> Result<(), AllocError>
        ensures { OnOk result (self.new ≡ self.old ++ flat_map (line_needs insn_entries) lines.now) }
    {
        for code in lines {
            self.insn(code)?;
        }
        Ok(())
    }

    fn catches(&mut self, lines: &'a [CodeLine]) -> Result<(), AllocError>
        ensures { OnOk result (self.new ≡ self.old ++ flat_map (line_needs catch_entries) lines.now) }
    {
        for code in lines {
            self.catch(code)?;
        }
        Ok(())
    }

    fn code_attributes(&mut self, lines: &'a [CodeLine]) -> Result<(), AllocError>
        ensures { OnOk result (self.new ≡ self.old ++ flat_map (line_needs attribute_entries) lines.now) }
    {
        for code in lines {
            self.code_attribute(code)?;
        }
        Ok(())
    }

    fn code(&mut self, m: &'a MethodLines) -> Result<(), AllocError>
        ensures { OnOk result (self.new ≡ self.old ++ code_needs m.now) }
    {
        let lines = m.lines.as_slice();
        self.push(m.line, Entry::Utf8(b"Code"))?;
        self.insns(lines)?;
        self.catches(lines)?;
        self.code_attributes(lines)
    }

    fn field(&mut self, f: &'a (usize, FieldLine)) -> Result<(), AllocError>
        ensures { OnOk result (self.new ≡ self.old ++ field_needs f.now) }
    {
        self.push(f.0, Entry::Utf8(f.1.name.as_slice()))?;
        self.push(f.0, Entry::Utf8(f.1.desc.as_slice()))
    }

    fn method(&mut self, m: &'a MethodLines) -> Result<(), AllocError>
        ensures { OnOk result (self.new ≡ self.old ++ method_needs m.now) }
    {
        self.push(m.line, Entry::Utf8(m.head.name.as_slice()))?;
        self.push(m.line, Entry::Utf8(m.head.desc.as_slice()))?;
        if m.head.sizes.is_some() {
            self.code(m)
        } else {
            Ok(())
        }
    }

    fn attribute(&mut self, a: &'a (usize, AttributeLine)) -> Result<(), AllocError>
        ensures { OnOk result (self.new ≡ self.old ++ attribute_needs a.now) }
    {
        self.push(a.0, Entry::Utf8(a.1.name.as_slice()))
    }

    fn constant(&mut self, c: &'a (usize, Constant)) -> Result<(), AllocError>
        ensures { OnOk result (self.new ≡ self.old ++ constant_needs c.now) }
    {
        self.push_some(c.0, constant_entry(&c.1))
    }

    fn fields(&mut self, fields: &'a [(usize, FieldLine)]) -> Result<(), AllocError>
        ensures { OnOk result (self.new ≡ self.old ++ flat_map field_needs fields.now) }
    {
        for f in fields {
            self.field(f)?;
        }
        Ok(())
    }

    fn methods(&mut self, methods: &'a [MethodLines]) -> Result<(), AllocError>
        ensures { OnOk result (self.new ≡ self.old ++ flat_map method_needs methods.now) }
    {
        for m in methods {
            self.method(m)?;
        }
        Ok(())
    }

    fn attributes(&mut self, attributes: &'a [(usize, AttributeLine)]) -> Result<(), AllocError>
        ensures { OnOk result (self.new ≡ self.old ++ flat_map attribute_needs attributes.now) }
    {
        for a in attributes {
            self.attribute(a)?;
        }
        Ok(())
    }

    fn constants(&mut self, constants: &'a [(usize, Constant)]) -> Result<(), AllocError>
        ensures { OnOk result (self.new ≡ self.old ++ flat_map constant_needs constants.now) }
    {
        for c in constants {
            self.constant(c)?;
        }
        Ok(())
    }

    fn classes(&mut self, line: usize, names: &'a [Seq<u8>]) -> Result<(), AllocError>
        ensures { OnOk result (self.new ≡ self.old ++ needed line (map (λ name. Class name) names.now)) }
    {
        for name in names {
            self.push(line, Entry::Class(name.as_slice()))?;
        }
        Ok(())
    }

    fn class(&mut self, line: usize, class: &'a ClassLine) -> Result<(), AllocError>
        ensures { OnOk result (self.new ≡ self.old ++ class_needs line class.now) }
    {
        self.push(line, Entry::Class(class.name.as_slice()))?;
        self.push(line, Entry::Class(super_of(class)))?;
        self.classes(line, class.interfaces.as_slice())
    }

    /// What a listing needs, in the order of its class's file: the class, fields, methods, attributes, and last what
    /// `constant` lines alone need.
    pub fn of(
        alloc: Global,
        line: usize,
        class: &'a ClassLine,
        listing: &'a Listing,
    ) -> Result<Needs<'a>, AllocError>
        ensures { IfOk result (λ n. n ≡ listing_needs line class.now listing.now) }
    {
        let mut needs = Needs::new(alloc);
        needs.class(line, class)?;
        needs.fields(listing.fields.as_slice())?;
        needs.methods(listing.methods.as_slice())?;
        needs.attributes(listing.attributes.as_slice())?;
        needs.constants(listing.constants.as_slice())?;
        Ok(needs)
    }
}

/// The superclass: java/lang/Object where the line doesn't say one.
pub fn super_of(class: &ClassLine) -> &[u8]
    ensures { result.now ≡ super_of class.now }
{
    match &class.super_name {
        Some(name) => name.as_slice(),
        None => b"java/lang/Object",
    }
}
