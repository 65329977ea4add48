//! The rules on names, descriptors, numbers and lists.

ghost use Rattle.std.specs.Prelude.{◌≡◌, ◌++◌, [], OnOk, IfOk, Some, None, map, true, length, if◌then◌else◌};
ghost use Rattle.std.specs.List.{flat_map, list_all};
ghost use Rattle.class_base.specs.ClassNames.{is_class_name};
ghost use Rattle.asm_lines.specs.Firsts.{with_faults, unless};
ghost use Rattle.class_asm.specs.asm_pool.Needs.{line_needs, attribute_entries};
ghost use Rattle.class_asm.specs.Rules.{past_count, seconds, field_key, method_key, field_flags, method_flags, field_faults};
ghost use Rattle.class_asm.specs.Rules.{sizes_fit, attribute_lines, method_faults, fields_faults, methods_faults, attributes_faults};
ghost use Rattle.class_asm.specs.Rules.{content_fits, attribute_faults, constant_faults, major_of, class_is_good, rule_faults};

use crate::asm_pool::{constant_entry, super_of};
use asm_lines::{
    AsmFault, AttributeLine, ClassLine, CodeLine, Constant, FieldLine, First, Item, Listing,
    MethodLine, MethodLines, Number,
};
use class_base::{KeySet, MemberKind, PRIVATE, PUBLIC, STATIC, is_class_name, is_descriptor};
use list_views::Seq;
use std::alloc::{AllocError, Global};

/// How many items a list has at most.
const MOST: usize = 0xffff;

/// The flags of a field.
pub(crate) fn field_flags(f: &FieldLine) -> u16
    ensures { result ≡ field_flags f.now }
{
    if f.is_static { STATIC | PUBLIC } else { PUBLIC }
}

/// The flags of a method.
pub(crate) fn method_flags(head: &MethodLine) -> u16
    ensures { result ≡ method_flags head.now }
{
    if head.flags & PRIVATE == 0 {
        head.flags | PUBLIC
    } else {
        head.flags
    }
}

/// Members that an earlier one is equal to.
fn check_field_keys(
    alloc: Global,
    first: &mut First,
    fields: &[(usize, FieldLine)],
) -> Result<(), AllocError>
    ensures { OnOk result (first.new.fault ≡ with_faults first.old.fault (seconds [] (map field_key fields.now))) }
{
    let mut keys = KeySet::new(alloc);
    for f in fields {
        let added = keys.add(f.1.name.as_slice(), f.1.desc.as_slice())?;
        first.unless(added, f.0);
    }
    Ok(())
}

fn check_method_keys(
    alloc: Global,
    first: &mut First,
    methods: &[MethodLines],
) -> Result<(), AllocError>
    ensures { OnOk result (first.new.fault ≡ with_faults first.old.fault (seconds [] (map method_key methods.now))) }
{
    let mut keys = KeySet::new(alloc);
    for m in methods {
        let added = keys.add(m.head.name.as_slice(), m.head.desc.as_slice())?;
        first.unless(added, m.line);
    }
    Ok(())
}

fn check_field(first: &mut First, f: &(usize, FieldLine))
    ensures { first.new.fault ≡ with_faults first.old.fault (field_faults f.now) }
{
    let good = is_descriptor(MemberKind::Field, field_flags(&f.1), f.1.desc.as_slice());
    first.unless(good, f.0);
}

fn past_fields(first: &mut First, fields: &[(usize, FieldLine)])
    ensures { first.new.fault ≡ with_faults first.old.fault (past_count (λ f. f.0) fields.now) }
{
    if let Some(f) = fields.get(MOST) {
        first.add(AsmFault::OutOfRange { line: f.0 });
    }
}

fn past_methods(first: &mut First, methods: &[MethodLines])
    ensures { first.new.fault ≡ with_faults first.old.fault (past_count (λ m. m.line) methods.now) }
{
    if let Some(m) = methods.get(MOST) {
        first.add(AsmFault::OutOfRange { line: m.line });
    }
}

fn past_attributes(first: &mut First, attributes: &[(usize, AttributeLine)])
    ensures { first.new.fault ≡ with_faults first.old.fault (past_count (λ a. a.0) attributes.now) }
{
    if let Some(a) = attributes.get(MOST) {
        first.add(AsmFault::OutOfRange { line: a.0 });
    }
}

fn past_lines(first: &mut First, lines: &[usize])
    ensures { first.new.fault ≡ with_faults first.old.fault (past_count (λ line. line) lines.now) }
{
    if let Some(line) = lines.get(MOST) {
        first.add(AsmFault::OutOfRange { line: *line });
    }
}

fn check_fields(first: &mut First, fields: &[(usize, FieldLine)])
    ensures { first.new.fault ≡ with_faults first.old.fault (flat_map field_faults fields.now) }
{
    for f in fields {
        check_field(first, f);
    }
}

fn sizes_fit(sizes: Option<(Number, Number)>) -> bool
    ensures { result ≡ sizes_fit sizes }
{
    match sizes {
        None => true,
        Some((stack, locals)) => stack.pair().is_some() && locals.pair().is_some(),
    }
}

fn add_attribute_line(lines: &mut Vec<usize>, code: &CodeLine) -> Result<(), AllocError>
    ensures { OnOk result (lines.new.items ≡ lines.old.items ++ map (λ need. need.1) (line_needs attribute_entries code.now)) }
{
    if let Item::Attribute(_) = &code.item {
        lines.push(code.line)?;
    }
    Ok(())
}

/// The lines of the attributes of a code.
fn attribute_lines(alloc: Global, lines: &[CodeLine]) -> Result<Vec<usize>, AllocError>
    ensures { IfOk result (λ v. v.items ≡ attribute_lines lines.now) }
{
    let mut found = Vec::new(alloc);
    for code in lines {
        add_attribute_line(&mut found, code)?;
    }
    Ok(found)
}

fn check_method(alloc: Global, first: &mut First, m: &MethodLines) -> Result<(), AllocError>
    ensures { OnOk result (first.new.fault ≡ with_faults first.old.fault (method_faults m.now)) }
{
    let desc = m.head.desc.as_slice();
    let good = is_descriptor(MemberKind::Method, method_flags(&m.head), desc)
        && sizes_fit(m.head.sizes);
    first.unless(good, m.line);
    let attributes = attribute_lines(alloc, m.lines.as_slice())?;
    past_lines(first, attributes.as_slice());
    Ok(())
}

fn check_methods(
    alloc: Global,
    first: &mut First,
    methods: &[MethodLines],
) -> Result<(), AllocError>
    ensures { OnOk result (first.new.fault ≡ with_faults first.old.fault (flat_map method_faults methods.now)) }
{
    for m in methods {
        check_method(alloc, first, m)?;
    }
    Ok(())
}

/// Whether the content's length fits its field.
pub(crate) fn content_fits(content: &[u8]) -> bool
    ensures { result ≡ content_fits content.now }
{
    content.len() < 0x1_0000_0000
}

fn check_attributes(first: &mut First, attributes: &[(usize, AttributeLine)])
    ensures { first.new.fault ≡ with_faults first.old.fault (flat_map attribute_faults attributes.now) }
{
    for a in attributes {
        first.unless(content_fits(a.1.content.as_slice()), a.0);
    }
}

fn check_constants(first: &mut First, constants: &[(usize, Constant)])
    ensures { first.new.fault ≡ with_faults first.old.fault (flat_map constant_faults constants.now) }
{
    for c in constants {
        first.unless(constant_entry(&c.1).is_some(), c.0);
    }
}

/// The major version; none where it doesn't fit.
pub(crate) fn major_of(class: &ClassLine) -> Option<u16>
    ensures { result ≡ major_of class.now }
{
    match class.major {
        Some(number) => number.pair(),
        None => Some(50),
    }
}

fn all_class_names(names: &[Seq<u8>]) -> bool
    ensures { result ≡ list_all is_class_name names.now }
{
    names.iter().all(|name| is_class_name(name.as_slice()))
}

fn class_is_good(class: &ClassLine) -> bool
    ensures { result ≡ class_is_good class.now }
{
    let interfaces = class.interfaces.as_slice();
    let name = is_class_name(class.name.as_slice());
    let super_name = is_class_name(super_of(class));
    let names = all_class_names(interfaces);
    let count = interfaces.len() < 0x1_0000;
    name && super_name && names && count && major_of(class).is_some()
}

#[tactic(auto, using(asm_lines::proofs::Faults::in_turn))]
fn check_field_list(
    alloc: Global,
    first: &mut First,
    fields: &[(usize, FieldLine)],
) -> Result<(), AllocError>
    ensures { OnOk result (first.new.fault ≡ with_faults first.old.fault (fields_faults fields.now)) }
{
    check_fields(first, fields);
    check_field_keys(alloc, first, fields)?;
    past_fields(first, fields);
    Ok(())
}

#[tactic(auto, using(asm_lines::proofs::Faults::in_turn))]
fn check_method_list(
    alloc: Global,
    first: &mut First,
    methods: &[MethodLines],
) -> Result<(), AllocError>
    ensures { OnOk result (first.new.fault ≡ with_faults first.old.fault (methods_faults methods.now)) }
{
    check_methods(alloc, first, methods)?;
    check_method_keys(alloc, first, methods)?;
    past_methods(first, methods);
    Ok(())
}

#[tactic(auto, using(asm_lines::proofs::Faults::in_turn))]
fn check_attribute_list(first: &mut First, attributes: &[(usize, AttributeLine)])
    ensures { first.new.fault ≡ with_faults first.old.fault (attributes_faults attributes.now) }
{
    check_attributes(first, attributes);
    past_attributes(first, attributes);
}

/// What the lines break beside their pool and their codes.
pub(crate) fn check_rules(
    alloc: Global,
    first: &mut First,
    line: usize,
    class: &ClassLine,
    listing: &Listing,
) -> Result<(), AllocError>
    ensures { OnOk result (first.new.fault ≡ with_faults first.old.fault (rule_faults line class.now listing.now)) }
{
    first.unless(class_is_good(class), line);
    check_field_list(alloc, first, listing.fields.as_slice())?;
    check_method_list(alloc, first, listing.methods.as_slice())?;
    check_attribute_list(first, listing.attributes.as_slice());
    check_constants(first, listing.constants.as_slice());
    Ok(())
}
