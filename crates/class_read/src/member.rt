//! Fields and methods.

ghost use Rattle.std.specs.Prelude.{◌≡◌, IfOk, [], map, Ok, Some};
ghost use Rattle.class_pool.specs.Text.{utf8_at};
ghost use Rattle.class_read.specs.inner.Numbers.{keys_in, AreNumbers, Joins};
ghost use Rattle.class_read.specs.Reading.{Gives, repeated};
ghost use Rattle.class_read.specs.View.{field_content, method_content};
ghost use Rattle.class_read.specs.Rules.{has_code};
ghost use Rattle.class_read.specs.FirstFault.{descriptor_at, new_descriptor_at, head_at, field_at, method_at, more_fields_at};
ghost use Rattle.class_read.specs.FirstFault.{more_methods_at, fields_at, methods_at};

use crate::attribute::{attributes, indexed_text};
use crate::fault::ClassFault;
use crate::field::{place, u2};
use crate::known::KnownPool;
use crate::method;
use crate::seen::SeenMembers;
use crate::view::{FieldView, MethodView};
use class_base::list_views::Seq;
use class_base::{ABSTRACT, MemberKind, NATIVE, has_flag};
use std::alloc::Global;

/// The descriptor of such a member: the index of its entry, and the text.
fn descriptor<'a>(
    total: usize,
    pool: &KnownPool<'a>,
    kind: MemberKind,
    flags: u16,
    bytes: &'a [u8],
) -> Result<((u16, &'a [u8]), &'a [u8]), ClassFault>
    ensures desc { Gives (λ x. (x.0.1.now, x.1.now)) result (descriptor_at total pool.now kind flags bytes.now) }
    ensures index { IfOk result (λ x. utf8_at pool.now x.0.0 ≡ Some x.0.1.now) }
{
    let (index, rest) = u2(total, bytes)?;
    let Some(desc) = pool.utf8(index) else {
        return Err(ClassFault::BadDescriptor {
            at: place(total, bytes),
        });
    };
    if !pool.describes(kind, flags, index) {
        return Err(ClassFault::BadDescriptor {
            at: place(total, bytes),
        });
    }
    Ok(((index, desc), rest))
}

/// The descriptor of a member whose name, the text of the entry `index`, and descriptor no earlier one has. The member
/// joins those.
fn new_descriptor<'a>(
    total: usize,
    pool: &KnownPool<'a>,
    kind: MemberKind,
    seen: &mut SeenMembers,
    flags: u16,
    index: u16,
    name: &'a [u8],
    bytes: &'a [u8],
) -> Result<(&'a [u8], &'a [u8]), ClassFault>
    requires numbers { AreNumbers pool.now seen.old }
    requires name { utf8_at pool.now index ≡ Some name.now }
    ensures desc { Gives (λ x. (x.0.now, x.1.now)) result
        (new_descriptor_at total pool.now kind (keys_in pool.now seen.old) flags name.now bytes.now) }
    ensures joins { IfOk result (λ x. Joins pool.now seen.old seen.new (name.now, x.0.now)) }
{
    let ((desc_index, desc), rest) = descriptor(total, pool, kind, flags, bytes)?;
    if !seen.add(pool, index, desc_index)? {
        return Err(ClassFault::DuplicateMember {
            at: place(total, bytes),
        });
    }
    Ok((desc, rest))
}

/// A member up to its attributes. It joins those that were seen.
#[tactic(auto, unfolding(crate::specs::FirstFault::head_at))]
fn head<'a>(
    total: usize,
    pool: &KnownPool<'a>,
    kind: MemberKind,
    seen: &mut SeenMembers,
    bytes: &'a [u8],
) -> Result<(FieldView<'a>, &'a [u8]), ClassFault>
    requires { AreNumbers pool.now seen.old }
    ensures head { Gives (λ x. (field_content x.0, x.1.now)) result (head_at total pool.now kind (keys_in pool.now seen.old) bytes.now) }
    ensures joins { IfOk result (λ x. Joins pool.now seen.old seen.new (x.0.name.now, x.0.desc.now)) }
{
    let (flags, rest) = u2(total, bytes)?;
    let ((index, name), rest) = indexed_text(total, pool, rest)?;
    let (desc, rest) = new_descriptor(total, pool, kind, seen, flags, index, name, rest)?;
    Ok((FieldView { flags, name, desc }, rest))
}

/// A field. It joins those that were seen.
#[tactic(auto, unfolding(crate::specs::FirstFault::field_at))]
fn field<'a>(
    total: usize,
    pool: &KnownPool<'a>,
    seen: &mut SeenMembers,
    bytes: &'a [u8],
) -> Result<(FieldView<'a>, &'a [u8]), ClassFault>
    requires { AreNumbers pool.now seen.old }
    ensures field { Gives (λ x. (field_content x.0, x.1.now)) result (field_at total pool.now (keys_in pool.now seen.old) bytes.now) }
    ensures joins { IfOk result (λ x. Joins pool.now seen.old seen.new (x.0.name.now, x.0.desc.now)) }
{
    let (field, rest) = head(total, pool, MemberKind::Field, seen, bytes)?;
    let rest = attributes(total, pool, rest)?;
    Ok((field, rest))
}

pub(crate) fn has_code(flags: u16) -> bool
    ensures { result ≡ has_code flags }
{
    !(has_flag(flags, ABSTRACT) || has_flag(flags, NATIVE))
}

/// A method. It joins those that were seen.
#[tactic(auto, unfolding(crate::specs::FirstFault::method_at))]
fn method<'a>(
    alloc: Global,
    total: usize,
    pool: &KnownPool<'a>,
    seen: &mut SeenMembers,
    bytes: &'a [u8],
) -> Result<(MethodView<'a>, &'a [u8]), ClassFault>
    requires { AreNumbers pool.now seen.old }
    ensures method { Gives (λ x. (method_content x.0, x.1.now)) result (method_at total pool.now (keys_in pool.now seen.old) bytes.now) }
    ensures joins { IfOk result (λ x. Joins pool.now seen.old seen.new (x.0.name.now, x.0.desc.now)) }
{
    let (head, rest) = head(total, pool, MemberKind::Method, seen, bytes)?;
    let (code, rest) = method::attributes(alloc, total, pool, has_code(head.flags), rest)?;
    let view = MethodView {
        flags: head.flags,
        name: head.name,
        desc: head.desc,
        code,
    };
    Ok((view, rest))
}

fn field_times<'a>(
    total: usize,
    pool: &KnownPool<'a>,
    seen: &mut SeenMembers,
    fields: &mut Seq<FieldView<'a>>,
    count: u16,
    bytes: &'a [u8],
) -> Result<&'a [u8], ClassFault>
    requires seen { seen.old ≡ [] }
    requires fields { fields.old ≡ [] }
    ensures { Gives (λ x. (map field_content fields.new, x.now)) result (repeated (more_fields_at total pool.now) count [] bytes.now) }
{
    let mut rest = bytes;
    'fields: for _ in 0..count {
        let (more, after) = field(total, pool, seen, rest)?;
        fields.push(more)?;
        rest = after;
    }
    Ok(rest)
}

/// The fields of a class, into a list that is empty before.
#[tactic(auto, unfolding(crate::specs::FirstFault::fields_at))]
pub(crate) fn fields<'a>(
    alloc: Global,
    total: usize,
    pool: &KnownPool<'a>,
    fields: &mut Seq<FieldView<'a>>,
    bytes: &'a [u8],
) -> Result<&'a [u8], ClassFault>
    requires { fields.old ≡ [] }
    ensures { Gives (λ x. (map field_content fields.new, x.now)) result (fields_at total pool.now bytes.now) }
{
    let (count, rest) = u2(total, bytes)?;
    let mut seen = SeenMembers::new(alloc);
    field_times(total, pool, &mut seen, fields, count, rest)
}

fn method_times<'a>(
    alloc: Global,
    total: usize,
    pool: &KnownPool<'a>,
    seen: &mut SeenMembers,
    methods: &mut Seq<MethodView<'a>>,
    count: u16,
    bytes: &'a [u8],
) -> Result<&'a [u8], ClassFault>
    requires seen { seen.old ≡ [] }
    requires methods { methods.old ≡ [] }
    ensures { Gives (λ x. (map method_content methods.new, x.now)) result (repeated (more_methods_at total pool.now) count [] bytes.now) }
{
    let mut rest = bytes;
    'methods: for _ in 0..count {
        let (more, after) = method(alloc, total, pool, seen, rest)?;
        methods.push(more)?;
        rest = after;
    }
    Ok(rest)
}

/// The methods of a class, into a list that is empty before.
#[tactic(auto, unfolding(crate::specs::FirstFault::methods_at))]
pub(crate) fn methods<'a>(
    alloc: Global,
    total: usize,
    pool: &KnownPool<'a>,
    methods: &mut Seq<MethodView<'a>>,
    bytes: &'a [u8],
) -> Result<&'a [u8], ClassFault>
    requires { methods.old ≡ [] }
    ensures { Gives (λ x. (map method_content methods.new, x.now)) result (methods_at total pool.now bytes.now) }
{
    let (count, rest) = u2(total, bytes)?;
    let mut seen = SeenMembers::new(alloc);
    method_times(alloc, total, pool, &mut seen, methods, count, rest)
}
