//! The static fields of a program.
ghost use Rattle.class_world.specs.Worlds.{classes_of};
ghost use Rattle.std.specs.Prelude.{◌≡◌, ◌<◌, ◌≤◌, ◌++◌, [], length, IfOk, OnOk};
ghost use Rattle.class_world.specs.Resolve.{is_static_field};
ghost use Rattle.class_program.specs.Said.{Says};
ghost use Rattle.class_program.specs.Statics.{field_count, has_field, with_field, SameFields, field_named, fields_in, fields_named};
ghost use Rattle.class_program.specs.Statics.{static_at, statics_in, statics_of, statics_named, is_field, static_place, placed_use};

use crate::op::{FieldRef, Op, StaticUse};
use crate::program::{Method, StaticField};
use class_world::class_base::{STATIC, has_flag};
use class_world::{LinkFault, World};
use indexmap::IndexSet;
use list_views::{Bytes, Seq};
use std::alloc::{AllocError, Global};
use std::marker::Model;

/// The most static fields that a program may have.
const MOST: usize = 256;

/// Fields of a world, each once, found through an index. It is seen as their list.
#[derive(Drop)]
struct FieldRefs {
    refs: IndexSet<FieldRef>,
}

impl Model for FieldRefs {
    ghost use Rattle.std.specs.Prelude.{List};
    ghost use Rattle.class_program.specs.declared.op.FieldRef.{FieldRef};

    ghost Value = { List FieldRef };

    ghost view = { λ s. s.refs.keys };
}

impl FieldRefs {
    fn new(alloc: Global) -> FieldRefs
        ensures { result ≡ [] }
    {
        FieldRefs {
            refs: IndexSet::new(alloc),
        }
    }

    /// Puts a field at the end, unless it is there already.
    fn add(&mut self, field: FieldRef) -> Result<(), AllocError>
        ensures { OnOk result (self.new ≡ with_field self.old field) }
    {
        self.refs.insert_full(field)?;
        Ok(())
    }

    /// Whether a field is there.
    fn has(&self, field: FieldRef) -> bool
        ensures { result ≡ has_field self.now field }
    {
        self.refs.contains(&field)
    }
}

/// The static field that an instruction names.
fn field_named(op: &Op) -> Option<FieldRef>
    ensures { result ≡ field_named op.now }
{
    match op {
        Op::Getstatic(used) => Some(used.field),
        Op::Putstatic(used) => Some(used.field),
        _ => None,
    }
}

/// Puts the static fields that instructions name behind the list, those that are not in it.
fn add_fields(insns: &[(u16, Op)], fields: &mut FieldRefs) -> Result<(), AllocError>
    ensures { OnOk result (SameFields fields.new (fields.old ++ fields_in insns.now)) }
{
    for insn in insns {
        if let Some(field) = field_named(&insn.1) {
            fields.add(field)?;
        }
    }
    Ok(())
}

/// The static fields that the instructions of methods name.
fn fields_named(alloc: Global, methods: &[Method<'_>]) -> Result<FieldRefs, AllocError>
    ensures { IfOk result (λ fields. SameFields fields (fields_named methods.now)) }
{
    let mut fields = FieldRefs::new(alloc);
    for method in methods {
        add_fields(method.insns.as_slice(), &mut fields)?;
    }
    Ok(fields)
}

/// Whether the field of that class and place is there, and static.
pub(crate) fn is_static_field(world: &World<'_>, class: u32, index: u32) -> bool
    ensures { result ≡ is_static_field (classes_of world.now) class index }
{
    match world.field_at(class, index) {
        Some(field) => has_flag(field.flags, STATIC),
        None => false,
    }
}

/// How many fields a class declares; none past the classes.
fn field_count(world: &World<'_>, class: u32) -> usize
    ensures count { result ≡ field_count (classes_of world.now) class }
    ensures few { result < 65536 }
{
    if (class as usize) < world.len() {
        let view = world.view(class);
        view.fields.len()
    } else {
        0
    }
}

/// The field at a place of a class's file, where it is static and one of the named ones.
#[tactic(auto, unfolding(crate::specs::Statics::static_at))]
fn static_at<'a>(
    world: &World<'a>,
    named: &FieldRefs,
    class: u32,
    index: u32,
) -> Option<StaticField<'a>>
    ensures { result ≡ static_at (classes_of world.now) named.now class index }
{
    if !is_static_field(world, class, index) || !named.has(FieldRef { class, index }) {
        return None;
    }
    let field = world.field_at(class, index)?;
    let slot = world.slot_of(field.desc)?;
    Some(StaticField {
        class,
        index,
        name: Bytes::new(field.name),
        desc: Bytes::new(field.desc),
        slot,
    })
}

/// Puts the named static fields of a class behind the list, in file order.
#[tactic(auto, unfolding(crate::specs::Statics::statics_in))]
fn add_statics<'a>(
    world: &World<'a>,
    named: &FieldRefs,
    class: u32,
    statics: &mut Seq<StaticField<'a>>,
) -> Result<(), AllocError>
    ensures { OnOk result (statics.new ≡ statics.old ++ statics_in (classes_of world.now) named.now class) }
{
    for index in 0..field_count(world, class) {
        let index = index as u32;
        if let Some(found) = static_at(world, named, class, index) {
            statics.push(found)?;
        }
    }
    Ok(())
}

/// The named static fields, class by class.
#[tactic(auto, unfolding(crate::specs::Statics::statics_of))]
fn statics_of<'a>(
    world: &World<'a>,
    alloc: Global,
    named: &FieldRefs,
) -> Result<Seq<StaticField<'a>>, AllocError>
    ensures { IfOk result (λ statics. statics ≡ statics_of (classes_of world.now) named.now) }
{
    let mut statics = Seq::new(alloc);
    for class in 0..world.len() {
        let class = class as u32;
        add_statics(world, named, class, &mut statics)?;
    }
    Ok(statics)
}

/// The static fields that the instructions of methods name, each once, by class number and then in file order.
///
/// # Errors
///
/// `TooManyStatics` where there are more than 256, or want of memory.
pub(crate) fn statics_named<'a>(
    world: &World<'a>,
    alloc: Global,
    methods: &[Method<'a>],
) -> Result<Seq<StaticField<'a>>, LinkFault>
    ensures { Says (λ statics. statics) result (statics_named (classes_of world.now) methods.now) }
{
    let named = fields_named(alloc, methods)?;
    let statics = statics_of(world, alloc, &named)?;
    if statics.len() > MOST {
        return Err(LinkFault::TooManyStatics);
    }
    Ok(statics)
}

fn is_field(field: FieldRef, found: &StaticField<'_>) -> bool
    ensures { result ≡ is_field field found.now }
{
    field.class == found.class && field.index == found.index
}

/// How many of the static fields stand before a field.
fn static_place(statics: &[StaticField<'_>], field: FieldRef) -> u32
    requires { length statics.now ≤ 256 }
    ensures { result ≡ static_place statics.now field }
{
    let mut place: u32 = 0;
    for found in statics {
        if is_field(field, found) {
            return place;
        }
        place += 1;
    }
    place
}

/// The named static field with its place among those of the program.
pub(crate) fn placed_use(statics: &[StaticField<'_>], used: StaticUse) -> StaticUse
    requires { length statics.now ≤ 256 }
    ensures { result ≡ placed_use statics.now used }
{
    StaticUse {
        field: used.field,
        place: static_place(statics, used.field),
    }
}
