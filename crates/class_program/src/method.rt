//! One method: what it is once its names are resolved, or the first rule that it breaks.
ghost use Rattle.class_world.specs.Worlds.{classes_of};
ghost use Rattle.std.specs.Prelude.{◌≡◌, ◌≢◌, ◌⊎◌, ◌<◌, ◌^◌, length, Some, IfOk, IsTrue};
ghost use Rattle.class_world.specs.declared.fault.LinkFault.TheVariants.{Code, Memory};
ghost use Rattle.class_world.specs.code_forms.declared.fault.CodeFault.TheVariants as faults;
ghost use Rattle.code_decode.specs.Codes.{decode_of};
ghost use Rattle.code_decode.specs.Encoding.{IsCode};
ghost use Rattle.class_world.specs.class_read.Rules.{name_of};
ghost use Rattle.class_world.specs.class_read.Content.{MethodContent};
ghost use Rattle.class_world.specs.class_read.View.{method_content, code_content};
ghost use Rattle.class_world.specs.Linking.{Refuses, has_short_code};
ghost use Rattle.class_program.specs.Said.{Says};
ghost use Rattle.class_program.specs.Ops.{pool_of};
ghost use Rattle.class_program.specs.inner.Rows.{AreRows};
ghost use Rattle.class_world.specs.Resolve.{method_at, has_body};
ghost use Rattle.class_program.specs.Methods.{method_name, static_init, code_of, synchronized, own_types, in_method, table_said};
ghost use Rattle.class_program.specs.Methods.{insns_of, op_said, ops_of, caught, catch_of, range_of, table_of, with_receiver};
ghost use Rattle.class_program.specs.Methods.{coded_of, named_of, method_of};
ghost use Rattle.class_program.specs.Widths.{constant_in, IsConstantInWidth, AreInWidth};

use crate::insns::Instructions;
use crate::op::Op;
use crate::ops::{fault_at, op_of};
use crate::program::{CatchRange, Method};
use crate::selections::Selections;
use crate::signature::{Signature, declared_signature};
use crate::slots::SharedSlots;
use class_world::class_base::{Handler, NATIVE, STATIC, SYNCHRONIZED, has_flag};
use class_world::class_pool::Pool;
use class_world::class_read::{CodeView, MethodView};
use class_world::code_forms::{CodeFault, Insn, check_table};
use class_world::{LinkFault, MethodName, MethodRef, World};
use code_decode::decode;
use jvm_values::{Base, Slot, Ty};
use list_views::{Bytes, Seq};
use std::alloc::{AllocError, Global};

/// The code of a method that isn't native.
#[tactic(auto, unfolding(crate::specs::Methods::code_of))]
fn code_of<'v, 'a>(
    alloc: Global,
    name: &MethodName,
    view: &'v MethodView<'a>,
) -> Result<&'v CodeView<'a>, LinkFault>
    requires { IsTrue (has_short_code (method_content view.now)) }
    ensures code { Says (λ code. code_content code.now) result (code_of name.now (method_content view.now)) }
    ensures short { IfOk result (λ code. length code.now.code.now < 2 ^ 16) }
{
    if has_flag(view.flags, NATIVE) {
        return Err(LinkFault::Native {
            method: name.copy(alloc)?,
        });
    }
    match &view.code {
        Some(code) => Ok(code),
        None => Err(LinkFault::Native {
            method: name.copy(alloc)?,
        }),
    }
}

/// The method isn't synchronized.
#[tactic(auto, unfolding(crate::specs::Methods::synchronized))]
fn not_synchronized(
    alloc: Global,
    name: &MethodName,
    view: &MethodView<'_>,
) -> Result<(), LinkFault>
    ensures { Refuses result (synchronized name.now (method_content view.now)) }
{
    if has_flag(view.flags, SYNCHRONIZED) {
        return Err(LinkFault::Synchronized {
            method: name.copy(alloc)?,
        });
    }
    Ok(())
}

/// The fault of a method's code as one of linking.
fn code_fault(alloc: Global, name: &MethodName, fault: CodeFault) -> LinkFault
    ensures { (result ≡ Memory) ⊎ ((fault ≢ faults.Memory) × (result ≡ Code name.now fault)) }
{
    match fault {
        CodeFault::Memory => LinkFault::Memory,
        fault => match name.copy(alloc) {
            Ok(method) => LinkFault::Code { method, fault },
            Err(_) => LinkFault::Memory,
        },
    }
}

/// The instructions of a code.
fn decoded(alloc: Global, name: &MethodName, code: &[u8]) -> Result<Vec<(u16, Insn)>, LinkFault>
    requires { length code.now < 2 ^ 16 }
    ensures insns { Says (λ insns. insns.items) result (in_method name.now (decode_of code.now)) }
    ensures code { IfOk result (λ insns. IsCode insns.items) }
{
    match decode(alloc, code) {
        Ok(insns) => Ok(insns),
        Err(fault) => Err(code_fault(alloc, name, fault)),
    }
}

/// The boundaries of the exception table are good.
fn has_good_table(
    alloc: Global,
    name: &MethodName,
    code: &CodeView<'_>,
    insns: &[(u16, Insn)],
) -> Result<(), LinkFault>
    requires { length code.now.code.now < 2 ^ 16 }
    ensures { Says (λ x. x) result (in_method name.now (table_said (code_content code.now) insns.now)) }
{
    match check_table(alloc, insns, code.code.len() as u32, code.table.as_slice()) {
        Ok(()) => Ok(()),
        Err(fault) => Err(code_fault(alloc, name, fault)),
    }
}

/// The instructions of a code whose exception table is good.
#[tactic(auto, unfolding(crate::specs::Methods::insns_of))]
fn insns_of(
    alloc: Global,
    name: &MethodName,
    code: &CodeView<'_>,
) -> Result<Vec<(u16, Insn)>, LinkFault>
    requires { length code.now.code.now < 2 ^ 16 }
    ensures insns { Says (λ insns. insns.items) result (insns_of name.now (code_content code.now)) }
    ensures code { IfOk result (λ insns. IsCode insns.items) }
{
    let insns = decoded(alloc, name, code.code)?;
    has_good_table(alloc, name, code, &insns)?;
    Ok(insns)
}

/// The names of a method that a class declares.
fn method_name(
    world: &World<'_>,
    alloc: Global,
    class: u32,
    view: &MethodView<'_>,
) -> Result<MethodName, AllocError>
    requires { class < length (classes_of world.now) }
    ensures { IfOk result (λ name. name ≡ method_name (classes_of world.now) class (method_content view.now)) }
{
    Ok(MethodName {
        class: Seq::from_slice(alloc, world.name_of(class))?,
        name: Seq::from_slice(alloc, view.name)?,
        desc: Seq::from_slice(alloc, view.desc)?,
    })
}

/// The instructions with their names resolved.
fn ops_of<'a>(
    world: &World<'a>,
    alloc: Global,
    shared: &mut SharedSlots<'a>,
    rows: &mut Selections,
    class: u32,
    name: &MethodName,
    insns: Vec<(u16, Insn)>,
) -> Result<Seq<(u16, Op)>, LinkFault>
    requires class { class < length (classes_of world.now) }
    requires rows { AreRows (classes_of world.now) rows.now }
    requires code { IsCode insns.items }
    ensures ops { Says (λ ops. ops) result (ops_of (classes_of world.now) class name.now insns.items) }
    ensures widths { IfOk result (λ ops. AreInWidth ops) }
    ensures rows { IfOk result (λ _. AreRows (classes_of world.now) rows.new) }
{
    let mut ops = Seq::with_capacity(alloc, insns.len())?;
    for insn in insns {
        ops.push(op_said(world, alloc, shared, rows, class, name, insn)?)?;
    }
    Ok(ops)
}

/// Neither the class nor one above it has a static initialiser.
#[tactic(auto, unfolding(crate::specs::Methods::static_init))]
fn keeps_static_init(world: &World<'_>, alloc: Global, class: u32) -> Result<(), LinkFault>
    requires { class < length (classes_of world.now) }
    ensures { Refuses result (static_init (classes_of world.now) class) }
{
    match world.first_static_init(class) {
        Some(name) => Err(LinkFault::StaticInit {
            name: Seq::from_slice(alloc, name)?,
        }),
        None => Ok(()),
    }
}

/// What the method's descriptor means.
#[tactic(auto, unfolding(crate::specs::Methods::own_types))]
fn own_types(
    world: &World<'_>,
    alloc: Global,
    name: &MethodName,
    desc: &[u8],
) -> Result<Signature, LinkFault>
    ensures { Says (λ types. types) result (own_types (classes_of world.now) name.now desc.now) }
{
    match declared_signature(world, alloc, desc) {
        Ok(types) => Ok(types),
        Err(refusal) => Err(fault_at(alloc, name, 0, refusal)?),
    }
}

/// The int that an instruction pushes, where the pool has it.
fn constant(op: &Op) -> Option<i32>
    ensures { result ≡ constant_in op.now }
{
    match op {
        Op::Constant(value) => Some(*value),
        _ => None,
    }
}

/// An int constant is one of 32 bits.
#[tactic(auto, using(crate::proofs::InWidth::constant_held))]
fn is_constant_in_width(op: &Op)
    ensures { IsConstantInWidth op.now }
{
    match constant(op) {
        Some(_) => {}
        None => {}
    }
}

/// An instruction and its place, with its names resolved.
#[tactic(auto, unfolding(crate::specs::Methods::op_said))]
fn op_said<'a>(
    world: &World<'a>,
    alloc: Global,
    shared: &mut SharedSlots<'a>,
    rows: &mut Selections,
    class: u32,
    name: &MethodName,
    insn: (u16, Insn),
) -> Result<(u16, Op), LinkFault>
    requires class { class < length (classes_of world.now) }
    requires rows { AreRows (classes_of world.now) rows.now }
    ensures op { Says (λ op. op) result (op_said (classes_of world.now) class name.now insn) }
    ensures width { IfOk result (λ op. IsConstantInWidth op.1) }
    ensures rows { IfOk result (λ _. AreRows (classes_of world.now) rows.new) }
{
    let (pc, insn) = insn;
    let op = op_of(world, alloc, rows, class, name, pc, insn)?;
    is_constant_in_width(&op);
    Ok((pc, shared.shared_op(world, op)?))
}

/// The class of a name, which must be there.
fn caught(world: &World<'_>, alloc: Global, name: &[u8]) -> Result<Option<u32>, LinkFault>
    ensures { Says (λ class. class) result (caught (classes_of world.now) name.now) }
{
    match world.class_of(name) {
        Some(class) => Ok(Some(class)),
        None => Err(LinkFault::MissingClass {
            name: Seq::from_slice(alloc, name)?,
        }),
    }
}

/// The class that a range catches.
#[tactic(auto, unfolding(crate::specs::Methods::catch_of))]
fn catch_of(
    world: &World<'_>,
    alloc: Global,
    pool: &Pool<'_>,
    entry: u16,
) -> Result<Option<u32>, LinkFault>
    ensures { Says (λ class. class) result (catch_of (classes_of world.now) pool.now entry) }
{
    if entry == 0 {
        return Ok(None);
    }
    caught(world, alloc, class_name(pool, entry))
}

/// The exception table with the caught classes' numbers.
fn table_of(
    world: &World<'_>,
    alloc: Global,
    pool: &Pool<'_>,
    table: &[Handler],
) -> Result<Seq<CatchRange>, LinkFault>
    ensures { Says (λ ranges. ranges) result (table_of (classes_of world.now) pool.now table.now) }
{
    let mut ranges = Seq::with_capacity(alloc, table.len())?;
    for entry in table {
        ranges.push(range_of(world, alloc, pool, entry)?)?;
    }
    Ok(ranges)
}

/// An entry of an exception table, with the number of the caught class.
#[tactic(auto, unfolding(crate::specs::Methods::range_of))]
fn range_of(
    world: &World<'_>,
    alloc: Global,
    pool: &Pool<'_>,
    entry: &Handler,
) -> Result<CatchRange, LinkFault>
    ensures { Says (λ range. range) result (range_of (classes_of world.now) pool.now entry.now) }
{
    let catch = catch_of(world, alloc, pool, entry.catch)?;
    Ok(CatchRange {
        start: entry.start,
        end: entry.end,
        handler: entry.handler,
        catch,
    })
}

/// The constant pool of a class.
fn pool<'w, 'a>(world: &'w World<'a>, class: u32) -> &'w Pool<'a>
    requires { class < length (classes_of world.now) }
    ensures { result.now ≡ pool_of (classes_of world.now) class }
{
    let view = world.view(class);
    &view.pool
}

/// The method whose parameters and result are known, with its instructions and its exception table.
#[tactic(auto, unfolding(crate::specs::Methods::coded_of))]
fn coded<'a>(
    world: &World<'a>,
    alloc: Global,
    shared: &mut SharedSlots<'a>,
    rows: &mut Selections,
    method: MethodRef,
    name: &MethodName,
    view: &MethodView<'a>,
    code: &CodeView<'a>,
    types: &Signature,
) -> Result<Method<'a>, LinkFault>
    requires class { method.class < length (classes_of world.now) }
    requires short { length code.now.code.now < 2 ^ 16 }
    requires rows { AreRows (classes_of world.now) rows.now }
    ensures method { Says (λ m. m) result
        (coded_of (classes_of world.now) method name.now (method_content view.now) (code_content code.now) types.now) }
    ensures rows { IfOk result (λ _. AreRows (classes_of world.now) rows.new) }
{
    let class = method.class;
    let insns = insns_of(alloc, name, code)?;
    let insns = ops_of(world, alloc, shared, rows, class, name, insns)?;
    let table = table_of(world, alloc, pool(world, class), code.table.as_slice())?;
    Ok(Method {
        class,
        index: method.index,
        name: Bytes::new(view.name),
        desc: Bytes::new(view.desc),
        params: with_receiver(alloc, class, view.flags, types.params.as_slice())?,
        result: types.result,
        max_stack: code.max_stack,
        max_locals: code.max_locals,
        insns: Instructions::new(insns),
        table,
    })
}

/// The method of these names, in a class that may be initialised.
#[tactic(auto, unfolding(crate::specs::Methods::named_of))]
fn named<'a>(
    world: &World<'a>,
    alloc: Global,
    shared: &mut SharedSlots<'a>,
    rows: &mut Selections,
    method: MethodRef,
    name: &MethodName,
    view: &MethodView<'a>,
) -> Result<Method<'a>, LinkFault>
    requires class { method.class < length (classes_of world.now) }
    requires short { IsTrue (has_short_code (method_content view.now)) }
    requires rows { AreRows (classes_of world.now) rows.now }
    ensures method { Says (λ m. m) result (named_of (classes_of world.now) method name.now (method_content view.now)) }
    ensures rows { IfOk result (λ _. AreRows (classes_of world.now) rows.new) }
{
    let code = code_of(alloc, name, view)?;
    not_synchronized(alloc, name, view)?;
    let types = own_types(world, alloc, name, view.desc)?;
    coded(world, alloc, shared, rows, method, name, view, code, &types)
}

/// The method of that class and place, whose calls have no numbers yet, or the first rule that it breaks.
#[tactic(auto, unfolding(crate::specs::Methods::method_of))]
fn declared<'a>(
    world: &World<'a>,
    alloc: Global,
    shared: &mut SharedSlots<'a>,
    rows: &mut Selections,
    method: MethodRef,
    view: &MethodView<'a>,
) -> Result<Method<'a>, LinkFault>
    requires class { method.class < length (classes_of world.now) }
    requires short { IsTrue (has_short_code (method_content view.now)) }
    requires rows { AreRows (classes_of world.now) rows.now }
    ensures method { Says (λ m. m) result (method_of (classes_of world.now) method (method_content view.now)) }
    ensures rows { IfOk result (λ _. AreRows (classes_of world.now) rows.new) }
{
    keeps_static_init(world, alloc, method.class)?;
    let name = method_name(world, alloc, method.class, view)?;
    named(world, alloc, shared, rows, method, &name, view)
}

/// A method of the world, whose calls have no numbers yet, or the first rule that it breaks.
pub(crate) fn method_of<'a>(
    world: &World<'a>,
    alloc: Global,
    shared: &mut SharedSlots<'a>,
    rows: &mut Selections,
    method: MethodRef,
) -> Result<Method<'a>, LinkFault>
    requires body { IsTrue (has_body (classes_of world.now) method) }
    requires rows { AreRows (classes_of world.now) rows.now }
    ensures method { (content : MethodContent) → method_at (classes_of world.now) method ≡ Some content
        → Says (λ m. m) result (method_of (classes_of world.now) method content) }
    ensures rows { IfOk result (λ _. AreRows (classes_of world.now) rows.new) }
{
    match world.method_at(method) {
        Some(view) => declared(world, alloc, shared, rows, method, view),
        None => Err(LinkFault::Memory),
    }
}

/// The name that a Class entry says.
fn class_name<'a>(pool: &Pool<'a>, entry: u16) -> &'a [u8]
    ensures { result.now ≡ name_of pool.now entry }
{
    match pool.class_name(entry) {
        Some(name) => name,
        None => &[],
    }
}

/// The parameters, and before them the receiver of an instance method.
fn with_receiver(
    alloc: Global,
    class: u32,
    flags: u16,
    params: &[Slot],
) -> Result<Seq<Slot>, AllocError>
    ensures { IfOk result (λ slots. slots ≡ with_receiver class flags params.now) }
{
    if has_flag(flags, STATIC) {
        return Seq::from_slice(alloc, params);
    }
    let mut slots = Seq::with_capacity(alloc, params.len())?;
    slots.push(Slot::Ref(Ty {
        dims: 0,
        base: Base::Class(class),
    }))?;
    slots.extend_from_slice(params)?;
    Ok(slots)
}
