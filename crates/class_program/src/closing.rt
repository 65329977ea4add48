//! Closing: the methods that an entry reaches.
ghost use Rattle.class_world.specs.Resolve.{has_body};
ghost use Rattle.class_world.specs.Worlds.{classes_of};
ghost use Rattle.std.specs.Prelude.{◌≡◌, ◌≤◌, [], map, length, IfOk, OnOk, IsTrue, flat_map};
ghost use Rattle.std.specs.List.{list_all};
ghost use Rattle.class_program.specs.Said.{Says};
ghost use Rattle.class_program.specs.inner.Rows.{AreRows};
ghost use Rattle.class_program.specs.Runs.{runs};
ghost use Rattle.class_program.specs.Programs.{refs_of};
ghost use Rattle.class_program.specs.Statics.{fields_named, statics_of, statics_named};
ghost use Rattle.class_program.specs.Reached.{with_new, reached, methods_of, numbered, op_numbered, insns_numbered, method_numbered};
ghost use Rattle.class_program.specs.Reached.{close_of, is_closed};
ghost use Rattle.class_program.specs.Widths.{AreInWidth, AreMethodsInWidth};

use crate::insns::Instructions;
use crate::method::method_of;
use crate::op::{Call, Op};
use crate::program::{Method, Program, StaticField};
use crate::reached::MethodRefs;
use crate::runs::runs;
use crate::selections::Selections;
use crate::slots::SharedSlots;
use crate::statics::{placed_use, statics_named};
use class_world::{LinkFault, MethodRef, World};
use list_views::Seq;
use std::alloc::{AllocError, Global};

/// Puts the methods behind the list that are not in it.
fn add_all(found: &[MethodRef], refs: &mut MethodRefs) -> Result<(), AllocError>
    ensures { OnOk result (refs.new ≡ with_new refs.old found.now) }
{
    for method in found {
        refs.add(*method)?;
    }
    Ok(())
}

/// Puts the methods that instructions can run behind the list, those that are not in it.
fn add_runs(
    world: &World<'_>,
    alloc: Global,
    insns: &[(u16, Op)],
    rows: &mut Selections,
    refs: &mut MethodRefs,
) -> Result<(), AllocError>
    requires { AreRows (classes_of world.now) rows.now }
    ensures refs { OnOk result (refs.new ≡ with_new refs.old (flat_map (λ x. runs (classes_of world.now) x.1) insns.now)) }
    ensures rows { OnOk result (AreRows (classes_of world.now) rows.new) }
{
    for insn in insns {
        let found = runs(world, alloc, rows, &insn.1)?;
        add_all(found.as_slice(), refs)?;
    }
    Ok(())
}

/// Puts the methods that an entry reaches into `refs`, and what they are into `methods`, both empty before; the numbers of
/// their calls' methods are still to be put in. What classes select for their calls is put into rows.
fn reach<'a>(
    world: &World<'a>,
    alloc: Global,
    shared: &mut SharedSlots<'a>,
    rows: &mut Selections,
    refs: &mut MethodRefs,
    methods: &mut Seq<Method<'a>>,
    entry: MethodRef,
) -> Result<(), LinkFault>
    requires entry { IsTrue (has_body (classes_of world.now) entry) }
    requires rows { AreRows (classes_of world.now) rows.old }
    requires refs { refs.old ≡ [] }
    requires methods { methods.old ≡ [] }
    ensures methods { Says (λ _. methods.new) result (methods_of (classes_of world.now) (reached (classes_of world.now) entry)) }
    ensures refs { IfOk result (λ _. refs.new ≡ reached (classes_of world.now) entry) }
    ensures numbers { IfOk result (λ _. refs_of methods.new ≡ refs.new) }
    ensures bodies { IfOk result (λ _. IsTrue (list_all (has_body (classes_of world.now)) refs.new)) }
    ensures closed { IfOk result (λ _. IsTrue (is_closed (classes_of world.now) refs.new methods.new)) }
    ensures rows { IfOk result (λ _. AreRows (classes_of world.now) rows.new) }
{
    refs.add(entry)?;
    while let Some(next) = refs.get(methods.len()) {
        let method = method_of(world, alloc, shared, rows, next)?;
        add_runs(world, alloc, method.insns.as_slice(), rows, refs)?;
        methods.push(method)?;
    }
    Ok(())
}

/// The call with its method's number.
fn numbered(refs: &MethodRefs, call: Call) -> Call
    ensures { result ≡ numbered refs.now call }
{
    let target = refs.number_of(call.method);
    Call {
        class: call.class,
        method: call.method,
        params: call.params,
        result: call.result,
        target,
    }
}

/// The instruction with its method's number, or with the place of its static field.
fn op_numbered(refs: &MethodRefs, statics: &[StaticField<'_>], op: Op) -> Op
    requires { length statics.now ≤ 256 }
    ensures { result ≡ op_numbered refs.now statics.now op }
{
    match op {
        Op::Getstatic(used) => Op::Getstatic(placed_use(statics, used)),
        Op::Putstatic(used) => Op::Putstatic(placed_use(statics, used)),
        Op::Invokespecial(call) => Op::Invokespecial(numbered(refs, call)),
        Op::Invokestatic(call) => Op::Invokestatic(numbered(refs, call)),
        other => other,
    }
}

/// The instructions with the numbers of their calls' methods and the places of their static fields.
fn items_numbered(
    alloc: Global,
    refs: &MethodRefs,
    statics: &[StaticField<'_>],
    insns: Seq<(u16, Op)>,
) -> Result<Seq<(u16, Op)>, AllocError>
    requires { length statics.now ≤ 256 }
    ensures { IfOk result (λ r. r ≡ insns_numbered refs.now statics.now insns) }
{
    let mut done = Seq::with_capacity(alloc, insns.len())?;
    for (pc, op) in insns.into_vec() {
        done.push((pc, op_numbered(refs, statics, op)))?;
    }
    Ok(done)
}

/// The same at their places.
fn insns_numbered(
    alloc: Global,
    refs: &MethodRefs,
    statics: &[StaticField<'_>],
    insns: Instructions,
) -> Result<Instructions, AllocError>
    requires { length statics.now ≤ 256 }
    ensures list { IfOk result (λ r. r ≡ insns_numbered refs.now statics.now insns) }
    ensures widths { IfOk result (λ r. AreInWidth r) }
{
    let items = items_numbered(alloc, refs, statics, insns.into_seq())?;
    Ok(Instructions::new(items))
}

fn method_numbered<'a>(
    alloc: Global,
    refs: &MethodRefs,
    statics: &[StaticField<'_>],
    method: Method<'a>,
) -> Result<Method<'a>, AllocError>
    requires { length statics.now ≤ 256 }
    ensures method { IfOk result (λ r. r ≡ method_numbered refs.now statics.now method.entry) }
    ensures widths { IfOk result (λ r. AreInWidth r.insns) }
{
    Ok(Method {
        class: method.class,
        index: method.index,
        name: method.name,
        desc: method.desc,
        params: method.params,
        result: method.result,
        max_stack: method.max_stack,
        max_locals: method.max_locals,
        insns: insns_numbered(alloc, refs, statics, method.insns)?,
        table: method.table,
    })
}

/// The methods with the numbers of their calls' methods and the places of their static fields.
fn methods_numbered<'a>(
    alloc: Global,
    refs: &MethodRefs,
    statics: &[StaticField<'_>],
    methods: Seq<Method<'a>>,
) -> Result<Seq<Method<'a>>, AllocError>
    requires { length statics.now ≤ 256 }
    ensures methods { IfOk result (λ r. r ≡ map (method_numbered refs.now statics.now) methods.entry) }
    ensures widths { IfOk result (λ r. AreMethodsInWidth r) }
{
    let mut done = Seq::with_capacity(alloc, methods.len())?;
    for method in methods.into_vec() {
        done.push(method_numbered(alloc, refs, statics, method)?)?;
    }
    Ok(done)
}

/// The methods with the numbers and the places that their instructions say, and the static fields that these name.
fn placed<'a>(
    world: &World<'a>,
    alloc: Global,
    refs: &MethodRefs,
    methods: Seq<Method<'a>>,
) -> Result<(Seq<Method<'a>>, Seq<StaticField<'a>>), LinkFault>
    ensures statics { Says (λ r. r.1) result (statics_named (classes_of world.now) methods.entry) }
    ensures methods { IfOk result (λ r. r.0 ≡ map (method_numbered refs.now r.1) methods.entry) }
    ensures widths { IfOk result (λ r. AreMethodsInWidth r.0) }
{
    let statics = statics_named(world, alloc, methods.as_slice())?;
    let methods = methods_numbered(alloc, refs, statics.as_slice(), methods)?;
    Ok((methods, statics))
}

/// What is found from an entry on.
#[derive(Drop)]
struct Found<'a> {
    methods: Seq<Method<'a>>,
    refs: MethodRefs,
    selections: Selections,
}

/// What is found from an entry on, before the numbers and the places are put in.
fn find_reached<'a>(
    alloc: Global,
    world: &World<'a>,
    entry: MethodRef,
) -> Result<Found<'a>, LinkFault>
    requires { IsTrue (has_body (classes_of world.now) entry) }
    ensures methods { Says (λ found. found.methods) result (methods_of (classes_of world.now) (reached (classes_of world.now) entry)) }
    ensures refs { IfOk result (λ found. found.refs ≡ reached (classes_of world.now) entry) }
    ensures numbers { IfOk result (λ found. refs_of found.methods ≡ found.refs) }
    ensures bodies { IfOk result (λ found. IsTrue (list_all (has_body (classes_of world.now)) found.refs)) }
    ensures closed { IfOk result (λ found. IsTrue (is_closed (classes_of world.now) found.refs found.methods)) }
    ensures rows { IfOk result (λ found. AreRows (classes_of world.now) found.selections) }
{
    let mut selections = Selections::new(alloc);
    let mut refs = MethodRefs::new(alloc);
    let mut methods = Seq::new(alloc);
    let mut shared = SharedSlots::new(alloc);
    match reach(
        world,
        alloc,
        &mut shared,
        &mut selections,
        &mut refs,
        &mut methods,
        entry,
    ) {
        Ok(()) => Ok(Found {
            methods,
            refs,
            selections,
        }),
        Err(fault) => Err(fault),
    }
}

/// What a program has beside its world and its entry.
#[derive(Drop)]
struct Closure<'a> {
    methods: Seq<Method<'a>>,
    statics: Seq<StaticField<'a>>,
    refs: MethodRefs,
    selections: Selections,
}

/// What the program of an entry has beside its world.
#[tactic(auto, unfolding(crate::specs::Reached::close_of))]
fn closure_of<'a>(
    alloc: Global,
    world: &World<'a>,
    entry: MethodRef,
) -> Result<Closure<'a>, LinkFault>
    requires { IsTrue (has_body (classes_of world.now) entry) }
    ensures methods { Says (λ closure. closure.methods) result (close_of (classes_of world.now) entry) }
    ensures statics { IfOk result (λ closure. closure.statics ≡ statics_of (classes_of world.now) (fields_named closure.methods)) }
    ensures few { IfOk result (λ closure. length closure.statics ≤ 256) }
    ensures made { IfOk result (λ closure. close_of (classes_of world.now) entry ≡ Ok closure.methods) }
    ensures numbers { IfOk result (λ closure. closure.refs ≡ refs_of closure.methods) }
    ensures reaches { IfOk result (λ closure. closure.refs ≡ reached (classes_of world.now) entry) }
    ensures bodies { IfOk result (λ closure. IsTrue (list_all (has_body (classes_of world.now)) closure.refs)) }
    ensures rows { IfOk result (λ closure. AreRows (classes_of world.now) closure.selections) }
    ensures whole { IfOk result (λ closure. IsTrue (is_closed (classes_of world.now) closure.refs closure.methods)) }
    ensures widths { IfOk result (λ closure. AreMethodsInWidth closure.methods) }
{
    let found = match find_reached(alloc, world, entry) {
        Ok(found) => found,
        Err(fault) => return Err(fault),
    };
    let Found {
        methods,
        refs,
        selections,
    } = found;
    match placed(world, alloc, &refs, methods) {
        Ok((methods, statics)) => Ok(Closure {
            methods,
            statics,
            refs,
            selections,
        }),
        Err(fault) => Err(fault),
    }
}

impl<'a> Program<'a> {
    /// The world with the methods that an entry reaches, the entry first.
    ///
    /// Behind the entry stand the methods that calls can run, breadth first: calls by their place in the code, and of a
    /// call that selects its method the possible receivers by their classes' numbers. Every instruction of a reached
    /// method counts.
    ///
    /// # Errors
    ///
    /// The first rule that the first method in that order breaks of those that break any: of a method, [`LinkFault::StaticInit`]
    /// of its class, [`LinkFault::Native`], [`LinkFault::Synchronized`], a type of its descriptor, [`LinkFault::Code`], an
    /// instruction by its place, a caught class that is missing. After these [`LinkFault::TooManyStatics`], exactly where more
    /// than 256 static fields are named. Or want of memory, which also stands for more than
    /// 4,294,967,280 methods.
    pub fn close(
        alloc: Global,
        world: World<'a>,
        entry: MethodRef,
    ) -> Result<Program<'a>, LinkFault>
        requires { IsTrue (has_body (classes_of world) entry) }
        ensures methods { Says (λ program. program.methods) result (close_of (classes_of world.entry) entry) }
        ensures world { IfOk result (λ program. program.world ≡ world.entry) }
        ensures entry { IfOk result (λ program. program.entry ≡ entry) }
        ensures statics { IfOk result (λ program. program.statics ≡ statics_of (classes_of world.entry) (fields_named program.methods)) }
    {
        match closure_of(alloc, &world, entry) {
            Ok(closure) => Ok(Program {
                world,
                entry,
                methods: closure.methods,
                statics: closure.statics,
                refs: closure.refs,
                selections: closure.selections,
            }),
            Err(fault) => Err(fault),
        }
    }
}
