//! Certificates.
ghost use Rattle.std.specs.Prelude.{◌≡◌, ◌<◌, ◌≤◌, ◌&&◌, [], map, length, slice_get, false, Ok, IfOk, OnOk, IsTrue};
ghost use Rattle.std.specs.Option.{unwrap_or};
ghost use Rattle.std.specs.List.{list_all};
ghost use Rattle.json_view.specs.Answers.{Reads};
ghost use Rattle.serde_json.specs.Data.{depth};
ghost use Rattle.serde_json.specs.View.{view};
ghost use Rattle.serde_json.specs.Written.{compact_text, has_float};
ghost use Rattle.class_base.specs.ClassNames.{is_class_name};
ghost use Rattle.cert_form.specs.Certificates.{cert_of, SaysOf};
ghost use Rattle.cert_form.specs.cert_write.Data.{list, node, parts_from, form_number, certificate_in, certificate_of, content_in};
ghost use Rattle.cert_form.specs.cert_write.Readable.{IsReadable, IsReadableGraph};
ghost use Rattle.cert_form.specs.cert_write.inner.Nodes.{IsPut};

use crate::cert_write::types::Words;
use crate::cert_write::{lists, nodes};
use crate::{ClassNames, NamedNodes};
use abs_cells::Pairs;
use descent::Proof;
use list_views::Seq;
use serde_json::{Map, Value, push, put};
use std::alloc::{AllocError, Global};
use term_graph::{NodeSource, PartSource};

/// Whether a node is written without its state.
fn lacks(second: bool, named: &NamedNodes, n: usize) -> bool
    ensures { result ≡ (second && unwrap_or (slice_get named.now n) false) }
{
    second && named.has(n)
}

/// Puts the next node of a source behind values; in form 2 without its state where a node in front of it names it.
fn put_next<P: Pairs, S: NodeSource<P>>(
    alloc: Global,
    words: &Words<'_>,
    source: &mut S,
    second: bool,
    n: u32,
    named: &mut NamedNodes,
    values: &mut Vec<Value>,
) -> Result<(), AllocError>
    requires { n < length (S.graph source.old) }
    ensures next { OnOk result (IsPut second words.now.names.now (S.graph source.old) n named.old named.new (map view values.old.items)
        (map view values.new.items)) }
    ensures same { S.graph source.new ≡ S.graph source.old }
{
    let next = source.node(alloc, n)?;
    let value = nodes::node(alloc, words, lacks(second, named, n as usize), &next)?;
    named.add(next.by());
    push(values, value)?;
    Ok(())
}

/// The nodes of a source; in form 2 those that a node in front of them names without their states.
fn all_nodes<P: Pairs, S: NodeSource<P>>(
    alloc: Global,
    words: &Words<'_>,
    source: &mut S,
    second: bool,
) -> Result<Value, AllocError>
    ensures nodes { IfOk result (λ v. view v ≡ list (map (node words.now.names.now) (parts_from second [] (S.graph source.old)))) }
    ensures same { S.graph source.new ≡ S.graph source.old }
{
    let count = source.count();
    let mut named = NamedNodes::none(alloc, count as usize)?;
    let mut values = Vec::new(alloc);
    for n in 0..count {
        put_next(alloc, words, source, second, n, &mut named, &mut values)?;
    }
    Ok(Value::Array(values))
}

/// The text of a certificate with these nodes.
fn text(
    alloc: Global,
    second: bool,
    nodes: Value,
    cuts: &[u32],
    proof: &Proof,
) -> Result<Seq<u8>, AllocError>
    requires floats { has_float (view nodes) ≡ false }
    requires nests { depth (view nodes) ≤ 6 }
    ensures text { IfOk result (λ bytes. bytes ≡ compact_text (certificate_of second cuts.now (view nodes) proof.now.steps)) }
    ensures reads { IfOk result (λ bytes. Reads bytes (certificate_of second cuts.now (view nodes) proof.now.steps)) }
{
    let value = whole(alloc, second, nodes, cuts, proof)?;
    Ok(Seq::from_vec(value.to_vec(alloc)?))
}

/// The number of a form.
fn form_number(second: bool) -> u32
    ensures { result ≡ form_number second }
{
    if second { 2 } else { 1 }
}

/// The value of a certificate with these nodes.
fn whole(
    alloc: Global,
    second: bool,
    nodes: Value,
    cuts: &[u32],
    proof: &Proof,
) -> Result<Value, AllocError>
    ensures { IfOk result (λ v. view v ≡ certificate_of second cuts.now (view nodes) proof.now.steps) }
{
    let mut members = Map::new(alloc);
    put(&mut members, alloc, "nodes", nodes)?;
    put(
        &mut members,
        alloc,
        "form",
        Value::from(form_number(second)),
    )?;
    let cuts = lists::list(alloc, &(), cuts)?;
    put(&mut members, alloc, "cuts", cuts)?;
    let proof = lists::list(alloc, &(), proof.steps.as_slice())?;
    put(&mut members, alloc, "proof", proof)?;
    Ok(Value::Object(members))
}

/// A certificate as compact JSON with sorted keys: the nodes of a source, the cuts and the proof, the types by the names of classes. It is
/// in form 1, each node with its state; or, where `second`, in form 2: a node that an `expand` node with a lower number names as a child is
/// written without its state.
///
/// # Errors
///
/// Want of memory.
pub fn encode<P: Pairs, S: NodeSource<P>>(
    alloc: Global,
    source: &mut S,
    second: bool,
    cuts: &[u32],
    proof: &Proof,
    names: &ClassNames,
) -> Result<Seq<u8>, AllocError>
    requires names { IsTrue (list_all is_class_name names.now) }
    ensures text { IfOk result
        (λ bytes. bytes ≡ compact_text (certificate_in second names.now (content_in second (S.graph source.old) cuts.now
        proof.now.steps))) }
    ensures reads { IfOk result (λ bytes. Reads bytes (certificate_in second names.now (content_in second (S.graph source.old) cuts.now
        proof.now.steps))) }
    ensures again { IsReadableGraph names.now (S.graph source.old) cuts.now proof.now.steps
        → IfOk result (λ bytes. SaysOf (cert_of names.now) bytes (Ok (content_in second (S.graph source.old) cuts.now proof.now.steps))) }
    ensures same { S.graph source.new ≡ S.graph source.old }
{
    let nodes = all_nodes(alloc, &Words { names }, source, second)?;
    text(alloc, second, nodes, cuts, proof)
}

/// The nodes of a source of nodes that may lack their states.
fn all_parts<P: Pairs, S: PartSource<P>>(
    alloc: Global,
    words: &Words<'_>,
    source: &S,
) -> Result<Value, AllocError>
    ensures { IfOk result (λ v. view v ≡ list (map (node words.now.names.now) (S.parts source.now))) }
{
    let mut values = Vec::new(alloc);
    for n in 0..source.count() {
        let by = source.by(alloc, n)?;
        let state = source.state(alloc, n)?;
        values.push(nodes::part(alloc, words, state, &by)?)?;
    }
    Ok(Value::Array(values))
}

/// A certificate, as [`encode`] writes one, of nodes that may lack their states: these are written without one.
///
/// # Errors
///
/// Want of memory.
pub fn encode_parts<P: Pairs, S: PartSource<P>>(
    alloc: Global,
    source: &S,
    second: bool,
    cuts: &[u32],
    proof: &Proof,
    names: &ClassNames,
) -> Result<Seq<u8>, AllocError>
    requires { IsTrue (list_all is_class_name names.now) }
    ensures text { IfOk result
        (λ bytes. bytes ≡ compact_text
        (certificate_in second names.now (record { cuts = cuts.now; parts = S.parts source.now; proof = proof.now.steps }))) }
    ensures reads { IfOk result
        (λ bytes. Reads bytes
        (certificate_in second names.now (record { cuts = cuts.now; parts = S.parts source.now; proof = proof.now.steps }))) }
    ensures again { IsReadable second names.now (record { cuts = cuts.now; parts = S.parts source.now; proof = proof.now.steps })
        → IfOk result (λ bytes. SaysOf (cert_of names.now) bytes
        (Ok (record { cuts = cuts.now; parts = S.parts source.now; proof = proof.now.steps }))) }
{
    let nodes = all_parts(alloc, &Words { names }, source)?;
    text(alloc, second, nodes, cuts, proof)
}
