//! The answer to a certificate and class files: the fault of reading, or the certificate once more, compact and with sorted keys.
//! The class files give their names alone. In the table `second` the certificate has form 1, and its graph is written in form 2.
ghost use Rattle.std.specs.Prelude.{◌<◌, length};

use crate::certs::names::Names;
use abs_cells::{ListPairs, PackedPairs, Pairs};
use anyhow::{Context, Result, bail};
use cert_form::cert_write::{encode, encode_parts};
use cert_form::{CertFault, CertText};
use json_view::parse;
use list_views::Seq;
use serde_json::Value;
use std::alloc::{AllocError, Global};
use table_cases::Case;
use table_cases::entry_cases::put_bytes;
use term_graph::{Graph, MOST_NODES, Node, PartSource};

/// The answer to a case.
pub fn answer(alloc: Global, case: &Case<'_>) -> Result<String> {
    let names = Names::of(alloc, case)?;
    let bytes = case.bytes(alloc, 0)?;
    let read = CertText::read(alloc, bytes.as_slice(), &names.names);
    match &read {
        Ok(text) => told(alloc, case.table(), bytes.as_slice(), text, &names),
        Err(fault) => fault_line(alloc, fault),
    }
}

fn told(
    alloc: Global,
    table: &str,
    bytes: &[u8],
    text: &CertText<'_>,
    names: &Names,
) -> Result<String> {
    if table == "second" {
        cert_line(alloc, second(alloc, text, names)?.as_slice())
    } else {
        cert_line(alloc, again(alloc, bytes, text, names)?.as_slice())
    }
}

fn cert_line(alloc: Global, cert: &[u8]) -> Result<String> {
    let mut line = String::from_str(alloc, "OK ")?;
    put_bytes(&mut line, cert)?;
    Ok(line)
}

fn fault_line(alloc: Global, fault: &CertFault) -> Result<String> {
    if let CertFault::Memory = fault {
        bail!("out of memory");
    }
    let text = fault.text(alloc)?;
    Ok(text_line(alloc, text.as_slice())?)
}

fn text_line(alloc: Global, text: &[u8]) -> Result<String, AllocError> {
    let mut line = String::new(alloc);
    put_bytes(&mut line, text)?;
    Ok(line)
}

/// The certificate in the form that was read.
fn again(alloc: Global, bytes: &[u8], text: &CertText<'_>, names: &Names) -> Result<Seq<u8>> {
    let written = written(alloc, text, names)?;
    in_form_of(alloc, bytes, written.as_slice())
}

/// The certificate's graph in form 2.
fn second(alloc: Global, text: &CertText<'_>, names: &Names) -> Result<Seq<u8>> {
    let mut graph = whole_graph(alloc, text)?;
    Ok(encode(
        alloc,
        &mut graph,
        true,
        text.cuts(),
        text.proof(),
        &names.names,
    )?)
}

/// The graph of a certificate whose nodes have their states.
fn whole_graph(alloc: Global, text: &CertText<'_>) -> Result<Graph<ListPairs>> {
    let mut graph = Graph::new(alloc);
    for n in 0..PartSource::<ListPairs>::count(text) {
        if graph.len() >= MOST_NODES {
            bail!("there are too many nodes");
        }
        graph.push(whole_node(alloc, text, n)?)?;
    }
    Ok(graph)
}

fn whole_node(alloc: Global, text: &CertText<'_>, n: u32) -> Result<Node<ListPairs>>
    requires { n < length text.now.parts }
{
    let by = PartSource::<ListPairs>::by(text, alloc, n)?;
    let state = PartSource::<ListPairs>::state(text, alloc, n)?;
    Ok(Node::new(state.context("a node lacks its state")?, by))
}

/// The certificate in form 2, written from its nodes with their pairs held as a list and as bits.
fn written(alloc: Global, text: &CertText<'_>, names: &Names) -> Result<Seq<u8>> {
    let listed = written_by::<ListPairs>(alloc, text, names)?;
    same(listed, written_by::<PackedPairs>(alloc, text, names)?)
}

fn written_by<P: Pairs>(
    alloc: Global,
    text: &CertText<'_>,
    names: &Names,
) -> Result<Seq<u8>, AllocError> {
    encode_parts::<P, CertText<'_>>(alloc, text, true, text.cuts(), text.proof(), &names.names)
}

fn same(listed: Seq<u8>, packed: Seq<u8>) -> Result<Seq<u8>> {
    if listed.as_slice() != packed.as_slice() {
        bail!("lists and bits are written otherwise");
    }
    Ok(listed)
}

/// A certificate with the form of another one.
fn in_form_of(alloc: Global, other: &[u8], written: &[u8]) -> Result<Seq<u8>> {
    let form = form_of(&value_of(alloc, other)?)?;
    let mut value = value_of(alloc, written)?;
    put_form(&mut value, form)?;
    Ok(Seq::from_vec(value.to_vec(alloc)?))
}

fn form_of(value: &Value) -> Result<u64> {
    value
        .get("form")
        .and_then(Value::as_u64)
        .context("a form is wanted")
}

fn put_form(value: &mut Value, form: u64) -> Result<()> {
    let place = value.get_mut("form").context("a form is wanted")?;
    *place = Value::from(form);
    Ok(())
}

/// The value of the bytes.
pub fn value_of(alloc: Global, bytes: &[u8]) -> Result<Value> {
    parse(alloc, bytes).ok().context("JSON is wanted")
}
