//! The attributes of a method: its code, and those that are skipped.

ghost use Rattle.std.specs.Prelude.{◌≡◌, Ok, None};
ghost use Rattle.class_read.specs.Reading.{Gives, repeated};
ghost use Rattle.class_read.specs.View.{code_contents};
ghost use Rattle.class_read.specs.FirstFault.{is_code_name, may_stand, method_name_at, code_found_at, no_code_at};
ghost use Rattle.class_read.specs.FirstFault.{method_attribute_at, method_attributes_at};

use crate::attribute::{content, text};
use crate::code::code;
use crate::fault::ClassFault;
use crate::field::{place, u2};
use crate::known::KnownPool;
use crate::view::CodeView;
use std::alloc::Global;

/// The name of an attribute that may stand after those in which this code was found.
fn name<'a>(
    total: usize,
    pool: &KnownPool<'a>,
    coded: bool,
    found: &Option<CodeView<'a>>,
    bytes: &'a [u8],
) -> Result<(&'a [u8], &'a [u8]), ClassFault>
    ensures { Gives (λ x. (x.0.now, x.1.now)) result (method_name_at total pool.now coded (code_contents found.now) bytes.now) }
{
    let (name, rest) = text(total, pool, bytes)?;
    if !may_stand(coded, found, name) {
        return Err(ClassFault::ExtraCode {
            at: place(total, bytes),
        });
    }
    Ok((name, rest))
}

pub(crate) fn is_code_name(name: &[u8]) -> bool
    ensures { result ≡ is_code_name name.now }
{
    name == b"Code".as_slice()
}

fn may_stand(coded: bool, found: &Option<CodeView<'_>>, name: &[u8]) -> bool
    ensures { result ≡ may_stand coded (code_contents found.now) name.now }
{
    !is_code_name(name) || (coded && found.is_none())
}

#[tactic(auto, unfolding(crate::specs::FirstFault::code_found_at))]
fn found_code<'a>(
    alloc: Global,
    total: usize,
    pool: &KnownPool<'a>,
    bytes: &'a [u8],
) -> Result<(Option<CodeView<'a>>, &'a [u8]), ClassFault>
    ensures { Gives (λ x. (code_contents x.0, x.1.now)) result (code_found_at total pool.now bytes.now) }
{
    let (code, rest) = code(alloc, total, pool, bytes)?;
    Ok((Some(code), rest))
}

#[tactic(auto, unfolding(crate::specs::FirstFault::no_code_at))]
fn no_code<'a>(
    total: usize,
    found: Option<CodeView<'a>>,
    bytes: &'a [u8],
) -> Result<(Option<CodeView<'a>>, &'a [u8]), ClassFault>
    ensures { Gives (λ x. (code_contents x.0, x.1.now)) result (no_code_at total (code_contents found.entry) bytes.now) }
{
    let rest = content(total, bytes)?;
    Ok((found, rest))
}

#[tactic(auto, unfolding(crate::specs::FirstFault::method_attribute_at))]
fn attribute<'a>(
    alloc: Global,
    total: usize,
    pool: &KnownPool<'a>,
    coded: bool,
    found: Option<CodeView<'a>>,
    bytes: &'a [u8],
) -> Result<(Option<CodeView<'a>>, &'a [u8]), ClassFault>
    ensures { Gives (λ x. (code_contents x.0, x.1.now)) result
        (method_attribute_at total pool.now coded (code_contents found.entry) bytes.now) }
{
    let (name, rest) = name(total, pool, coded, &found, bytes)?;
    if is_code_name(name) {
        found_code(alloc, total, pool, rest)
    } else {
        no_code(total, found, rest)
    }
}

fn attribute_times<'a>(
    alloc: Global,
    total: usize,
    pool: &KnownPool<'a>,
    coded: bool,
    count: u16,
    bytes: &'a [u8],
) -> Result<(Option<CodeView<'a>>, &'a [u8]), ClassFault>
    ensures { Gives (λ x. (code_contents x.0, x.1.now)) result (repeated (method_attribute_at total pool.now coded) count None bytes.now) }
{
    let mut found = None;
    let mut rest = bytes;
    'attributes: for _ in 0..count {
        let (more, after) = attribute(alloc, total, pool, coded, found, rest)?;
        found = more;
        rest = after;
    }
    Ok((found, rest))
}

/// The code among the attributes of a method, which is to have one exactly where `coded` says so.
#[tactic(auto, unfolding(crate::specs::FirstFault::method_attributes_at))]
pub(crate) fn attributes<'a>(
    alloc: Global,
    total: usize,
    pool: &KnownPool<'a>,
    coded: bool,
    bytes: &'a [u8],
) -> Result<(Option<CodeView<'a>>, &'a [u8]), ClassFault>
    ensures { Gives (λ x. (code_contents x.0, x.1.now)) result (method_attributes_at total pool.now coded bytes.now) }
{
    let (count, rest) = u2(total, bytes)?;
    let (found, rest) = attribute_times(alloc, total, pool, coded, count, rest)?;
    if !(found.is_some() || !coded) {
        return Err(ClassFault::MissingCode {
            at: place(total, rest),
        });
    }
    Ok((found, rest))
}
