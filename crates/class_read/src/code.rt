//! A method's code.

ghost use Rattle.std.specs.Prelude.{◌≡◌, [], length, Ok};
ghost use Rattle.class_read.specs.Reading.{Gives, repeated, collected, sized_at};
ghost use Rattle.class_read.specs.View.{code_content};
ghost use Rattle.class_read.specs.FirstFault.{is_catch, catch_at, code_length_at, handler_at, table_at, code_at};

use crate::attribute::attributes;
use crate::fault::ClassFault;
use crate::field::{bytes_of, place, u2, u4};
use crate::known::KnownPool;
use crate::view::CodeView;
use class_base::Handler;
use class_base::list_views::Seq;
use std::alloc::Global;

fn is_catch(pool: &KnownPool<'_>, index: u16) -> bool
    ensures { result ≡ is_catch pool.now index }
{
    if index == 0 {
        return true;
    }
    pool.is_class(index)
}

fn catch<'a>(
    total: usize,
    pool: &KnownPool<'_>,
    bytes: &'a [u8],
) -> Result<(u16, &'a [u8]), ClassFault>
    ensures { Gives (λ x. (x.0, x.1.now)) result (catch_at total pool.now bytes.now) }
{
    let (index, rest) = u2(total, bytes)?;
    if !is_catch(pool, index) {
        return Err(ClassFault::BadDescriptor {
            at: place(total, bytes),
        });
    }
    Ok((index, rest))
}

#[tactic(auto, unfolding(crate::specs::FirstFault::handler_at))]
fn handler<'a>(
    total: usize,
    pool: &KnownPool<'_>,
    bytes: &'a [u8],
) -> Result<(Handler, &'a [u8]), ClassFault>
    ensures { Gives (λ x. (x.0, x.1.now)) result (handler_at total pool.now bytes.now) }
{
    let (start, rest) = u2(total, bytes)?;
    let (end, rest) = u2(total, rest)?;
    let (handler, rest) = u2(total, rest)?;
    let (caught, rest) = catch(total, pool, rest)?;
    let entry = Handler {
        start,
        end,
        handler,
        catch: caught,
    };
    Ok((entry, rest))
}

fn handlers<'a>(
    alloc: Global,
    total: usize,
    pool: &KnownPool<'a>,
    count: u16,
    bytes: &'a [u8],
) -> Result<(Seq<Handler>, &'a [u8]), ClassFault>
    ensures { Gives (λ x. (x.0, x.1.now)) result (repeated (collected (handler_at total pool.now)) count [] bytes.now) }
{
    let mut table = Seq::new(alloc);
    let mut rest = bytes;
    'handlers: for _ in 0..count {
        let (entry, after) = handler(total, pool, rest)?;
        table.push(entry)?;
        rest = after;
    }
    Ok((table, rest))
}

#[tactic(auto, unfolding(crate::specs::FirstFault::table_at))]
fn table<'a>(
    alloc: Global,
    total: usize,
    pool: &KnownPool<'a>,
    bytes: &'a [u8],
) -> Result<(Seq<Handler>, &'a [u8]), ClassFault>
    ensures { Gives (λ x. (x.0, x.1.now)) result (table_at total pool.now bytes.now) }
{
    let (count, rest) = u2(total, bytes)?;
    handlers(alloc, total, pool, count, rest)
}

fn code_length(total: usize, bytes: &[u8]) -> Result<(u32, &[u8]), ClassFault>
    ensures { Gives (λ x. (x.0, x.1.now)) result (code_length_at total bytes.now) }
{
    let (size, rest) = u4(total, bytes)?;
    if !(size > 0 && size <= 65_535) {
        return Err(ClassFault::CodeLength {
            at: place(total, bytes),
        });
    }
    Ok((size, rest))
}

/// The content of a `Code` attribute.
#[tactic(auto, unfolding(crate::specs::FirstFault::code_at))]
fn content<'a>(
    alloc: Global,
    total: usize,
    pool: &KnownPool<'a>,
    bytes: &'a [u8],
) -> Result<(CodeView<'a>, &'a [u8]), ClassFault>
    ensures { Gives (λ x. (code_content x.0, x.1.now)) result (code_at total pool.now bytes.now) }
{
    let (max_stack, rest) = u2(total, bytes)?;
    let (max_locals, rest) = u2(total, rest)?;
    let (size, rest) = code_length(total, rest)?;
    let (code, rest) = bytes_of(total, size, rest)?;
    let (table, rest) = table(alloc, total, pool, rest)?;
    let rest = attributes(total, pool, rest)?;
    let view = CodeView {
        max_stack,
        max_locals,
        code,
        table,
    };
    Ok((view, rest))
}

/// A `Code` attribute after its name: its length, which has to be that of its content, and the content.
pub(crate) fn code<'a>(
    alloc: Global,
    total: usize,
    pool: &KnownPool<'a>,
    bytes: &'a [u8],
) -> Result<(CodeView<'a>, &'a [u8]), ClassFault>
    ensures { Gives (λ x. (code_content x.0, x.1.now)) result (sized_at total (code_at total pool.now) bytes.now) }
{
    let (size, front) = u4(total, bytes)?;
    let (code, rest) = content(alloc, total, pool, front)?;
    if front.len().saturating_sub(rest.len()) != size as usize {
        return Err(ClassFault::CodeLength {
            at: place(total, bytes),
        });
    }
    Ok((code, rest))
}
