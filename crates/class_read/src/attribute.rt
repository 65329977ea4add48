//! Attributes: skipped by their length, or a method's code.

ghost use Rattle.std.specs.Prelude.{◌≡◌, IfOk, length, Ok, Some};
ghost use Rattle.class_read.specs.Reading.{Gives, repeated, named_at};
ghost use Rattle.class_read.specs.FirstFault.{class_index_at, content_at, skipped_at, attributes_at};
ghost use Rattle.class_pool.specs.Text.{utf8_at};

use crate::fault::ClassFault;
use crate::field::{bytes_of, place, u2, u4};
use crate::known::KnownPool;

/// A Utf8 entry whose index stands at the front: the index and the text.
pub(crate) fn indexed_text<'a>(
    total: usize,
    pool: &KnownPool<'a>,
    bytes: &'a [u8],
) -> Result<((u16, &'a [u8]), &'a [u8]), ClassFault>
    ensures text { Gives (λ x. (x.0.1.now, x.1.now)) result (named_at (utf8_at pool.now) total bytes.now) }
    ensures index { IfOk result (λ x. utf8_at pool.now x.0.0 ≡ Some x.0.1.now) }
{
    let (index, rest) = u2(total, bytes)?;
    match pool.utf8(index) {
        Some(text) => Ok(((index, text), rest)),
        None => Err(ClassFault::BadDescriptor {
            at: place(total, bytes),
        }),
    }
}

/// The text of a Utf8 entry, whose index stands at the front.
pub(crate) fn text<'a>(
    total: usize,
    pool: &KnownPool<'a>,
    bytes: &'a [u8],
) -> Result<(&'a [u8], &'a [u8]), ClassFault>
    ensures { Gives (λ x. (x.0.now, x.1.now)) result (named_at (utf8_at pool.now) total bytes.now) }
{
    let ((_, text), rest) = indexed_text(total, pool, bytes)?;
    Ok((text, rest))
}

/// The name of a class, whose Class entry's index stands at the front.
#[tactic(auto, unfolding(crate::specs::FirstFault::class_index_at))]
pub(crate) fn class_index<'a>(
    total: usize,
    pool: &KnownPool<'a>,
    bytes: &'a [u8],
) -> Result<(&'a [u8], &'a [u8]), ClassFault>
    ensures { Gives (λ x. (x.0.now, x.1.now)) result (class_index_at total pool.now bytes.now) }
{
    let (index, rest) = u2(total, bytes)?;
    let Some(name) = pool.class_name(index) else {
        return Err(ClassFault::BadDescriptor {
            at: place(total, bytes),
        });
    };
    if !pool.is_class(index) {
        return Err(ClassFault::BadDescriptor {
            at: place(total, bytes),
        });
    }
    Ok((name, rest))
}

#[tactic(auto, unfolding(crate::specs::FirstFault::content_at))]
pub(crate) fn content(total: usize, bytes: &[u8]) -> Result<&[u8], ClassFault>
    ensures { Gives (λ x. (tt, x.now)) result (content_at total bytes.now) }
{
    let (size, rest) = u4(total, bytes)?;
    let (_, rest) = bytes_of(total, size, rest)?;
    Ok(rest)
}

#[tactic(auto, unfolding(crate::specs::FirstFault::skipped_at))]
fn skipped<'a>(total: usize, pool: &KnownPool<'a>, bytes: &'a [u8]) -> Result<&'a [u8], ClassFault>
    ensures { Gives (λ x. (tt, x.now)) result (skipped_at total pool.now tt bytes.now) }
{
    let (_, rest) = text(total, pool, bytes)?;
    content(total, rest)
}

fn skipped_times<'a>(
    total: usize,
    pool: &KnownPool<'a>,
    count: u16,
    bytes: &'a [u8],
) -> Result<&'a [u8], ClassFault>
    ensures { Gives (λ x. (tt, x.now)) result (repeated (skipped_at total pool.now) count tt bytes.now) }
{
    let mut rest = bytes;
    'attributes: for _ in 0..count {
        let after = skipped(total, pool, rest)?;
        rest = after;
    }
    Ok(rest)
}

/// Attributes that are skipped, after their count.
#[tactic(auto, unfolding(crate::specs::FirstFault::attributes_at))]
pub(crate) fn attributes<'a>(
    total: usize,
    pool: &KnownPool<'a>,
    bytes: &'a [u8],
) -> Result<&'a [u8], ClassFault>
    ensures { Gives (λ x. (tt, x.now)) result (attributes_at total pool.now bytes.now) }
{
    let (count, rest) = u2(total, bytes)?;
    skipped_times(total, pool, count, rest)
}
