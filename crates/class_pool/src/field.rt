//! Fields of the input at a place. Each call answers the field and the place after it.

ghost use Rattle.class_pool.specs.Reading.{Answers, unread, field_at, number_at, signed_at, counted_at, indexes_at, handle_at};

use crate::fault::PoolFault;
use byteorder::{BigEndian, ByteOrder};

/// The `len` bytes at `at`.
pub(crate) fn field(bytes: &[u8], at: usize, len: usize) -> Result<(&[u8], usize), PoolFault>
    ensures { Answers (λ x. (x.0.now, unread bytes.now x.1)) result (field_at len (unread bytes.now at)) }
{
    if bytes.len().saturating_sub(at) < len {
        return Err(PoolFault::Truncated { at });
    }
    if len == 0 {
        return Ok((&bytes[..0], at));
    }
    Ok((&bytes[at..at + len], at + len))
}

/// The byte at `at`.
pub(crate) fn u8_at(bytes: &[u8], at: usize) -> Result<(u8, usize), PoolFault>
    ensures { Answers (λ x. (x.0, unread bytes.now x.1)) result (number_at 1 (unread bytes.now at)) }
{
    let (field, next) = field(bytes, at, 1)?;
    Ok((field[0], next))
}

/// The number of two bytes at `at`.
pub(crate) fn u16_at(bytes: &[u8], at: usize) -> Result<(u16, usize), PoolFault>
    ensures { Answers (λ x. (x.0, unread bytes.now x.1)) result (number_at 2 (unread bytes.now at)) }
{
    let (field, next) = field(bytes, at, 2)?;
    Ok((BigEndian::read_u16(field), next))
}

/// The number of four bytes at `at`.
pub(crate) fn u32_at(bytes: &[u8], at: usize) -> Result<(u32, usize), PoolFault>
    ensures { Answers (λ x. (x.0, unread bytes.now x.1)) result (number_at 4 (unread bytes.now at)) }
{
    let (field, next) = field(bytes, at, 4)?;
    Ok((BigEndian::read_u32(field), next))
}

/// The number of eight bytes at `at`.
pub(crate) fn u64_at(bytes: &[u8], at: usize) -> Result<(u64, usize), PoolFault>
    ensures { Answers (λ x. (x.0, unread bytes.now x.1)) result (number_at 8 (unread bytes.now at)) }
{
    let (field, next) = field(bytes, at, 8)?;
    Ok((BigEndian::read_u64(field), next))
}

/// The signed number of four bytes at `at`.
pub(crate) fn i32_at(bytes: &[u8], at: usize) -> Result<(i32, usize), PoolFault>
    ensures { Answers (λ x. (x.0, unread bytes.now x.1)) result (signed_at (unread bytes.now at)) }
{
    let (field, next) = field(bytes, at, 4)?;
    Ok((BigEndian::read_i32(field), next))
}

/// The bytes whose number stands before them, at `at`.
#[tactic(auto, unfolding(crate::specs::Reading::counted_at))]
pub(crate) fn counted_at(bytes: &[u8], at: usize) -> Result<(&[u8], usize), PoolFault>
    ensures { Answers (λ x. (x.0.now, unread bytes.now x.1)) result (counted_at (unread bytes.now at)) }
{
    let (len, next) = u16_at(bytes, at)?;
    field(bytes, next, len as usize)
}

/// The two indexes at `at`.
#[tactic(auto, unfolding(crate::specs::Reading::indexes_at))]
pub(crate) fn indexes_at(bytes: &[u8], at: usize) -> Result<((u16, u16), usize), PoolFault>
    ensures { Answers (λ x. (x.0, unread bytes.now x.1)) result (indexes_at (unread bytes.now at)) }
{
    let (first, next) = u16_at(bytes, at)?;
    let (second, next) = u16_at(bytes, next)?;
    Ok(((first, second), next))
}

/// The kind and the index of a method handle at `at`.
#[tactic(auto, unfolding(crate::specs::Reading::handle_at))]
pub(crate) fn handle_at(bytes: &[u8], at: usize) -> Result<((u8, u16), usize), PoolFault>
    ensures { Answers (λ x. (x.0, unread bytes.now x.1)) result (handle_at (unread bytes.now at)) }
{
    let (kind, next) = u8_at(bytes, at)?;
    let (entry, next) = u16_at(bytes, next)?;
    Ok(((kind, entry), next))
}
