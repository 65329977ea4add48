//! Fields at the front of what is left of a file of `total` bytes. Each call answers the field and the bytes after it.

ghost use Rattle.std.specs.Prelude.{◌≡◌, ◌-◌, Ok};
ghost use Rattle.class_read.specs.Reading.{Gives, place, u2_at, u4_at, bytes_at};

use crate::fault::ClassFault;

/// How many bytes of the file stand before these.
pub(crate) fn place(total: usize, bytes: &[u8]) -> usize
    ensures { result ≡ place total bytes.now }
{
    total.saturating_sub(bytes.len())
}

/// A number of two bytes.
pub(crate) fn u2(total: usize, bytes: &[u8]) -> Result<(u16, &[u8]), ClassFault>
    ensures { Gives (λ x. (x.0, x.1.now)) result (u2_at total bytes.now) }
{
    if bytes.len() < 2 {
        return Err(ClassFault::Truncated {
            at: place(total, bytes),
        });
    }
    let (front, rest) = bytes.split_at(2);
    Ok((u16::from_be_bytes([front[0], front[1]]), rest))
}

/// A number of four bytes.
pub(crate) fn u4(total: usize, bytes: &[u8]) -> Result<(u32, &[u8]), ClassFault>
    ensures { Gives (λ x. (x.0, x.1.now)) result (u4_at total bytes.now) }
{
    if bytes.len() < 4 {
        return Err(ClassFault::Truncated {
            at: place(total, bytes),
        });
    }
    let (front, rest) = bytes.split_at(4);
    let number = u32::from_be_bytes([front[0], front[1], front[2], front[3]]);
    Ok((number, rest))
}

/// `count` bytes.
pub(crate) fn bytes_of(total: usize, count: u32, bytes: &[u8]) -> Result<(&[u8], &[u8]), ClassFault>
    ensures { Gives (λ x. (x.0.now, x.1.now)) result (bytes_at total count bytes.now) }
{
    let count = count as usize;
    if bytes.len() < count {
        return Err(ClassFault::Truncated {
            at: place(total, bytes),
        });
    }
    Ok(bytes.split_at(count))
}
