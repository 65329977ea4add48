//! Fields at the front of bytes. Each call answers the field and the bytes behind it, where there are so many.

/// A number of two bytes.
pub(crate) fn u2(bytes: &[u8]) -> Option<(u16, &[u8])> {
    if bytes.len() < 2 {
        return None;
    }
    let (front, rest) = bytes.split_at(2);
    Some((u16::from_be_bytes([front[0], front[1]]), rest))
}

/// A number of four bytes.
pub(crate) fn u4(bytes: &[u8]) -> Option<(u32, &[u8])> {
    if bytes.len() < 4 {
        return None;
    }
    let (front, rest) = bytes.split_at(4);
    let number = u32::from_be_bytes([front[0], front[1], front[2], front[3]]);
    Some((number, rest))
}

/// So many bytes.
pub(crate) fn part(bytes: &[u8], count: usize) -> Option<(&[u8], &[u8])> {
    if bytes.len() < count {
        return None;
    }
    Some(bytes.split_at(count))
}

/// What stands behind so many bytes.
pub(crate) fn behind(bytes: &[u8], count: usize) -> Option<&[u8]> {
    let (_, rest) = part(bytes, count)?;
    Some(rest)
}
