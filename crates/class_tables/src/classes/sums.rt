//! Sums of the bytes of a class file's parts.
use class_base::Handler;
use class_pool::Pool;

/// The sum with an exception entry after it, as in the file.
pub fn handler_sum(sum: u32, entry: &Handler) -> u32 {
    let sum = sum_of(sum, &entry.start.to_be_bytes());
    let sum = sum_of(sum, &entry.end.to_be_bytes());
    let sum = sum_of(sum, &entry.handler.to_be_bytes());
    sum_of(sum, &entry.catch.to_be_bytes())
}

/// The sum with these bytes after it.
pub fn sum_of(sum: u32, bytes: &[u8]) -> u32 {
    let mut sum = sum;
    for byte in bytes {
        sum = sum.wrapping_mul(31).wrapping_add(u32::from(*byte));
    }
    sum
}

/// The sum with the entry `i` of a pool after it.
pub fn entry_sum(sum: u32, pool: &Pool<'_>, i: u16) -> u32 {
    let sum = sum_of(sum, &[pool.tag(i).unwrap_or(0)]);
    if let Some(text) = pool.utf8(i) {
        return sum_of(sum, text);
    }
    if let Some(value) = pool.integer(i) {
        return sum_of(sum, &value.to_be_bytes());
    }
    if let Some(name) = pool.class_name(i) {
        return sum_of(sum, name);
    }
    match pool.member(i) {
        Some((_, class, name, desc)) => sum_of(sum_of(sum_of(sum, class), name), desc),
        None => sum,
    }
}
