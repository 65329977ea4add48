//! Numbers and hexadecimal text.

ghost use Rattle.std.specs.Prelude.{◌≡◌, ◌^◌, nat_lt, pos, if◌then◌else◌, IfOk, Some, None};
ghost use Rattle.std.proofs.Common.{◌-ℤ◌};
ghost use Rattle.std.specs.List.{list_all};
ghost use Rattle.asm_lines.specs.Numbers.{is_digit, is_digits, decimal, capped, grown, number_of, unsigned_of, signed_of, pair_of};
ghost use Rattle.asm_lines.specs.Numbers.{int_of, digit_of, byte_of, bytes_of};

use list_views::Seq;
use std::alloc::{AllocError, Global};

/// A whole number of a listing. One above 2^64 - 1 in size has none, since no field of a class file holds it.
#[derive(Clone, Copy, PartialEq, Eq)]
pub struct Number {
    /// Whether a `-` stands before it.
    pub negative: bool,
    /// What the digits say.
    pub size: Option<u64>,
}

fn is_digit(b: u8) -> bool
    ensures { result ≡ is_digit b }
{
    b'0' <= b && b <= b'9'
}

fn all_digits(digits: &[u8]) -> bool
    ensures { result ≡ list_all is_digit digits.now }
{
    digits.iter().all(|b| is_digit(*b))
}

fn is_digits(digits: &[u8]) -> bool
    ensures { result ≡ is_digits digits.now }
{
    digits.len() > 0 && all_digits(digits)
}

fn grown(size: Option<u64>, digit: u8) -> Option<u64>
    ensures { result ≡ grown size digit }
{
    size?
        .checked_mul(10)?
        .checked_add(u64::from(digit.saturating_sub(b'0')))
}

#[tactic(auto, using(crate::proofs::Digits::grows))]
fn size_of(digits: &[u8]) -> Option<u64>
    ensures { result ≡ capped (decimal digits.now) }
{
    let mut size = Some(0);
    for digit in digits {
        size = grown(size, *digit);
    }
    size
}

/// The number that the word is.
pub(crate) fn read_number(word: &[u8]) -> Option<Number>
    ensures { result ≡ number_of word.now }
{
    let (first, rest) = word.split_first()?;
    let negative = *first == b'-';
    let digits = if negative { rest } else { word };
    if !is_digits(digits) {
        return None;
    }
    Some(Number {
        negative,
        size: size_of(digits),
    })
}

impl Number {
    /// The number where it is one of 64 bits without a sign.
    pub fn unsigned(self) -> Option<u64>
        ensures { result ≡ unsigned_of self }
    {
        let size = self.size?;
        if self.negative && !(size == 0) {
            return None;
        }
        Some(size)
    }

    /// The number where it is one of 64 bits with a sign.
    pub fn signed(self) -> Option<i64>
        ensures { result ≡ signed_of self }
    {
        let size = self.size?;
        if self.negative {
            negative(size)
        } else {
            positive(size)
        }
    }

    /// The number where it is one of two bytes without a sign.
    pub fn pair(self) -> Option<u16>
        ensures { result ≡ pair_of self }
    {
        let number = self.unsigned()?;
        if number < 0x1_0000 {
            Some(number as u16)
        } else {
            None
        }
    }

    /// The number where it is one of four bytes with a sign.
    pub fn int(self) -> Option<i32>
        ensures { result ≡ int_of self }
    {
        let number = self.signed()?;
        if -0x8000_0000 <= number && number <= 0x7fff_ffff {
            Some(number as i32)
        } else {
            None
        }
    }
}

fn negative(size: u64) -> Option<i64>
    ensures { result ≡ (if nat_lt (2 ^ 63) size then None else Some (pos 0 -ℤ pos size)) }
{
    if 0x8000_0000_0000_0000 < size {
        return None;
    }
    0i64.checked_sub_unsigned(size)
}

fn positive(size: u64) -> Option<i64>
    ensures { result ≡ (if nat_lt size (2 ^ 63) then Some (pos size) else None) }
{
    if size < 0x8000_0000_0000_0000 {
        Some(size as i64)
    } else {
        None
    }
}

fn hex_digit(b: u8) -> Option<u8>
    ensures { result ≡ digit_of b }
{
    match b {
        b'0'..=b'9' => Some(b - b'0'),
        b'a'..=b'f' => Some(b - b'a' + 10),
        b'A'..=b'F' => Some(b - b'A' + 10),
        _ => None,
    }
}

/// The byte of two digits.
fn hex_byte(first: u8, second: u8) -> Option<u8>
    ensures { result ≡ byte_of (digit_of first) (digit_of second) }
{
    let high = hex_digit(first)?;
    let low = hex_digit(second)?;
    Some(16 * high + low)
}

/// The bytes that a hexadecimal text spells, two digits a byte.
#[tactic(auto, using(crate::proofs::Digits::hex_step, crate::proofs::Digits::hex_stops, crate::proofs::Digits::hex_begins))]
pub(crate) fn hex_bytes(alloc: Global, word: &[u8]) -> Result<Option<Seq<u8>>, AllocError>
    ensures { IfOk result (λ o. o ≡ bytes_of word.now) }
{
    let mut bytes = Seq::new(alloc);
    let mut rest = word;
    while let Some((first, after)) = rest.split_first() {
        let Some((second, after)) = after.split_first() else {
            return Ok(None);
        };
        let Some(byte) = hex_byte(*first, *second) else {
            return Ok(None);
        };
        bytes.push(byte)?;
        rest = after;
    }
    Ok(Some(bytes))
}
