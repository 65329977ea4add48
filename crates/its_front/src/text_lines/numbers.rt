//! Whole numbers in decimal digits.
ghost use Rattle.std.specs.Prelude.{◌≡◌, ◌^◌, nat_lt, pos, if◌then◌else◌, Some, None};
ghost use Rattle.std.proofs.Common.{◌-ℤ◌};
ghost use Rattle.std.specs.List.{list_all};
ghost use Rattle.its_front.specs.text_lines.Numbers.{is_digit, is_digits, decimal, capped, grown, number_of, signed_of};

/// A whole number of a text. One above 2^64 - 1 in size has no size.
#[derive(Clone, Copy, PartialEq, Eq)]
pub struct Number {
    /// Whether a `-` stands before it.
    pub negative: bool,
    /// What the digits say.
    pub size: Option<u64>,
}

fn is_digit(b: u8) -> bool
    ensures { result ≡ is_digit b }
{
    b'0' <= b && b <= b'9'
}

fn all_digits(digits: &[u8]) -> bool
    ensures { result ≡ list_all is_digit digits.now }
{
    digits.iter().all(|b| is_digit(*b))
}

fn is_digits(digits: &[u8]) -> bool
    ensures { result ≡ is_digits digits.now }
{
    digits.len() > 0 && all_digits(digits)
}

fn grown(size: Option<u64>, digit: u8) -> Option<u64>
    ensures { result ≡ grown size digit }
{
    size?
        .checked_mul(10)?
        .checked_add(u64::from(digit.saturating_sub(b'0')))
}

#[tactic(auto, using(crate::proofs::Digits::grows))]
fn size_of(digits: &[u8]) -> Option<u64>
    ensures { result ≡ capped (decimal digits.now) }
{
    let mut size = Some(0);
    for digit in digits {
        size = grown(size, *digit);
    }
    size
}

/// The number that the word is: decimal digits, with `-` before those of a negative number. None where the word is no number.
pub fn read_number(word: &[u8]) -> Option<Number>
    ensures { result ≡ number_of word.now }
{
    let (first, rest) = word.split_first()?;
    let negative = *first == b'-';
    let digits = if negative { rest } else { word };
    if !is_digits(digits) {
        return None;
    }
    Some(Number {
        negative,
        size: size_of(digits),
    })
}

impl Number {
    /// The number where it is one of 64 bits with a sign.
    pub fn signed(self) -> Option<i64>
        ensures { result ≡ signed_of self }
    {
        let size = self.size?;
        if self.negative {
            negative(size)
        } else {
            positive(size)
        }
    }
}

fn negative(size: u64) -> Option<i64>
    ensures { result ≡ (if nat_lt (2 ^ 63) size then None else Some (pos 0 -ℤ pos size)) }
{
    if 0x8000_0000_0000_0000 < size {
        return None;
    }
    0i64.checked_sub_unsigned(size)
}

fn positive(size: u64) -> Option<i64>
    ensures { result ≡ (if nat_lt size (2 ^ 63) then Some (pos size) else None) }
{
    if size < 0x8000_0000_0000_0000 {
        Some(size as i64)
    } else {
        None
    }
}
