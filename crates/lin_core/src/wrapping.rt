//! Whole numbers brought into the range of an int.
ghost use Rattle.std.specs.Prelude.{◌≡◌};
ghost use Rattle.std.specs.Int.{w32, int_wrap};
ghost use Rattle.lin_core.specs.Wrapping.{IsCongruent};

/// The int congruent to `n` modulo 2^32: what is left of `n` in two's complement when its 32 low bits are kept (The
/// Java Virtual Machine Specification, sections 2.3.1 and 6.5, `l2i`).
pub fn wrap32(n: i64) -> i32
    ensures congruent { IsCongruent n result }
    ensures value { result ≡ int_wrap w32 n }
{
    let low = n.rem_euclid(1 << 32);
    if low < 1 << 31 {
        low as i32
    } else {
        (low - (1 << 32)) as i32
    }
}
