//! The operators over ints and the conditions between them (JVM specification, sections 2.11.3, 2.11.4 and 6.5).
ghost use Rattle.std.specs.Prelude.{◌≡◌};
ghost use Rattle.jvm_values.specs.Ints.{int_result, int_quotient, int_remainder, int_shifted_left, int_shifted_right};
ghost use Rattle.jvm_values.specs.Ints.{int_shifted_right_with_zeros, cond_holds};

use crate::types::Kind;

/// An operator that takes ints to an int (JVM specification, section 6.5).
///
/// Negation is subtraction from 0, and the increment of a local is a sum.
#[derive(Clone, Copy, PartialEq, Eq)]
pub enum IntOp {
    /// The sum, wrapped to 32 bits (`iadd`, `iinc`).
    Add,
    /// The difference, wrapped to 32 bits (`isub`; `ineg` as 0 minus its operand).
    Sub,
    /// The product, wrapped to 32 bits (`imul`).
    Mul,
    /// The quotient, rounded toward zero (`idiv`).
    Div,
    /// The remainder of that division, with the dividend's sign (`irem`).
    Rem,
    /// A shift to the left by the low five bits of the right operand (`ishl`).
    Shl,
    /// A shift to the right by the low five bits of the right operand, which keeps the sign (`ishr`).
    Shr,
    /// A shift to the right by the low five bits of the right operand, filled with zeros (`iushr`).
    Ushr,
    /// The bits that both operands have (`iand`).
    And,
    /// The bits that one of the operands has (`ior`).
    Or,
    /// The bits that exactly one of the operands has (`ixor`).
    Xor,
    /// The left operand narrowed to a kind (`i2b`, `i2c`, `i2s`, and what fields and arrays keep). The right operand
    /// plays no part.
    Narrow(Kind),
}

impl IntOp {
    /// What the operator gives on two ints, or None exactly where it divides by 0.
    #[tactic(auto, using(std::proofs::lemmas::Int::wrapping_add_is, std::proofs::lemmas::Int::wrapping_sub_is))]
    pub fn apply(self, left: i32, right: i32) -> Option<i32>
        ensures { result ≡ int_result self left right }
    {
        match self {
            IntOp::Add => Some(left.wrapping_add(right)),
            IntOp::Sub => Some(left.wrapping_sub(right)),
            IntOp::Mul => Some(left.wrapping_mul(right)),
            IntOp::Div => quotient(left, right),
            IntOp::Rem => remainder(left, right),
            IntOp::Shl => Some(shifted_left(left, right)),
            IntOp::Shr => Some(shifted_right(left, right)),
            IntOp::Ushr => Some(shifted_right_with_zeros(left, right)),
            IntOp::And => Some(left & right),
            IntOp::Or => Some(left | right),
            IntOp::Xor => Some(left ^ right),
            IntOp::Narrow(kind) => Some(kind.narrow(left)),
        }
    }
}

/// The quotient rounded toward zero, or None where the divisor is 0.
fn quotient(left: i32, right: i32) -> Option<i32>
    ensures { result ≡ int_quotient left right }
{
    if right == 0 {
        None
    } else {
        Some(left.wrapping_div(right))
    }
}

/// The remainder with the dividend's sign, or None where the divisor is 0.
fn remainder(left: i32, right: i32) -> Option<i32>
    ensures { result ≡ int_remainder left right }
{
    if right == 0 {
        None
    } else {
        Some(left.wrapping_rem(right))
    }
}

/// The product with 2 to the power of the low five bits of `right`, wrapped to 32 bits.
fn shifted_left(left: i32, right: i32) -> i32
    ensures { result ≡ int_shifted_left left right }
{
    left.wrapping_shl(right.cast_unsigned())
}

/// The quotient by 2 to the power of the low five bits of `right`, rounded down.
fn shifted_right(left: i32, right: i32) -> i32
    ensures { result ≡ int_shifted_right left right }
{
    left.wrapping_shr(right.cast_unsigned())
}

/// The bits of `left` moved down by the low five bits of `right`, with zeros above.
fn shifted_right_with_zeros(left: i32, right: i32) -> i32
    ensures { result ≡ int_shifted_right_with_zeros left right }
{
    let bits = left.cast_unsigned();
    bits.wrapping_shr(right.cast_unsigned()).cast_signed()
}

/// A condition between two ints (JVM specification, section 6.5, `if<cond>` and `if_icmp<cond>`).
#[derive(Clone, Copy, PartialEq, Eq)]
pub enum Cond {
    /// The ints are equal.
    Eq,
    /// The ints differ.
    Ne,
    /// The left int is below the right one.
    Lt,
    /// The left int is at least the right one.
    Ge,
    /// The left int is above the right one.
    Gt,
    /// The left int is at most the right one.
    Le,
}

impl Cond {
    /// Whether the condition holds between two ints.
    pub fn holds(self, left: i32, right: i32) -> bool
        ensures { result ≡ cond_holds self left right }
    {
        match self {
            Cond::Eq => left == right,
            Cond::Ne => left != right,
            Cond::Lt => left < right,
            Cond::Ge => left >= right,
            Cond::Gt => left > right,
            Cond::Le => left <= right,
        }
    }
}
