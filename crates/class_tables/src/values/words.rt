//! The words of the table.
use jvm_values::{Cond, IntOp, Kind};

/// The operator that a word names.
pub fn operator(word: &str) -> Option<IntOp> {
    match word {
        "iadd" => Some(IntOp::Add),
        "isub" => Some(IntOp::Sub),
        "imul" => Some(IntOp::Mul),
        "idiv" => Some(IntOp::Div),
        "irem" => Some(IntOp::Rem),
        "ishl" => Some(IntOp::Shl),
        "ishr" => Some(IntOp::Shr),
        "iushr" => Some(IntOp::Ushr),
        "iand" => Some(IntOp::And),
        "ior" => Some(IntOp::Or),
        "ixor" => Some(IntOp::Xor),
        _ => narrowing(word),
    }
}

/// The narrowing that a word names.
fn narrowing(word: &str) -> Option<IntOp> {
    match word {
        "narrow_boolean" => Some(IntOp::Narrow(Kind::Boolean)),
        "narrow_char" => Some(IntOp::Narrow(Kind::Char)),
        "narrow_byte" => Some(IntOp::Narrow(Kind::Byte)),
        "narrow_short" => Some(IntOp::Narrow(Kind::Short)),
        "narrow_int" => Some(IntOp::Narrow(Kind::Int)),
        _ => None,
    }
}

/// The condition that a word names.
pub fn condition(word: &str) -> Option<Cond> {
    match word {
        "eq" => Some(Cond::Eq),
        "ne" => Some(Cond::Ne),
        "lt" => Some(Cond::Lt),
        "ge" => Some(Cond::Ge),
        "gt" => Some(Cond::Gt),
        "le" => Some(Cond::Le),
        _ => None,
    }
}
