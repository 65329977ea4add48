//! Why a combination is refused.
use std::error::Error;
use std::fmt;

/// Why a list of multipliers is refused: the first entry `n`, counted from 0, that breaks a rule.
#[derive(Clone, Copy, Debug, PartialEq, Eq)]
pub enum LinFault {
    /// The entry names a row that is not there.
    BadIndex {
        /// The entry.
        n: u32,
    },
    /// The multiplier is negative, and the row is only known to be at least 0.
    NegativeMultiplier {
        /// The entry.
        n: u32,
    },
    /// The multiplier is above 2^31 in size.
    Limit {
        /// The entry.
        n: u32,
    },
}

impl fmt::Display for LinFault {
    ghost use Rattle.std.specs.Prelude.{Some};
    ghost use Rattle.lin_core.specs.FaultText.{text_of};

    ghost output = { λ fault. Some (text_of fault) };

    fn fmt<W: fmt::Write>(&self, f: &mut fmt::Formatter<W>) -> fmt::Result {
        match self {
            LinFault::BadIndex { n } => write!(f, "entry {n} names a row that is not there"),
            LinFault::NegativeMultiplier { n } => write!(
                f,
                "entry {n} has a negative multiplier for a row that is only at least 0"
            ),
            LinFault::Limit { n } => write!(f, "entry {n} has a multiplier above 2^31 in size"),
        }
    }
}

impl Error for LinFault {}
