//! Rows over operands.
ghost use Rattle.std.specs.Prelude.{IsTrue};
ghost use Rattle.abs_turns.specs.OperandsSeen.{operand_seen};
ghost use Rattle.abs_turns.specs.ShortRows.{are_short};

use crate::operands::Operand;
use abs_ints::{Few, ShortRow};

/// Rows over two operands and a fresh id.
#[derive(Drop)]
pub struct RowsOver {
    /// The left operand.
    pub left: Operand,
    /// The right operand.
    pub right: Operand,
    /// The rows.
    pub rows: Few<ShortRow>,
    ghost short: { IsTrue (are_short (operand_seen left) (operand_seen right) rows) },
}
