//! What the text of a bound says.
use descent::CutForm;
use list_views::Seq;

/// A rule outside a rank step's set, with the multipliers that show that the step's whole form never rises on it.
#[derive(PartialEq, Drop)]
pub struct BoundRule {
    /// The rule.
    pub rule: u32,
    /// The multipliers, at most 65,536.
    pub fall: Seq<(u32, i64)>,
}

/// What is added to a rank step of a proof.
#[derive(PartialEq, Drop)]
pub struct BoundEntry {
    /// The step.
    pub step: u32,
    /// Forms of cuts that the step doesn't list.
    pub forms: Seq<CutForm>,
    /// Rules outside the step's set. A rule that isn't listed has no multipliers.
    pub rules: Seq<BoundRule>,
}

/// The text of a bound: its entries, in their order.
#[derive(PartialEq, Drop)]
pub struct BoundText {
    /// The entries.
    pub ranks: Seq<BoundEntry>,
}
