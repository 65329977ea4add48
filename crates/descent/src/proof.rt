//! Proofs that no chain of rules is infinite.
use list_views::Seq;

/// The form of a cut: a constant, multiples of ints and multiples of sizes. Its value at a state of the cut ranks that
/// state.
#[derive(PartialEq, Drop)]
pub struct CutForm {
    /// The cut.
    pub cut: u32,
    /// The constant, at most 2^40 in size.
    pub constant: i64,
    /// Ids with the multiples of their ints, each id above the one before. A multiple is at most 2^31 in size.
    pub ints: Seq<(u16, i64)>,
    /// Ids with the multiples of their sizes, each id above the one before. A multiple is at most 2^31 in size.
    pub sizes: Seq<(u16, i64)>,
}

/// A rule in a rank step, with what shows its rows. A list of multipliers names rows of the rule, and has at most 65,536
/// entries.
#[derive(PartialEq, Drop)]
pub enum RankRule {
    /// The form never rises on the rule.
    Weak {
        /// The rule.
        rule: u32,
        /// The multipliers that show it.
        fall: Seq<(u32, i64)>,
    },
    /// The form falls by at least 1 on the rule, and is at least 0 at its start.
    Strict {
        /// The rule.
        rule: u32,
        /// The multipliers that show the fall.
        fall: Seq<(u32, i64)>,
        /// The multipliers that show the bound.
        bound: Seq<(u32, i64)>,
    },
}

/// A rank step without its rest.
#[derive(PartialEq, Drop)]
pub struct RankStep {
    /// Whether sizes count, with the listed weights; else the forms have ints alone, and no class has a weight.
    pub size: bool,
    /// Classes with their weights, from 0 to 65,535, each class above the one before. A class that isn't listed has 0.
    pub weights: Seq<(u32, i64)>,
    /// The forms, each cut above the one before. The form of a cut that isn't listed is 0.
    pub forms: Seq<CutForm>,
    /// The rules of the step's set, each above the one before.
    pub rules: Seq<RankRule>,
}

/// One step. It is made for a set of rules, and leaves smaller sets to later steps, which it names by number.
#[derive(PartialEq, Drop)]
pub enum ProofStep {
    /// There is no rule.
    Empty,
    /// The set is divided into parts, and no rule is followed by one of a lower part.
    Split {
        /// The rules of each part.
        parts: Seq<Seq<u32>>,
        /// For each part the step that takes it, or None for a part of at most one rule that doesn't follow itself.
        steps: Seq<Option<u32>>,
    },
    /// A form never rises, and falls on some rules.
    Rank {
        /// The forms and the rules.
        step: RankStep,
        /// The step that takes the weak rules.
        rest: u32,
    },
    /// A rule can never be taken.
    Dead {
        /// The rule.
        rule: u32,
        /// The multipliers that show that -1 is at least 0 where its rows hold.
        multipliers: Seq<(u32, i64)>,
        /// The step that takes the other rules.
        rest: u32,
    },
}

/// A proof: steps by number. Step 0 takes all rules.
#[derive(PartialEq, Drop)]
pub struct Proof {
    /// The steps.
    pub steps: Seq<ProofStep>,
}
