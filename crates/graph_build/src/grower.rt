//! What a graph grows by.
ghost use Rattle.std.specs.Prelude.{◌≡◌};
ghost use Rattle.abs_cells.specs.AbstractStates.{AbstractState};
ghost use Rattle.graph_build.specs.Rules.{GrowthRules, HaveSamePositions};
ghost use Rattle.graph_build.specs.Growing.{GrowsOr, MatchesOr, WidensOr};
ghost use Rattle.graph_build.specs.declared.grower.GrowFault.TheVariants.{Memory};

use abs_cells::{AbsState, Id, Pairs};
use list_views::Seq;
use std::alloc::{AllocError, AllocFailed, Global};

/// What a state becomes.
#[derive(Drop)]
pub enum Grown<P: Pairs> {
    /// The run ends with the next step.
    End,
    /// The states of its children, in their order.
    Children(Seq<AbsState<P>>),
}

/// Why a state can't grow, or two can't be widened.
#[derive(Clone, Copy, PartialEq, Eq)]
pub enum GrowFault {
    /// A state would have more than 512 ids.
    TooManyIds,
    /// Want of memory.
    Memory,
}

impl From<AllocError> for GrowFault {
    ghost from_gives = { λ _ e. e ≡ Memory };

    fn from(_e: AllocError) -> GrowFault {
        GrowFault::Memory
    }
}

impl<T: Drop> From<AllocFailed<T>> for GrowFault {
    ghost from_gives = { λ _ e. e ≡ Memory };

    fn from(_e: AllocFailed<T>) -> GrowFault {
        GrowFault::Memory
    }
}

/// Tells of states what they become, which of them stand for others, and which are heads. Its meaning gives rules, and which states
/// are good; no call changes it. A grower is lent for writing so that it may keep room that it works in.
pub trait Grower<P: Pairs>: Drop {
    ghost Meaning: { Type 0 };

    ghost meaning: { Self → Meaning };

    ghost rules: { Meaning → GrowthRules };

    ghost good: { Meaning → AbstractState → Type 0 };

    /// What a good state becomes. The states of its children are good.
    ///
    /// # Errors
    ///
    /// A child with more than 512 ids; or want of memory.
    fn expand(&mut self, alloc: Global, state: &AbsState<P>) -> Result<Grown<P>, GrowFault>
        requires { good (meaning self.old) state.now }
        ensures grown { GrowsOr (rules (meaning self.old)) (good (meaning self.old)) state.now result }
        ensures same { meaning self.new ≡ meaning self.old };

    /// A map by which a good state is an instance of another one; None exactly where there is none.
    ///
    /// # Errors
    ///
    /// Want of memory.
    fn matches(
        &mut self,
        alloc: Global,
        state: &AbsState<P>,
        other: &AbsState<P>,
    ) -> Result<Option<Seq<(Id, Id)>>, AllocError>
        requires state { good (meaning self.old) state.now }
        requires other { good (meaning self.old) other.now }
        ensures found { MatchesOr (rules (meaning self.old)) state.now other.now result }
        ensures same { meaning self.new ≡ meaning self.old };

    /// The widening of a good state by another one with the same positions, which is good, and of which that one is an instance.
    ///
    /// # Errors
    ///
    /// A widening with more than 512 ids; or want of memory.
    fn widen(
        &mut self,
        alloc: Global,
        above: &AbsState<P>,
        state: &AbsState<P>,
    ) -> Result<AbsState<P>, GrowFault>
        requires above { good (meaning self.old) above.now }
        requires state { good (meaning self.old) state.now }
        requires positions { HaveSamePositions state.now above.now }
        ensures wide { WidensOr (rules (meaning self.old)) (good (meaning self.old)) above.now state.now result }
        ensures same { meaning self.new ≡ meaning self.old };

    /// Whether a state is a head.
    fn is_head(&self, state: &AbsState<P>) -> bool
        ensures { result ≡ (rules (meaning self.now)).is_head state.now };
}
