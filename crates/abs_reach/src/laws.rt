//! Laws about what ids reach, for the proofs of other crates. They run nothing.
ghost use Rattle.abs_reach.specs.Laws.{ClosuresAreWays, MeetingRegionsMayMeet, KnownIdsInsideMayBeIn, FiniteIdsHaveNoCycles};
ghost use Rattle.abs_reach.specs.Laws.{TreeIdsHaveTrees, RestrictedStatesFit, DroppedIdsKeepSizes};

/// A path of a heap from an id's object ends at the object of a known id that ids lead to, or passes a hazy id that they
/// lead to and then stays in its region.
pub fn closures_are_ways()
    ensures { ClosuresAreWays }
{}

/// Two ids whose regions meet may meet.
pub fn meeting_regions_may_meet()
    ensures { MeetingRegionsMayMeet }
{}

/// A known id whose object lies in an id's region may be in it.
pub fn known_ids_inside_may_be_in()
    ensures { KnownIdsInsideMayBeIn }
{}

/// The region of an id that is finite has no cycle.
pub fn finite_ids_have_no_cycles()
    ensures { FiniteIdsHaveNoCycles }
{}

/// The region of an id that is a tree is one.
pub fn tree_ids_have_trees()
    ensures { TreeIdsHaveTrees }
{}

/// A state that loses ids, and with them their cells and pairs, still fits.
pub fn restricted_states_fit()
    ensures { RestrictedStatesFit }
{}

/// An id that stays when ids are dropped is sized exactly where it was before, with the same pattern.
pub fn dropped_ids_keep_sizes()
    ensures { DroppedIdsKeepSizes }
{}
