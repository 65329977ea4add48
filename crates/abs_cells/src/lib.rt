//! Abstract states: frames whose places hold ids, a cell for each id, and pairs of ids.
//!
//! An abstract state describes states of the written machine (Otto, Brockschmidt, von Essen, Giesl 2010). Its
//! contracts see lists alone: capacity, allocator and the form in which pairs are held play no part.
#![tactic(auto)]

mod cells;
mod checks;
mod copies;
mod ids;
mod laws;
mod limits;
mod packed;
mod pairs;
mod replays;
mod sets;
mod states;

pub use cells::{Cell, CellSort};
pub use checks::{ids_rise, well_formed};
pub use copies::{copied_cell, copied_cells, copied_frames};
pub use ids::{Id, Ids};
pub use jvm_values::list_views;
pub use laws::{fitting_frames_agree, known_ids_are_apart, patterns_are_one};
pub use limits::MOST_IDS;
pub use lin_core;
pub use packed::PackedPairs;
pub use pairs::{ListPairs, Pairs, is_pair};
pub use replays::{PairCall, replay};
pub use sets::IdSet;
pub use states::{AbsFrame, AbsState, StateParts};
