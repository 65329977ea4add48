//! How the runs of a termination graph can end: by a return, and by throws of objects of which classes.
#![tactic(auto)]

mod checking;
mod laws;
mod lines;
mod reaching;
mod reporting;
mod rising;
mod ways;

pub use checking::checked_report;
pub use laws::{
    certified_runs_end_as_reported, end_nodes_throw_objects, reports_are_one, walks_end_as_reported,
};
pub use lines::report_text;
pub use reporting::report;
pub use ways::Report;
