//! The lines `measure MODEL SCHEDULE [--order FILE]`, the measures of a run, and `survey MODEL COUNT [--from SEED]
//! [--order FILE]`, those of many.
#![tactic(auto)]

mod agents;
mod laws;
mod measure;
mod numbers;
mod survey;
mod texts;

pub use laws::{lines_are_of_records, measures_are_lawful, records_alike, seeds_are_of_solve};
pub use measure::{Measure, run_measure};
pub use survey::{Survey, run_survey};
