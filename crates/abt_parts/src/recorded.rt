//! A nogood that is kept.

use dcsp_defs::Nogood;

/// A nogood that is kept, and the number of the step that derived it, counted from 1.
#[derive(Debug, Drop)]
pub struct Recorded {
    pub nogood: Nogood,
    pub step: u64,
}
