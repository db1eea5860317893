//! A problem and the order of its variables.

use dcsp_order::Order;
use dcsp_problem::Problem;

/// A problem, and the order of its variables under which it is run, where that is not the file's own.
#[derive(Clone, Copy)]
pub struct Ordered<'p> {
    pub problem: &'p Problem,
    pub order: Option<&'p Order>,
}
