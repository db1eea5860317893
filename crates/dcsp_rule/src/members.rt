//! The distinct values that a rule lists as members.

ghost use Rattle.std.specs.Prelude.{◌≡◌, IfOk};
ghost use Rattle.dcsp_domain.specs.Sets.{has, set_of};

use dcsp_domain::sorted_set;
use std::alloc::{AllocError, Global};
use std::marker::Model;

/// Distinct values, rising.
#[derive(Debug, Drop)]
pub struct MemberSet {
    values: Vec<i64>,
}

impl Model for MemberSet {
    ghost use Rattle.std.specs.Prelude.{List, ℤ};
    ghost use Rattle.dcsp_domain.specs.Sets.{IsRising};

    ghost Value = { List ℤ };

    ghost view = { λ set. set.values.items };

    ghost invariant = { λ set. IsRising set.values.items };
}

impl MemberSet {
    /// The set of these values.
    pub fn new(alloc: Global, values: &[i64]) -> Result<MemberSet, AllocError>
        ensures { IfOk result (λ set. set ≡ set_of values.now) }
    {
        let values = sorted_set(alloc, values)?;
        Ok(MemberSet { values })
    }

    /// Whether the value is in the set.
    pub fn contains(&self, value: i64) -> bool
        ensures { result ≡ has self.now value }
    {
        self.values.binary_search(&value).is_ok()
    }
}
