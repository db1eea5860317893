//! Values of some variables.

ghost use Rattle.std.specs.Prelude.{◌≡◌, ℕ, ℤ, [], Option, slice_get, slice_index_or};
ghost use Rattle.dcsp_rule.specs.Problems.{value_in};

use dcsp_domain::Domain;

/// Gives some variables a value: a view, a nogood, or an assignment.
pub trait Lookup {
    ghost values: { Self → ℕ → Option ℤ };

    /// The variable's value, if it has one.
    fn value_of(&self, var: u32) -> Option<i64>
        ensures { result ≡ values self.now var };
}

/// A value for each variable, in order.
#[derive(Drop)]
pub struct Assignment<'a> {
    pub values: &'a [i64],
}

impl<'a> Lookup for Assignment<'a> {
    ghost values = { λ a. slice_get a.values.now };

    fn value_of(&self, var: u32) -> Option<i64> {
        self.values.get(var as usize).copied()
    }
}

/// Those of a look-up's values that are in their variables' domains.
pub struct WithinDomains<'a, L> {
    pub domains: &'a [Domain],
    pub lookup: &'a L,
}

impl<L> Drop for WithinDomains<'_, L> {
    fn drop(self) {
        let WithinDomains {
            domains: _,
            lookup: _,
        } = self;
    }
}

impl<'a, L: Lookup> Lookup for WithinDomains<'a, L> {
    ghost values = { λ w var. value_in (slice_index_or w.domains.now var []) (L.values w.lookup.now var) };

    fn value_of(&self, var: u32) -> Option<i64> {
        let value = self.lookup.value_of(var)?;
        let domain = self.domains.get(var as usize)?;
        if domain.place_of(value).is_some() {
            Some(value)
        } else {
            None
        }
    }
}
