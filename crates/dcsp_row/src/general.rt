//! Each value tried by itself.

ghost use Rattle.std.specs.Prelude.{◌≡◌, ◌<◌, length};
ghost use Rattle.dcsp_defs.specs.Csp.{domain};
ghost use Rattle.dcsp_rule.specs.Problems.{csp_of, AreInDomains};
ghost use Rattle.dcsp_row.specs.Rows.{IsRow};

use crate::known::{OpenVariable, WithValue};
use crate::row::Row;
use dcsp_problem::{Lookup, Problem};

/// Tries the rule at each value of the variable.
pub fn try_each<L: Lookup>(
    problem: &Problem,
    rule: u32,
    open_var: &OpenVariable<'_, L>,
    row: &mut Row,
)
    requires rule { rule < length problem.now.rules }
    requires var { open_var.now.var < length problem.now.domains }
    requires size { length row.old ≡ length (domain (csp_of problem.now) open_var.now.var) }
    requires known { AreInDomains (csp_of problem.now) (L.values open_var.now.lookup.now) }
    ensures { IsRow problem.now rule open_var.now.var (L.values open_var.now.lookup.now) row.new }
{
    let domain = problem.domain(open_var.var);
    for place in 0..domain.len() {
        let value = domain.value(place);
        let with = WithValue {
            var: open_var.var,
            value,
            lookup: open_var.lookup,
        };
        row.put(place, problem.violated_within(rule, &with));
    }
}
