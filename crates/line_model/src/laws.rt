//! What the promises of these lines keep.

ghost use Rattle.std.specs.Prelude.{ℕ, List, Option};
ghost use Rattle.dcsp_order.specs.declared.by_rule.OrderRule.{OrderRule};
ghost use Rattle.dcsp_script.specs.Clauses.{IsLawful};
ghost use Rattle.line_model.specs.BoundReports.{bound_promise};
ghost use Rattle.line_model.specs.OrderPromise.{order_promise};
ghost use Rattle.line_model.specs.Generated.{queens_promise, colouring_promise, sparse_promise, pigeons_promise, binary_promise, meetings_promise, sensors_promise};

/// Each promise keeps what every line of words keeps.
pub fn promises_are_lawful()
    ensures bound { (model : List ℕ) (order_file : Option (List ℕ)) → IsLawful (bound_promise model order_file) }
    ensures order { (model : List ℕ) (rule : OrderRule) (file : List ℕ) → IsLawful (order_promise model rule file) }
    ensures queens { (n : ℕ) → IsLawful (queens_promise n) }
    ensures colouring { (n k seed : ℕ) → IsLawful (colouring_promise n k seed) }
    ensures sparse { (n seed : ℕ) → IsLawful (sparse_promise n seed) }
    ensures pigeons { (n : ℕ) → IsLawful (pigeons_promise n) }
    ensures binary { (n d edges forbidden seed : ℕ) → IsLawful (binary_promise n d edges forbidden seed) }
    ensures meetings { (people meetings each hours busy seed : ℕ) → IsLawful (meetings_promise people meetings each hours busy seed) }
    ensures sensors { (side targets sees seed : ℕ) → IsLawful (sensors_promise side targets sees seed) }
{}
