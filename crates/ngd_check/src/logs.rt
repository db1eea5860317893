//! The law of logs.

ghost use Rattle.dcsp_defs.specs.Csp.{Csp};
ghost use Rattle.ngd_check.specs.Logged.{DerivationsHaveLogs};

/// A derivation of at most 2^40 + 2^32 steps has a log of at most 2^62 bytes, where the problem has at most
/// 4,096 variables and 262,144 constraints, and domains of at most 65,536 values of 64 bits.
pub fn derivations_have_logs()
    ensures { (p : Csp) → DerivationsHaveLogs p }
{}
