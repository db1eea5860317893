//! What the promise of `upgrade` keeps, and what it means.

ghost use Rattle.std.specs.Prelude.{◌≡◌, ℕ, ℤ, List, Option};
ghost use Rattle.dcsp_defs.specs.declared.Step.{Step as A_step};
ghost use Rattle.dcsp_script.specs.Texts.{appended_by};
ghost use Rattle.ngd_log.specs.Logs.{AreWritable};
ghost use Rattle.dcsp_script.specs.Clauses.{IsLawful};
ghost use Rattle.line_check.specs.Taking.{taking_of};
ghost use Rattle.line_rewrite.specs.CorePromise.{core_promise};
ghost use Rattle.line_rewrite.specs.UpgradePromise.{upgrade_script, upgrade_promise};
ghost use Rattle.line_rewrite.specs.Upgrading.{new_text, IsUpgradeOf};

/// The promise keeps what every line of words keeps.
pub fn upgrade_is_lawful()
    ensures { (log new : List ℕ) → IsLawful (upgrade_promise log new) }
{}

/// The lines that are appended make one text of version 2, whose entries are the log's steps with their deletions. For
/// every problem its finding is that on the log.
pub fn new_is_upgraded()
    ensures text { (new : List ℕ) (steps : List A_step) → appended_by (upgrade_script new steps) new ≡ new_text steps }
    ensures upgrade { (steps : List A_step) → AreWritable steps → IsUpgradeOf steps (new_text steps) }
{}

/// The promise of `core` keeps what every line of words keeps.
pub fn core_is_lawful()
    ensures { (better : Option ℤ) (model log trimmed : List ℕ) → IsLawful (core_promise (taking_of better) model log trimmed) }
{}
