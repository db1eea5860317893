//! Derivations as logs with deletions.
//!
//! A step ends at the last step that cites it, or at itself if that is later. After each step but the
//! last, one deletion of the steps that end there says that no later step needs them.

ghost use Rattle.std.specs.Prelude.{◌≡◌, ◌++◌, ◌↔◌, List, OnOk, IfOk};
ghost use Rattle.dcsp_defs.specs.Csp.{Csp};
ghost use Rattle.dcsp_defs.specs.declared.Step.{Step as A_step};
ghost use Rattle.ngd_log.specs.declared.standing.Version.{Version};
ghost use Rattle.ngd_log.specs.Logs.{AreWritable};
ghost use Rattle.ngd_log.specs.EntryTexts.{HaveText};
ghost use Rattle.ngd_check.specs.declared.Finding.{Finding as AFinding};
ghost use Rattle.ngd_check.specs.Findings.{IsFinding, IsFindingOf};
ghost use Rattle.ngd_rewrite.specs.Upgrade.{upgraded, deleted_count};

use crate::append::append_all;
use crate::endings::Endings;
use ngd_log::{Derivation, Entries, Memory};
use std::alloc::Global;

/// Appends the derivation's steps in order, and after each step but the last, if some step ends there,
/// one deletion of all steps that end there. It answers how many steps were deleted.
///
/// For every problem the finding on these entries is that on the derivation. It takes time in
/// proportion to the steps and their reasons. After a refusal what stands in `into` is open.
pub fn upgraded(alloc: Global, derivation: &Derivation, into: &mut Entries) -> Result<u64, Memory>
    ensures entries { OnOk result (into.new ≡ into.old ++ upgraded derivation.now) }
    ensures deleted { IfOk result (λ deleted. deleted ≡ deleted_count (upgraded derivation.now)) }
    ensures finding { (p : Csp) (finding : AFinding) → IsFinding p derivation.now finding ↔ IsFindingOf p (upgraded derivation.now) finding }
    ensures writable { AreWritable derivation.now → HaveText Version.Two (upgraded derivation.now) }
{
    let endings = Endings::of(alloc, derivation)?;
    append_all(alloc, derivation.steps(), &endings, into)
}

/// A derivation and its entries with deletions have the same finding, for every problem.
pub fn one_finding()
    ensures { (p : Csp) (steps : List A_step) (finding : AFinding) → IsFinding p steps finding ↔ IsFindingOf p (upgraded steps) finding }
{}

/// The entries of a derivation that has a log have a text of version 2.
pub fn upgraded_have_text()
    ensures { (steps : List A_step) → AreWritable steps → HaveText Version.Two (upgraded steps) }
{}
