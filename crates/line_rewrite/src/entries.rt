//! Writing steps with their deletions as a log of version 2.

ghost use Rattle.std.specs.Prelude.{◌≡◌, ◌+◌, ◌<◌, ◌∷◌, [], ◌++◌, List, ℕ, length, slice_index_or, IfOk, OnOk, Contains};
ghost use Rattle.std.specs.List.{AllByRecursion};
ghost use Rattle.dcsp_outside.specs.Outside.{Place, Stream};
ghost use Rattle.dcsp_script.specs.Scripts.{Append, outside};
ghost use Rattle.dcsp_script.specs.Ways.{Wrote};
ghost use Rattle.ngd_log.specs.declared.standing.Version.{Version};
ghost use Rattle.ngd_log.specs.Lines.{lines};
ghost use Rattle.ngd_log.specs.EntryTexts.{entry_lines, text_lines, IsWritableEntry};
ghost use Rattle.ngd_rewrite.specs.Upgrade.{as_deletion, upgraded, deleted_count};
ghost use Rattle.ngd_rewrite.specs.Endings.{Follows};
ghost use Rattle.line_rewrite.specs.OldLogs.{steps_of, IsOldLog};
ghost use Rattle.line_rewrite.specs.UpgradePromise.{appends, file_script};

use crate::old_log::OldLog;
use dcsp_outside::Folder;
use dcsp_script::{Stop, append, create};
use memchr::memchr;
use ngd_log::{HEAD2, TAIL, write_deletion};
use ngd_rewrite::Endings;
use std::alloc::{AllocError, Global};

/// Writes the log's steps with their deletions as a log of version 2: the name is created, and each line is appended
/// by itself. The line of a step is the same in both versions. It answers how many steps are deleted.
pub fn write_upgraded<F: Folder>(
    alloc: Global,
    folder: &mut F,
    name: &str,
    log: &OldLog,
) -> Result<u64, Stop>
    requires { IsOldLog log.now }
    ensures wrote { (out : Stream) → Wrote (file_script name.now (text_lines Version.Two (upgraded (steps_of log.now))))
        (outside (F.place folder.old) out) (outside (F.place folder.new) out) result }
    ensures deleted { IfOk result (λ deleted. deleted ≡ deleted_count (upgraded (steps_of log.now))) }
{
    create(folder, name)?;
    append(folder, name, HEAD2)?;
    let deleted = append_upgraded(alloc, folder, name, log)?;
    append(folder, name, TAIL)?;
    Ok(deleted)
}

/// Appends the line of each step, and after each but the last that of the deletion of the steps that end there, if
/// there are any. It answers how many steps are deleted.
fn append_upgraded<F: Folder>(
    alloc: Global,
    folder: &mut F,
    name: &str,
    log: &OldLog,
) -> Result<u64, Stop>
    requires created { Contains (F.place folder.old).created name.now }
    requires log { IsOldLog log.now }
    ensures wrote { (out : Stream) → Wrote (appends name.now (entry_lines 1 (upgraded (steps_of log.now))))
        (outside (F.place folder.old) out) (outside (F.place folder.new) out) result }
    ensures created { (F.place folder.new).created ≡ (F.place folder.old).created }
    ensures deleted { IfOk result (λ deleted. deleted ≡ deleted_count (upgraded (steps_of log.now))) }
{
    let count = log.endings.len();
    if count == 0 {
        return Ok(0);
    }
    let mut line = Vec::new(alloc);
    let mut numbers = Vec::new(alloc);
    let mut deleted = 0;
    let (_head, mut rest) = first_line(&log.text);
    for place in 0..count - 1 {
        rest = append_line(folder, name, rest)?;
        let ended = take_numbers(&log.endings, place, &mut numbers)?;
        append_deletion(folder, name, &numbers, &mut line)?;
        deleted += ended;
    }
    append_line(folder, name, rest)?;
    Ok(deleted)
}

/// Appends the first line of the text, and answers what follows it.
fn append_line<'t, F: Folder>(folder: &mut F, name: &str, text: &'t [u8]) -> Result<&'t [u8], Stop>
    requires created { Contains (F.place folder.old).created name.now }
    ensures wrote { (line : List ℕ) (others : List (List ℕ)) → lines text.now ≡ line ∷ others
        → (out : Stream) → Wrote (Append name.now line ∷ [])
        (outside (F.place folder.old) out) (outside (F.place folder.new) out) result }
    ensures rest { (line : List ℕ) (others : List (List ℕ)) → lines text.now ≡ line ∷ others
        → IfOk result (λ rest. lines rest.now ≡ others) }
    ensures created { (F.place folder.new).created ≡ (F.place folder.old).created }
{
    let (line, rest) = first_line(text);
    append(folder, name, line)?;
    Ok(rest)
}

/// The first line of a text, with its line feed, and what follows it.
fn first_line(text: &[u8]) -> (&[u8], &[u8])
    ensures line { (line : List ℕ) (others : List (List ℕ)) → lines text.now ≡ line ∷ others → result.0.now ≡ line }
    ensures rest { (line : List ℕ) (others : List (List ℕ)) → lines text.now ≡ line ∷ others → lines result.1.now ≡ others }
{
    match memchr(b'\n', text) {
        Some(at) => text.split_at(at + 1),
        None => text.split_at(text.len()),
    }
}

/// Takes the numbers of the steps that end at the step at this place, in place of those that `numbers` has. It
/// answers how many they are.
fn take_numbers(endings: &Endings, place: usize, numbers: &mut Vec<u64>) -> Result<u64, AllocError>
    requires { place < length endings.now.firsts }
    ensures numbers { (ending : List ℕ) → Follows endings.now.nexts (slice_index_or endings.now.firsts place 0) ending
        → OnOk result (numbers.new.items ≡ ending) }
    ensures count { (ending : List ℕ) → Follows endings.now.nexts (slice_index_or endings.now.firsts place 0) ending
        → IfOk result (λ count. count ≡ length ending) }
{
    numbers.clear();
    endings.add_numbers(place, numbers)?;
    Ok(numbers.len() as u64)
}

/// Appends the line of a deletion of the steps with these numbers, if there are any. It is made in `line`.
fn append_deletion<F: Folder>(
    folder: &mut F,
    name: &str,
    numbers: &[u64],
    line: &mut Vec<u8>,
) -> Result<(), Stop>
    requires created { Contains (F.place folder.old).created name.now }
    requires deletion { AllByRecursion (IsWritableEntry Version.Two) (as_deletion numbers.now) }
    ensures wrote { (out : Stream) → Wrote (appends name.now (entry_lines 1 (as_deletion numbers.now)))
        (outside (F.place folder.old) out) (outside (F.place folder.new) out) result }
    ensures created { (F.place folder.new).created ≡ (F.place folder.old).created }
{
    if numbers.is_empty() {
        return Ok(());
    }
    line.clear();
    write_deletion(numbers, line)?;
    append(folder, name, line)
}
