//! Writing a deletion.
ghost use Rattle.std.specs.Prelude.{◌≡◌, ◌++◌, OnOk, OnErr, IfOk};
ghost use Rattle.ngd_log.specs.Entries.{IsDeletion};
ghost use Rattle.ngd_log.specs.EntryTexts.{deletion_line};

use dcsp_common::{Memory, push_number};
use std::alloc::Global;

/// The first line of a log of version 2.
pub const HEAD2: &[u8] = b"ngd 2\n";

/// Appends the line of a deletion: `d`, each number after one space, and a line feed. A refusal
/// leaves `into` as it was.
///
/// There is a number, the numbers rise strictly, and each is from 1 to 2^62.
pub fn write_deletion(numbers: &[u64], into: &mut Vec<u8>) -> Result<(), Memory>
    requires { IsDeletion numbers.now }
    ensures ok { OnOk result (into.new.items ≡ into.old.items ++ deletion_line numbers.now) }
    ensures err { OnErr result (into.new.items ≡ into.old.items) }
{
    // The line is made apart, so that a refusal in its middle leaves nothing of it.
    let alloc = *into.allocator();
    let line = line_of(alloc, numbers)?;
    into.extend_from_slice(&line)?;
    Ok(())
}

/// The line of a deletion.
fn line_of(alloc: Global, numbers: &[u64]) -> Result<Vec<u8>, Memory>
    ensures { IfOk result (λ line. line.items ≡ deletion_line numbers.now) }
{
    let mut line = Vec::new(alloc);
    line.extend_from_slice(b"d")?;
    for number in numbers {
        line.extend_from_slice(b" ")?;
        push_number(&mut line, *number)?;
    }
    line.extend_from_slice(b"\n")?;
    Ok(line)
}
