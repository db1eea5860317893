//! Reading a log of version 1.

ghost use Rattle.abt_input.specs.Files.{HasRead};
ghost use Rattle.line_rewrite.specs.OldLogs.{an_old_log};

use abt_input::{CommandError, read_log_text};
use dcsp_outside::Folder;
use ngd_log::LogError;
use ngd_rewrite::Endings;
use std::alloc::Global;

/// A log of version 1.
#[derive(Drop)]
pub struct OldLog {
    /// Its bytes.
    pub text: Vec<u8>,
    /// For each of its steps, the steps that end there.
    pub endings: Endings,
}

/// The log under the name, which is of version 1. Nothing is written.
pub fn read_old_log<F: Folder>(
    alloc: Global,
    folder: &mut F,
    name: &str,
) -> Result<OldLog, CommandError>
    ensures { HasRead an_old_log name.now (F.place folder.old) (F.place folder.new) result }
{
    let text = read_log_text(alloc, folder, name)?;
    match Endings::of_log(alloc, &text) {
        Ok(endings) => Ok(OldLog { text, endings }),
        Err(LogError::Line { number }) => Err(CommandError::LogLine { number }),
        Err(LogError::Memory) => Err(CommandError::Memory),
    }
}
