//! The texts that are the same each time.

ghost use Rattle.dcsp_outside.specs.Outside.{Place};
ghost use Rattle.dcsp_script.specs.Scripts.{outside};
ghost use Rattle.dcsp_script.specs.Runs.{CameIn};
ghost use Rattle.abt_input.specs.Errors.{way_of};
ghost use Rattle.line_model.specs.Generated.{print_promise};
ghost use Rattle.abt_words.specs.Rows.{the_rows};
ghost use Rattle.abt_words.specs.Texts.{help_text, usage_text};

use abt_input::CommandError;
use abt_words::{help, usage};
use dcsp_outside::Sink;
use dcsp_script::Status;
use line_model::print;
use std::alloc::Global;

/// What `--version` prints.
pub const VERSION: &[u8] = b"abt 0.1.0\nrattle-kit-13f logic dac8208d650f15bf\n";

/// Puts the help on `out`: the forms of the lines, and what they do.
pub fn print_help<S: Sink>(alloc: Global, out: &mut S) -> Result<Status, CommandError>
    ensures { (folder : Place) → CameIn (print_promise (help_text the_rows))
        (outside folder (S.stream out.old)) (outside folder (S.stream out.new)) (way_of result) }
{
    match help(alloc) {
        Ok(text) => print(out, text.as_bytes()),
        Err(_) => Err(CommandError::Memory),
    }
}

/// Puts the rows on `out`, one a line, for scripts.
pub fn print_usage<S: Sink>(alloc: Global, out: &mut S) -> Result<Status, CommandError>
    ensures { (folder : Place) → CameIn (print_promise (usage_text the_rows))
        (outside folder (S.stream out.old)) (outside folder (S.stream out.new)) (way_of result) }
{
    match usage(alloc) {
        Ok(text) => print(out, text.as_bytes()),
        Err(_) => Err(CommandError::Memory),
    }
}
