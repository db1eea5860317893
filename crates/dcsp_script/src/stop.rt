//! Why a command was stopped.

ghost use Rattle.std.specs.Prelude.{◌≡◌};

use std::alloc::AllocError;

/// Why a command was stopped before its script was made.
#[derive(Clone, Copy, Debug, PartialEq, Eq)]
pub enum Stop {
    /// The folder or a sink failed, and counted it.
    Fault,
    /// Want of memory.
    Memory,
}

impl From<AllocError> for Stop {
    ghost use Rattle.dcsp_script.specs.declared.stop.Stop.TheVariants.{Memory};

    ghost from_gives = { λ _ stop. stop ≡ Memory };

    fn from(_refused: AllocError) -> Stop {
        Stop::Memory
    }
}
