//! How a command ends.

ghost use Rattle.std.specs.Prelude.{◌≡◌};
ghost use Rattle.dcsp_script.specs.Statuses.{code_of};

/// The status of a command.
#[derive(Clone, Copy, Debug, PartialEq, Eq)]
pub enum Status {
    /// It did what was asked, and the answer is good.
    Good,
    /// It did what was asked, and the answer is no.
    No,
    /// The words are no line of the program.
    Words,
    /// The model was refused.
    Model,
    /// The log was refused.
    Input,
    /// A run was stopped before it had a verdict.
    Unfinished,
    /// The folder or a stream failed.
    Fault,
    /// Memory ran out.
    Memory,
}

impl Status {
    /// The number that the program ends with, from 0 to 7.
    pub fn code(self) -> u8
        ensures { result ≡ code_of self }
    {
        match self {
            Status::Good => 0,
            Status::No => 1,
            Status::Words => 2,
            Status::Model => 3,
            Status::Input => 4,
            Status::Unfinished => 5,
            Status::Fault => 6,
            Status::Memory => 7,
        }
    }
}
