//! How a command ends.

ghost use Rattle.std.specs.Prelude.{◌≡◌};
ghost use Rattle.command_outcome.specs.Status.{number_of};

/// How a command ended; the number is the process's exit status.
#[derive(Clone, Copy, Debug, PartialEq, Eq)]
pub enum Status {
    Done,
    SourceRefused,
    WordsRefused,
    ProgramFailed,
    ReadFault,
    WriteFault,
    NoMemory,
    BitsRefused,
    DataRefused,
    LimitReached,
}

impl Status {
    /// The exit status, from 0 for `Done` to 9 for `LimitReached`.
    pub fn number(self) -> u8
        ensures { result ≡ number_of self }
    {
        match self {
            Status::Done => 0,
            Status::SourceRefused => 1,
            Status::WordsRefused => 2,
            Status::ProgramFailed => 3,
            Status::ReadFault => 4,
            Status::WriteFault => 5,
            Status::NoMemory => 6,
            Status::BitsRefused => 7,
            Status::DataRefused => 8,
            Status::LimitReached => 9,
        }
    }
}
