//! How a run ends.

ghost use Rattle.std.specs.Prelude.{◌≡◌};
ghost use Rattle.linker_program.specs.LinkRun.{status_code};

/// How a run of the linker ends. The program ends with its code.
#[derive(Clone, Copy, Debug, PartialEq, Eq)]
pub enum Status {
    /// The link is done.
    Done,
    /// The input is refused.
    Refused,
    /// The words are refused.
    Usage,
    /// Memory was refused.
    OutOfMemory,
    /// A read failed.
    ReadFailed,
    /// A write failed.
    WriteFailed,
    /// A put failed.
    PutFailed,
}

impl Status {
    /// The number that the program ends with.
    pub fn code(self) -> u8
        ensures { result ≡ status_code self }
    {
        match self {
            Status::Done => 0,
            Status::Refused => 1,
            Status::Usage => 2,
            Status::OutOfMemory => 3,
            Status::ReadFailed => 4,
            Status::WriteFailed => 5,
            Status::PutFailed => 6,
        }
    }
}
