ghost use Rattle.std.specs.Prelude.{◌≡◌};

/// How the program ended.
#[derive(Clone, Copy, Debug, PartialEq, Eq)]
pub enum Status {
    /// The run or the storm has ended, the configuration is valid, or that of a Caddyfile was written.
    Done,
    /// The configuration is refused, or the Caddyfile has a fault.
    Refused,
    /// A key of the configuration could not be opened.
    Unopened,
    /// The words are none that the program knows.
    Usage,
    /// The configuration could not be read.
    ReadFault,
    /// A line of a run or of a storm, that the configuration is valid, or that of a Caddyfile, could not be written.
    WriteFault,
    /// Out of memory.
    NoMemory,
}

impl Status {
    ghost use Rattle.cd_program.specs.Top.{code_of};

    /// The exit status of the program.
    pub fn code(self) -> u8
        ensures { result ≡ code_of self }
    {
        match self {
            Status::Done => 0,
            Status::Refused | Status::Unopened => 1,
            Status::Usage => 2,
            Status::ReadFault => 3,
            Status::WriteFault => 4,
            Status::NoMemory => 5,
        }
    }
}
