ghost use Rattle.std.specs.Prelude.{◌≡◌};

/// How the command ended.
#[derive(Clone, Copy, Debug, PartialEq, Eq)]
pub enum Status {
    /// All lanes were served to their ends.
    Done,
    /// The address to listen on could not be opened.
    Unopened,
    /// The words are not those of the command.
    Usage,
    /// A line could not be written.
    WriteFault,
    /// Out of memory.
    NoMemory,
}

impl Status {
    ghost use Rattle.cd_reverse_proxy.specs.Top.{code_of};

    /// The exit status of the program.
    pub fn code(self) -> u8
        ensures { result ≡ code_of self }
    {
        match self {
            Status::Done => 0,
            Status::Unopened => 1,
            Status::Usage => 2,
            Status::WriteFault => 4,
            Status::NoMemory => 5,
        }
    }
}
