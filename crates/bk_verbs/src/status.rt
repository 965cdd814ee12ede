//! How the program ends.

ghost use Rattle.std.specs.Prelude.{◌≡◌};
ghost use Rattle.bk_verbs.specs.Codes.{code_of};

/// How the program ends.
#[derive(Clone, Copy, PartialEq, Eq, Debug)]
pub enum Status {
    /// All work is done and written.
    Done,
    /// The words are none of the program's.
    Usage,
    /// A file is not there.
    Missing,
    /// A text is refused.
    Refused,
    /// An obligation is not proved.
    Unproved,
    /// The project has no implementation.
    Incomplete,
    /// The call script is at fault.
    BadCalls,
    /// A call or the initialisation trapped.
    Trapped,
    /// A call or the initialisation was out of fuel.
    OutOfFuel,
    /// The file is no image.
    BadImage,
    /// A file could not be read.
    ReadFault,
    /// The output could not be written.
    WriteFault,
    /// There was no memory.
    Memory,
}

impl Status {
    /// The exit code of the program: 0 where all work is done.
    pub fn code(&self) -> u8
        ensures { result ≡ code_of self.now }
    {
        match self {
            Status::Done => 0,
            Status::Usage => 1,
            Status::Missing => 2,
            Status::Refused => 3,
            Status::Unproved => 4,
            Status::Incomplete => 5,
            Status::BadCalls => 6,
            Status::Trapped => 7,
            Status::OutOfFuel => 8,
            Status::BadImage => 9,
            Status::ReadFault => 10,
            Status::WriteFault => 11,
            Status::Memory => 12,
        }
    }
}
