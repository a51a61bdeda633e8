// How a run ended.

/// How a run ended; its [`code`](Status::code) is the program's exit status.
#[derive(Clone, Copy)]
pub enum Status {
    /// All was written, and no report is at or above the level.
    Clean,
    /// All was written, and a report is at or above the level.
    Reached,
    /// An argument is wrong.
    Usage,
    /// The input isn't of its form.
    NoForm,
    /// The input failed.
    ReadFault,
    /// The output failed.
    SinkFault,
    /// There was no memory left.
    OutOfMemory,
    /// The input is longer than the limit, or so is a part of lines that are written as they come.
    InputTooLong,
}

impl Status {
    ghost use Rattle.std.specs.Prelude.{◌≡◌};
    ghost use Rattle.girzohal_run.specs.Code.{code_of};

    /// The exit status.
    pub fn code(self) -> u8
        ensures { result ≡ code_of self }
    {
        match self {
            Status::Clean => 0,
            Status::Reached => 1,
            Status::Usage => 2,
            Status::NoForm => 3,
            Status::ReadFault => 4,
            Status::SinkFault => 5,
            Status::OutOfMemory => 6,
            Status::InputTooLong => 7,
        }
    }
}
