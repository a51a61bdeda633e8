// How a run ended.

/// How a run ended; its [`code`](Status::code) is the program's exit status.
#[derive(Clone, Copy, PartialEq, Eq)]
pub enum Status {
    /// The whole text was written.
    Done,
    /// A report has an error.
    Refused,
    /// The arguments are wrong.
    Usage,
    /// The input isn't a document.
    NoDocument,
    /// The input failed.
    ReadFault,
    /// The output failed.
    SinkFault,
    /// Out of memory.
    OutOfMemory,
    /// The input is longer than a run reads.
    InputTooLong,
}

impl Status {
    ghost use Rattle.std.specs.Prelude.{◌≡◌};
    ghost use Rattle.report_run.specs.Code.{code_of};

    /// The exit status.
    pub fn code(self) -> u8
        ensures { result ≡ code_of self }
    {
        match self {
            Status::Done => 0,
            Status::Refused => 1,
            Status::Usage => 2,
            Status::NoDocument => 3,
            Status::ReadFault => 4,
            Status::SinkFault => 5,
            Status::OutOfMemory => 6,
            Status::InputTooLong => 7,
        }
    }
}
