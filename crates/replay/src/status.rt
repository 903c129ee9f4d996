// How a run ends.
ghost use Rattle.std.specs.Prelude.{◌≡◌};
ghost use Rattle.replay.specs.Commanding.{status_code};
ghost use Rattle.replay.specs.Ending.{status_of};

use line_service::Ended;

/// How a run ends.
#[derive(Clone, Copy, Debug, PartialEq, Eq)]
pub enum Status {
    /// The script was read to its end, and each line is answered.
    Done,
    /// The words aren't those of a run.
    Usage,
    /// A read failed.
    SourceFault,
    /// A write failed.
    SinkFault,
    /// There was no memory to begin with.
    NoMemory,
    /// The script has more than 67,108,864 bytes.
    TooLong,
}

impl Status {
    /// The status of a run, by how its replay ends.
    pub fn of(ended: Ended) -> Status
        ensures { result ≡ status_of ended }
    {
        match ended {
            Ended::Done => Status::Done,
            Ended::SourceFault => Status::SourceFault,
            Ended::SinkFault => Status::SinkFault,
            Ended::TooLong => Status::TooLong,
        }
    }

    /// The exit status of the program, 0 to 5.
    pub fn code(self) -> u8
        ensures { result ≡ status_code self }
    {
        match self {
            Status::Done => 0,
            Status::Usage => 1,
            Status::SourceFault => 2,
            Status::SinkFault => 3,
            Status::NoMemory => 4,
            Status::TooLong => 5,
        }
    }
}
