// How a replay ends.

/// How a replay of a script ends.
#[derive(Clone, Copy, Debug, PartialEq, Eq)]
pub enum Ended {
    /// The script was read to its end, and each line is answered.
    Done,
    /// A read failed.
    SourceFault,
    /// A write failed.
    SinkFault,
    /// The script has more than 67,108,864 bytes.
    TooLong,
}
