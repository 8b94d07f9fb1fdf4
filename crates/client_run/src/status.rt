/// How a run ends; the number is the exit status of the process.
#[derive(Clone, Copy, Debug, PartialEq, Eq)]
pub enum Status {
    /// The source was read to its end, and every line was handled.
    Done = 0,
    /// The words aren't those of a command.
    Usage = 2,
    /// The source failed, and counted it.
    SourceFault = 3,
    /// The disk failed, and counted it.
    DiskFault = 4,
    /// The output failed, and counted it.
    SinkFault = 5,
    /// No memory was found.
    NoMemory = 6,
    /// The files are no store of this program. They stay as they are.
    NotAStore = 7,
    /// As many lines as a run may have were taken and handled.
    Budget = 8,
}
