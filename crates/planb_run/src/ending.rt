use core_tree::{Text, What};
use java_source::SourceRefusal;

/// How a call of `planb` ended: the status, the steps that the run took, why it stopped, and how the report went.
#[derive(Drop)]
pub struct Ending {
    pub status: u8,
    pub steps: u64,
    pub stop: Stop,
    pub reported: Reported,
}

/// Why a call of `planb` stopped.
#[derive(Drop)]
pub enum Stop {
    /// The program ended normally.
    Done,
    /// An exception that nothing caught ended the program: its class by its number there, and its message where it has
    /// one.
    Uncaught { class: u32, message: Option<Text> },
    /// The words are no command.
    Usage,
    /// The source isn't accepted.
    Refused(SourceRefusal),
    /// The program wanted more steps than this budget.
    StepsSpent(u64),
    /// The program had no room for a cell or for a text.
    Full(What),
    /// Memory ran out. It may come at any point.
    OutOfMemory,
    /// The files failed. It comes only where their count of faults rose.
    ReadFault,
    /// The output failed. It comes only where its count of faults rose.
    WriteFault,
}

/// How the report went.
#[derive(Clone, Copy, Debug, PartialEq, Eq)]
pub enum Reported {
    /// It was written whole and flushed.
    Whole,
    /// The report's sink failed, and a prefix is written. It comes only where its count of faults rose.
    WriteFault,
    /// The report's sink had no memory, and a prefix is written.
    OutOfMemory,
}
