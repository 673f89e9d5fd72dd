//! How a call of the program ends.

/// The exit status, by its number.
#[derive(Clone, Copy, Debug, PartialEq, Eq, Drop)]
pub enum Status {
    /// The bundle is true.
    Yes = 0,
    /// The bundle, the proof file or the derivation was refused.
    Refused = 1,
    /// The words aren't those of a command.
    Usage = 2,
    /// A file couldn't be read.
    FileFault = 3,
    /// A line couldn't be written.
    OutputFault = 4,
    /// There was no memory.
    Memory = 5,
    /// Kept for a search that finds no proof.
    Unproved = 6,
}
