use thiserror::Error;

/// A read or a write that failed.
#[derive(Clone, Copy, Debug, PartialEq, Eq, Error)]
#[error("a read or a write failed")]
pub struct Failed;

/// Why the input was not read.
#[derive(Clone, Copy, Debug, PartialEq, Eq, Error)]
pub enum ReadFault {
    #[error("a read failed")]
    Read,
    #[error("the input is too long")]
    TooLong,
    #[error("no memory for the input")]
    Memory,
}

/// Why the output was not written.
#[derive(Clone, Copy, Debug, PartialEq, Eq, Error)]
pub enum WriteFault {
    #[error("a write failed")]
    Write,
}
