// Why nothing is done that a line of a script asks for.
use std::alloc::AllocError;
use std::{fmt, io};
use thiserror::Error;

// A mistake, of whatever kind the script has, is shown, and the next line is read. Input, output and memory
// that fail end the program, with the text of the very error that ended it.
#[derive(Debug, Drop, Error)]
#[error_bound(M: fmt::Display)]
pub enum LineError<M> {
    #[error(transparent)]
    Mistake(M),
    #[error(transparent)]
    Memory(#[from(alloc)] AllocError),
    #[error(transparent)]
    Io(#[from] io::Error),
}
