// What the programs share: a session read from an input in parts, its answers written to an output.

#![tactic(auto)]

use std::fmt;

// Why a session does not come to its end: the input cannot be read, or the output not written.
#[derive(Clone, Copy, Debug, PartialEq, Eq)]
pub enum Error {
    NotRead,
    NotWritten,
}

// Ruled out: the message of the other.
impl fmt::Display for Error {
    ghost use Rattle.std.specs.Prelude.{Some};
    ghost use Rattle.stdio.specs.Messages.{message};

    ghost output = { λ e. Some (message e) };

    fn fmt<W: fmt::Write>(&self, f: &mut fmt::Formatter<W>) -> fmt::Result {
        match self {
            Error::NotRead => f.write_str("the input cannot be read"),
            Error::NotWritten => f.write_str("the output cannot be written"),
        }
    }
}

impl std::error::Error for Error {}

// bytes read at most at once; bytes printed at most before they are written
pub const PART: usize = 65536;

// ---- functions
pub mod sessions;
