// Why the work of a program failed.
ghost use Rattle.std.specs.Prelude.{◌≡◌};
ghost use Rattle.cli.specs.Failures.{said};
ghost use Rattle.cli.specs.declared.failure.Failure.TheVariants.{Io, Memory, Refused};

use game::refusal::Refusal;
use std::alloc::AllocError;
use std::error::Error;
use std::{fmt, io};

#[derive(Clone, Copy, Debug)]
pub enum Failure<'a> {
    // something that was given is refused
    Refused(Refusal),
    // the words are no command of the program
    Misused { program: &'a str, usage: &'a str },
    // a file that can't be read, and one that can't be written
    Unreadable { path: &'a str, error: io::Error },
    Unwritable { path: &'a str, error: io::Error },
    // more moves on standard input than a run may have
    TooManyMoves { most: u64 },
    // a text that is no number of a start, of as many as the rules have
    NoStart { text: &'a str, count: u8 },
    // what else ended the work: a stream that is closed, want of memory
    Io(io::Error),
    Memory(AllocError),
}

impl fmt::Display for Failure<'_> {
    ghost output = { said };

    fn fmt<W: fmt::Write>(&self, f: &mut fmt::Formatter<W>) -> fmt::Result {
        match self {
            Failure::Refused(refusal) => write!(f, "{refusal}"),
            Failure::Misused { program, usage } => {
                write!(f, "write {usage}; {program} --help says more")
            }
            Failure::Unreadable { path, error } => {
                write!(
                    f,
                    "cannot read {path}: {error}; name a file that exists and may be read"
                )
            }
            Failure::Unwritable { path, error } => {
                write!(
                    f,
                    "cannot write {path}: {error}; name a file in a folder that may be written"
                )
            }
            Failure::TooManyMoves { most } => {
                write!(f, "more than {most} moves on standard input; give fewer")
            }
            Failure::NoStart { text, count } => {
                write!(
                    f,
                    "{text} is no start: the rules have {count}, and the first is 0"
                )
            }
            Failure::Io(error) => write!(f, "{error}"),
            Failure::Memory(error) => write!(f, "{error}"),
        }
    }
}

impl Error for Failure<'_> {}

impl From<Refusal> for Failure<'_> {
    ghost from_gives = { λ refusal failure. failure ≡ Refused refusal };

    fn from(refusal: Refusal) -> Self {
        Failure::Refused(refusal)
    }
}

impl From<io::Error> for Failure<'_> {
    ghost from_gives = { λ error failure. failure ≡ Io error };

    fn from(error: io::Error) -> Self {
        Failure::Io(error)
    }
}

impl From<AllocError> for Failure<'_> {
    ghost from_gives = { λ error failure. failure ≡ Memory error };

    fn from(error: AllocError) -> Self {
        Failure::Memory(error)
    }
}
