// Why a run, or the program, does not come to its end.
use circuit::Refusal;
use input::BadArguments;
use std::alloc::AllocError;
use std::{fmt, io};
use trial::Stop;

// What ends the program.
#[derive(Clone, Copy)]
pub(crate) enum Trouble {
    // There is no room for a run.
    NoRoom,
    // There is no memory for what is told or written.
    Memory(AllocError),
    Words(fmt::Error),
    // What is found cannot be told.
    Untold(io::Error),
    Arguments(BadArguments),
}

impl Trouble {
    // Whether what is found cannot be told since nobody reads on.
    pub(crate) fn is_closed_pipe(self) -> bool {
        match self {
            Trouble::Untold(e) => e.kind() == io::ErrorKind::BrokenPipe,
            _ => false,
        }
    }
}

impl From<AllocError> for Trouble {
    fn from(e: AllocError) -> Trouble {
        Trouble::Memory(e)
    }
}

impl From<fmt::Error> for Trouble {
    fn from(e: fmt::Error) -> Trouble {
        Trouble::Words(e)
    }
}

impl From<io::Error> for Trouble {
    fn from(e: io::Error) -> Trouble {
        Trouble::Untold(e)
    }
}

impl fmt::Display for Trouble {
    fn fmt<W: fmt::Write>(&self, f: &mut fmt::Formatter<W>) -> fmt::Result {
        match self {
            Trouble::NoRoom => f.write_str("memory is short"),
            Trouble::Memory(e) => e.fmt(f),
            Trouble::Words(e) => e.fmt(f),
            Trouble::Untold(e) => e.fmt(f),
            Trouble::Arguments(e) => e.fmt(f),
        }
    }
}

// What ends a run.
#[derive(Clone, Copy)]
pub(crate) enum Halt {
    // The circuit, or what is told to it, is turned away.
    Refused(Refusal),
    // The dump cannot be written.
    Unwritten(io::Error),
    Trouble(Trouble),
}

impl From<Stop> for Halt {
    fn from(stop: Stop) -> Halt {
        match stop {
            Stop::Refused(refusal) => Halt::Refused(refusal),
            Stop::Memory => Halt::Trouble(Trouble::NoRoom),
        }
    }
}

impl From<AllocError> for Halt {
    fn from(e: AllocError) -> Halt {
        Halt::Trouble(Trouble::Memory(e))
    }
}

impl From<io::Error> for Halt {
    fn from(e: io::Error) -> Halt {
        Halt::Trouble(Trouble::Untold(e))
    }
}
