// What a command line asks for, or why it asks for nothing.
ghost use Rattle.std.specs.Prelude.{◌≡◌};
ghost use Rattle.rt_args.specs.CommandLine.{is_mistake, line_status, unread};

use clap::Error;
use clap::error::ErrorKind;
use rt_stamps::{Fault, Site};
use std::alloc::AllocError;
use std::{fmt, io};

/// What a command line asks for.
#[derive(Drop)]
pub enum Line {
    /// A run of a script by a site, with the path of its log's file, that of the file which gets the
    /// log after the script, and those of the files that the script may name, in the order of the
    /// words.
    Run {
        site: Site,
        log: Option<String>,
        out: Option<String>,
        files: Vec<String>,
    },
    /// The join of the files A and B, to be written into OUT.
    Join {
        a: String,
        b: String,
        out: String,
    },
    /// The lines of a file of operations.
    Show {
        file: String,
    },
}

/// Why a command line asks for nothing.
#[derive(Debug, Drop)]
pub enum LineFault {
    /// The words are not the program's, or ask for its help or its version: clap's error has the
    /// text for the user.
    Usage(Error),
    /// A word is not UTF-8.
    NoText,
    /// A growth was refused.
    NoMemory,
}

impl LineFault {
    /// Why the system's words were not read, by the kind of the reading's error: for want of memory,
    /// or else since one of them is no text.
    pub fn unread(kind: io::ErrorKind) -> LineFault
        ensures { result ≡ unread kind }
    {
        match kind {
            io::ErrorKind::OutOfMemory => LineFault::NoMemory,
            _ => LineFault::NoText,
        }
    }

    /// Whether the program was called wrongly, or found no memory, so that the text goes to
    /// standard error. Its help and its version go to standard output.
    pub fn is_mistake(&self) -> bool
        ensures { result ≡ is_mistake self.now }
    {
        match self {
            LineFault::Usage(error) => error.use_stderr(),
            LineFault::NoText | LineFault::NoMemory => true,
        }
    }

    /// The status with which the program ends: 2 for words that it does not take, 1 for want of
    /// memory, and 0 for its help and its version.
    pub fn status(&self) -> u8
        ensures { result ≡ line_status self.now }
    {
        match self {
            LineFault::Usage(_) => { if self.is_mistake() { 2 } else { 0 } }
            LineFault::NoText => 2,
            LineFault::NoMemory => 1,
        }
    }
}

impl From<Error> for LineFault {
    ghost use Rattle.rt_args.specs.CommandLine.{fault_from};

    ghost from_gives = { λ error fault. fault ≡ fault_from error };

    fn from(error: Error) -> LineFault {
        match error.kind() {
            ErrorKind::OutOfMemory => LineFault::NoMemory,
            _ => LineFault::Usage(error),
        }
    }
}

impl From<AllocError> for LineFault {
    ghost use Rattle.rt_args.specs.declared.command_line.LineFault.TheVariants.{NoMemory};

    ghost from_gives = { λ _ fault. fault ≡ NoMemory };

    fn from(_error: AllocError) -> LineFault {
        LineFault::NoMemory
    }
}

impl fmt::Display for LineFault {
    ghost use Rattle.rt_args.specs.CommandLine.{text_of_fault};

    ghost output = { λ fault. text_of_fault fault };

    fn fmt<W: fmt::Write>(&self, f: &mut fmt::Formatter<W>) -> fmt::Result {
        match self {
            LineFault::Usage(error) => write!(f, "{error}"),
            LineFault::NoText => write!(f, "peertext: a word of the command line is no text\n"),
            LineFault::NoMemory => write!(f, "peertext: {}\n", Fault::NoMemory),
        }
    }
}
