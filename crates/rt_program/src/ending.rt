// How the program ends.
ghost use Rattle.std.specs.Prelude.{◌≡◌};
ghost use Rattle.rt_program.specs.Endings.{status_of, has_offset, is_of_file, file_failure, run_failure, log_failure, first_failure, join_failure, show_failure, write_failure};

use rt_files::JoinFault;
use rt_stamps::Fault;
use std::fmt;
use std::io::ErrorKind;

/// Why the program failed, and the file that is at fault, if one is.
#[derive(Clone, Copy)]
pub struct Failure<'a> {
    /// What is wrong.
    pub fault: Fault,
    /// The file's path, and where the record that is at fault begins in it, in bytes.
    pub file: Option<(&'a str, u64)>,
}

/// The status of the program: 0, or 1 where it failed. A command line that asks for nothing has the
/// status of its `LineFault`.
pub fn status(failure: Option<Failure<'_>>) -> u8
    ensures { result ≡ status_of failure.entry }
{
    match failure {
        None => 0,
        Some(_) => 1,
    }
}

/// Whether a fault is of the records of a file, so that it has an offset.
pub fn has_offset(fault: Fault) -> bool
    ensures { result ≡ has_offset fault }
{
    let number = fault.number();
    30 <= number && number <= 37
}

/// How a run failed, by the fault with which it ended.
pub fn run_failure<'a>(fault: Option<Fault>) -> Option<Failure<'a>>
    ensures { result ≡ run_failure fault }
{
    match fault {
        None => None,
        Some(fault) => Some(Failure { fault, file: None }),
    }
}

/// How the program failed at a file that it reads. Want of memory is no fault of the file, nor is a
/// failed write of its lines.
pub fn file_failure<'a>(fault: Fault, offset: u64, path: &'a str) -> Failure<'a>
    ensures { result ≡ file_failure (fault, offset) path.entry }
{
    Failure {
        fault,
        file: if is_of_file(fault) {
            Some((path, offset))
        } else {
            None
        },
    }
}

/// Why a site didn't begin: its log's file is at fault, if there is one, or memory was wanting.
pub fn log_failure<'a>(fault: Fault, offset: u64, log: Option<&'a str>) -> Failure<'a>
    ensures { result ≡ log_failure (fault, offset) log.entry }
{
    match log {
        Some(path) => file_failure(fault, offset, path),
        None => Failure { fault, file: None },
    }
}

/// How a run failed whose script ended with a fault, or whose log was then not written: by the first
/// of both.
pub fn first_failure<'a>(run: Option<Fault>, out: Option<Failure<'a>>) -> Option<Failure<'a>>
    ensures { result ≡ first_failure run out.entry }
{
    match run {
        Some(_) => run_failure(run),
        None => out,
    }
}

/// How the join of two files failed. Neither is named for a clash between them, nor for want of
/// memory.
pub fn join_failure<'a>(why: JoinFault, a: &'a str, b: &'a str) -> Failure<'a>
    ensures { result ≡ join_failure why a.entry b.entry }
{
    let file = match why.file {
        1 => Some((a, why.offset)),
        2 => Some((b, why.offset)),
        _ => None,
    };
    Failure {
        fault: why.fault,
        file,
    }
}

/// Whether a fault that was met with a file is the file's own.
fn is_of_file(fault: Fault) -> bool
    ensures { result ≡ is_of_file fault }
{
    !matches!(fault, Fault::NoMemory | Fault::WriteFault)
}

/// How `show` ended, and whether all that it had told was written then.
pub fn show_failure<'a>(
    shown: Result<(), (Fault, u64)>,
    is_written: bool,
    path: &'a str,
) -> Option<Failure<'a>>
    ensures { result ≡ show_failure shown is_written path.entry }
{
    if !is_written {
        return Some(Failure {
            fault: Fault::WriteFault,
            file: None,
        });
    }
    match shown {
        Ok(()) => None,
        Err((fault, offset)) => Some(file_failure(fault, offset, path)),
    }
}

/// How the program failed where a file was not written.
pub fn write_failure<'a>(kind: ErrorKind, path: &'a str) -> Failure<'a>
    ensures { result ≡ write_failure kind path.entry }
{
    match kind {
        ErrorKind::OutOfMemory => Failure {
            fault: Fault::NoMemory,
            file: None,
        },
        _ => Failure {
            fault: Fault::WriteFault,
            file: Some((path, 0)),
        },
    }
}

/// The line on standard error where the program failed: `peertext: 41 WriteFault`, or
/// `peertext: notes.ops: 33 BadRecord at 44` where a file is at fault.
impl fmt::Display for Failure<'_> {
    ghost use Rattle.std.specs.Prelude.{Some};
    ghost use Rattle.rt_program.specs.Endings.{error_line};

    ghost output = { λ failure. Some (error_line failure) };

    fn fmt<W: fmt::Write>(&self, f: &mut fmt::Formatter<W>) -> fmt::Result {
        match self.file {
            None => write!(f, "peertext: {}", self.fault),
            Some((path, offset)) => {
                if has_offset(self.fault) {
                    write!(f, "peertext: {path}: {} at {offset}", self.fault)
                } else {
                    write!(f, "peertext: {path}: {}", self.fault)
                }
            }
        }
    }
}
