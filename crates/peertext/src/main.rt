//! `peertext run --site N` runs a script from standard input, and writes its replies to standard
//! output; `--log` is the file of the log with which the site begins, `--out` gets its log at the end,
//! and FILEs are what the script may receive. `peertext join A B OUT` joins two files of operations,
//! and `peertext show FILE` writes the line of each operation of one.
#![tactic(auto)]

ghost use Rattle.std.specs.Prelude.{◌≡◌, ◌≤◌, ◌<◌, ◌++◌, ◌∷◌, [], length, None, IfOk, MatchResult, OnOk};
ghost use Rattle.rt_stamps.specs.declared.limits.TheConstants.{MOST_BYTES};
ghost use Rattle.rt_stamps.specs.Streams.{Stream};
ghost use Rattle.rt_stamps.specs.Words.{as_words};
ghost use Rattle.peertext.specs.Program.{ProgramRuns, WritesLog, names_of_files};
ghost use Rattle.rt_program.specs.Endings.{log_failure};
ghost use Rattle.rt_program.specs.Readers.{stream_of};
ghost use Rattle.rt_script.specs.Site.{AreWithin, named_files};
ghost use Rattle.rt_script.specs.SiteRun.{BeginsFrom};

mod counted;

use counted::{Counts, begin_with, join_two, read_file, run_counted, show_file};
use rt_args::{Line, LineFault, line};
use rt_program::ending::{
    Failure, file_failure, first_failure, join_failure, log_failure, run_failure, show_failure,
    status, write_failure,
};
use rt_program::{LazyFile, write_whole};
use rt_script::{JoinFault, ScriptRun, SiteState, begun};
use rt_stamps::std_ends::{Reader, Writer};
use rt_stamps::{Fault, Site};
use std::alloc::Global;
use std::env::{self, Env};
use std::io::{self, BufReader, BufWriter, Read, Write};
use std::marker::Brand;
use std::mem::forget;
use std::process::ExitCode;
use std::sync::ledger::{Blank, Ledger};

// A file that is opened by its first read, read in larger pieces.
type FileReader<'a> = BufReader<LazyFile<'a, HostRuntime>>;

fn file_at<'a>(rt: &'a HostRuntime, path: &'a str) -> Result<FileReader<'a>, Fault> {
    match BufReader::new(rt.alloc(), LazyFile::new(rt, path)) {
        Ok(file) => Ok(file),
        Err(_) => Err(Fault::NoMemory),
    }
}

// All bytes of a file.
fn read_path<'a>(rt: &HostRuntime, path: &'a str) -> Result<Vec<u8>, Failure<'a>>
    ensures { IfOk result (λ bytes. length bytes.items ≤ MOST_BYTES) }
{
    let file = match file_at(rt, path) {
        Ok(file) => file,
        Err(fault) => return Err(file_failure(fault, 0, path)),
    };
    match read_file::<Brand, Brand, _>(rt.alloc(), file, Blank::new(1), Blank::new(1)) {
        Ok(bytes) => Ok(bytes),
        Err(fault) => Err(file_failure(fault, 0, path)),
    }
}

// A new site.
fn begun_new<'a>(rt: &HostRuntime, site: Site) -> Result<SiteState, Failure<'a>>
    ensures { MatchResult result (BeginsFrom site.number None) (λ failure. failure ≡ log_failure (Fault.NoMemory, 0) None) }
{
    match begun(rt.alloc(), site, None) {
        Ok(state) => Ok(state),
        Err((fault, offset)) => Err(log_failure(fault, offset, None)),
    }
}

// A site with the log of a file.
fn begun_with<'a>(rt: &HostRuntime, site: Site, path: &'a str) -> Result<SiteState, Failure<'a>> {
    let file = match file_at(rt, path) {
        Ok(file) => file,
        Err(fault) => return Err(log_failure(fault, 0, Some(path))),
    };
    match begin_with::<Brand, Brand, _>(rt.alloc(), site, file, Blank::new(1), Blank::new(1)) {
        Ok(state) => Ok(state),
        Err((fault, offset)) => Err(log_failure(fault, offset, Some(path))),
    }
}

// A new site, with the log of a file if there is one.
fn begun_at<'a>(
    rt: &HostRuntime,
    site: Site,
    log: Option<&'a str>,
) -> Result<SiteState, Failure<'a>>
    ensures { log.entry ≡ None → MatchResult result (BeginsFrom site.number None) (λ failure. failure ≡ log_failure (Fault.NoMemory, 0) None) }
{
    match log {
        Some(path) => begun_with(rt, site, path),
        None => begun_new(rt, site),
    }
}

// Adds a file.
fn add_file(
    alloc: Global,
    files: &mut Vec<(String, Vec<u8>)>,
    path: &str,
    bytes: Vec<u8>,
) -> Result<(), Fault>
    requires files { AreWithin files.old.items }
    requires bytes { length bytes.items ≤ MOST_BYTES }
    ensures within { OnOk result (AreWithin files.new.items) }
    ensures names { OnOk result (names_of_files files.new.items ≡ names_of_files files.old.items ++ path.now ∷ []) }
{
    let name = String::from_str(alloc, path)?;
    files.push((name, bytes))?;
    Ok(())
}

// The bytes of files, with their names, in order.
fn read_paths<'a>(
    rt: &HostRuntime,
    paths: &'a [String],
) -> Result<Vec<(String, Vec<u8>)>, Failure<'a>>
    ensures within { IfOk result (λ files. AreWithin files.items) }
    ensures names { IfOk result (λ files. names_of_files files.items ≡ as_words paths.now) }
{
    let mut files = Vec::new(rt.alloc());
    for path in paths {
        let bytes = read_path(rt, path)?;
        match add_file(rt.alloc(), &mut files, path, bytes) {
            Ok(()) => {}
            Err(fault) => return Err(file_failure(fault, 0, path)),
        }
    }
    Ok(files)
}

// Writes the log's file where it is wanted.
fn write_log<'a>(
    rt: &HostRuntime,
    out: Option<&'a str>,
    log: Option<Result<Vec<u8>, Fault>>,
) -> Option<Failure<'a>>
    ensures { WritesLog out.entry log result }
{
    match (out, log) {
        (Some(path), Some(Ok(bytes))) => match write_whole(rt, path, &bytes) {
            Ok(()) => None,
            Err(error) => Some(write_failure(error.kind(), path)),
        },
        (_, Some(Err(fault))) => run_failure(Some(fault)),
        _ => None,
    }
}

// Runs a script by a site, and then writes its log's file where it is wanted. Answers the reader and the writer too.
fn run_with<'a, A: Ledger, B: Ledger, C: Ledger, D: Ledger, S: Read + Drop, W: Write + Drop>(
    rt: &HostRuntime,
    site: SiteState,
    files: &[(String, Vec<u8>)],
    out: Option<&'a str>,
    script: S,
    lines: W,
    counts: Counts,
) -> (Option<Failure<'a>>, Reader<S, A, B>, Writer<W, C, D>)
    requires files { AreWithin files.now }
    requires a { (counts.reads.name ≡ A.name) × (counts.reads.parts ≡ A.parts) × (0 < A.parts) }
    requires b { (counts.failed_reads.name ≡ B.name) × (counts.failed_reads.parts ≡ B.parts) × (0 < B.parts) }
    requires c { (counts.writes.name ≡ C.name) × (counts.writes.parts ≡ C.parts) × (0 < C.parts) }
    requires d { (counts.failed_writes.name ≡ D.name) × (counts.failed_writes.parts ≡ D.parts) × (0 < D.parts) }
    ensures { ProgramRuns (named_files files.now) site out.entry
        (S.remaining script) (stream_of result.1.calls result.1.failures (S.remaining result.1.inner))
        (W.contents lines) (stream_of result.2.calls result.2.failures (W.contents result.2.inner)) result.0 }
{
    let (outcome, script, lines) = run_counted::<A, B, C, D, S, W>(
        rt.alloc(),
        site,
        files,
        out.is_some(),
        script,
        lines,
        counts,
    );
    let ScriptRun { site, fault, log } = outcome;
    let failure = first_failure(fault, write_log(rt, out, log));
    // The program ends here: the site's memory goes with it as a whole, not cell by cell.
    forget(site);
    (failure, script, lines)
}

// Runs a script as `run_with` does, for `run_begun`, which asks for no reader and no writer.
fn run_over<'a, A: Ledger, B: Ledger, C: Ledger, D: Ledger, S: Read + Drop, W: Write + Drop>(
    rt: &HostRuntime,
    site: SiteState,
    files: &[(String, Vec<u8>)],
    out: Option<&'a str>,
    script: S,
    lines: W,
    counts: Counts,
) -> Option<Failure<'a>>
    requires files { AreWithin files.now }
    requires a { (counts.reads.name ≡ A.name) × (counts.reads.parts ≡ A.parts) × (0 < A.parts) }
    requires b { (counts.failed_reads.name ≡ B.name) × (counts.failed_reads.parts ≡ B.parts) × (0 < B.parts) }
    requires c { (counts.writes.name ≡ C.name) × (counts.writes.parts ≡ C.parts) × (0 < C.parts) }
    requires d { (counts.failed_writes.name ≡ D.name) × (counts.failed_writes.parts ≡ D.parts) × (0 < D.parts) }
    ensures { (left : Stream) × (after : Stream) × ProgramRuns (named_files files.now) site out.entry
        (S.remaining script) left (W.contents lines) after result }
{
    let (failure, _script, _lines) = run_with::<A, B, C, D, S, W>(
        rt, site, files, out, script, lines, counts,
    );
    failure
}

// Runs standard input by a site.
fn run_begun<'a>(
    rt: &HostRuntime,
    site: SiteState,
    files: &[(String, Vec<u8>)],
    out: Option<&'a str>,
) -> Option<Failure<'a>>
    requires { AreWithin files.now }
{
    run_over::<Brand, Brand, Brand, Brand, _, _>(
        rt,
        site,
        files,
        out,
        rt.reader(),
        io::writer(rt),
        Counts::new(),
    )
}

// Reads the log and then the files, and runs standard input where none of these is at fault.
fn run_paths<'a>(
    rt: &HostRuntime,
    site: Site,
    log: Option<&'a str>,
    out: Option<&'a str>,
    files: &'a [String],
) -> Option<Failure<'a>> {
    let site = match begun_at(rt, site, log) {
        Ok(site) => site,
        Err(failure) => return Some(failure),
    };
    match read_paths(rt, files) {
        Ok(files) => run_begun(rt, site, &files, out),
        Err(failure) => {
            drop(site);
            Some(failure)
        }
    }
}

// Joins two files.
fn join_paths(rt: &HostRuntime, a: &str, b: &str) -> Result<Vec<u8>, JoinFault> {
    match (file_at(rt, a), file_at(rt, b)) {
        (Ok(first), Ok(second)) => {
            join_two::<Brand, Brand, Brand, Brand, _, _>(
                rt.alloc(),
                first,
                second,
                Blank::new(1),
                Blank::new(1),
                Blank::new(1),
                Blank::new(1),
            )
        }
        _ => Err(JoinFault {
            file: 0,
            fault: Fault::NoMemory,
            offset: 0,
        }),
    }
}

// Joins two files and writes the join.
fn join<'a>(rt: &HostRuntime, a: &'a str, b: &'a str, out: &'a str) -> Option<Failure<'a>> {
    match join_paths(rt, a, b) {
        Ok(bytes) => match write_whole(rt, out, &bytes) {
            Ok(()) => None,
            Err(error) => Some(write_failure(error.kind(), out)),
        },
        Err(why) => Some(join_failure(why, a, b)),
    }
}

// Writes the lines of a file to standard output, in larger pieces.
fn show<'a>(rt: &HostRuntime, path: &'a str) -> Option<Failure<'a>> {
    match (
        file_at(rt, path),
        BufWriter::new(rt.alloc(), io::writer(rt)),
    ) {
        (Ok(file), Ok(out)) => {
            let (shown, mut out) = show_file::<Brand, Brand, Brand, Brand, _, _>(
                rt.alloc(),
                file,
                out,
                Blank::new(1),
                Blank::new(1),
                Blank::new(1),
                Blank::new(1),
            );
            show_failure(shown, out.flush().is_ok(), path)
        }
        _ => run_failure(Some(Fault::NoMemory)),
    }
}

// What the words of the command line ask for.
fn asked(rt: &(impl Env + AllocGlobal)) -> Result<Line, LineFault> {
    let alloc = rt.alloc();
    let words = match env::args(rt) {
        Ok(words) => words,
        Err(error) => return Err(LineFault::unread(error.kind())),
    };
    let words: Vec<String> = words.collect(alloc)?;
    let texts: Vec<&str> = words.iter().map(|word| word.as_str()).collect(alloc)?;
    line(alloc, texts.as_slice())
}

// Ends, with a line on standard error where the program failed.
fn end(rt: &impl Eprint, failure: Option<Failure<'_>>) -> ExitCode {
    if let Some(failure) = failure {
        let _ = rt.eprintln(failure);
    }
    ExitCode::from(status(failure))
}

// Ends where the command line asks for nothing.
fn refuse(rt: &(impl Print + Eprint), fault: &LineFault) -> ExitCode {
    let _ = if fault.is_mistake() {
        rt.eprint(fault)
    } else {
        rt.print(fault)
    };
    ExitCode::from(fault.status())
}

fn main(rt: HostRuntime) -> ExitCode {
    match asked(&rt) {
        Ok(
            Line::Run {
                site,
                log,
                out,
                files,
            },
        ) => end(
            &rt,
            run_paths(&rt, site, log.as_deref(), out.as_deref(), &files),
        ),
        Ok(Line::Join { a, b, out }) => end(&rt, join(&rt, a.as_str(), b.as_str(), out.as_str())),
        Ok(Line::Show { file }) => end(&rt, show(&rt, file.as_str())),
        Err(fault) => refuse(&rt, &fault),
    }
}
