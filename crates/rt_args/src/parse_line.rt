// The command line, by clap.
ghost use Rattle.std.specs.Prelude.{◌≡◌, ◌<◌, IfErr, IfOk, Some, codes, map, option_map, string_bytes};
ghost use Rattle.rt_stamps.specs.Words.{as_words};
ghost use Rattle.clap.specs.Words.{App, Rule, found_of, new_app, rows_of, subcommand_rows_of, with_rule, with_subcommand};
ghost use Rattle.rt_args.specs.CommandLine.{HasFile, HasSite, HasValues, IsCommand, IsMade, IsOption, IsWhole, LineIn, LineOf, RefusesLine, TakesLine};
ghost use Rattle.rt_args.specs.CommandLine.{file_given, file_word, files_given, files_word, join_command, path_option, peertext, program};
ghost use Rattle.rt_args.specs.CommandLine.{run_command, show_command, site_given, site_option, subcommand_name};

use crate::{Line, LineFault};
use clap::builder::ValueParser;
use clap::{Arg, ArgAction, ArgMatches, Command};
use rt_stamps::Site;
use rt_stamps::limits::GREATEST_SITE;
use std::alloc::{AllocError, Global};

fn site_option<'a>(alloc: Global) -> Arg<'a>
    ensures { IsOption site_option result }
{
    Arg::new(alloc, "site")
        .long("site")
        .value_name("N")
        .required(true)
        .help("The number of the site, from 1 to 4294967295")
        .value_parser(ValueParser::unsigned(1, GREATEST_SITE as u64))
}

// A command with one more argument, if there was memory for it so far. An argument that isn't taken is let go by a call, so
// that the check need not go through its fields here.
fn with_option<'a>(
    command: Result<Command<'a>, AllocError>,
    arg: Arg<'a>,
) -> Result<Command<'a>, AllocError>
    ensures { (app : App) (rule : Rule) → IsMade app command.entry → IsOption rule arg.entry → IsMade (with_rule app rule) result }
{
    match command {
        Ok(command) => command.arg(arg),
        Err(error) => {
            drop(arg);
            Err(error)
        }
    }
}

// A command with one more subcommand, if there was memory for both.
fn with_command<'a>(
    command: Result<Command<'a>, AllocError>,
    below: Result<Command<'a>, AllocError>,
) -> Result<Command<'a>, AllocError>
    ensures { (app sub : App) → IsMade app command.entry → IsMade sub below.entry → IsMade (with_subcommand app sub.top) result }
{
    match command {
        Ok(command) => match below {
            Ok(below) => command.subcommand(below),
            Err(error) => {
                drop(command);
                Err(error)
            }
        },
        Err(error) => {
            drop(below);
            Err(error)
        }
    }
}

fn path_option<'a>(alloc: Global, name: &'a str, help: &'a str) -> Arg<'a>
    ensures { IsOption (path_option name.now) result }
{
    Arg::new(alloc, name).long(name).value_name("F").help(help)
}

fn files_word<'a>(alloc: Global) -> Arg<'a>
    ensures { IsOption files_word result }
{
    Arg::new(alloc, "FILE")
        .value_name("FILE")
        .action(ArgAction::Append)
        .help("A file of operations that the script may receive")
}

// A subcommand without arguments.
fn subcommand<'a>(alloc: Global, name: &'a str, about: &'a str) -> Command<'a>
    ensures { IsCommand (new_app name.now) result }
{
    Command::new(alloc, name).about(about)
}

fn run_command<'a>(alloc: Global) -> Result<Command<'a>, AllocError>
    ensures { IsMade run_command result }
{
    let run = Ok(subcommand(alloc, "run", "Runs a script"));
    let run = with_option(run, site_option(alloc));
    let log = "The file of the log that the site begins with";
    let run = with_option(run, path_option(alloc, "log", log));
    let out = "The file that gets the log after the script";
    let run = with_option(run, path_option(alloc, "out", out));
    with_option(run, files_word(alloc))
}

fn file_word<'a>(alloc: Global, name: &'a str, help: &'a str) -> Arg<'a>
    ensures { IsOption (file_word name.now) result }
{
    Arg::new(alloc, name)
        .value_name(name)
        .required(true)
        .help(help)
}

fn join_command<'a>(alloc: Global) -> Result<Command<'a>, AllocError>
    ensures { IsMade join_command result }
{
    let join = Ok(subcommand(alloc, "join", "Joins two files of operations"));
    let join = with_option(join, file_word(alloc, "A", "A file of operations"));
    let join = with_option(join, file_word(alloc, "B", "Another file of operations"));
    with_option(join, file_word(alloc, "OUT", "The file that gets the join"))
}

fn show_command<'a>(alloc: Global) -> Result<Command<'a>, AllocError>
    ensures { IsMade show_command result }
{
    let about = "Shows the operations of a file, one a line";
    let show = Ok(subcommand(alloc, "show", about));
    with_option(show, file_word(alloc, "FILE", "A file of operations"))
}

fn program<'a>(alloc: Global) -> Command<'a>
    ensures { IsCommand program result }
{
    Command::new(alloc, "peertext")
        .version("0.1.0")
        .about("Edits a text that several sites share")
        .subcommand_required(true)
        .disable_help_subcommand(true)
}

fn command<'a>(alloc: Global) -> Result<Command<'a>, AllocError>
    ensures { IsMade peertext result }
{
    let program = with_command(Ok(program(alloc)), run_command(alloc));
    let program = with_command(program, join_command(alloc));
    with_command(program, show_command(alloc))
}

fn site_of(number: u32) -> Site
    requires { 0 < number }
    ensures { result.number ≡ number }
{
    Site::new(number).unwrap()
}

// The site that `run` was given.
fn site_in(run: &ArgMatches<'_>) -> Site
    requires { HasSite (rows_of (found_of run.now)) }
    ensures { site_given (rows_of (found_of run.now)) ≡ Some result.number }
{
    site_of(run.get_one::<u32>("site").unwrap())
}

// A name of a file that a subcommand was given.
fn file_in(alloc: Global, matches: &ArgMatches<'_>, name: &str) -> Result<String, AllocError>
    requires { HasFile name.now (rows_of (found_of matches.now)) }
    ensures { IfOk result (λ file. file_given name.now (rows_of (found_of matches.now)) ≡ Some (string_bytes file)) }
{
    let file = matches.get_str(name).unwrap();
    String::from_str(alloc, file)
}

fn join_in(alloc: Global, join: &ArgMatches<'_>) -> Result<Line, AllocError>
    requires a { HasFile (codes "A") (rows_of (found_of join.now)) }
    requires b { HasFile (codes "B") (rows_of (found_of join.now)) }
    requires out { HasFile (codes "OUT") (rows_of (found_of join.now)) }
    ensures { IfOk result (λ line. (subcommand_name line ≡ codes "join") × HasValues (rows_of (found_of join.now)) line) }
{
    let a = file_in(alloc, join, "A")?;
    let b = file_in(alloc, join, "B")?;
    let out = file_in(alloc, join, "OUT")?;
    Ok(Line::Join { a, b, out })
}

// The path that an option was given, if it was.
fn path_in(alloc: Global, run: &ArgMatches<'_>, name: &str) -> Result<Option<String>, AllocError>
    ensures { IfOk result (λ path. file_given name.now (rows_of (found_of run.now)) ≡ option_map string_bytes path) }
{
    match run.get_str(name) {
        Some(path) => Ok(Some(String::from_str(alloc, path)?)),
        None => Ok(None),
    }
}

fn copied(alloc: Global, texts: &[&str]) -> Result<Vec<String>, AllocError>
    ensures { IfOk result (λ copies. as_words copies.items ≡ map (λ text. text.now) texts.now) }
{
    let mut copies = Vec::with_capacity(alloc, texts.len())?;
    for text in texts {
        copies.push(String::from_str(alloc, text)?)?;
    }
    Ok(copies)
}

// The names of the files that a subcommand was given, as many as there are.
fn files_in(alloc: Global, run: &ArgMatches<'_>, name: &str) -> Result<Vec<String>, AllocError>
    ensures { IfOk result (λ files. files_given name.now (rows_of (found_of run.now)) ≡ as_words files.items) }
{
    match run.get_raw(name) {
        Some(files) => copied(alloc, files),
        None => Ok(Vec::new(alloc)),
    }
}

fn run_in(alloc: Global, run: &ArgMatches<'_>) -> Result<Line, AllocError>
    requires { HasSite (rows_of (found_of run.now)) }
    ensures { IfOk result (λ line. (subcommand_name line ≡ codes "run") × HasValues (rows_of (found_of run.now)) line) }
{
    let site = site_in(run);
    let log = path_in(alloc, run, "log")?;
    let out = path_in(alloc, run, "out")?;
    let files = files_in(alloc, run, "FILE")?;
    Ok(Line::Run {
        site,
        log,
        out,
        files,
    })
}

fn show_in(alloc: Global, show: &ArgMatches<'_>) -> Result<Line, AllocError>
    requires { HasFile (codes "FILE") (rows_of (found_of show.now)) }
    ensures { IfOk result (λ line. (subcommand_name line ≡ codes "show") × HasValues (rows_of (found_of show.now)) line) }
{
    let file = file_in(alloc, show, "FILE")?;
    Ok(Line::Show { file })
}

// The line of a subcommand that was given all that it wants.
fn line_in(alloc: Global, matches: &ArgMatches<'_>) -> Result<Line, AllocError>
    requires { IsWhole (subcommand_rows_of matches.now) }
    ensures { IfOk result (LineIn (subcommand_rows_of matches.now)) }
{
    match matches.subcommand_matches("run") {
        Some(run) => run_in(alloc, run),
        None => match matches.subcommand_matches("join") {
            Some(join) => join_in(alloc, join),
            None => show_in(alloc, matches.subcommand_matches("show").unwrap()),
        },
    }
}

/// Reads a command line, whose first word is the program's name: `peertext run --site N [--log F]
/// [--out F] [FILE..]`, for an N from 1 to `GREATEST_SITE`, `peertext join A B OUT` or `peertext show
/// FILE`. `Usage`, with clap's error, where clap refuses the words, or want of memory.
pub fn line(alloc: Global, words: &[&str]) -> Result<Line, LineFault>
    ensures line { IfOk result (LineOf (map (λ w. w.now) words.now)) }
    ensures takes { IfOk result (λ _. TakesLine (map (λ w. w.now) words.now)) }
    ensures refuses { IfErr result (RefusesLine (map (λ w. w.now) words.now)) }
{
    let matches = command(alloc)?.try_get_matches_from(words)?;
    let read = line_in(alloc, &matches);
    drop(matches);
    match read {
        Ok(read) => Ok(read),
        Err(_) => Err(LineFault::NoMemory),
    }
}
