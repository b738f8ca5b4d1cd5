// The run of a script by a site.
ghost use Rattle.std.specs.Prelude.{◌≡◌, ◌≤◌, None, Some, IfSome, MatchResult, length};
ghost use Rattle.rt_stamps.specs.declared.limits.TheConstants.{MOST_BYTES};
ghost use Rattle.rt_stamps.specs.Streams.{FILE_BOUNDS};
ghost use Rattle.rt_ops.specs.Intake.{StopsUnseen};
ghost use Rattle.rt_script.specs.Run.{StopsInLast, point};
ghost use Rattle.rt_script.specs.Site.{AreWithin, SiteGives, named_files};
ghost use Rattle.rt_script.specs.SiteRun.{Begins, RunsScript, TellsLog, WithinBytes};

use crate::{Ended, SiteState, run};
use rt_stamps::limits::MOST_CELLS;
use rt_stamps::{Fault, Sink, Site, Source};
use std::alloc::Global;

/// How the run of a script ended, and the site with its log then.
#[derive(Drop)]
pub struct ScriptRun {
    /// The site, as the run left it.
    pub site: SiteState,
    /// Why the run ended before the script did.
    pub fault: Option<Fault>,
    /// The file of the site's log where it was asked for, or want of memory.
    pub log: Option<Result<Vec<u8>, Fault>>,
}

// The site that received a log, or why not all of that was received.
fn unless_refused(site: SiteState, found: Option<(Fault, u64)>) -> Result<SiteState, (Fault, u64)>
    ensures { MatchResult result (λ same. (same ≡ site) × (found ≡ None)) (λ fault. found ≡ Some fault) }
{
    if let Some(found) = found {
        drop(site);
        return Err(found);
    }
    Ok(site)
}

/// A new site, with all that it receives of a log's file. Refused by the log's first fault with its offset, or
/// by `NoMemory` at 0 where there is no memory for a site.
pub fn begun(alloc: Global, site: Site, log: Option<&[u8]>) -> Result<SiteState, (Fault, u64)>
    requires { WithinBytes log }
    ensures { Begins site.number log.entry result }
{
    let mut state = match SiteState::new(alloc, site, MOST_CELLS) {
        Ok(state) => state,
        Err(fault) => return Err((fault, 0)),
    };
    match log {
        Some(log) => {
            let received = state.receive(log);
            unless_refused(state, received.fault)
        }
        None => Ok(state),
    }
}

// The file of a site's log where it is wanted.
fn log_of(site: &SiteState, is_wanted: bool) -> Option<Result<Vec<u8>, Fault>>
    ensures { TellsLog is_wanted site.now result }
{
    if is_wanted { Some(site.export()) } else { None }
}

/// Runs a script by a site, and then makes the file of its log if that is wanted, however the run
/// ended. The outcome has the fault of `run`, and the log or `NoMemory`.
pub fn run_site<R: Source, W: Sink>(
    alloc: Global,
    site: SiteState,
    files: &[(String, Vec<u8>)],
    wants_log: bool,
    script: &mut R,
    out: &mut W,
) -> ScriptRun
    requires { AreWithin files.now }
    ensures runs { RunsScript (named_files files.now) site wants_log (R.stream script.old) (R.stream script.new)
        (W.stream out.old) (W.stream out.new) result }
    ensures last { result.fault ≡ Some Fault.NoMemory → StopsInLast SiteGives R.stream
        (point (record { site = site; files = named_files files.now }) (W.stream out.old))
        (point (record { site = result.site; files = named_files files.now }) (W.stream out.new)) script.old script.new }
    ensures unseen { IfSome result.fault (StopsUnseen R.stream FILE_BOUNDS script.old script.new) }
{
    let Ended { site, fault } = run(alloc, site, script, files, out);
    let log = log_of(&site, wants_log);
    ScriptRun { site, fault, log }
}
