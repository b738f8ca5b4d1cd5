// The run of a script by a site.
ghost use Rattle.rt_stamps.specs.Streams.{FILE_BOUNDS};
ghost use Rattle.std.specs.Prelude.{◌≡◌, Some, IfSome};
ghost use Rattle.rt_ops.specs.Intake.{StopsUnseen};
ghost use Rattle.rt_script.specs.Run.{Ends, StopsInLast, point};
ghost use Rattle.rt_script.specs.Site.{AreWithin, SiteGives, named_files};

use crate::engine::{Ended, run_lines};
use crate::site_lines::Session;
use rt_peers::SiteState;
use rt_stamps::limits::{MOST_BYTES, MOST_READS};
use rt_stamps::{Bounds, Fault, Sink, Source};
use std::alloc::Global;

/// Runs a script by a site: each line of it is answered by one reply line, in the order of the
/// lines. `files` are the files that its lines may name, each with its name, of at most `MOST_BYTES`
/// bytes; of one name the first counts.
///
/// `ReadFault` where a read failed, or the script passed `MOST_BYTES` bytes (at most `MOST_READS` reads are taken, which
/// suffice for so many bytes: `laws::reads_suffice`); `NoMemory`, for instance where a line can't be stored: then the lines
/// were run that were complete before the last read, and perhaps more; `WriteFault` where a write failed or took nothing.
pub fn run<R: Source, W: Sink>(
    alloc: Global,
    site: SiteState,
    script: &mut R,
    files: &[(String, Vec<u8>)],
    out: &mut W,
) -> Ended<SiteState>
    requires { AreWithin files.now }
    ensures ends { Ends SiteGives FILE_BOUNDS
        (point (record { site = site; files = named_files files.now }) (W.stream out.old))
        (point (record { site = result.site; files = named_files files.now }) (W.stream out.new))
        (R.stream script.old) (R.stream script.new) result.fault }
    ensures last { result.fault ≡ Some Fault.NoMemory → StopsInLast SiteGives R.stream
        (point (record { site = site; files = named_files files.now }) (W.stream out.old))
        (point (record { site = result.site; files = named_files files.now }) (W.stream out.new)) script.old script.new }
    ensures unseen { IfSome result.fault (StopsUnseen R.stream FILE_BOUNDS script.old script.new) }
{
    run_bounded(alloc, site, script, files, out, MOST_BYTES, MOST_READS)
}

/// Runs a script of at most `max_bytes` bytes in at most `max_reads` reads, as `run` does. A script of just `max_bytes`
/// bytes is whole; at the next byte, past which none is read, the run ends with `ReadFault`, and so it does where no read
/// is left before the script's end is found, which takes one too. Then the complete lines were run that were read before. `NoMemory` and
/// `WriteFault` as of `run`.
pub fn run_bounded<R: Source, W: Sink>(
    alloc: Global,
    site: SiteState,
    script: &mut R,
    files: &[(String, Vec<u8>)],
    out: &mut W,
    max_bytes: usize,
    max_reads: usize,
) -> Ended<SiteState>
    requires { AreWithin files.now }
    ensures ends { Ends SiteGives (record { bytes = max_bytes; reads = max_reads })
        (point (record { site = site; files = named_files files.now }) (W.stream out.old))
        (point (record { site = result.site; files = named_files files.now }) (W.stream out.new))
        (R.stream script.old) (R.stream script.new) result.fault }
    ensures last { result.fault ≡ Some Fault.NoMemory → StopsInLast SiteGives R.stream
        (point (record { site = site; files = named_files files.now }) (W.stream out.old))
        (point (record { site = result.site; files = named_files files.now }) (W.stream out.new)) script.old script.new }
    ensures unseen { IfSome result.fault (StopsUnseen R.stream (record { bytes = max_bytes; reads = max_reads }) script.old script.new) }
{
    let bounds = Bounds {
        bytes: max_bytes,
        reads: max_reads,
    };
    let session = Session::new(alloc, site, files);
    let Ended { site, fault } = run_lines(alloc, session, script, out, bounds);
    Ended {
        site: site.into_site(),
        fault,
    }
}
