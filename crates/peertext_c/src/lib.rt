//! Sites that C holds.
//!
//! A handle holds a site, or none where all of it is zero, as it begins. C hands it to one call at a time, and on one
//! thread; two handles share nothing. The first parameter of each function, the allocator, takes no bytes and isn't
//! passed. No pointer is null, with a length of 0 neither. After an answer below 0 all is as it was.
#![tactic(auto)]

ghost use Rattle.std.specs.Prelude.{◌≡◌, MatchOption, None};
ghost use Rattle.peertext_c.specs.Calls.{CountsChanges, IsCommanded, IsFound, MakesSite, FindsPlace, IsReceived, TellsSaid, IsSiteNumber, Says};
ghost use Rattle.peertext_c.specs.Calls.{SaysChange, SaysEnds, SaysSince, stamp_numbers, stamp_of_numbers, whole_file};
ghost use Rattle.peertext_c.specs.Codes.{NOT_THERE};
ghost use Rattle.rt_script.specs.LineSite.{place_of_path, stamp_of_path};

mod handle;
mod numbers;
mod parts;

use handle::Handle;
use numbers::{ReceivedNumbers, StampNumbers};
use rt_script::{LineSite, SiteState};
use rt_stamps::limits::{MOST_BYTES, MOST_CELLS};
use rt_stamps::{Fault, Site, Stamp};
use std::alloc::Global;

// What functions answer (specs/Codes.antt).
const DONE: i32 = 0;

const NO_SITE: i32 = -1;

const NO_MEMORY: i32 = -2;

const IS_HELD: i32 = -3;

const BAD_NUMBER: i32 = -4;

const BAD_BYTES: i32 = -5;

const NOT_THERE: i32 = -6;

const NOT_KNOWN: i32 = -7;

// The site of a number from 1 to 4,294,967,295.
fn site_of(number: u32) -> Option<Site>
    ensures { MatchOption result (number ≡ 0) (λ site. IsSiteNumber number × (site.number ≡ number)) }
{
    Site::new(number)
}

/// Makes a new site of a number from 1 to 4,294,967,295 in a handle that holds none. 0, or -3 where it holds one, -4 for a
/// number that no site has, or -2 for want of memory.
#[unsafe(no_mangle)]
pub extern "C" fn pt_site_new(alloc: Global, handle: &mut Handle, number: u32) -> i32
    ensures { MakesSite number handle.old.slot.value result handle.new.slot.value }
{
    if let Some(kept) = handle.take(alloc) {
        handle.put(kept);
        return IS_HELD;
    }
    let Some(site) = site_of(number) else {
        return BAD_NUMBER;
    };
    let Ok(site) = SiteState::new(alloc, site, MOST_CELLS) else {
        return NO_MEMORY;
    };
    let Ok(kept) = Box::new(alloc, LineSite::new(alloc, site)) else {
        return NO_MEMORY;
    };
    handle.put(kept);
    DONE
}

/// Frees the site of a handle, which then holds none. A handle that holds none stays so.
#[unsafe(no_mangle)]
pub extern "C" fn pt_site_free(alloc: Global, handle: &mut Handle)
    ensures { handle.new.slot.value ≡ None }
{
    let _ = handle.take(alloc);
}

/// Runs a line of a script, where no file can be named and nothing ends the line but its length. Its reply line, with a
/// newline, is what is said then, and of an empty line, one of spaces and tabs and a comment nothing. What it changed in
/// the visible text is kept until the next line or file, and `pt_change` says it. 0 where it was replied to or is such a
/// line; the number of the fault by which it was refused; or -1 where there is no site.
#[unsafe(no_mangle)]
pub extern "C" fn pt_command(alloc: Global, handle: &mut Handle, line: &[u8]) -> i32
    ensures { IsCommanded line.now handle.old.slot.value result handle.new.slot.value }
{
    let Some(mut kept) = handle.take(alloc) else {
        return NO_SITE;
    };
    let fault = kept.run(line);
    handle.put(kept);
    i32::from(fault)
}

/// Copies the first bytes of what was said last into `out`, as many as there is room for; the rest of `out` stays as it
/// is. How many bytes were said; or -1 where there is no site, or -2 where there was no memory for a reply line when
/// its line was run, and none when it is read. What was said stays, so the call may be made again.
#[unsafe(no_mangle)]
pub extern "C" fn pt_said(alloc: Global, handle: &mut Handle, out: &mut [u8]) -> isize
    ensures { TellsSaid handle.old.slot.value out.old result handle.new.slot.value out.new }
{
    let Some(kept) = handle.take(alloc) else {
        return NO_SITE as isize;
    };
    let copied = kept.copy_said(out);
    handle.put(kept);
    match copied {
        Ok(len) => len,
        Err(_) => NO_MEMORY as isize,
    }
}

/// Receives the bytes of a file of operations, at most 2^30, and tells what became of it. What it changed in the
/// visible text is kept until the next line or file, and `pt_change` says it. 0, also where the file ended early with a
/// fault; or -1 where there is no site, or -5 for too many bytes.
#[unsafe(no_mangle)]
pub extern "C" fn pt_receive(
    alloc: Global,
    handle: &mut Handle,
    bytes: &[u8],
    told: &mut ReceivedNumbers,
) -> i32
    ensures { IsReceived bytes.now handle.old.slot.value told.old result handle.new.slot.value told.new }
{
    let Some(mut kept) = handle.take(alloc) else {
        return NO_SITE;
    };
    if bytes.len() > MOST_BYTES {
        handle.put(kept);
        return BAD_BYTES;
    }
    *told = ReceivedNumbers::of(kept.receive(bytes));
    handle.put(kept);
    DONE
}

/// Tells how many operations the last line made or the last file brought, with the held ones that were accepted then:
/// `pt_change` says of each what it changed. 0; or -1 where there is no site, or -7 where it isn't known what a line
/// changed, though it was run, for want of memory.
#[unsafe(no_mangle)]
pub extern "C" fn pt_changes(alloc: Global, handle: &mut Handle, count: &mut usize) -> i32
    ensures { CountsChanges handle.old.slot.value count.old result handle.new.slot.value count.new }
{
    let Some(kept) = handle.take(alloc) else {
        return NO_SITE;
    };
    let counted = kept.count_changes();
    handle.put(kept);
    let Some(counted) = counted else {
        return NOT_KNOWN;
    };
    *count = counted;
    DONE
}

/// Says what one operation changed in the visible text, of those that `pt_changes` counts, in an order in which they could
/// be made or accepted; their numbers begin at 0. A line for each change, which is of the text that all lines before
/// it left, those of lesser numbers among them. 0; or -1 where there is no site, -6 where there is no such operation, or
/// -2 for want of memory.
#[unsafe(no_mangle)]
pub extern "C" fn pt_change(alloc: Global, handle: &mut Handle, number: usize) -> i32
    ensures { SaysChange number handle.old.slot.value result handle.new.slot.value }
{
    let Some(kept) = handle.take(alloc) else {
        return NO_SITE;
    };
    let Some(made) = kept.lines_at(number) else {
        handle.put(kept);
        return NOT_THERE;
    };
    handle.say(kept, made)
}

/// Says the file of all operations that the site accepted or made. Those that it holds (`held` of `ReceivedNumbers`) are
/// not in it, and are to be received again after a restart. 0; or -1 where there is no site, or -2 for want of memory.
#[unsafe(no_mangle)]
pub extern "C" fn pt_export(alloc: Global, handle: &mut Handle) -> i32
    ensures { Says whole_file handle.old.slot.value result handle.new.slot.value }
{
    let Some(kept) = handle.take(alloc) else {
        return NO_SITE;
    };
    let made = kept.site().export();
    handle.say(kept, made)
}

/// Says the last count that the site knows of each site, by rising numbers of these, each in 12 bytes, the number (4)
/// and the count (8), the highest byte first. 0; or -1 where there is no site, or -2 for want of memory.
#[unsafe(no_mangle)]
pub extern "C" fn pt_ends(alloc: Global, handle: &mut Handle) -> i32
    ensures { SaysEnds handle.old.slot.value result handle.new.slot.value }
{
    let Some(kept) = handle.take(alloc) else {
        return NO_SITE;
    };
    let made = kept.ends();
    handle.say(kept, made)
}

/// Says the file of those operations that the site accepted or made whose last count is past what such bytes tell of
/// their site, as another one says them by `pt_ends`; of one site the first count is taken. 0; or -1 where there is no
/// site, -5 where the bytes aren't 12 each, or -2 for want of memory.
#[unsafe(no_mangle)]
pub extern "C" fn pt_export_since(alloc: Global, handle: &mut Handle, ends: &[u8]) -> i32
    ensures { SaysSince ends.now handle.old.slot.value result handle.new.slot.value }
{
    let Some(kept) = handle.take(alloc) else {
        return NO_SITE;
    };
    let made = kept.file_since(ends);
    if let Err(Fault::Truncated) = made {
        handle.put(kept);
        return BAD_BYTES;
    }
    handle.say(kept, made)
}

/// Tells the place of an index (Tk text manual, "Indices") in what the widget of a path shows, counted from 0 up to how many
/// characters it shows. 0; the number of the fault by which it was refused, as there is no such widget, the index is none, or
/// memory was wanting; or -1 where there is no site. `BadQuoting` where the path or the index is no UTF-8.
#[unsafe(no_mangle)]
pub extern "C" fn pt_place_at(
    alloc: Global,
    handle: &mut Handle,
    path: &[u8],
    index: &[u8],
    place: &mut usize,
) -> i32
    ensures { FindsPlace path.now index.now handle.old.slot.value place.old result handle.new.slot.value place.new }
{
    let Some(kept) = handle.take(alloc) else {
        return NO_SITE;
    };
    let found = kept.place_of_index(path, index);
    handle.put(kept);
    match found {
        Ok(at) => {
            *place = at;
            DONE
        }
        Err(fault) => i32::from(fault.number()),
    }
}

/// Tells the stamp of the character at a place of what the widget of a path shows, counted from 0. 0; or -1 where there
/// is no site, or -6 where there is no such widget or no such character.
#[unsafe(no_mangle)]
pub extern "C" fn pt_stamp_at(
    alloc: Global,
    handle: &mut Handle,
    path: &[u8],
    place: usize,
    stamp: &mut StampNumbers,
) -> i32
    ensures { IsFound NOT_THERE stamp_numbers (λ held. stamp_of_path path.now place held.site) handle.old.slot.value stamp.old result
        handle.new.slot.value stamp.new }
{
    let Some(kept) = handle.take(alloc) else {
        return NO_SITE;
    };
    let found = kept.stamp_at(path, place);
    handle.put(kept);
    let Some(found) = found else {
        return NOT_THERE;
    };
    *stamp = StampNumbers {
        count: found.count,
        site: found.site,
    };
    DONE
}

/// Tells how many characters of what the widget of a path shows stand before that of a stamp, whether it is gone or
/// not. 0; or -1 where there is no site, or -6 where there is no such widget or no character of the stamp.
#[unsafe(no_mangle)]
pub extern "C" fn pt_place_of(
    alloc: Global,
    handle: &mut Handle,
    path: &[u8],
    stamp: &StampNumbers,
    place: &mut usize,
) -> i32
    ensures { IsFound NOT_THERE (λ found. found) (λ held. place_of_path path.now (stamp_of_numbers stamp.now) held.site) handle.old.slot.value
        place.old result handle.new.slot.value place.new }
{
    let Some(kept) = handle.take(alloc) else {
        return NO_SITE;
    };
    let stamp = Stamp {
        count: stamp.count,
        site: stamp.site,
    };
    let found = kept.place_of(path, stamp);
    handle.put(kept);
    let Some(found) = found else {
        return NOT_THERE;
    };
    *place = found;
    DONE
}
