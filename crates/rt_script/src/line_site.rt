// A site that is asked by lines, one at a time, for whoever reads their replies and changes later.
ghost use Rattle.std.specs.Prelude.{◌≡◌, ◌⊎◌, ◌≤◌, ℕ, [], IfErr, IfOk, IsOkUnless, List, MatchOption, MatchResult, None, Ok, Some};
ghost use Rattle.std.specs.Prelude.{false, length, option_map, pos, slice_get, true};
ghost use Rattle.rt_stamps.specs.declared.limits.TheConstants.{MOST_BYTES};
ghost use Rattle.rt_stamps.specs.declared.fault.Fault.TheVariants.{NoMemory, Truncated};
ghost use Rattle.rt_stamps.specs.Outcomes.{Refuses};
ghost use Rattle.rt_files.specs.Ends.{SpellEnds, SpellNoEnds, ends_bytes};
ghost use Rattle.rt_changes.specs.declared.change.ToldChange.{ToldChange};
ghost use Rattle.rt_script.specs.Changes.{change_lines};
ghost use Rattle.rt_script.specs.Replies.{reply_line};
ghost use Rattle.rt_script.specs.LineSite.{AreEndsOf, ReceivesTelling, RunsLine, bytes_of, file_since, in_front, is_line_ready, known_changes};
ghost use Rattle.rt_script.specs.LineSite.{place_at_path, place_of_path, saying, stamp_of_path, untold};

use crate::answer::Answer;
use crate::changes::change_bytes;
use crate::commands::Commands;
use crate::engine::{answer_bytes, answer_line};
use crate::telling::words_tell;
use rt_files::{bytes_of_ends, ends_of_bytes};
use rt_peers::{Received, ReceivedChanges, SiteState, ToldAnswer, ToldChange};
use rt_stamps::{Fault, Stamp};
use rt_words::Spare;
use std::alloc::Global;
use std::marker::Model;
use std::str;

/// What was said: bytes, or the line of an answer for which there was no memory yet.
#[derive(Drop)]
pub(crate) enum Spoken {
    Bytes(Vec<u8>),
    Line(Answer),
}

impl Spoken {
    // The line of an answer. Where there is no memory for it, it is made when it is read.
    fn of_answer(alloc: Global, answer: Answer) -> Spoken
        ensures { bytes_of result ≡ reply_line answer }
    {
        match answer_bytes(alloc, &answer) {
            Ok(line) => Spoken::Bytes(line),
            Err(_) => Spoken::Line(answer),
        }
    }
}

// Puts the front of bytes into room for some: how many there are.
fn copy_out(bytes: &Vec<u8>, out: &mut [u8]) -> isize
    ensures length { result ≡ pos (length bytes.now.items) }
    ensures front { out.new ≡ in_front bytes.now.items out.old }
{
    let count = bytes.len().min(out.len());
    out[..count].copy_from_slice(&bytes[..count]);
    isize::try_from(bytes.len()).unwrap_or(0)
}

/// A site that is asked by lines, one at a time. It keeps what was said last, as the reply of a line, and what the last line
/// or file changed in the visible text, operation by operation, if that is known.
pub struct LineSite {
    alloc: Global,
    site: SiteState,
    said: Spoken,
    changes: Option<Vec<ToldChange>>,
}

// Written out, so that where it is let go is one step, and not one for each field of each field.
impl Drop for LineSite {
    fn drop(self) {
        let LineSite {
            alloc: _,
            site: _,
            said: _,
            changes: _,
        } = self;
    }
}

impl Model for LineSite {
    ghost use Rattle.rt_script.specs.Telling.{told_items};
    ghost use Rattle.rt_script.specs.LineSite.{LineSiteValue, bytes_of, is_line_ready};

    ghost Value = { LineSiteValue };

    ghost view = { λ k. record { site = k.site; said = bytes_of k.said; ready = is_line_ready k.said; changes = told_items k.changes } };
}

impl LineSite {
    /// A site that said and changed nothing yet. It takes no memory.
    pub fn new(alloc: Global, site: SiteState) -> LineSite
        ensures { result ≡ record { site = site; said = []; ready = true; changes = Some [] } }
    {
        LineSite {
            alloc,
            site,
            said: Spoken::Bytes(Vec::new(alloc)),
            changes: Some(Vec::new(alloc)),
        }
    }

    /// The site.
    pub fn site(&self) -> &SiteState
        ensures { result.now ≡ self.now.site }
    {
        &self.site
    }

    /// The place of an index in what the widget of a path shows, as `SiteState::place_of_index` has it. Refused as there, and with
    /// `BadQuoting` where the path or the index is no UTF-8.
    pub fn place_of_index(&self, path: &[u8], index: &[u8]) -> Result<usize, Fault>
        ensures ok { IfOk result (λ place. place_at_path path.now index.now self.now.site ≡ Ok place) }
        ensures err { IfErr result (Refuses (place_at_path path.now index.now self.now.site)) }
    {
        match str::from_utf8(path) {
            Ok(path) => match str::from_utf8(index) {
                Ok(index) => self.site.place_of_index(path, index),
                Err(_) => Err(Fault::BadQuoting),
            },
            Err(_) => Err(Fault::BadQuoting),
        }
    }

    /// The stamp of the character at a place of what the widget of a path shows, as `SiteState::stamp_at` has it. None where
    /// the path is no UTF-8. It takes no memory.
    pub fn stamp_at(&self, path: &[u8], place: usize) -> Option<Stamp>
        ensures { result ≡ stamp_of_path path.now place self.now.site }
    {
        match str::from_utf8(path) {
            Ok(path) => self.site.stamp_at(path, place),
            Err(_) => None,
        }
    }

    /// The place of the character of a stamp in what the widget of a path shows, as `SiteState::place_of` has it. None where
    /// the path is no UTF-8. It takes no memory.
    pub fn place_of(&self, path: &[u8], stamp: Stamp) -> Option<usize>
        ensures { result ≡ place_of_path path.now stamp self.now.site }
    {
        match str::from_utf8(path) {
            Ok(path) => self.site.place_of(path, stamp),
            Err(_) => None,
        }
    }

    // Tells no more what was changed.
    fn forget(&mut self)
        ensures { self.new ≡ untold self.old }
    {
        self.changes = Some(Vec::new(self.alloc));
    }

    /// Runs a line of a script, where no file can be named; it is given without the newline at its end. Its reply line is
    /// what is said then, and nothing of a silent line, as `answer_line` has it; what it changed is kept. The number of the
    /// fault by which it was refused, or 0. Where there is no memory for the reply line, that is made when it is read.
    pub fn run(&mut self, line: &[u8]) -> u8
        ensures { RunsLine line.now self.old result self.new }
    {
        self.forget();
        let alloc = self.alloc;
        let mut spare = Spare::new(alloc);
        let Some(answer) = answer_line(alloc, &mut spare, self, line) else {
            self.said = Spoken::Bytes(Vec::new(alloc));
            return 0;
        };
        let fault = answer.fault_number();
        self.said = Spoken::of_answer(alloc, answer);
        fault
    }

    /// Receives the bytes of a file of operations, at most `MOST_BYTES`, as `SiteState::receive_telling` does, and keeps what
    /// it changed. What was said stays.
    pub fn receive(&mut self, bytes: &[u8]) -> Received
        requires { length bytes.now ≤ MOST_BYTES }
        ensures { ReceivesTelling bytes.now self.old result self.new }
    {
        let ReceivedChanges { received, changes } = self.site.receive_telling(bytes);
        self.changes = Some(changes);
        received
    }

    /// Says some bytes, in place of what was said.
    pub fn say(&mut self, bytes: Vec<u8>)
        ensures { self.new ≡ saying bytes.items self.old }
    {
        self.said = Spoken::Bytes(bytes);
    }

    /// Copies the first bytes of what was said last into `out`, as many as there is room for; the rest of `out` stays as it
    /// is. How many bytes were said. `NoMemory` only where there was none for the line of a reply when its line was run, and
    /// there is none yet; then `out` stays as it is.
    pub fn copy_said(&self, out: &mut [u8]) -> Result<isize, Fault>
        ensures copied { MatchResult result
            (λ len. (len ≡ pos (length self.now.said)) × (out.new ≡ in_front self.now.said out.old))
            (λ _. (self.now.ready ≡ false) × (out.new ≡ out.old)) }
        ensures err { IsOkUnless result NoMemory }
    {
        match &self.said {
            Spoken::Bytes(bytes) => Ok(copy_out(bytes, out)),
            Spoken::Line(answer) => match answer_bytes(self.alloc, answer) {
                Ok(line) => Ok(copy_out(&line, out)),
                Err(fault) => Err(fault),
            },
        }
    }

    /// How many operations the last line made or the last file brought, with the held ones that were accepted then. None
    /// where it isn't known what they changed (`SiteState::answer_telling`). It takes no memory.
    pub fn count_changes(&self) -> Option<usize>
        ensures { result ≡ option_map (λ changes. length changes) self.now.changes }
    {
        match &self.changes {
            Some(changes) => Some(changes.len()),
            None => None,
        }
    }

    /// The lines of what the operation of a number changed, of those that `count_changes` counts, from 0; or `NoMemory`. None
    /// where there is no such operation, or nothing is known.
    pub fn lines_at(&self, number: usize) -> Option<Result<Vec<u8>, Fault>>
        ensures { MatchOption result (slice_get (known_changes self.now) number ≡ None)
            (λ made. (change : ToldChange) × (slice_get (known_changes self.now) number ≡ Some change)
            × IfOk made (λ lines. lines.items ≡ change_lines change) × IsOkUnless made NoMemory) }
    {
        let Some(changes) = &self.changes else {
            return None;
        };
        let change = changes.get(number)?;
        Some(change_bytes(self.alloc, change))
    }

    /// The last counts that its site knows, of each site of which it has operations, as bytes (`bytes_of_ends` of rt_files).
    /// `NoMemory` is its only fault.
    pub fn ends(&self) -> Result<Vec<u8>, Fault>
        ensures ok { IfOk result (λ bytes. (ends : List (ℕ × ℕ)) × (bytes.items ≡ ends_bytes ends) × AreEndsOf self.now.site ends) }
        ensures err { IsOkUnless result NoMemory }
    {
        let ends = self.site.ends()?;
        bytes_of_ends(self.alloc, &ends)
    }

    /// The file of the operations that are past the counts that bytes spell, as another site's `ends` has them. `Truncated`
    /// where they spell none, or `NoMemory`.
    pub fn file_since(&self, bytes: &[u8]) -> Result<Vec<u8>, Fault>
        ensures ok { IfOk result (λ file. (ends : List (ℕ × ℕ)) × SpellEnds bytes.now ends × (file.items ≡ file_since ends self.now)) }
        ensures err { IfErr result (λ fault. (fault ≡ NoMemory) ⊎ ((fault ≡ Truncated) × SpellNoEnds bytes.now)) }
    {
        let ends = ends_of_bytes(self.alloc, bytes)?;
        self.site.export_since(&ends)
    }
}

impl Commands for LineSite {
    ghost use Rattle.rt_script.specs.LineSite.{CommandGives, LineSiteValue};

    ghost State = { LineSiteValue };

    ghost state = { λ k. k };

    ghost gives = { CommandGives };

    fn run_words(&mut self, words: &[String]) -> Answer {
        let ToldAnswer { reply, changes } = words_tell(self.alloc, &mut self.site, words);
        self.changes = changes;
        match reply {
            Ok(reply) => Answer::Replied(reply),
            Err(fault) => Answer::Refused(fault),
        }
    }
}
