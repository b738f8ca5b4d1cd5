// A site that runs the lines of a script, which may name files.
ghost use Rattle.std.specs.Prelude.{◌≡◌, [], All, Some, None, codes, length, ◌≤◌, MatchOption, IfSome};
ghost use Rattle.std.specs.Str.{bytes_eq};
ghost use Rattle.rt_stamps.specs.declared.limits.TheConstants.{MOST_BYTES};
ghost use Rattle.rt_stamps.specs.Words.{as_words};
ghost use Rattle.rt_peers.specs.PeerStep.{destroyed};
ghost use Rattle.rt_script.specs.Indexed.{Finds};
ghost use Rattle.rt_script.specs.Site.{AreWithin, DestroyGives, IsDone, ReceiveGives, PathGives, SiteGives, as_answer, file_named, named_files};
ghost use Rattle.rt_script.specs.Telling.{TellsChanges};

use crate::answer::Answer;
use crate::commands::Commands;
use indexmap::IndexMap;
use rt_peers::laws::calls;
use rt_peers::{Reply, SiteState};
use rt_requests::Destroy;
use rt_stamps::Fault;
use std::alloc::Global;
use std::marker::Model;

/// A site, and the files that the lines of its script may name.
#[derive(Drop)]
pub struct Session<'a> {
    site: SiteState,
    files: &'a [(String, Vec<u8>)],
    // the bytes of the files by their names, where there was memory for that
    index: Option<IndexMap<&'a str, &'a [u8]>>,
}

impl<'a> Model for Session<'a> {
    ghost use Rattle.std.specs.Prelude.{IfSome};
    ghost use Rattle.rt_script.specs.Indexed.{Finds};
    ghost use Rattle.rt_script.specs.Site.{AreWithin, Session, named_files};

    ghost Value = { Session };

    ghost view = { λ s. record { site = s.site; files = named_files s.files.now } };

    ghost invariant = { λ s. AreWithin s.files.now × IfSome s.index (λ index. Finds index s.files.now) };
}

// Whether a line's first word is that of `receive NAME`: its bytes are compared in place, as a comparison of texts is a call.
pub(crate) fn is_receive(word: &str) -> bool
    ensures { result ≡ bytes_eq word.now (codes "receive") }
{
    matches!(word.as_bytes(), [b'r', b'e', b'c', b'e', b'i', b'v', b'e'])
}

// Whether it is that of `destroy PATH`, as `is_receive` tells it.
pub(crate) fn is_destroy(word: &str) -> bool
    ensures { result ≡ bytes_eq word.now (codes "destroy") }
{
    matches!(word.as_bytes(), [b'd', b'e', b's', b't', b'r', b'o', b'y'])
}

// Takes the widget of a path away.
fn let_go(site: &mut SiteState, path: &str) -> Result<Reply, Fault>
    ensures done { IsDone (destroyed path.now site.old) site.old (as_answer result) site.new }
    ensures untold { TellsChanges site.old site.new (Some []) }
{
    // For their clauses alone.
    calls();
    let _ = site.log();
    let reply = site.destroy(path);
    // For its clauses alone.
    let _ = site.log();
    reply
}

// `destroy PATH`, which changes nothing in the visible text.
pub(crate) fn destroy(site: &mut SiteState, words: &[String]) -> Result<Reply, Fault>
    ensures gives { DestroyGives (as_words words.now) site.old (as_answer result) site.new }
    ensures untold { TellsChanges site.old site.new (Some []) }
{
    match Destroy::of(words) {
        Ok(request) => let_go(site, request.path.text()),
        Err(fault) => Err(fault),
    }
}

// The bytes of the file of a name: the first, where there are several.
fn file_named<'a>(files: &'a [(String, Vec<u8>)], name: &str) -> Option<&'a [u8]>
    requires { AreWithin files.now }
    ensures { MatchOption result
        (file_named name.now (named_files files.now) ≡ None)
        (λ bytes. (file_named name.now (named_files files.now) ≡ Some bytes.now) × (length bytes.now ≤ MOST_BYTES)) }
{
    let mut left = files;
    while let Some((file, rest)) = left.split_first() {
        if file.0.as_str() == name {
            return Some(&file.1);
        }
        left = rest;
    }
    None
}

// An index of the files: by each name the bytes of the first that has it. None where there is no memory for one.
fn index_of<'a>(
    alloc: Global,
    files: &'a [(String, Vec<u8>)],
) -> Option<IndexMap<&'a str, &'a [u8]>>
    ensures { IfSome result (λ index. Finds index files.now) }
{
    let mut index = match IndexMap::with_capacity(alloc, files.len()) {
        Ok(index) => index,
        Err(_) => return None,
    };
    // From the last file on, so that of one name the first is what stays.
    let mut left = files;
    while let Some((file, rest)) = left.split_last() {
        if index.insert(file.0.as_str(), file.1.as_slice()).is_err() {
            return None;
        }
        left = rest;
    }
    Some(index)
}

// What `file_named` answers, found by an index of the files.
fn file_found<'a>(
    index: &IndexMap<&'a str, &'a [u8]>,
    files: &'a [(String, Vec<u8>)],
    name: &str,
) -> Option<&'a [u8]>
    requires within { AreWithin files.now }
    requires index { Finds index.now files.now }
    ensures { MatchOption result
        (file_named name.now (named_files files.now) ≡ None)
        (λ bytes. (file_named name.now (named_files files.now) ≡ Some bytes.now) × (length bytes.now ≤ MOST_BYTES)) }
{
    index.get(name).copied()
}

impl<'a> Session<'a> {
    /// A site with the files that lines may name, of at most `MOST_BYTES` bytes each. Where there is no memory for an
    /// index of their names, each `receive` looks through the files.
    pub fn new(alloc: Global, site: SiteState, files: &'a [(String, Vec<u8>)]) -> Session<'a>
        requires { AreWithin files.now }
        ensures { result ≡ record { site = site; files = named_files files.now } }
    {
        let index = index_of(alloc, files);
        Session { site, files, index }
    }

    /// The site.
    pub(crate) fn into_site(self) -> SiteState
        ensures { result ≡ self.entry.site }
    {
        let Session { site, .. } = self;
        site
    }

    // The bytes of the file of a name: the first, where there are several.
    fn find(&self, name: &str) -> Option<&'a [u8]>
        ensures { MatchOption result
            (file_named name.now self.now.files ≡ None)
            (λ bytes. (file_named name.now self.now.files ≡ Some bytes.now) × (length bytes.now ≤ MOST_BYTES)) }
    {
        match &self.index {
            Some(index) => file_found(index, self.files, name),
            None => file_named(self.files, name),
        }
    }

    // `receive NAME`.
    fn receive(&mut self, words: &[String]) -> Answer
        ensures files { self.new.files ≡ self.old.files }
        ensures gives { ReceiveGives self.old.files (as_words words.now) self.old.site result self.new.site }
    {
        let [name] = words else {
            return Answer::Refused(Fault::BadCommand);
        };
        match self.find(name) {
            Some(bytes) => Answer::Received(self.site.receive(bytes)),
            None => Answer::Refused(Fault::NoFile),
        }
    }

    // `destroy PATH`.
    fn destroy(&mut self, words: &[String]) -> Answer
        ensures files { self.new.files ≡ self.old.files }
        ensures gives { DestroyGives (as_words words.now) self.old.site result self.new.site }
    {
        match destroy(&mut self.site, words) {
            Ok(reply) => Answer::Replied(reply),
            Err(fault) => Answer::Refused(fault),
        }
    }

    // `PATH COMMAND WORDS`.
    fn command(&mut self, path: &str, words: &[String]) -> Answer
        ensures files { self.new.files ≡ self.old.files }
        ensures gives { PathGives path.now (as_words words.now) self.old.site result self.new.site }
    {
        match self.site.command(path, words) {
            Ok(reply) => Answer::Replied(reply),
            Err(fault) => Answer::Refused(fault),
        }
    }
}

impl<'a> Commands for Session<'a> {
    ghost use Rattle.rt_script.specs.Site.{Session, SiteGives};

    ghost State = { Session };

    ghost state = { λ s. s };

    ghost gives = { SiteGives };

    fn run_words(&mut self, words: &[String]) -> Answer {
        let Some((first, rest)) = words.split_first() else {
            return Answer::Refused(Fault::BadCommand);
        };
        if is_receive(first) {
            return self.receive(rest);
        }
        if is_destroy(first) {
            return self.destroy(rest);
        }
        self.command(first, rest)
    }
}
