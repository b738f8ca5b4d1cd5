// Requests, and the words that ask for them.
ghost use Rattle.std.specs.Prelude.{◌≡◌, ◌⊎◌, Err, codes, false};
ghost use Rattle.std.specs.Str.{bytes_eq};
ghost use Rattle.rt_stamps.specs.Words.{as_words};
ghost use Rattle.rt_requests.specs.Asking.{Asks, AsksOf};

use crate::configuring::{cget, configure, peer};
use crate::editing::{delete, insert, replace};
use crate::kinds::Kinds;
use crate::marking::mark;
use crate::measures::Measures;
use crate::options::NamedOption;
use crate::peers::PeerRequest;
use crate::reading::{compare, count, dump, get, index};
use crate::searching::search;
use crate::settings::WidgetSettings;
use crate::tagging::tag;
use crate::texts::Texts;
use crate::undoing::edit;
use crate::word::{Word, Words};
use rt_index::Comparison;
use rt_marks::Gravity;
use rt_search::{Overlaps, Search};
use rt_stamps::Fault;
use std::alloc::Global;

/// What is asked of a widget (Tk text manual, "WIDGET COMMAND"). Indices are words of the index grammar.
#[derive(Drop)]
pub enum Request<'a> {
    /// Text before the character at an index.
    Insert {
        index: Word<'a>,
        texts: Texts<'a>,
    },
    /// The characters in the ranges of some indices are removed.
    Delete {
        indices: Words<'a>,
    },
    /// The characters between two indices are removed, and text is put in their place.
    Replace {
        from: Word<'a>,
        to: Word<'a>,
        texts: Texts<'a>,
    },
    /// The text in the ranges of some indices.
    Get {
        indices: Words<'a>,
    },
    /// Where an index stands.
    Index {
        index: Word<'a>,
    },
    /// Whether a comparison holds of two indices.
    Compare {
        first: Word<'a>,
        comparison: Comparison,
        second: Word<'a>,
    },
    /// How far one index is from another: a number for each measure, and in indices where there is none.
    Count {
        measures: Measures,
        from: Word<'a>,
        to: Word<'a>,
    },
    /// Where a pattern stands.
    Search(SearchRequest<'a>),
    /// Tags, marks and text from an index up to another, or of the character at an index.
    Dump {
        kinds: Kinds,
        from: Word<'a>,
        to: Option<Word<'a>>,
    },
    /// Something is asked of marks.
    Mark(MarkRequest<'a>),
    /// Something is asked of tags.
    Tag(TagRequest<'a>),
    /// Something is asked of the undo mechanism.
    Edit(EditRequest),
    /// Options are set.
    Configure {
        settings: WidgetSettings,
    },
    /// What an option is set to.
    Cget {
        option: NamedOption,
    },
    /// Something is asked of the widget's peers.
    Peer(PeerRequest<'a>),
}

/// Which matches are wanted (Tk text manual, "search").
#[derive(Clone, Copy, Debug, PartialEq, Eq)]
pub enum Wanted {
    /// The first one. A search that isn't told wants it.
    One,
    /// `-all`: each one, with or without those that overlap one that is taken.
    Each(Overlaps),
}

/// What `search` asks for (Tk text manual, "search"): how to search, which matches are wanted, the pattern, and the
/// indices where to begin and perhaps to stop.
#[derive(Drop)]
pub struct SearchRequest<'a> {
    /// Which way, and what counts as a match.
    pub search: Search,
    /// One match or each.
    pub wanted: Wanted,
    /// The characters that are sought.
    pub pattern: Word<'a>,
    /// The index where the search begins.
    pub start: Word<'a>,
    /// The index where it ends; without one it goes through the whole text, on from its other end.
    pub stop: Option<Word<'a>>,
}

/// What is asked of marks (Tk text manual, "mark").
#[derive(Drop)]
pub enum MarkRequest<'a> {
    /// A mark is set at an index.
    Set { name: Word<'a>, index: Word<'a> },
    /// Marks are taken away.
    Unset { names: Words<'a> },
    /// The gravity of a mark.
    Gravity { name: Word<'a> },
    /// A mark gets a gravity.
    SetGravity { name: Word<'a>, gravity: Gravity },
    /// The names of all marks.
    Names,
    /// The mark after another, or after an index.
    Next { word: Word<'a> },
    /// The mark before another, or before an index.
    Previous { word: Word<'a> },
}

/// What is asked of tags (Tk text manual, "tag").
#[derive(Drop)]
pub enum TagRequest<'a> {
    /// The characters in the ranges of some indices get a tag.
    Add {
        name: Word<'a>,
        indices: Words<'a>,
    },
    /// They lose a tag.
    Remove {
        name: Word<'a>,
        indices: Words<'a>,
    },
    /// Tags are taken away.
    Delete {
        names: Words<'a>,
    },
    /// A tag is put just above another, or highest.
    Raise {
        name: Word<'a>,
        above: Option<Word<'a>>,
    },
    /// A tag is put just below another, or lowest.
    Lower {
        name: Word<'a>,
        below: Option<Word<'a>>,
    },
    /// All listed tags.
    Names,
    /// The tags of the character at an index.
    NamesAt {
        index: Word<'a>,
    },
    /// The ranges of a tag.
    Ranges {
        name: Word<'a>,
    },
    /// The first range that begins at an index or later, and before another index or the end.
    NextRange {
        name: Word<'a>,
        from: Word<'a>,
        to: Option<Word<'a>>,
    },
    /// The last range that begins before an index, and at another or later, or anywhere.
    PreviousRange {
        name: Word<'a>,
        to: Word<'a>,
        from: Option<Word<'a>>,
    },
}

/// What is asked of the undo mechanism (Tk text manual, "edit" and "THE UNDO MECHANISM").
#[derive(Clone, Copy, Debug, PartialEq, Eq)]
pub enum EditRequest {
    /// The edits since the last separator are undone.
    Undo,
    /// The edits that were undone last are done again.
    Redo,
    /// A separator on the undo stack.
    Separator,
    /// The undo and redo stacks are cleared.
    Reset,
    /// Whether there is something to undo.
    CanUndo,
    /// Whether there is something to redo.
    CanRedo,
    /// The modified flag.
    Modified,
    /// The modified flag is set, or taken away.
    SetModified { modified: bool },
}

impl<'a> Request<'a> {
    /// What `COMMAND ?WORD ...?` asks for. Refused by the first of `BadCommand`, `BadOption`, and then `BadQuoting` for a
    /// list of tags or `BadName` for the path of a new widget, and by want of memory in place of any.
    pub fn of(alloc: Global, words: &'a [String]) -> Result<Request<'a>, Fault>
        ensures { Asks (as_words words.now) result ⊎ (result ≡ Err Fault.NoMemory) }
    {
        let Some((name, words)) = words.split_first() else {
            return Err(Fault::BadCommand);
        };
        by_name(alloc, name, words)
    }
}

// Whether a command is `insert`, which typing asks for: its bytes are compared in place, as a comparison of texts is a call.
fn is_insert(name: &str) -> bool
    ensures { result ≡ bytes_eq name.now (codes "insert") }
{
    matches!(name.as_bytes(), [b'i', b'n', b's', b'e', b'r', b't'])
}

// A command by its name.
#[inline(always)]
fn by_name<'a>(alloc: Global, name: &str, words: &'a [String]) -> Result<Request<'a>, Fault>
    ensures { AsksOf name.now (as_words words.now) result ⊎ (result ≡ Err Fault.NoMemory) }
{
    if is_insert(name) {
        return insert(alloc, words);
    }
    by_other_name(alloc, name, words)
}

// A command that isn't `insert`, by its name.
#[inline(always)]
fn by_other_name<'a>(alloc: Global, name: &str, words: &'a [String]) -> Result<Request<'a>, Fault>
    requires { bytes_eq name.now (codes "insert") ≡ false }
    ensures { AsksOf name.now (as_words words.now) result ⊎ (result ≡ Err Fault.NoMemory) }
{
    match name {
        "delete" => delete(words),
        "replace" => replace(alloc, words),
        "get" => get(words),
        "index" => index(words),
        "compare" => compare(words),
        "count" => count(alloc, words),
        "search" => search(words),
        "dump" => dump(words),
        "mark" => mark(words),
        "tag" => tag(words),
        "edit" => edit(words),
        "configure" => configure(words),
        "cget" => cget(words),
        "peer" => peer(words),
        _ => Err(Fault::BadCommand),
    }
}
