// Each growth of a text's store refused in turn: then all is as it was, and the same edit goes well when it is made again.
ghost use Rattle.std.specs.Prelude.{◌≤◌};

use crate::checks::same;
use crate::sparing::{Sparing, new_sparing};
use rt_oplog::Op;
use rt_plans::Piece;
use rt_recording::{Recorder, delete, insert, redo, replace, take, undo};
use rt_rga::Offer;
use rt_stamps::limits::MOST_CELLS;
use rt_stamps::{Fault, Site};
use rt_tagcmd::{tag_add, tag_delete, tag_names, tag_ranges, tag_remove};
use rt_text::View;
use rt_tree::TreeStore;
use std::alloc::Global;
use std::marker::Model;
use std::process::Abort;

/// A text whose store refuses one of its growths.
type Text = View<Sparing<TreeStore>>;

/// A text and what is recorded of its edits.
struct EditedText {
    alloc: Global,
    view: Text,
    recorder: Recorder,
}

impl Drop for EditedText {
    fn drop(self) {
        let EditedText {
            alloc: _,
            view: _,
            recorder: _,
        } = self;
    }
}

// The words of a line.
fn words(alloc: Global, line: &str) -> Result<Vec<String>, Fault> {
    let mut words = Vec::new(alloc);
    for word in line.split(' ') {
        words.push(String::from_str(alloc, word)?)?;
    }
    Ok(words)
}

// Texts, each with a tag behind it.
fn pieces(alloc: Global, words: &[String]) -> Result<Vec<Piece>, Fault> {
    let mut pieces = Vec::new(alloc);
    for pair in words.chunks(2) {
        if let [text, tag] = pair {
            let mut tags = Vec::new(alloc);
            tags.push(tag.clone()?)?;
            pieces.push(Piece::new(text.clone()?, tags))?;
        }
    }
    Ok(pieces)
}

// A line about tags.
fn tag(alloc: Global, view: &mut Text, line: &str) -> Result<(), Fault> {
    let words = words(alloc, line)?;
    match words.as_slice() {
        [name, tag, rest @ ..] if name.as_str() == "add" => tag_add(view, tag, rest),
        [name, tag, rest @ ..] if name.as_str() == "remove" => tag_remove(view, tag, rest),
        [_, rest @ ..] => tag_delete(view, rest),
        [] => Err(Fault::BadCommand),
    }
}

// What a text tells: its characters, where each tag is, a mark, and how many operations there are.
fn seen(alloc: Global, view: &Text) -> Result<String, Fault> {
    let shown = view.shown();
    let mut seen = shown.get("1.0", "end")?;
    for name in tag_names(&shown)? {
        seen.push_str(&name)?;
        for position in tag_ranges(alloc, &shown, &name)? {
            seen.push_str(&format!(in alloc; " {position}")?)?;
        }
        seen.push_str(", ")?;
    }
    let cursor = shown.index("insert")?;
    let operations = view.doc().log().len();
    seen.push_str(&format!(in alloc; "{cursor}, {operations}")?)?;
    Ok(seen)
}

// Runs a line about tags until nothing is refused, and tells how often something was.
fn tagged(rt: &impl Abort, alloc: Global, view: &mut Text, line: &str) -> usize {
    let before = seen(alloc, view).expect(rt, "memory");
    for refused in 0..MOST {
        match tag(alloc, view, line) {
            Ok(()) => return refused,
            Err(fault) => {
                same(rt, fault, Fault::NoMemory);
                let after = seen(alloc, view).expect(rt, "memory");
                same(rt, after.as_str(), before.as_str());
            }
        }
    }
    MOST
}

impl Model for EditedText {
    ghost use Rattle.rt_recording.specs.Settled.{IsSettled};
    ghost use Rattle.rt_recording.specs.EditedValue.{EditedValue, edited};

    ghost Value = { EditedValue };

    ghost view = { λ s. edited s.view s.recorder };

    ghost invariant = { λ s. IsSettled s.view s.recorder };
}

impl EditedText {
    // What the text tells, and whether something can be undone and redone.
    fn seen(&self) -> Result<String, Fault> {
        let undo = self.recorder.can_undo();
        let redo = self.recorder.can_redo();
        let seen = seen(self.alloc, &self.view)?;
        Ok(format!(in self.alloc; "{seen}, {undo}, {redo}")?)
    }

    // Reverts the last edit, or the one that was reverted last, in a copy that refuses a growth.
    fn revert(&mut self, name: &str, refused: usize) -> Result<(), Fault> {
        let copy = new_sparing(self.alloc, refused)?;
        if name == "undo" {
            undo(&mut self.view, &mut self.recorder, copy)
        } else {
            redo(&mut self.view, &mut self.recorder, copy)
        }
    }

    // A line about the text, or about undo, in a copy that refuses a growth.
    fn edit(&mut self, line: &str, refused: usize) -> Result<(), Fault> {
        let words = words(self.alloc, line)?;
        let view = &mut self.view;
        let recorder = &mut self.recorder;
        match words.as_slice() {
            [name, at, text] if name.as_str() == "type" => insert(view, recorder, at, &[], text),
            [name, at, rest @ ..] if name.as_str() == "insert" => {
                let pieces = pieces(self.alloc, rest)?;
                insert(view, recorder, at, &pieces, "")
            }
            [name, from, to, rest @ ..] if name.as_str() == "replace" => {
                let pieces = pieces(self.alloc, rest)?;
                replace(view, recorder, from, to, &pieces, "")
            }
            [name, rest @ ..] if name.as_str() == "delete" => delete(view, recorder, rest),
            [name] => self.revert(name, refused),
            _ => Err(Fault::BadCommand),
        }
    }

    // Runs a line until nothing is refused, and tells how often something was.
    fn refusals(&mut self, rt: &impl Abort, line: &str) -> usize {
        let before = self.seen().expect(rt, "memory");
        for refused in 0..MOST {
            match self.edit(line, refused) {
                Ok(()) => return refused,
                Err(fault) => {
                    same(rt, fault, Fault::NoMemory);
                    let after = self.seen().expect(rt, "memory");
                    same(rt, after.as_str(), before.as_str());
                }
            }
        }
        MOST
    }

    // Offers an operation, which is given back where it is refused.
    fn offer(&mut self, op: Op) -> Option<Op> {
        match self.view.answer(&op) {
            Ok(Offer::New) => take(&mut self.view, &mut self.recorder, op).err(),
            _ => Some(op),
        }
    }

    // Takes an operation, and tells how often it was refused.
    fn took(&mut self, rt: &impl Abort, op: Op) -> usize {
        let before = self.seen().expect(rt, "memory");
        let Some(back) = self.offer(op) else {
            return 0;
        };
        let after = self.seen().expect(rt, "memory");
        same(rt, after.as_str(), before.as_str());
        same(rt, self.offer(back).is_none(), true);
        1
    }
}

// A text of a site, whose store refuses a growth.
fn new_text(rt: &impl Abort, alloc: Global, site: u32, refused: usize) -> Text {
    let site = Site::new(site).expect(rt, "a number of a site");
    let store = new_sparing(alloc, refused).expect(rt, "memory");
    View::new(alloc, store, site, MOST_CELLS).expect(rt, "memory")
}

// A text from which on edits are recorded.
fn recorded(rt: &impl Abort, alloc: Global, view: Text) -> EditedText {
    let mut recorder = Recorder::new(alloc).expect(rt, "memory");
    recorder.set_undo(true);
    EditedText {
        alloc,
        view,
        recorder,
    }
}

/// More refusals than any line has.
const MOST: usize = 9;

// Lines about tags, before a text has characters: each asks the store for one growth.
const TAGS: &str = r#"add t 1.0
add u 1.0
remove t 1.0
delete t u v"#;

// Lines about the text: each asks the store for one growth, and undo and redo ask a copy for some before. A single character
// with one before it is put in by a way of its own (`commit_character` of rt_rga).
const EDITS: &str = r#"type 1.0 a
type 1.1 d
type 1.1 bc
insert 1.1 x t y u
delete 1.0 1.2 1.3
replace 1.1 1.2 z u
undo
undo
redo
undo
redo
redo"#;

// How often the store grows under these lines.
const GROWTHS: usize = 16;

// How often the copies do.
const COPIED: usize = 22;

// What is seen when all is done. The operations: four of tags, three of typing, two of the insertion, one and two of what
// takes away and replaces; then two for the replacement and three for the deletion that are reverted, one for the
// deletion again, three, one and two.
const SEEN: &str = "yzd\nsel, t, u 1.0 1.2, 1.3, 24, true, false";

// How many operations there are then, each of which asks the store of another site for one growth.
const TAKEN: usize = 24;

// Tags and edits of a text, each line with its refusals, which are counted together.
fn edits(rt: &impl Abort, alloc: Global, refused: usize) -> (EditedText, usize) {
    let mut view = new_text(rt, alloc, 1, refused);
    let mut refusals: usize = 0;
    for line in TAGS.lines() {
        refusals = refusals.saturating_add(tagged(rt, alloc, &mut view, line));
    }
    let mut site = recorded(rt, alloc, view);
    for line in EDITS.lines() {
        refusals = refusals.saturating_add(site.refusals(rt, line));
    }
    (site, refusals)
}

// Another site takes the operations of one, and tells how many were refused.
fn taken(rt: &impl Abort, alloc: Global, from: &EditedText, refused: usize) -> usize {
    let mut site = recorded(rt, alloc, new_text(rt, alloc, 2, refused));
    let mut refusals: usize = 0;
    let log = from.view.doc().log();
    for place in 0..log.len() {
        let op = log.get(place).copied(alloc).expect(rt, "memory");
        refusals = refusals.saturating_add(site.took(rt, op));
    }
    let text = site.view.shown().get("1.0", "end").expect(rt, "memory");
    same(rt, text.as_str(), "yzd\n");
    refusals
}

// How often the growth behind so many is refused, of all there are.
fn once(refused: usize, growths: usize) -> usize
    ensures { result ≤ 1 }
{
    if refused < growths { 1 } else { 0 }
}

// In the last round none is refused to a store.
#[test]
fn growths_refused_in_turn(rt: HostRuntime) {
    let alloc = rt.alloc();
    for refused in 0..=TAKEN {
        let (site, refusals) = edits(&rt, alloc, refused);
        let seen = site.seen().expect(&rt, "memory");
        same(&rt, seen.as_str(), SEEN);
        same(&rt, refusals, COPIED + once(refused, GROWTHS));
        let refusals = taken(&rt, alloc, &site, refused);
        same(&rt, refusals, once(refused, TAKEN));
    }
}
