// What a widget shows, asked by values of a site that is only borrowed.
use crate::checks::same;
use crate::sites::{Script, answered, new_site};
use rt_requests::{Comparison, Request, Texts, Word};
use rt_script::SiteState;
use rt_stamps::limits::MOST_CELLS;
use rt_stamps::{Fault, Position};
use rt_tagcmd::{mark_next, tag_ranges};
use rt_text::{PlaceIndex, ViewRef};
use rt_tree::TreeStore;
use std::alloc::Global;
use std::process::Abort;

// Three lines, of which `.u` shows the second, with a tag and a mark.
const LINES: Script = "
.t insert 1.0 \"ab\\ncd\\nef\" -> =
.t tag add bold 1.1 2.1 -> =
.t mark set here 2.1 -> =
.t peer create .u -startline 2 -endline 3 -> = .u
";

const UNDO: Script = "
.t edit modified 0 -> =
.t configure -undo 1 -> =
";

// A line and a character.
fn at(line: usize, character: usize) -> Option<Position> {
    Some(Position { line, character })
}

// Stops a test where an index stands elsewhere, or its place is another as an index.
fn stands(rt: &impl Abort, widget: &ViewRef<'_, TreeStore>, index: &str, wanted: Option<Position>) {
    same(rt, widget.index(index).ok(), wanted);
    let place = PlaceIndex::new(widget.place(index).expect(rt, "an index"));
    same(rt, widget.index(place.text()).ok(), wanted);
}

// What is told of all lines.
fn tells_all(rt: &impl Abort, alloc: Global, widget: &ViewRef<'_, TreeStore>) {
    same(rt, widget.visible(), 9);
    stands(rt, widget, "here", at(2, 1));
    stands(rt, widget, "end", at(4, 0));
    same(rt, widget.index("there").err(), Some(Fault::BadIndex));
    let text = widget.text(1, 4).expect(rt, "memory");
    same(rt, text.as_str(), "b\nc");
    let before = widget.compare("1.0", Comparison::Less, "here");
    same(rt, before.ok(), Some(true));
    let distances = widget.count(&[], "2.0", "1.0").expect(rt, "memory");
    same(rt, distances.first().copied(), Some(-3));
    let ranges = tag_ranges(alloc, widget, "bold").expect(rt, "memory");
    same(rt, ranges.first().copied(), at(1, 1));
    same(rt, ranges.last().copied(), at(2, 1));
}

// What is told of the second line.
fn tells_one(rt: &impl Abort, widget: &ViewRef<'_, TreeStore>) {
    same(rt, widget.visible(), 3);
    same(rt, widget.stretch().begin, 3);
    same(rt, widget.start_number(), Some(2));
    stands(rt, widget, "here", at(1, 1));
    let next = mark_next(widget, "insert").expect(rt, "memory");
    same(rt, next, Some("here"));
}

// Each widget of a site tells what it shows.
fn tells(rt: &impl Abort, alloc: Global, site: &SiteState) {
    tells_all(rt, alloc, &site.widget(".t").expect(rt, "a widget"));
    tells_one(rt, &site.widget(".u").expect(rt, "a widget"));
    same(rt, site.widget(".x").is_none(), true);
}

// The second line is asked and edited by the number of its widget.
fn is_asked_by_number(rt: &impl Abort, alloc: Global, site: &mut SiteState) {
    same(rt, site.number_of(".u"), Some(1));
    same(rt, site.number_of(".x"), None);
    same(rt, site.shown_by(2).is_none(), true);
    let texts = Texts::new(Vec::new(alloc), "x");
    let index = Word::new("1.0");
    let request = Request::Insert { index, texts };
    same(rt, site.ask(2, &request).err(), Some(Fault::NoWidget));
    same(rt, site.can_undo(), false);
    same(rt, site.ask(1, &request).err(), None);
    same(rt, site.is_modified(), true);
    same(rt, site.can_undo(), true);
    let second = site.shown_by(1).expect(rt, "a widget");
    let text = second.get("1.0", "end").expect(rt, "memory");
    same(rt, text.as_str(), "xcd\n");
}

// What was put in goes and comes back by calls, and its change is told.
fn is_undone_by_calls(rt: &impl Abort, site: &mut SiteState) {
    let undone = site.undo(0);
    same(rt, undone.reply.err(), None);
    let changes = undone.changes.expect(rt, "memory");
    same(rt, changes.len(), 1);
    same(rt, site.can_undo(), false);
    same(rt, site.can_redo(), true);
    same(rt, site.undo(0).reply.err(), Some(Fault::NothingToUndo));
    same(rt, site.redo(3).reply.err(), Some(Fault::NoWidget));
    same(rt, site.redo(1).reply.err(), None);
    same(rt, site.can_redo(), false);
}

#[test]
fn widgets_are_asked_by_numbers(rt: HostRuntime) {
    let alloc = rt.alloc();
    let site = new_site(&rt, alloc, 1, MOST_CELLS);
    let mut site = answered(&rt, alloc, site, &[], &[LINES, UNDO], 4096);
    is_asked_by_number(&rt, alloc, &mut site);
    is_undone_by_calls(&rt, &mut site);
}

#[test]
fn widgets_tell_values(rt: HostRuntime) {
    let alloc = rt.alloc();
    let site = new_site(&rt, alloc, 1, MOST_CELLS);
    let site = answered(&rt, alloc, site, &[], &[LINES], 4096);
    tells(&rt, alloc, &site);
}
