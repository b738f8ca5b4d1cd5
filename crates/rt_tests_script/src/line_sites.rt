// Sites that are asked by lines, one at a time.
use crate::checks::same;
use crate::sites::new_site;
use rt_script::LineSite;
use rt_stamps::Fault;
use rt_stamps::limits::{MOST_BYTES, MOST_CELLS};
use std::process::Abort;

// Stops a test where a line is refused by another fault, or something else is said then.
fn runs(rt: &impl Abort, site: &mut LineSite, line: &[u8], fault: u8, said: &[u8]) {
    same(rt, site.run(line), fault);
    let mut out = [0; 64];
    let len = site.copy_said(&mut out).expect(rt, "memory");
    same(rt, usize::try_from(len).ok(), Some(said.len()));
    same(rt, out.as_slice().starts_with(said), true);
}

// Stops a test where the only change of the last line or file is another.
fn changed(rt: &impl Abort, site: &LineSite, wanted: &[u8]) {
    same(rt, site.count_changes(), Some(1));
    let lines = site.lines_at(0).expect(rt, "a change");
    let lines = lines.expect(rt, "memory");
    same(rt, lines.as_slice(), wanted);
    same(rt, site.lines_at(1).is_none(), true);
}

// Gives a site what it lacks of another's operations.
fn gives(rt: &impl Abort, one: &LineSite, other: &mut LineSite) {
    let ends = other.ends().expect(rt, "memory");
    let file = one.file_since(&ends).expect(rt, "memory");
    if file.len() <= MOST_BYTES {
        same(rt, other.receive(&file).new, 1);
    }
}

#[test]
fn sites_are_asked_by_lines(rt: HostRuntime) {
    let alloc = rt.alloc();
    let mut one = LineSite::new(alloc, new_site(&rt, alloc, 1, MOST_CELLS));
    let mut other = LineSite::new(alloc, new_site(&rt, alloc, 2, MOST_CELLS));
    runs(&rt, &mut one, b".t insert 1.0 ab", 0, b"=\n");
    changed(&rt, &one, b"insert 0 ab\n");
    gives(&rt, &one, &mut other);
    changed(&rt, &other, b"insert 0 ab\n");
    runs(&rt, &mut one, b".t delete 1.1", 0, b"=\n");
    changed(&rt, &one, b"delete 1 2\n");
    gives(&rt, &one, &mut other);
    runs(&rt, &mut other, b".t get 1.0 end", 0, b"= \"a\\n\"\n");
    same(&rt, other.count_changes(), Some(0));
    runs(&rt, &mut other, b".t frob", 4, b"! 4 BadCommand\n");
    runs(&rt, &mut other, b"# no line", 0, b"");
    same(&rt, other.file_since(b"x").err(), Some(Fault::Truncated));
}

// Paths and indices come as bytes. Those that are no text name no widget, and are no index.
#[test]
fn places_are_found_by_bytes(rt: HostRuntime) {
    let alloc = rt.alloc();
    let mut site = LineSite::new(alloc, new_site(&rt, alloc, 1, MOST_CELLS));
    runs(&rt, &mut site, b".t insert 1.0 abc", 0, b"=\n");
    same(&rt, site.place_of_index(b".t", b"end").ok(), Some(4));
    let no_widget = site.place_of_index(b".x", b"end").err();
    same(&rt, no_widget, Some(Fault::NoWidget));
    let no_index = site.place_of_index(b".t", b"frob").err();
    same(&rt, no_index, Some(Fault::BadIndex));
    let no_path = site.place_of_index(b"\xFF", b"end").err();
    same(&rt, no_path, Some(Fault::BadQuoting));
    let no_text = site.place_of_index(b".t", b"\xFF").err();
    same(&rt, no_text, Some(Fault::BadQuoting));
    let stamp = site.stamp_at(b".t", 1).expect(&rt, "a stamp");
    same(&rt, site.stamp_at(b"\xFF", 1), None);
    runs(&rt, &mut site, b".t insert 1.0 xy", 0, b"=\n");
    same(&rt, site.place_of(b".t", stamp), Some(3));
    same(&rt, site.place_of(b"\xFF", stamp), None);
}
