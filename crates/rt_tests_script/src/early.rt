// Operations that come early: many of them.
ghost use Rattle.std.specs.Prelude.{◌≡◌, ◌≤◌};

use crate::calls::replies;
use crate::checks::same;
use crate::sites::{new_site, receive};
use rt_script::{Received, SiteState};
use rt_stamps::Fault;
use rt_stamps::limits::MOST_CELLS;
use std::alloc::Global;
use std::process::Abort;

// The bytes of a record: of an Insert of one character by a site at a count, behind the one of the count before it in
// its site's chain, after the root.
fn add_typed(rt: &impl Abort, file: &mut Vec<u8>, site: u16, count: u64) {
    let before = count.saturating_sub(1);
    file.extend_from_slice(&[0, 0, 0, 0x1f, 1])
        .expect(rt, "memory");
    file.extend_from_slice(&count.to_be_bytes())
        .expect(rt, "memory");
    file.extend_from_slice(&site.to_be_bytes())
        .expect(rt, "memory");
    file.extend_from_slice(&before.to_be_bytes())
        .expect(rt, "memory");
    file.extend_from_slice(&[0; 11]).expect(rt, "memory");
    file.push(b'x').expect(rt, "memory");
}

// The file of such Inserts from one count to another.
fn typed(rt: &impl Abort, alloc: Global, site: u16, first: u64, last: u64) -> Vec<u8> {
    let mut file = Vec::from_slice(alloc, b"RGATEXT1").expect(rt, "memory");
    for count in first..=last {
        add_typed(rt, &mut file, site, count);
    }
    file
}

// What is told of a file: how many operations were new, how many repeats, how many are held.
fn tells(rt: &impl Abort, received: Received, new: u64, repeats: u64, held: u64) {
    same(
        rt,
        (received.new, received.repeats, received.held),
        (new, repeats, held),
    );
}

// The words of a command.
fn words_of(rt: &impl Abort, alloc: Global, line: &str) -> Vec<String> {
    let mut words = Vec::new(alloc);
    for word in line.split(' ') {
        let word = String::from_str(alloc, word).expect(rt, "memory");
        words.push(word).expect(rt, "memory");
    }
    words
}

// Stops a test where the text has another number of characters, the final newline among them.
fn has_characters(rt: &impl Abort, alloc: Global, site: &mut SiteState, wanted: &str) {
    let words = words_of(rt, alloc, "count -chars 1.0 end");
    replies(rt, alloc, site.command(".t", &words), wanted);
}

#[test]
fn as_many_are_held_as_may_be(rt: HostRuntime) {
    let alloc = rt.alloc();
    let mut site = new_site(&rt, alloc, 1, MOST_CELLS);
    // The first is missing, and one more comes than may be held.
    let late = typed(&rt, alloc, 2, 2, 65_538);
    let received = receive(&rt, &mut site, &late);
    tells(&rt, received, 0, 0, 65_536);
    same(
        &rt,
        received.fault,
        Some((Fault::WaitingFull, 8 + 65_536 * 35)),
    );
    has_characters(&rt, alloc, &mut site, "1");
    // It comes, and all that are held are taken.
    let first = typed(&rt, alloc, 2, 1, 1);
    let received = receive(&rt, &mut site, &first);
    tells(&rt, received, 65_537, 0, 0);
    same(&rt, received.fault, None);
    same(&rt, site.log().len(), 65_537);
    has_characters(&rt, alloc, &mut site, "65538");
}

// Operations of a site come one by one, the last one first, and none is taken before the first.
fn come_last_first(rt: &impl Abort, alloc: Global, site: &mut SiteState, last: u64) {
    for count in (2..=last).rev() {
        let file = typed(rt, alloc, 2, count, count);
        let received = receive(rt, site, &file);
        tells(rt, received, 0, 0, last - count + 1);
    }
}

#[test]
fn they_come_last_first(rt: HostRuntime) {
    let alloc = rt.alloc();
    let mut site = new_site(&rt, alloc, 1, MOST_CELLS);
    come_last_first(&rt, alloc, &mut site, 65_537);
    let first = typed(&rt, alloc, 2, 1, 1);
    let received = receive(&rt, &mut site, &first);
    tells(&rt, received, 65_537, 0, 0);
}

#[test]
fn a_site_types_beside_those_that_are_held(rt: HostRuntime) {
    let alloc = rt.alloc();
    let mut site = new_site(&rt, alloc, 1, MOST_CELLS);
    let late = typed(&rt, alloc, 2, 2, 30_001);
    let received = receive(&rt, &mut site, &late);
    tells(&rt, received, 0, 0, 30_000);
    let words = words_of(&rt, alloc, "insert end x");
    for _ in 0..30_000 {
        let _reply = site.command(".t", &words).expect(&rt, "memory");
    }
    let first = typed(&rt, alloc, 2, 1, 1);
    let received = receive(&rt, &mut site, &first);
    tells(&rt, received, 30_001, 0, 0);
    same(&rt, site.log().len(), 60_001);
}
