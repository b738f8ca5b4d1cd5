// Random histories of three sites, delivered in random orders, against a plain reading of them; and the files of their
// logs, in either version.
use crate::checks::same;
use crate::oplog_files::comes_back;
use crate::rga_orders::{Does, Made, Peer};
use rt_stamps::{FINAL, Stamp};
use rt_store::TextStore;
use std::alloc::Global;
use std::process::Abort;
use std::test::Fail;

/// Numbers as by chance: a linear congruence with the factor of MMIX (Knuth).
#[derive(Clone, Copy)]
struct Dice {
    seen: u64,
}

impl Dice {
    // A number below another one, which isn't 0.
    fn below(&mut self, end: usize) -> usize {
        self.seen = self
            .seen
            .wrapping_mul(6_364_136_223_846_793_005)
            .wrapping_add(1_442_695_040_888_963_407);
        (self.seen >> 33) as usize % end.max(1)
    }
}

/// The replicas of three sites: 1, 2, and one of a number.
struct Sites {
    one: Peer,
    two: Peer,
    three: Peer,
    third: u32,
}

impl Drop for Sites {
    fn drop(self) {
        let Sites {
            one: _,
            two: _,
            three: _,
            third: _,
        } = self;
    }
}

impl Sites {
    fn new(alloc: Global, third: u32) -> Result<Sites, Fail> {
        Ok(Sites {
            one: Peer::new(alloc, 1_000)?,
            two: Peer::new(alloc, 1_000)?,
            three: Peer::new(alloc, 1_000)?,
            third,
        })
    }

    fn pick(&mut self, place: usize) -> &mut Peer {
        match place {
            0 => &mut self.one,
            1 => &mut self.two,
            _ => &mut self.three,
        }
    }
}

// THE OPERATIONS

const TEXTS: &[&[char]] = &[&['a'], &['b', 'c'], &['d', 'e', 'f']];

// The stamp of a cell of a peer, gone or not.
fn some_stamp(peer: &Peer, dice: &mut Dice) -> Stamp {
    let store = peer.replica.replica().store();
    let position = dice.below(store.cells());
    if position < store.cells() {
        store.nth(position).stamp
    } else {
        FINAL
    }
}

// The span of a stamp, and of the next one where that is a character's too.
fn some_span(peer: &Peer, stamp: Stamp) -> (u32, u64, u64) {
    let count = stamp.count.saturating_add(1);
    let next = Stamp {
        count,
        site: stamp.site,
    };
    let last = match peer.replica.replica().store().cell_of(next) {
        Some(_) => count,
        None => stamp.count,
    };
    (stamp.site, stamp.count, last)
}

// What a site does next: it inserts, removes or tags at what it knows.
fn some_deed(peer: &Peer, dice: &mut Dice) -> Does {
    let stamp = some_stamp(peer, dice);
    let text = match TEXTS.get(dice.below(3)) {
        Some(text) => *text,
        None => &['x'],
    };
    let (after, span) = if stamp == FINAL {
        ((0, 0), (0, 1, 1))
    } else {
        ((stamp.count, stamp.site), some_span(peer, stamp))
    };
    match dice.below(6) {
        0 | 1 => Does::Inserts(after, text),
        2 => Does::InsertsTagged(after, text),
        3 if stamp != FINAL => Does::Deletes(span),
        4 => Does::Tags(false, span),
        _ => Does::Tags(true, span),
    }
}

// The next operation of a site.
fn some_operation(peer: &Peer, site: u32, dice: &mut Dice) -> Made {
    let count = peer.replica.replica().clock().seen().saturating_add(1);
    let prev = peer.replica.log().known(site);
    (count, site, prev, some_deed(peer, dice))
}

// THEIR DELIVERY

// A site makes an operation of its own, which is new to it.
fn make(
    rt: &impl Abort,
    sites: &mut Sites,
    all: &mut Vec<Made>,
    dice: &mut Dice,
) -> Result<(), Fail> {
    let (place, site) = match dice.below(3) {
        0 => (0, 1),
        1 => (1, 2),
        _ => (2, sites.third),
    };
    let peer = sites.pick(place);
    let made = some_operation(peer, site, dice);
    same(rt, peer.offer(made).is_new(), true);
    all.push(made)?;
    Ok(())
}

// A site is offered some operation: it is new, a repeat, or held.
fn offer(rt: &impl Abort, sites: &mut Sites, all: &[Made], dice: &mut Dice) {
    let place = dice.below(3);
    if let Some(made) = all.get(dice.below(all.len())) {
        let fault = sites.pick(place).offer(*made).fault();
        same(rt, fault, None);
    }
}

// THE PLAIN READING

/// A character: its stamp, a count and a site, and that of the element that it goes after.
#[derive(Clone, Copy)]
struct Character {
    stamp: (u64, u32),
    left: (u64, u32),
    ch: char,
}

// Adds the characters of a text, the first of which goes after an element.
fn push_text(
    text: &[char],
    first: (u64, u32),
    after: (u64, u32),
    characters: &mut Vec<Character>,
) -> Result<(), Fail> {
    let mut stamp = first;
    let mut left = after;
    for ch in text {
        characters.push(Character {
            stamp,
            left,
            ch: *ch,
        })?;
        left = stamp;
        stamp = (stamp.0.saturating_add(1), stamp.1);
    }
    Ok(())
}

// What an operation inserts, and the element that it goes after.
fn inserted(does: Does) -> Option<((u64, u32), &'static [char])> {
    match does {
        Does::Inserts(after, text) | Does::InsertsTagged(after, text) => Some((after, text)),
        _ => None,
    }
}

// The inserted characters and the final newline, by rising stamp.
fn characters(alloc: Global, all: &[Made]) -> Result<Vec<Character>, Fail> {
    let mut characters = Vec::new(alloc);
    push_text(&['\n'], (1, 0), (0, 0), &mut characters)?;
    for (count, site, _, does) in all {
        if let Some((after, text)) = inserted(*does) {
            push_text(text, (*count, *site), after, &mut characters)?;
        }
    }
    characters.sort_unstable_by_key(|character| character.stamp);
    Ok(characters)
}

// Adds the characters that go after an element, so that the greatest is the last.
fn push_children(
    characters: &[Character],
    element: (u64, u32),
    children: &mut Vec<Character>,
) -> Result<(), Fail> {
    for character in characters {
        if character.left == element {
            children.push(*character)?;
        }
    }
    Ok(())
}

// The characters depth first, those after one element by falling stamp.
fn depth_first(alloc: Global, characters: &[Character]) -> Result<Vec<Character>, Fail> {
    let mut read = Vec::new(alloc);
    let mut open = Vec::new(alloc);
    push_children(characters, (0, 0), &mut open)?;
    for _ in characters {
        if let Some(character) = open.pop() {
            read.push(character)?;
            push_children(characters, character.stamp, &mut open)?;
        }
    }
    Ok(read)
}

fn is_in(span: (u32, u64, u64), stamp: (u64, u32)) -> bool {
    let (site, first, last) = span;
    stamp.1 == site && first <= stamp.0 && stamp.0 <= last
}

// A Delete of some operations takes a character away.
fn is_gone(all: &[Made], stamp: (u64, u32)) -> bool {
    for (_, _, _, does) in all {
        if let Does::Deletes(span) = *does {
            if is_in(span, stamp) {
                return true;
            }
        }
    }
    false
}

// What an operation says of the tag on a character, if it says anything.
fn says(made: Made, stamp: (u64, u32)) -> Option<bool> {
    let (count, site, _, does) = made;
    match does {
        Does::InsertsTagged(_, text) => {
            let last = count.saturating_add(text.len() as u64).saturating_sub(1);
            if is_in((site, count, last), stamp) {
                Some(true)
            } else {
                None
            }
        }
        Does::Tags(on, span) if is_in(span, stamp) => Some(on),
        _ => None,
    }
}

// The greatest operation that says anything of the tag on a character says on.
fn is_tagged(all: &[Made], stamp: (u64, u32)) -> bool {
    let mut greatest = (0, 0);
    let mut tagged = false;
    for made in all {
        if let Some(on) = says(*made, stamp) {
            if (made.0, made.1) > greatest {
                greatest = (made.0, made.1);
                tagged = on;
            }
        }
    }
    tagged
}

// Those of some characters that no operation takes away, with a star behind each tagged one.
fn visible(alloc: Global, all: &[Made], read: &[Character]) -> Result<String, Fail> {
    let mut text = String::new(alloc);
    for character in read {
        if !is_gone(all, character.stamp) {
            text.push(character.ch)?;
            if is_tagged(all, character.stamp) {
                text.push('*')?;
            }
        }
    }
    Ok(text)
}

fn plain_reading(alloc: Global, all: &[Made]) -> Result<String, Fail> {
    let characters = characters(alloc, all)?;
    let read = depth_first(alloc, &characters)?;
    visible(alloc, all, &read)
}

// Some steps by chance: the operations that were made.
fn played(rt: &impl Abort, alloc: Global, sites: &mut Sites, seed: u64) -> Result<Vec<Made>, Fail> {
    let mut all = Vec::new(alloc);
    let mut dice = Dice { seen: seed };
    for _ in 0..300 {
        if dice.below(4) == 0 {
            make(rt, sites, &mut all, &mut dice)?;
        } else {
            offer(rt, sites, &all, &mut dice);
        }
    }
    Ok(all)
}

// Once a site was offered all operations, it has their plain reading.
fn agrees(rt: &impl Abort, peer: &mut Peer, all: &[Made], wanted: &str) -> Result<(), Fail> {
    for made in all {
        same(rt, peer.offer(*made).fault(), None);
    }
    same(rt, peer.replica.held(), 0);
    same(rt, peer.reading()?.as_str(), wanted);
    Ok(())
}

/// The seed of a history, the number of its third site, and how the file of its log begins.
type History = (u64, u32, &'static [u8]);

// The least number that version 1 has no room for, and the greatest.
const HISTORIES: &[History] = &[
    (1, 3, b"RGATEXT1"),
    (2, 65_536, b"RGATEXT2"),
    (3, 4_294_967_295, b"RGATEXT2"),
];

// A history of three sites, which agree in the end, and whose logs come back from their files.
fn all_agree(rt: &impl Abort, alloc: Global, history: &History) -> Result<(), Fail> {
    let (seed, third, begin) = *history;
    let mut sites = Sites::new(alloc, third)?;
    let all = played(rt, alloc, &mut sites, seed)?;
    let wanted = plain_reading(alloc, &all)?;
    for place in 0..3 {
        agrees(rt, sites.pick(place), &all, &wanted)?;
        comes_back(rt, alloc, sites.pick(place).replica.log(), begin)?;
    }
    Ok(())
}

#[test]
fn sites_agree_with_the_plain_reading(rt: HostRuntime) -> Result<(), Fail> {
    for history in HISTORIES {
        all_agree(&rt, rt.alloc(), history)?;
    }
    Ok(())
}
