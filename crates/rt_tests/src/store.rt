// Texts of a few cells.
ghost use Rattle.std.specs.Prelude.{◌≡◌, ◌∷◌, [], false};
ghost use Rattle.rt_store.specs.Cells.{final_cell};
ghost use Rattle.rt_store.specs.ListStore.{list_cells};
ghost use Rattle.rt_store.specs.Tagged.{AreStates};
ghost use Rattle.rt_tags.specs.States.{IsState, IsTag};

use crate::checks::{same, same_len};
use rt_stamps::{FINAL, Fault, ROOT, Span, Stamp};
use rt_store::{Cell, FINAL_CELL, ListStore, TextStore};
use rt_tags::{StateId, StateTable, TagId};
use rt_tree::TreeStore;
use std::alloc::Global;
use std::process::Abort;
use std::test::Fail;

/// A short text, and a tag that some of its characters have.
pub struct Text {
    states: StateTable,
    pub store: ListStore,
    tag: TagId,
    tagged: StateId,
    ghost tag_given: { IsTag states tag },
    ghost tagged_given: { IsState states tagged },
    ghost cells_given: { AreStates states (list_cells store) },
}

// Written out, so that each way out of a test lets a text go in one step of its proof.
impl Drop for Text {
    fn drop(self) {
        let Text {
            states: _,
            store: _,
            tag: _,
            tagged: _,
        } = self;
    }
}

impl Text {
    #[tactic(auto, using(rt_store::proofs::GivenStates::one_state))]
    pub(crate) fn new(alloc: Global) -> Result<Text, Fault> {
        let mut states = StateTable::new(alloc)?;
        let tag = states.number("t")?;
        let tagged = states.with(StateId::EMPTY, tag, ROOT, true)?;
        let store = ListStore::new(alloc)?;
        Ok(Text {
            states,
            store,
            tag,
            tagged,
        })
    }

    /// A text of some characters, the last one first: their counts, and whether they have the tag.
    pub(crate) fn of(alloc: Global, backwards: &[(u64, char, bool)]) -> Result<Text, Fault> {
        let mut text = Text::new(alloc)?;
        for (count, ch, is_tagged) in backwards {
            text.put(*count, *ch, *is_tagged)?;
        }
        Ok(text)
    }

    /// Puts a character in front of the others.
    #[tactic(auto, using(rt_store::proofs::GivenStates::spliced_states, rt_store::proofs::GivenStates::one_state))]
    pub(crate) fn put(&mut self, count: u64, ch: char, is_tagged: bool) -> Result<(), Fault> {
        if self.store.cells() > 100 {
            return Err(Fault::NoMemory);
        }
        self.store.reserve(1, 1, self.states.tags())?;
        let cell = Cell {
            stamp: Stamp { count, site: 1 },
            ch,
            gone: false,
            state: if is_tagged {
                self.tagged
            } else {
                StateId::EMPTY
            },
        };
        self.store.splice(&self.states, 0, &[cell]);
        Ok(())
    }

    // Puts the tag on the characters of some counts of a site.
    #[tactic(auto, using(rt_store::proofs::GivenStates::put_states))]
    fn tag_counts(&mut self, site: u32, first: u64, last: u64) -> Result<(), Fault> {
        if self.store.cells() > 100 {
            return Err(Fault::NoMemory);
        }
        self.store.reserve(0, 2, self.states.tags())?;
        let span = Span { site, first, last };
        self.store.set_state(&self.states, span, self.tagged);
        Ok(())
    }

    // Removes a character.
    #[tactic(auto, using(rt_store::proofs::GivenStates::gone_states))]
    pub(crate) fn remove(&mut self, count: u64) -> Result<(), Fault> {
        if self.store.cells() > 100 {
            return Err(Fault::NoMemory);
        }
        self.store.reserve(0, 2, self.states.tags())?;
        let span = Span {
            site: 1,
            first: count,
            last: count,
        };
        self.store.set_gone(&self.states, span);
        Ok(())
    }

    fn near(&self, place: usize) -> Near {
        let next = self.store.next_tagged(&self.states, self.tag, place);
        let next_plain = self.store.next_untagged(&self.states, self.tag, place);
        let previous = self.store.previous_tagged(&self.states, self.tag, place);
        (next, next_plain, previous)
    }

    // Stops a test where others are near the places than those that are told.
    fn are_near(&self, rt: &impl Abort, rows: &[(usize, Near)]) {
        for (place, wanted) in rows {
            same(rt, (*place, self.near(*place)), (*place, *wanted));
        }
    }
}

/// From a place, the next one that has the tag, the next one that hasn't it, and the previous one that
/// has it.
type Near = (Option<usize>, Option<usize>, Option<usize>);

// Those of the text `abc`, whose `b` has the tag.
const OF_B: &[(usize, Near)] = &[
    (0, (Some(1), Some(0), None)),
    (1, (Some(1), Some(2), None)),
    (2, (None, Some(2), Some(1))),
    (4, (None, None, Some(1))),
    (usize::MAX, (None, None, Some(1))),
];

// Those when the `c` has it too.
const OF_C: &[(usize, Near)] = &[
    (1, (Some(1), Some(3), None)),
    (2, (Some(2), Some(3), Some(1))),
];

// Those when the `b` is gone.
const WITHOUT_B: &[(usize, Near)] = &[(0, (Some(1), Some(0), None)), (2, (None, Some(2), Some(1)))];

// Those when the last newline has it too.
const OF_THE_END: &[(usize, Near)] = &[(2, (Some(2), None, Some(1))), (3, (None, None, Some(2)))];

#[test]
fn nearest_places(rt: HostRuntime) -> Result<(), Fail> {
    let mut text = abc(rt.alloc())?;
    text.are_near(&rt, OF_B);
    text.tag_counts(1, 4, 9)?;
    text.are_near(&rt, OF_C);
    text.remove(3)?;
    text.are_near(&rt, WITHOUT_B);
    text.tag_counts(0, 1, 1)?;
    text.are_near(&rt, OF_THE_END);
    // no character has a tag on a new text
    Text::new(rt.alloc())?.are_near(&rt, &[(0, (None, Some(0), None))]);
    Ok(())
}

// The text `abc`, whose `b` has the tag.
fn abc(alloc: Global) -> Result<Text, Fault> {
    Text::of(alloc, &[(4, 'c', false), (3, 'b', true), (2, 'a', false)])
}

// The cell of a character without tags.
fn cell(count: u64, site: u32, ch: char) -> Cell<StateId>
    ensures { result ≡ record { stamp = record { count = count; site = site }; ch = ch; gone = false; state = 0 } }
{
    Cell {
        stamp: Stamp { count, site },
        ch,
        gone: false,
        state: StateId::EMPTY,
    }
}

// Of the final newline alone a store becomes the text `aYb`, and stops a test where a new character doesn't go past those
// that are newer, or goes further.
#[tactic(auto, using(rt_store::proofs::GivenStates::spliced_states, rt_store::proofs::GivenStates::one_state))]
fn goes_past<S: TextStore>(rt: &impl Abort, states: &StateTable, store: &mut S) -> Result<(), Fault>
    requires text { S.list store.old ≡ final_cell ∷ [] }
    requires states { S.agrees store.old states.now }
{
    store.reserve(3, 3, states.tags())?;
    store.splice(states, 0, &[cell(2, 1, 'b')]);
    store.splice(states, 0, &[cell(1, 1, 'a')]);
    let a = Stamp { count: 1, site: 1 };
    same(rt, store.after_skip(a, Stamp { count: 3, site: 2 }), 1);
    store.splice(states, 1, &[cell(3, 2, 'Y')]);
    same(rt, store.after_skip(a, Stamp { count: 3, site: 1 }), 2);
    same(rt, store.visible(), 4);
    same(rt, store.lines(), 1);
    Ok(())
}

// A new character goes past those that are newer, and no further: in a list and in a tree.
#[test]
#[tactic(auto, using(rt_store::proofs::GivenStates::one_state))]
fn past_greater_stamps(rt: HostRuntime) -> Result<(), Fail> {
    let states = StateTable::new(rt.alloc())?;
    states.order();
    let mut list = ListStore::new(rt.alloc())?;
    goes_past(&rt, &states, &mut list)?;
    let mut tree = TreeStore::new(rt.alloc())?;
    goes_past(&rt, &states, &mut tree)?;
    Ok(())
}

// The stamps of `b` and `c`, and one of no cell.
const B: Stamp = Stamp { count: 3, site: 1 };

const C: Stamp = Stamp { count: 4, site: 1 };

const OTHER: Stamp = Stamp { count: 4, site: 2 };

/// Stamps, and the places of their cells.
const PLACES: &[(Stamp, Option<usize>)] = &[
    (B, Some(1)),
    (C, Some(1)),
    (FINAL, Some(2)),
    (OTHER, None),
];

// A stamp finds its cell, gone or not; room that was there stays.
fn has_cells(rt: &impl Abort, text: &Text) {
    let store = &text.store;
    let gone = Cell {
        gone: true,
        state: text.tagged,
        ..cell(3, 1, 'b')
    };
    same(rt, store.cell_of(B), Some(gone));
    same(rt, store.cell_of(C), Some(cell(4, 1, 'c')));
    same(rt, store.cell_of(FINAL), Some(FINAL_CELL));
    same(rt, store.cell_of(OTHER), None);
}

// A stamp finds its place.
fn has_places(rt: &impl Abort, text: &Text) {
    for (stamp, place) in PLACES {
        same(rt, text.store.place_of(*stamp), *place);
    }
}

// A position finds its cell.
fn has_positions(rt: &impl Abort, text: &Text) {
    same_len(rt, text.store.cells(), 4);
    same(rt, text.store.nth(2), cell(4, 1, 'c'));
    same(rt, text.store.nth(3), FINAL_CELL);
}

// Of the text `abc`, whose `b` is gone.
#[test]
fn cells_and_places(rt: HostRuntime) -> Result<(), Fail> {
    let mut text = abc(rt.alloc())?;
    text.remove(3)?;
    has_cells(&rt, &text);
    has_places(&rt, &text);
    has_positions(&rt, &text);
    Ok(())
}
