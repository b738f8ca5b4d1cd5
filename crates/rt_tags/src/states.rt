// Interned tag states of characters.
ghost use Rattle.std.specs.Prelude.{List, ℕ, ◌≡◌, ◌≢◌, IsOk, All, [], ◌∷◌, ◌+◌, ◌^◌, ◌<◌, ◌≤◌, OnOk, OnErr, IfOk, IsOkUnless, IfSome, IfNone, Ok, true, false, map, length, take};
ghost use Rattle.rt_tags.specs.Borders.{HasRoomForAll, beyond, is_tagged};
ghost use Rattle.rt_tags.specs.Tags.{is_listed};
ghost use Rattle.rt_tags.specs.States.{AreNumbered, HaveOneNumber, IsByName, IsState, IsTag, KeepsIds, all_numbered, is_on, is_settled, name_at, names_on, numbered, state_at, write_at, writes_at, written};
ghost use Rattle.rt_tags.specs.Toggles.{count_of};
ghost use Rattle.rt_tags.specs.Writers.{listed_by, state_after};
ghost use Rattle.rt_stamps.specs.declared.stamp.TheConstants.{ROOT};
ghost use Rattle.rt_stamps.specs.Words.{as_words};

use crate::nodes::{Node, setting_at};
use crate::toggles::Toggles;
use crate::walk::{add_beyond, add_entries, is_none_on, puts_on};
use crate::writes::{listed, tags_on};
use crate::writing::{write, write_all};
use crate::{names, sorting};
use indexmap::IndexSet;
use rt_stamps::{Fault, ROOT, Stamp};
use std::alloc::Global;
use std::marker::Model;

/// A tag's number in a table, for good.
#[derive(Clone, Copy, Debug, PartialEq, Eq, Hash)]
pub struct TagId {
    place: usize,
}

impl Model for TagId {
    ghost use Rattle.std.specs.Prelude.{ℕ};

    ghost Value = { ℕ };

    ghost view = { λ t. t.place };

    ghost inverse = { λ n. record { place = n } };
}

impl TagId {
    // The tag whose name stands at a place of the table.
    pub(crate) fn at(place: usize) -> TagId
        ensures { result ≡ place }
    {
        TagId { place }
    }

    // Where its name stands in the table.
    pub(crate) fn place(self) -> usize
        ensures { result ≡ self }
    {
        self.place
    }
}

/// A state's id in a table, for good. It has 32 bits, so that what is kept of a run of characters stays small.
#[derive(Clone, Copy, Debug, PartialEq, Eq, Hash)]
pub struct StateId {
    place: u32,
}

impl Model for StateId {
    ghost use Rattle.std.specs.Prelude.{ℕ};

    ghost Value = { ℕ };

    ghost view = { λ s. s.place };

    ghost inverse = { λ n. record { place = n } };
}

impl StateId {
    /// The state without tags and writers.
    pub const EMPTY: StateId = StateId { place: 0 };

    // Where its node stands in the table.
    pub(crate) fn place(self) -> u32
        ensures { result ≡ self }
    {
        self.place
    }
}

/// A write of a tag: which tag, under which stamp, and whether it is on.
#[derive(Clone, Copy, Debug, PartialEq, Eq, Hash)]
pub struct TagEntry {
    pub tag: TagId,
    pub writer: Stamp,
    pub on: bool,
}

/// Tags by number and tag states of characters by id. Contracts see the names in the order of their
/// numbers and the states in the order of their ids: each name has one number and each state one id.
/// States share parts: one more write takes at most a node for each binary digit of the greatest number, and one.
pub struct StateTable {
    alloc: Global,
    names: IndexSet<String>,
    nodes: IndexSet<Node>,
}

// Written out, so that where it is let go is one step for the crates above, and not one for each
// field of each field.
impl Drop for StateTable {
    fn drop(self) {
        let StateTable {
            alloc: _,
            names: _,
            nodes: _,
        } = self;
    }
}

impl Model for StateTable {
    ghost use Rattle.rt_tags.specs.States.{TagStates};

    ghost Value = { TagStates };

    ghost use Rattle.rt_tags.specs.Kept.{IsStateTable, states_seen};
    ghost use Rattle.rt_tags.specs.Seen.{names_of};

    ghost view = { λ t. record { names = names_of t.names; states = states_seen (names_of t.names) t.nodes.keys } };

    ghost invariant = { λ t. IsStateTable (names_of t.names) t.nodes.keys };
}

impl StateTable {
    /// A table without names, and with the empty state alone. `NoMemory` is its only fault.
    pub fn new(alloc: Global) -> Result<StateTable, Fault>
        ensures ok { IfOk result (λ table. table ≡ record { names = []; states = [] ∷ [] }) }
        ensures fault { IsOkUnless result Fault.NoMemory }
    {
        let mut nodes = IndexSet::new(alloc);
        let first = Node {
            tag: 0,
            setting: None,
            odd: 0,
            even: 0,
        };
        let _ = nodes.insert(first)?;
        Ok(StateTable {
            alloc,
            names: IndexSet::new(alloc),
            nodes,
        })
    }

    /// The number of a name: one for each name for good. `NoMemory` is its only fault, and comes only
    /// for a name that has no number yet; the table is then as it was.
    pub fn number(&mut self, name: &str) -> Result<TagId, Fault>
        ensures given { IfOk result (IsTag self.new) }
        ensures tag { IfOk result (λ tag. name_at self.new tag ≡ name.now) }
        ensures ok { OnOk result (self.new ≡ numbered name.now self.old) }
        ensures err { OnErr result (self.new ≡ self.old) }
        ensures memory { is_listed name.now self.old.names ≡ true → IsOk result }
        ensures fault { IsOkUnless result Fault.NoMemory }
        ensures ids { KeepsIds self.old self.new }
    {
        match names::index_of(&self.names, name) {
            Some(place) => Ok(TagId { place }),
            None => {
                let place = self.names.len();
                if place > u32::MAX as usize {
                    return Err(Fault::NoMemory);
                }
                let name = String::from_str(self.alloc, name)?;
                names::make_room(&mut self.names, 1)?;
                names::add(&mut self.names, name);
                Ok(TagId { place })
            }
        }
    }

    /// The number of a name, if it has one. A name without a number is on in no state.
    pub fn known(&self, name: &str) -> Option<TagId>
        ensures none { IfNone result (is_listed name.now self.now.names ≡ false) }
        ensures nowhere { IfNone result ((state : ℕ) → is_on name.now (state_at self.now state) ≡ false) }
        ensures given { IfSome result (IsTag self.now) }
        ensures tag { IfSome result (λ tag. name_at self.now tag ≡ name.now) }
    {
        match names::index_of(&self.names, name) {
            Some(place) => Some(TagId { place }),
            None => None,
        }
    }

    /// How many tags were given out: the numbers below it.
    pub fn tags(&self) -> usize
        ensures { result ≡ length self.now.names }
    {
        self.names.len()
    }

    /// The name of a number.
    pub fn name(&self, tag: TagId) -> &str
        requires { IsTag self.now tag }
        ensures { result.now ≡ name_at self.now tag }
    {
        self.names.get_index(tag.place).unwrap().as_str()
    }

    /// The state after one more write of a tag: of each tag the greatest writer stays. The state itself where it has
    /// a writer of that tag that isn't less. `NoMemory` is its only fault, and the table is then as it was.
    pub fn with(
        &mut self,
        state: StateId,
        tag: TagId,
        writer: Stamp,
        on: bool,
    ) -> Result<StateId, Fault>
        requires state { IsState self.old state }
        requires tag { IsTag self.old tag }
        ensures given { IfOk result (IsState self.new) }
        ensures state { IfOk result (λ id. state_at self.new id ≡ written (write_at self.old tag writer on) (state_at self.old state)) }
        ensures same { is_settled (write_at self.old tag writer on) (state_at self.old state) ≡ true → result ≡ Ok state }
        ensures names { self.new.names ≡ self.old.names }
        ensures err { OnErr result (self.new ≡ self.old) }
        ensures fault { IsOkUnless result Fault.NoMemory }
        ensures ids { KeepsIds self.old self.new }
    {
        let entry = TagEntry { tag, writer, on };
        let place = write(&mut self.nodes, state.place, entry)?;
        Ok(StateId { place })
    }

    /// The state after writes, one after the other. Beside it only its parts get ids: on the state without writes no
    /// more than there are writes. `NoMemory` is its only fault, and the table is then as it was.
    pub fn with_all(&mut self, state: StateId, writes: &[TagEntry]) -> Result<StateId, Fault>
        requires state { IsState self.old state }
        requires tags { All (λ w. IsTag self.old w.tag) writes.now }
        ensures given { IfOk result (IsState self.new) }
        ensures state { IfOk result (λ id. state_at self.new id ≡ state_after (state_at self.old state) (writes_at self.old writes.now)) }
        ensures few { state ≡ 0 → length self.new.states ≤ length self.old.states + length writes.now }
        ensures names { self.new.names ≡ self.old.names }
        ensures err { OnErr result (self.new ≡ self.old) }
        ensures fault { IsOkUnless result Fault.NoMemory }
        ensures ids { KeepsIds self.old self.new }
    {
        let kept = self.nodes.len();
        match write_all(self.alloc, &mut self.nodes, state.place, writes) {
            Ok(place) => Ok(StateId { place }),
            Err(fault) => {
                self.nodes.truncate(kept);
                Err(fault)
            }
        }
    }

    /// The state in which a list of names is on under one writer. New names get numbers. `NoMemory` is its only
    /// fault; the states are then as they were, and names that got a number keep it: after a fault the names are
    /// those that the first so many of the list gave.
    #[inline(always)]
    pub fn state_of_list(&mut self, writer: Stamp, names: &[String]) -> Result<StateId, Fault>
        ensures given { IfOk result (IsState self.new) }
        ensures state { IfOk result (λ id. state_at self.new id ≡ state_after [] (listed_by writer (as_words names.now))) }
        ensures few { length self.new.states ≤ length self.old.states + length names.now }
        ensures names { OnOk result (self.new.names ≡ (all_numbered (as_words names.now) self.old).names) }
        ensures partly { OnErr result ((k : ℕ) × (self.new.names ≡ (all_numbered (take k (as_words names.now)) self.old).names)) }
        ensures err { OnErr result (self.new.states ≡ self.old.states) }
        ensures fault { IsOkUnless result Fault.NoMemory }
        ensures ids { KeepsIds self.old self.new }
    {
        self.order();
        if names.is_empty() {
            return Ok(StateId::EMPTY);
        }
        let tags = self.number_all(names)?;
        let writes = listed(self.alloc, writer, &tags)?;
        self.order();
        self.with_all(StateId::EMPTY, &writes)
    }

    // The numbers of names.
    fn number_all(&mut self, names: &[String]) -> Result<Vec<TagId>, Fault>
        ensures given { IfOk result (λ tags. All (IsTag self.new) tags.items) }
        ensures tags { IfOk result (λ tags. map (name_at self.new) tags.items ≡ as_words names.now) }
        ensures names { OnOk result (self.new.names ≡ (all_numbered (as_words names.now) self.old).names) }
        ensures partly { OnErr result ((k : ℕ) × (self.new.names ≡ (all_numbered (take k (as_words names.now)) self.old).names)) }
        ensures states { self.new.states ≡ self.old.states }
        ensures fault { IsOkUnless result Fault.NoMemory }
        ensures ids { KeepsIds self.old self.new }
    {
        let mut tags = Vec::new(self.alloc);
        for name in names {
            let tag = self.number(name)?;
            tags.push(tag)?;
        }
        Ok(tags)
    }

    /// Tags by the bytes of their names, each once. `NoMemory` is its only fault.
    pub fn in_order(&self, tags: &[TagId]) -> Result<Vec<TagId>, Fault>
        requires { All (IsTag self.now) tags.now }
        ensures names { IfOk result (λ v. map (name_at self.now) v.items ≡ names_on (state_after [] (listed_by ROOT (map (name_at self.now) tags.now)))) }
        ensures tags { IfOk result (λ v. All (IsTag self.now) v.items) }
        ensures fault { IsOkUnless result Fault.NoMemory }
    {
        let writes = listed(self.alloc, ROOT, tags)?;
        let sorted = sorting::sorted(self.alloc, self.names.as_slice(), &writes)?;
        Ok(tags_on(self.alloc, &sorted)?)
    }

    /// Whether a tag is on. It looks at a node for each binary digit of the tag's number at most, and compares no names.
    pub fn has(&self, state: StateId, tag: TagId) -> bool
        requires state { IsState self.now state }
        requires tag { IsTag self.now tag }
        ensures { result ≡ is_on (name_at self.now tag) (state_at self.now state) }
    {
        puts_on(setting_at(&self.nodes, state.place, tag.place as u32))
    }

    /// The tags that are on, by the bytes of their names. `NoMemory` is its only fault.
    pub fn on(&self, state: StateId) -> Result<Vec<TagId>, Fault>
        requires { IsState self.now state }
        ensures names { IfOk result (λ v. map (name_at self.now) v.items ≡ names_on (state_at self.now state)) }
        ensures tags { IfOk result (λ v. All (IsTag self.now) v.items) }
        ensures fault { IsOkUnless result Fault.NoMemory }
    {
        let mut entries = Vec::new(self.alloc);
        add_entries(&mut entries, &self.nodes, state.place, 1, 0)?;
        let sorted = sorting::sorted(self.alloc, self.names.as_slice(), &entries)?;
        Ok(tags_on(self.alloc, &sorted)?)
    }

    /// Whether no tag is on. It takes no memory, and looks at nodes until one is on.
    pub fn has_none(&self, state: StateId) -> bool
        requires { IsState self.now state }
        ensures yes { result ≡ true → names_on (state_at self.now state) ≡ [] }
        ensures no { result ≡ false → names_on (state_at self.now state) ≢ [] }
    {
        is_none_on(&self.nodes, state.place)
    }

    // One toggle more of each tag that is on in a state and not in another. What both share is passed over.
    pub(crate) fn count_beyond(&self, counts: &mut Toggles, here: StateId, there: StateId)
        requires here { IsState self.now here }
        requires there { IsState self.now there }
        requires room { HasRoomForAll self.now counts.old }
        requires few { (tag : ℕ) → count_of tag counts.old + 1 < 2 ^ 32 }
        ensures given { (tag : ℕ) → IsTag self.now tag
            → count_of tag counts.new ≡ count_of tag counts.old + beyond (is_tagged self.now tag here) (is_tagged self.now tag there) }
        ensures others { (tag : ℕ) → length self.now.names ≤ tag → count_of tag counts.new ≡ count_of tag counts.old }
        ensures capacity { counts.new.capacity ≡ counts.old.capacity }
    {
        counts.counts();
        add_beyond(&mut counts.counts, &self.nodes, here.place, there.place);
    }

    /// Each name has one number and each state one id; a name without a number is on in no state; a state
    /// has one write of each tag, by the bytes of the tags' names; and `StateId::EMPTY`, whose place is 0,
    /// is the state without writes.
    pub fn order(&self)
        ensures numbers { HaveOneNumber self.now }
        ensures nowhere { AreNumbered self.now }
        ensures ids { (a b : ℕ) → IsState self.now a → IsState self.now b → state_at self.now a ≡ state_at self.now b → a ≡ b }
        ensures by_name { (state : ℕ) → IsState self.now state → IsByName (state_at self.now state) }
        ensures given { IsState self.now 0 }
        ensures empty { state_at self.now 0 ≡ [] }
    {
        let _ = &self.nodes;
    }
}
