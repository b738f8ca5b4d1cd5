// Lists of tags, each of which is kept once.
ghost use Rattle.std.specs.Prelude.{◌≡◌, ◌+◌, ◌<◌, ◌≤◌, ◌++◌, ◌∷◌, [], IfOk, IsOk, IsOkUnless, List, OnOk, Option, Some, length, slice_index_or, true};
ghost use Rattle.rt_stamps.specs.declared.fault.Fault.TheVariants.{NoMemory};
ghost use Rattle.rt_stamps.specs.Words.{as_words};
ghost use Rattle.rt_ops.specs.Operations.{Name};
ghost use Rattle.rt_ops.specs.Rules.{are_tags};
ghost use Rattle.rt_rows.specs.Listed.{names_at as names_of};
ghost use Rattle.rt_rows.specs.Rows.{are_same_names};

use rt_stamps::Fault;
use std::alloc::Global;
use std::cmp::Ordering;
use std::marker::Model;

/// The tags that Inserts list.
#[derive(Drop)]
pub(crate) struct TagList {
    names: Vec<String>,
}

impl Model for TagList {
    ghost use Rattle.std.specs.Prelude.{◌≡◌, List, true};
    ghost use Rattle.rt_stamps.specs.Words.{as_words};
    ghost use Rattle.rt_ops.specs.Operations.{Name};
    ghost use Rattle.rt_ops.specs.Rules.{are_tags};

    ghost Value = { List Name };

    ghost view = { λ list. as_words list.names.items };

    ghost invariant = { λ list. are_tags (as_words list.names.items) ≡ true };
}

/// Whether names are the same, in the same order.
fn is_same_names(one: &[String], other: &[String]) -> bool
    ensures { result ≡ are_same_names (as_words one.now) (as_words other.now) }
{
    one == other
}

impl TagList {
    /// A list of these names.
    pub(crate) fn of(names: Vec<String>) -> TagList
        requires { are_tags (as_words names.items) ≡ true }
        ensures { result ≡ as_words names.items }
    {
        TagList { names }
    }

    /// The names.
    fn names(&self) -> &[String]
        ensures names { as_words result.now ≡ self.now }
        ensures rules { are_tags self.now ≡ true }
    {
        self.names.as_slice()
    }

    /// Whether another list is the same.
    fn is_same(&self, other: &TagList) -> bool
        ensures { result ≡ are_same_names self.now other.now }
    {
        is_same_names(self.names(), other.names())
    }
}

/// Lists of tags, each of which keeps its place.
#[derive(Drop)]
pub(crate) struct TagLists {
    lists: Vec<TagList>,
    /// Their places, in the order of the lists' names.
    in_order: Vec<u32>,
    /// The place of the list that was asked for last.
    latest: u32,
}

impl Model for TagLists {
    ghost use Rattle.std.specs.Prelude.{◌-◌, ◌^◌, min, vec_len, vec_capacity};
    ghost use Rattle.rt_rows.specs.Listed.{ListsValue};

    ghost Value = { ListsValue };

    ghost view = { λ all. record {
      lists = all.lists.items;
      room = min (vec_capacity all.lists - vec_len all.lists) (2 ^ 32 - vec_len all.lists);
    } };
}

/// The most lists, so that the place of one has 32 bits.
const MOST_LISTS: usize = 1 << 32;

impl TagLists {
    /// No lists. Takes no memory.
    pub(crate) fn new(alloc: Global) -> TagLists
        ensures { result.lists ≡ [] }
    {
        TagLists {
            lists: Vec::new(alloc),
            in_order: Vec::new(alloc),
            latest: 0,
        }
    }

    /// Makes room for `more` calls of `keep`. `NoMemory` where a growth was refused, or there would be more than 2^32 lists;
    /// the lists stay.
    pub(crate) fn reserve(&mut self, more: usize) -> Result<(), Fault>
        ensures same { self.new.lists ≡ self.old.lists }
        ensures ok { OnOk result (more ≤ self.new.room) }
        ensures kept { self.old.room ≤ self.new.room }
        ensures fault { IsOkUnless result NoMemory }
        ensures there { more ≤ self.old.room → IsOk result }
    {
        if more > MOST_LISTS.saturating_sub(self.lists.len()) {
            return Err(Fault::NoMemory);
        }
        if more <= self.lists.capacity() - self.lists.len() {
            return Ok(());
        }
        self.lists.reserve(more)?;
        // Where this is refused, later lists of the same names may be kept once more.
        let _ = self
            .in_order
            .reserve(self.lists.capacity() - self.lists.len());
        Ok(())
    }

    /// The names of the list at a place, and none at none.
    pub(crate) fn names_at(&self, list: Option<u32>) -> &[String]
        ensures names { as_words result.now ≡ names_of self.now.lists list }
        ensures rules { are_tags (as_words result.now) ≡ true }
    {
        match list {
            Some(at) => match self.lists.get(at as usize) {
                Some(names) => names.names(),
                None => &[],
            },
            None => &[],
        }
    }

    /// Whether the list at a place is this one.
    fn is_at(&self, at: u32, names: &TagList) -> bool
        ensures { result ≡ true → (at < length self.now.lists) × (slice_index_or self.now.lists at [] ≡ names.now) }
    {
        match self.lists.get(at as usize) {
            Some(list) => list.is_same(names),
            None => false,
        }
    }

    /// How the list at a place compares with this one.
    fn order_at(&self, at: u32, names: &TagList) -> Ordering {
        match self.lists.get(at as usize) {
            Some(list) => list.names().cmp(names.names()),
            None => Ordering::Less,
        }
    }

    /// The place of a list, where it is kept; else where its place would stand in order.
    fn find(&self, names: &TagList) -> Result<u32, usize>
        ensures { IfOk result (λ at. (at < length self.now.lists) × (slice_index_or self.now.lists at [] ≡ names.now)) }
    {
        if self.is_at(self.latest, names) {
            return Ok(self.latest);
        }
        let slots = self.in_order.as_slice();
        match slots.binary_search_by(|at| self.order_at(*at, names)) {
            Ok(slot) => {
                let at = slots[slot];
                if self.is_at(at, names) {
                    return Ok(at);
                }
                Err(slot)
            }
            Err(slot) => Err(slot),
        }
    }

    /// Puts a list at the end, where there is room, and its place where it stands in order.
    fn push(&mut self, names: TagList, slot: usize) -> u32
        requires { 0 < self.old.room }
        ensures at { result ≡ length self.old.lists }
        ensures more { self.new.lists ≡ self.old.lists ++ names ∷ [] }
        ensures room { self.old.room ≤ self.new.room + 1 }
    {
        let at = self.lists.len() as u32;
        self.lists.push_reserved(names);
        let many = self.in_order.len();
        if slot <= many && many < self.in_order.capacity() {
            let _ = self.in_order.insert(slot, at);
        }
        at
    }

    /// The place of a list, which is kept where it wasn't, where there is room. Takes no memory.
    pub(crate) fn keep(&mut self, names: TagList) -> u32
        requires { 0 < self.old.room }
        ensures there { slice_index_or self.new.lists result [] ≡ names }
        ensures within { result < length self.new.lists }
        ensures kept { (more : List (List Name)) × (self.new.lists ≡ self.old.lists ++ more) }
        ensures room { self.old.room ≤ self.new.room + 1 }
    {
        let at = match self.find(&names) {
            Ok(at) => at,
            Err(slot) => self.push(names, slot),
        };
        self.latest = at;
        at
    }
}
