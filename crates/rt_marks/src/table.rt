// The marks of a site in slots, and two lists of the slots' numbers.
ghost use Rattle.std.specs.Prelude.{◌≡◌, ◌+◌, ◌<◌, ◌≤◌, ◌&&◌, [], IfOk, IfErr, None, OnOk, Some, filter, length, map, nat_lt, slice_index, slice_set, not, option_map, option_copied, slice_get, vec_len, vec_capacity, find as first_passing};
ghost use Rattle.std.specs.List.{HoldsAt, insert, remove, AllByRecursion};
ghost use Rattle.std.specs.List.Sorted.{IsSearchInRange};
ghost use Rattle.rt_stamps.specs.Words.{as_words};
ghost use Rattle.rt_marks.specs.Marks.{comes_before, find_last, first_mark_at, last_mark_before, mark_removed, marks_inserted, marks_removed, name_order, mark_of_name, put_mark, with_mark, without_mark};
ghost use Rattle.rt_marks.specs.Seen.{IsGap, IsOrder, MarksPartAt, in_slot, names_of_marks, overwritten, same_gravity, seen_mark, seen_all, slot_stands, spotted};

mod unsetting;

use crate::mark::Mark;
use crate::{Gravity, MarkRef};
use std::alloc::{AllocError, Global};
use std::cmp::Ordering;

/// Marks in slots, which stay where they are while marks come and go; only the last slot's mark takes
/// the place of one that is taken away. The numbers of the slots stand in two lists, in the one by the
/// bytes of the names, in the other in the order of the marks.
#[derive(Drop)]
pub struct Table {
    pub marks: Vec<Mark>,
    pub by_name: Vec<usize>,
    pub in_order: Vec<usize>,
}

impl Table {
    ghost use Rattle.rt_marks.specs.Tables.{HasRoomForMark, IsMarkTable, by_names, marks_in_table, slots_of};

    /// No marks.
    pub fn new(alloc: Global) -> Table
        ensures table { IsMarkTable result }
        ensures marks { marks_in_table result ≡ [] }
    {
        Table {
            marks: Vec::new(alloc),
            by_name: Vec::new(alloc),
            in_order: Vec::new(alloc),
        }
    }

    /// How the name of a slot's mark compares with another, by their bytes; no slot is as no name.
    fn compare_name(&self, slot: usize, name: &str) -> Ordering
        ensures { result ≡ name_order (in_slot (slots_of self.now) slot).name name.now }
    {
        match self.marks.get(slot) {
            Some(mark) => mark.compare_name(name),
            None => "".cmp(name),
        }
    }

    /// Whether a slot's mark comes before a spot.
    fn is_before(&self, slot: usize, here: &MarkRef<'_>) -> bool
        ensures { result ≡ (nat_lt slot (length (slots_of self.now)) && comes_before (in_slot (slots_of self.now) slot) (spotted here.now)) }
    {
        match self.marks.get(slot) {
            Some(mark) => mark.spot().comes_before(here),
            None => false,
        }
    }

    /// Whether a slot's mark doesn't come after a spot.
    fn is_until(&self, slot: usize, here: &MarkRef<'_>) -> bool
        ensures { result ≡ (nat_lt slot (length (slots_of self.now)) && not (comes_before (spotted here.now) (in_slot (slots_of self.now) slot))) }
    {
        match self.marks.get(slot) {
            Some(mark) => !here.comes_before(&mark.spot()),
            None => false,
        }
    }

    /// Whether a slot's mark stands before a place.
    fn is_below(&self, slot: usize, place: usize) -> bool
        ensures { result ≡ (nat_lt slot (length (slots_of self.now)) && nat_lt (in_slot (slots_of self.now) slot).place place) }
    {
        match self.marks.get(slot) {
            Some(mark) => mark.place < place,
            None => false,
        }
    }

    /// Where the mark of a name is among the names, or where it would be.
    pub fn search(&self, name: &str) -> Result<usize, usize>
        requires { IsMarkTable self.now }
        ensures bound { IsSearchInRange result (length self.now.by_name.items) }
        ensures found { IfOk result (HoldsAt (λ slot. (in_slot (slots_of self.now) slot).name ≡ name.now) self.now.by_name.items) }
        ensures gap { IfErr result (IsGap name.now (names_of_marks (by_names self.now))) }
    {
        self.by_name
            .as_slice()
            .binary_search_by(|slot| self.compare_name(*slot, name))
    }

    /// How many marks come before a spot.
    fn count_before_spot(&self, here: &MarkRef<'_>) -> usize
        requires { IsOrder (slots_of self.now) self.now.in_order.items }
        ensures { MarksPartAt (λ m. comes_before m (spotted here.now)) (marks_in_table self.now) result }
    {
        self.in_order
            .as_slice()
            .partition_point(|slot| self.is_before(*slot, here))
    }

    /// How many marks come before a mark.
    fn count_before(&self, here: &Mark) -> usize
        requires { IsOrder (slots_of self.now) self.now.in_order.items }
        ensures { MarksPartAt (λ m. comes_before m (seen_mark here.now)) (marks_in_table self.now) result }
    {
        self.count_before_spot(&here.spot())
    }

    /// How many marks don't come after a spot.
    fn count_until(&self, here: &MarkRef<'_>) -> usize
        requires { IsOrder (slots_of self.now) self.now.in_order.items }
        ensures { MarksPartAt (λ m. not (comes_before (spotted here.now) m)) (marks_in_table self.now) result }
    {
        self.in_order
            .as_slice()
            .partition_point(|slot| self.is_until(*slot, here))
    }

    /// How many marks stand before a place.
    fn count_below(&self, place: usize) -> usize
        requires { IsOrder (slots_of self.now) self.now.in_order.items }
        ensures { MarksPartAt (λ m. nat_lt m.place place) (marks_in_table self.now) result }
    {
        self.in_order
            .as_slice()
            .partition_point(|slot| self.is_below(*slot, place))
    }

    /// How many marks there are.
    pub fn len(&self) -> usize
        ensures { result ≡ length (marks_in_table self.now) }
    {
        self.in_order.len()
    }

    /// The mark at an index of the order.
    pub fn mark_at(&self, at: usize) -> Option<&Mark>
        requires { IsOrder (slots_of self.now) self.now.in_order.items }
        ensures { option_map seen_mark (option_copied result) ≡ slice_get (marks_in_table self.now) at }
    {
        let slot = *self.in_order.get(at)?;
        self.marks.get(slot)
    }

    /// The mark in a slot.
    fn mark_in(&self, slot: usize) -> Option<&Mark>
        ensures { option_map seen_mark (option_copied result) ≡ slice_get (slots_of self.now) slot }
    {
        self.marks.get(slot)
    }

    /// The mark of a name.
    pub fn find(&self, name: &str) -> Option<&Mark>
        requires { IsMarkTable self.now }
        ensures { option_map seen_mark (option_copied result) ≡ mark_of_name name.now (marks_in_table self.now) }
    {
        match self.search(name) {
            Ok(rank) => self.mark_in(self.by_name[rank]),
            Err(_) => None,
        }
    }

    /// The slot of the mark of a name, or where the name would be among the names.
    pub fn find_slot(&self, name: &str) -> Result<usize, usize>
        requires { IsMarkTable self.now }
        ensures there { IfOk result (λ slot. slot < length (slots_of self.now)) }
        ensures mark { IfOk result (λ slot. mark_of_name name.now (marks_in_table self.now) ≡ Some (in_slot (slots_of self.now) slot)) }
        ensures name { IfOk result (λ slot. (in_slot (slots_of self.now) slot).name ≡ name.now) }
        ensures none { IfErr result (λ _. mark_of_name name.now (marks_in_table self.now) ≡ None) }
        ensures bound { IfErr result (λ gap. gap ≤ length self.now.by_name.items) }
        ensures gap { IfErr result (λ gap. IsGap name.now (names_of_marks (by_names self.now)) gap) }
    {
        match self.search(name) {
            Ok(rank) => Ok(self.by_name[rank]),
            Err(gap) => Err(gap),
        }
    }

    /// The first mark that comes after a spot.
    pub fn first_after(&self, here: &MarkRef<'_>) -> Option<&Mark>
        requires { IsMarkTable self.now }
        ensures { option_map seen_mark (option_copied result) ≡ first_passing (comes_before (spotted here.now)) (marks_in_table self.now) }
    {
        self.mark_at(self.count_until(here))
    }

    /// The last mark that comes before a spot.
    pub fn last_until(&self, here: &MarkRef<'_>) -> Option<&Mark>
        requires { IsMarkTable self.now }
        ensures { option_map seen_mark (option_copied result) ≡ find_last (λ m. comes_before m (spotted here.now)) (marks_in_table self.now) }
    {
        let count = self.count_before_spot(here);
        if count == 0 {
            None
        } else {
            self.mark_at(count - 1)
        }
    }

    /// The first mark at or after a place.
    pub fn first_at(&self, place: usize) -> Option<&Mark>
        requires { IsMarkTable self.now }
        ensures { option_map seen_mark (option_copied result) ≡ first_mark_at place (marks_in_table self.now) }
    {
        self.mark_at(self.count_below(place))
    }

    /// The last mark before a place.
    pub fn last_before(&self, place: usize) -> Option<&Mark>
        requires { IsMarkTable self.now }
        ensures { option_map seen_mark (option_copied result) ≡ last_mark_before place (marks_in_table self.now) }
    {
        let count = self.count_below(place);
        if count == 0 {
            None
        } else {
            self.mark_at(count - 1)
        }
    }

    /// Room for one mark more. Nothing else changes, whatever the answer.
    pub fn reserve(&mut self) -> Result<(), AllocError>
        ensures marks { self.new.marks.items ≡ self.old.marks.items }
        ensures by_name { self.new.by_name.items ≡ self.old.by_name.items }
        ensures in_order { self.new.in_order.items ≡ self.old.in_order.items }
        ensures ok { OnOk result (HasRoomForMark self.new) }
    {
        self.marks.reserve(1)?;
        self.by_name.reserve(1)?;
        self.in_order.reserve(1)?;
        Ok(())
    }

    /// Puts in a mark of a new name. There is room.
    pub fn add(&mut self, gap: usize, mark: Mark)
        requires table { IsMarkTable self.old }
        requires within { gap ≤ length self.old.by_name.items }
        requires gap { IsGap (seen_mark mark).name (names_of_marks (by_names self.old)) gap }
        requires room { HasRoomForMark self.old }
        ensures table { IsMarkTable self.new }
        ensures marks { marks_in_table self.new ≡ with_mark (seen_mark mark) (marks_in_table self.old) }
    {
        let slot = self.marks.len();
        let at = self.count_before(&mark);
        self.marks.push_reserved(mark);
        insert_number(&mut self.by_name, gap, slot);
        insert_number(&mut self.in_order, at, slot);
    }

    /// Writes the place and the gravity of a slot's mark.
    fn write(&mut self, slot: usize, place: usize, gravity: Gravity)
        requires { slot < length (slots_of self.old) }
        ensures marks { slots_of self.new ≡ slice_set (slots_of self.old) slot
            (record (in_slot (slots_of self.old) slot) { place = place; gravity = gravity }) }
        ensures by_name { self.new.by_name ≡ self.old.by_name }
        ensures in_order { self.new.in_order ≡ self.old.in_order }
    {
        let mark = &mut self.marks[slot];
        mark.place = place;
        mark.gravity = gravity;
    }

    /// Gives a slot's mark a place and a gravity, and moves its number within the order.
    pub fn move_to(&mut self, slot: usize, place: usize, gravity: Gravity)
        requires table { IsMarkTable self.old }
        requires there { slot < length (slots_of self.old) }
        ensures table { IsMarkTable self.new }
        ensures marks { marks_in_table self.new ≡ put_mark (record (in_slot (slots_of self.old) slot) { place = place; gravity = gravity })
            (marks_in_table self.old) }
    {
        let from = self.count_before(&self.marks[slot]);
        self.in_order.remove(from);
        self.write(slot, place, gravity);
        let to = self.count_before(&self.marks[slot]);
        insert_number(&mut self.in_order, to, slot);
    }

    /// Gives a slot's mark a place.
    pub fn set_place(&mut self, slot: usize, place: usize)
        requires table { IsMarkTable self.old }
        requires there { slot < length (slots_of self.old) }
        ensures table { IsMarkTable self.new }
        ensures marks { marks_in_table self.new ≡ put_mark (record (in_slot (slots_of self.old) slot) { place = place }) (marks_in_table self.old) }
    {
        let gravity = self.marks[slot].gravity;
        self.move_to(slot, place, gravity);
    }

    /// Gives a slot's mark a gravity.
    pub fn set_gravity(&mut self, slot: usize, gravity: Gravity)
        requires table { IsMarkTable self.old }
        requires there { slot < length (slots_of self.old) }
        ensures table { IsMarkTable self.new }
        ensures marks { marks_in_table self.new ≡ put_mark (record (in_slot (slots_of self.old) slot) { gravity = gravity }) (marks_in_table self.old) }
    {
        let place = self.marks[slot].place;
        self.move_to(slot, place, gravity);
    }

    /// Where a slot's number stands among the names.
    fn rank_of(&self, slot: usize) -> usize
        requires table { IsMarkTable self.now }
        requires there { slot < length (slots_of self.now) }
        ensures there { result < length self.now.by_name.items }
        ensures read { slice_index self.now.by_name.items result ≡ slot }
    {
        match self.search(self.marks[slot].name.as_str()) {
            Ok(rank) => rank,
            Err(gap) => gap,
        }
    }

    /// Takes away the mark whose number stands at an index of the names. The mark of the last slot
    /// takes its slot, and its number is mended in both lists.
    pub fn take(&mut self, rank: usize)
        requires table { IsMarkTable self.old }
        requires there { rank < length self.old.by_name.items }
        ensures table { IsMarkTable self.new }
        ensures marks { marks_in_table self.new ≡ without_mark (in_slot (slots_of self.old) (slice_index self.old.by_name.items rank)).name
            (marks_in_table self.old) }
    {
        let slot = self.by_name[rank];
        let last = self.marks.len() - 1;
        let last_rank = self.rank_of(last);
        let at = self.count_before(&self.marks[slot]);
        let last_at = self.count_before(&self.marks[last]);
        renumber(&mut self.by_name, last_rank, slot, rank);
        renumber(&mut self.in_order, last_at, slot, at);
        self.marks.swap_remove(slot);
    }
    /// Takes away the mark of a name, if there is one.
    pub fn remove(&mut self, name: &str)
        requires { IsMarkTable self.old }
        ensures table { IsMarkTable self.new }
        ensures marks { marks_in_table self.new ≡ without_mark name.now (marks_in_table self.old) }
    {
        match self.search(name) {
            Ok(rank) => self.take(rank),
            Err(_) => {}
        }
    }

    /// The name of the mark in a slot.
    fn name_in(&self, slot: usize) -> &str
        requires { slot < length (slots_of self.now) }
        ensures { result.now ≡ (in_slot (slots_of self.now) slot).name }
    {
        self.marks[slot].name.as_str()
    }

    /// The names, by their bytes.
    pub fn names(&self, alloc: Global) -> Result<Vec<String>, AllocError>
        requires { IsMarkTable self.now }
        ensures { IfOk result (λ v. as_words v.items ≡ names_of_marks (by_names self.now)) }
    {
        let mut names = Vec::with_capacity(alloc, self.by_name.len())?;
        for rank in 0..self.by_name.len() {
            let name = String::from_str(alloc, self.name_in(self.by_name[rank]))?;
            names.push(name)?;
        }
        Ok(names)
    }

    /// Moves the marks for characters that were inserted: their order stays.
    pub fn inserted(&mut self, place: usize, n: usize)
        requires table { IsMarkTable self.old }
        requires fits { AllByRecursion (λ m. m.place + n ≤ usize.MAX) (marks_in_table self.old) }
        ensures table { IsMarkTable self.new }
        ensures marks { marks_in_table self.new ≡ marks_inserted place n (marks_in_table self.old) }
    {
        insert_places(&mut self.marks, place, n);
    }

    /// Moves the marks for characters that were removed. The marks that come to stand at the place
    /// are put in order anew: those of left gravity by their names, and then those of right gravity.
    pub fn removed(&mut self, place: usize, n: usize)
        requires { IsMarkTable self.old }
        ensures table { IsMarkTable self.new }
        ensures marks { marks_in_table self.new ≡ marks_removed place n (marks_in_table self.old) }
    {
        let start = self.count_below(place);
        remove_places(&mut self.marks, place, n);
        let middle = self.write_those(start, place, Gravity::Left);
        self.write_those(middle, place, Gravity::Right);
    }

    /// Whether a slot's mark stands at a place with a gravity.
    fn stands(&self, slot: usize, place: usize, gravity: Gravity) -> bool
        ensures { result ≡ slot_stands place gravity (slots_of self.now) slot }
    {
        match self.marks.get(slot) {
            Some(mark) => mark.place == place && is_same(mark.gravity, gravity),
            None => false,
        }
    }

    /// Writes the numbers of the marks at a place with a gravity into the order from an index on, by
    /// their names, and answers the index behind them.
    fn write_those(&mut self, at: usize, place: usize, gravity: Gravity) -> usize
        requires { at + length (filter (slot_stands place gravity (slots_of self.old)) self.old.by_name.items) ≤ length self.old.in_order.items }
        ensures marks { self.new.marks ≡ self.old.marks }
        ensures by_name { self.new.by_name ≡ self.old.by_name }
        ensures end { result ≡ at + length (filter (slot_stands place gravity (slots_of self.old)) self.old.by_name.items) }
        ensures in_order { self.new.in_order.items ≡ overwritten at
            (filter (slot_stands place gravity (slots_of self.old)) self.old.by_name.items) self.old.in_order.items }
    {
        let mut next = at;
        for rank in 0..self.by_name.len() {
            let slot = self.by_name[rank];
            if self.stands(slot, place, gravity) {
                self.in_order[next] = slot;
                next += 1;
            }
        }
        next
    }
}

/// Whether two gravities are one.
fn is_same(a: Gravity, b: Gravity) -> bool
    ensures { result ≡ same_gravity a b }
{
    match (a, b) {
        (Gravity::Left, Gravity::Left) => true,
        (Gravity::Right, Gravity::Right) => true,
        _ => false,
    }
}

/// Moves each mark for characters that were inserted.
fn insert_places(marks: &mut Vec<Mark>, place: usize, n: usize)
    requires { AllByRecursion (λ m. m.place + n ≤ usize.MAX) (seen_all marks.old.items) }
    ensures { seen_all marks.new.items ≡ marks_inserted place n (seen_all marks.old.items) }
{
    for mark in marks.iter_mut() {
        mark.place = mark.place_after_insertion(place, n);
    }
}

/// Moves each mark for characters that were removed.
fn remove_places(marks: &mut Vec<Mark>, place: usize, n: usize)
    ensures { seen_all marks.new.items ≡ map (mark_removed place n) (seen_all marks.old.items) }
{
    for mark in marks.iter_mut() {
        mark.place = mark.place_after_removal(place, n);
    }
}

/// Puts in a slot's number. There is room.
fn insert_number(numbers: &mut Vec<usize>, at: usize, slot: usize)
    requires within { at ≤ length numbers.old.items }
    requires room { vec_len numbers.old < vec_capacity numbers.old }
    ensures { numbers.new.items ≡ insert numbers.old.items at slot }
{
    let _ = numbers.insert(at, slot);
}

/// Writes a slot's number at an index, and then takes out the one at another.
fn renumber(numbers: &mut Vec<usize>, index: usize, slot: usize, out: usize)
    requires index { index < length numbers.old.items }
    requires out { out < length numbers.old.items }
    ensures { numbers.new.items ≡ remove (slice_set numbers.old.items index slot) out }
{
    numbers[index] = slot;
    numbers.remove(out);
}
