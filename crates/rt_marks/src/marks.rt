// The marks of a site.
ghost use Rattle.std.specs.Prelude.{◌≡◌, ◌+◌, ◌≤◌, ◌⊎◌, ◌↔◌, [], List, ℕ, IsSome, OnOk, OnErr, IfOk, IfErr, IsOkUnless, Ok, Err, None, Some, is_some, option_map, option_copied, map, Contains, length, slice_get, if◌then◌else◌, find as first_passing};
ghost use Rattle.std.specs.List.{AllByRecursion};
ghost use Rattle.rt_stamps.specs.Words.{as_words};
ghost use Rattle.rt_marks.specs.Marks.{AreAscending, AreInOrder, HaveOwnNames, IsName, comes_before, find_last, first_mark_at, last_mark_before, mark_after, mark_before, marks_inserted, marks_removed, marks_set, marks_with_gravity, mark_of_name, without_mark, without_all};

use crate::mark::Mark;
use crate::table::Table;
use crate::{Gravity, MarkRef};
use rt_stamps::{Fault, check_name};
use std::alloc::Global;
use std::marker::Model;

/// The marks of a site, each with a name of its own, a place and a gravity. A place is the number of
/// characters before the mark. Contracts see the list of the marks in order: by place, then left
/// gravity first, then by the bytes of the names.
///
/// `inserted` and `removed` read each mark a few times. `unset_all` is binary searches for each name
/// and goes through two lists of numbers once. `len` and `at` are one step. Every other call but `names`
/// is binary searches and the shift of numbers in these lists.
pub struct Marks {
    alloc: Global,
    table: Table,
}

// Written out, so that where it is let go is one step for the crates above, and not one for each
// field of each field.
impl Drop for Marks {
    fn drop(self) {
        let Marks { alloc: _, table: _ } = self;
    }
}

impl Model for Marks {
    ghost use Rattle.std.specs.Prelude.{List};
    ghost use Rattle.rt_marks.specs.Marks.{Mark};
    ghost use Rattle.rt_marks.specs.Tables.{IsMarkTable, marks_in_table};

    ghost Value = { List Mark };

    ghost view = { λ m. marks_in_table m.table };

    ghost invariant = { λ m. IsMarkTable m.table };
}

impl Marks {
    ghost use Rattle.rt_marks.specs.Seen.{spotted};

    /// No marks.
    pub fn new(alloc: Global) -> Marks
        ensures { result ≡ [] }
    {
        Marks {
            alloc,
            table: Table::new(alloc),
        }
    }

    /// Marks are in order, and each has a name of its own.
    pub fn order(&self)
        ensures in_order { AreInOrder self.now }
        ensures own_names { HaveOwnNames self.now }
    {
        let _ = &self.table;
    }

    /// Sets a mark at a place ("mark set"). One that is there keeps its gravity, and takes no memory;
    /// a new one has right gravity. `BadName` for a name that is empty or longer than
    /// `MOST_NAME_BYTES` bytes, and else `NoMemory` for a new name alone. After a fault the marks are
    /// as they were.
    pub fn set(&mut self, name: &str, place: usize) -> Result<(), Fault>
        ensures ok { OnOk result (self.new ≡ marks_set name.now place self.old) }
        ensures err { OnErr result (self.new ≡ self.old) }
        ensures bad_name { (result ≡ Err Fault.BadName) ↔ (IsName name.now → ⊥) }
        ensures memory { result ≡ Err Fault.NoMemory → mark_of_name name.now self.old ≡ None }
        ensures fault { IfErr result (λ fault. (fault ≡ Fault.BadName) ⊎ (fault ≡ Fault.NoMemory)) }
    {
        check_name(name)?;
        match self.table.find_slot(name) {
            Ok(slot) => self.table.set_place(slot, place),
            Err(gap) => {
                let name = String::from_str(self.alloc, name)?;
                self.table.reserve()?;
                let gravity = Gravity::Right;
                self.table.add(
                    gap,
                    Mark {
                        place,
                        gravity,
                        name,
                    },
                );
            }
        }
        Ok(())
    }

    /// Takes a mark away ("mark unset"). Without a mark of the name nothing changes.
    pub fn unset(&mut self, name: &str)
        ensures { self.new ≡ without_mark name.now self.old }
    {
        self.table.remove(name);
    }

    /// Takes marks away ("mark unset"). Names without a mark are passed over. It takes no memory.
    pub fn unset_all(&mut self, names: &[String])
        ensures { self.new ≡ without_all (as_words names.now) self.old }
    {
        self.table.remove_all(names);
    }

    /// The place of a mark, none without a mark of the name.
    pub fn place(&self, name: &str) -> Option<usize>
        ensures { result ≡ option_map (λ m. m.place) (mark_of_name name.now self.now) }
    {
        let mark = self.table.find(name)?;
        Some(mark.place)
    }

    /// The gravity of a mark, none without a mark of the name.
    pub fn gravity(&self, name: &str) -> Option<Gravity>
        ensures { result ≡ option_map (λ m. m.gravity) (mark_of_name name.now self.now) }
    {
        let mark = self.table.find(name)?;
        Some(mark.gravity)
    }

    /// Gives a mark a gravity ("mark gravity"). `NoMark` just where no mark has the name.
    pub fn set_gravity(&mut self, name: &str, gravity: Gravity) -> Result<(), Fault>
        ensures marks { self.new ≡ marks_with_gravity name.now gravity self.old }
        ensures answer { result ≡ (if is_some (mark_of_name name.now self.old) then Ok tt else Err Fault.NoMark) }
    {
        match self.table.find_slot(name) {
            Ok(slot) => {
                self.table.set_gravity(slot, gravity);
                Ok(())
            }
            Err(_) => Err(Fault::NoMark),
        }
    }

    /// The name of the mark after a mark in their order, none after the last one and without a mark
    /// of the name ("mark next").
    pub fn next(&self, name: &str) -> Option<&str>
        ensures { option_copied result ≡ option_map (λ m. m.name) (mark_after name.now self.now) }
    {
        let here = self.table.find(name)?;
        self.table
            .first_after(&here.spot())
            .map(|mark| mark.name.as_str())
    }

    /// The name of the mark before a mark in their order, none before the first one and without a
    /// mark of the name ("mark previous").
    pub fn previous(&self, name: &str) -> Option<&str>
        ensures { option_copied result ≡ option_map (λ m. m.name) (mark_before name.now self.now) }
    {
        let here = self.table.find(name)?;
        self.table
            .last_until(&here.spot())
            .map(|mark| mark.name.as_str())
    }

    /// The mark of a name, none without a mark of the name.
    pub fn find(&self, name: &str) -> Option<MarkRef<'_>>
        ensures { option_map spotted result ≡ mark_of_name name.now self.now }
    {
        self.table.find(name).map(Mark::spot)
    }

    /// How many marks there are.
    pub fn len(&self) -> usize
        ensures { result ≡ length self.now }
    {
        self.table.len()
    }

    /// The mark at an index of the order, from 0 up; none where there are no more.
    pub fn at(&self, index: usize) -> Option<MarkRef<'_>>
        ensures { option_map spotted result ≡ slice_get self.now index }
    {
        self.table.mark_at(index).map(Mark::spot)
    }

    /// The first mark after a spot in the order of marks. There may be a mark at the spot, or none.
    pub fn first_after(&self, here: &MarkRef<'_>) -> Option<MarkRef<'_>>
        ensures { option_map spotted result ≡ first_passing (comes_before (spotted here.now)) self.now }
    {
        self.table.first_after(here).map(Mark::spot)
    }

    /// The last mark before a spot in the order of marks. There may be a mark at the spot, or none.
    pub fn last_until(&self, here: &MarkRef<'_>) -> Option<MarkRef<'_>>
        ensures { option_map spotted result ≡ find_last (λ m. comes_before m (spotted here.now)) self.now }
    {
        self.table.last_until(here).map(Mark::spot)
    }

    /// The name of the first mark at or after a place, in the order of marks.
    pub fn first_at(&self, place: usize) -> Option<&str>
        ensures { option_copied result ≡ option_map (λ m. m.name) (first_mark_at place self.now) }
    {
        self.table.first_at(place).map(|mark| mark.name.as_str())
    }

    /// The name of the last mark strictly before a place, in the order of marks.
    pub fn last_before(&self, place: usize) -> Option<&str>
        ensures { option_copied result ≡ option_map (λ m. m.name) (last_mark_before place self.now) }
    {
        self.table.last_before(place).map(|mark| mark.name.as_str())
    }

    /// All names, by their bytes. `NoMemory` is its only fault.
    pub fn names(&self) -> Result<Vec<String>, Fault>
        ensures by_bytes { IfOk result (λ v. AreAscending (as_words v.items)) }
        ensures all { IfOk result (λ v. (name : List ℕ) → Contains (as_words v.items) name ↔ IsSome (mark_of_name name self.now)) }
        ensures fault { IsOkUnless result Fault.NoMemory }
    {
        let names = self.table.names(self.alloc)?;
        Ok(names)
    }

    /// Moves the marks for `n` characters that were inserted at a place. Marks behind the place move
    /// on, and of those at the place the ones of right gravity (Tk text manual, "mark gravity").
    pub fn inserted(&mut self, place: usize, n: usize)
        requires fits { AllByRecursion (λ m. m.place + n ≤ usize.MAX) self.old }
        ensures { self.new ≡ marks_inserted place n self.old }
    {
        self.table.inserted(place, n);
    }

    /// Moves the marks for the `n` characters from a place on that were removed: those within or just
    /// behind them come to stand at the place, and those further behind move back.
    pub fn removed(&mut self, place: usize, n: usize)
        ensures { self.new ≡ marks_removed place n self.old }
    {
        self.table.removed(place, n);
    }
}
