// The tags of a site.
ghost use Rattle.std.specs.Prelude.{ℕ, List, ◌≡◌, ◌⊎◌, ◌↔◌, ◌&&◌, [], ◌∷◌, OnOk, OnErr, IfOk, IfErr, IsOkUnless, IfSome, Ok, Err, is_some, false, true, option_copied, if◌then◌else◌};
ghost use Rattle.rt_stamps.specs.Words.{as_words};
ghost use Rattle.rt_tags.specs.Seen.{IsAt};
ghost use Rattle.rt_tags.specs.Tags.{AlsoReady, HaveNoRepeats, IsName, SameReady, all_forgotten, is_listed, is_place, is_ready, lowered, raised, sel, with_name};

use crate::{forgetting, names};
use indexmap::IndexSet;
use rt_stamps::{Fault, check_name};
use std::alloc::Global;
use std::marker::Model;

/// The tags that a site lists. Contracts see the names in the order of their priority, lowest first,
/// and beside them which names are ready: to list one of these takes no memory. A name that was
/// listed or prepared once is ready for good.
pub struct TagTable {
    alloc: Global,
    // the names that are ready: first those that are listed, lowest priority first
    names: IndexSet<String>,
    listed: usize,
    // one for each name, for the use of `forget_all`, which takes no memory
    marks: Vec<bool>,
}

// Written out, so that where it is let go is one step for the crates above, and not one for each
// field of each field.
impl Drop for TagTable {
    fn drop(self) {
        let TagTable {
            alloc: _,
            names: _,
            listed: _,
            marks: _,
        } = self;
    }
}

impl Model for TagTable {
    ghost use Rattle.std.specs.Prelude.{◌≤◌, take};
    ghost use Rattle.indexmap.specs.IndexSet.{index_set_len};
    ghost use Rattle.rt_tags.specs.Tags.{Tags};
    ghost use Rattle.rt_tags.specs.Kept.{IsMarkedListing};
    ghost use Rattle.rt_tags.specs.Seen.{names_of};

    ghost Value = { Tags };

    ghost view = { λ t. record { names = take t.listed (names_of t.names); ready = names_of t.names } };

    ghost invariant = { λ t. IsMarkedListing (names_of t.names) t.listed t.marks.items };
}

impl TagTable {
    /// The tag `sel` alone. `NoMemory` is its only fault.
    pub fn new(alloc: Global) -> Result<TagTable, Fault>
        ensures ok { IfOk result (λ table. table ≡ record { names = sel ∷ []; ready = sel ∷ [] }) }
        ensures fault { IsOkUnless result Fault.NoMemory }
    {
        let mut names: IndexSet<String> = IndexSet::new(alloc);
        let name = String::from_str(alloc, "sel")?;
        let marks = Vec::from_slice(alloc, &[false])?;
        names::make_room(&mut names, 1)?;
        names::add(&mut names, name);
        Ok(TagTable {
            alloc,
            names,
            listed: 1,
            marks,
        })
    }

    /// No name is listed twice, and each that is listed is ready.
    pub fn order(&self)
        ensures no_repeats { HaveNoRepeats self.now.names }
        ensures ready { (name : List ℕ) → is_listed name self.now.names ≡ true → is_ready name self.now ≡ true }
    {
        let _ = &self.listed;
    }

    /// Whether a name is listed.
    pub fn has(&self, name: &str) -> bool
        ensures { result ≡ is_listed name.now self.now.names }
    {
        self.listed_place(name).is_some()
    }

    /// The names that are listed, lowest priority first. `NoMemory` is its only fault.
    pub fn names(&self) -> Result<Vec<String>, Fault>
        ensures names { IfOk result (λ v. as_words v.items ≡ self.now.names) }
        ensures fault { IsOkUnless result Fault.NoMemory }
    {
        let (listed, _) = self.names.as_slice().split_at(self.listed);
        Ok(names::copied(self.alloc, listed)?)
    }

    /// Prepares a name: to list it takes no memory from now on, whatever is listed and forgotten. It
    /// lists nothing. `BadName` for a name that is empty or longer than `MOST_NAME_BYTES` bytes, and else
    /// `NoMemory` for a name that isn't ready. After a fault the table is as it was.
    pub fn prepare(&mut self, name: &str) -> Result<(), Fault>
        ensures names { self.new.names ≡ self.old.names }
        ensures ready { OnOk result (AlsoReady name.now self.old self.new) }
        ensures err { OnErr result (self.new ≡ self.old) }
        ensures bad_name { (result ≡ Err Fault.BadName) ↔ (IsName name.now → ⊥) }
        ensures memory { result ≡ Err Fault.NoMemory → is_ready name.now self.old ≡ false }
        ensures fault { IfErr result (λ fault. (fault ≡ Fault.BadName) ⊎ (fault ≡ Fault.NoMemory)) }
    {
        check_name(name)?;
        match names::index_of(&self.names, name) {
            Some(_) => {}
            None => {
                let _ = names::add_new(self.alloc, &mut self.names, &mut self.marks, name)?;
            }
        }
        Ok(())
    }

    /// Lists a name: a new one has the highest priority, one that is listed stays where it is.
    /// `BadName` for a name that is empty or longer than `MOST_NAME_BYTES` bytes, and else `NoMemory`
    /// for a name that isn't ready. After a fault the table is as it was.
    pub fn ensure(&mut self, name: &str) -> Result<(), Fault>
        ensures names { OnOk result (self.new.names ≡ with_name name.now self.old.names) }
        ensures ready { OnOk result (AlsoReady name.now self.old self.new) }
        ensures err { OnErr result (self.new ≡ self.old) }
        ensures bad_name { (result ≡ Err Fault.BadName) ↔ (IsName name.now → ⊥) }
        ensures memory { result ≡ Err Fault.NoMemory → is_ready name.now self.old ≡ false }
        ensures fault { IfErr result (λ fault. (fault ≡ Fault.BadName) ⊎ (fault ≡ Fault.NoMemory)) }
    {
        check_name(name)?;
        match names::index_of(&self.names, name) {
            Some(place) => {
                self.listed = names::list(&mut self.names, self.listed, place);
            }
            None => {
                let place = names::add_new(self.alloc, &mut self.names, &mut self.marks, name)?;
                self.listed = names::list(&mut self.names, self.listed, place);
            }
        }
        Ok(())
    }

    /// Forgets names, which stay ready. `sel` and names that aren't listed are passed over. It takes no
    /// memory, and goes through the names that are ready once, however many are given.
    pub fn forget_all(&mut self, names: &[String])
        ensures names { self.new.names ≡ all_forgotten (as_words names.now) self.old.names }
        ensures ready { SameReady self.old self.new }
    {
        self.listed = forgetting::forget(&mut self.names, self.listed, names, &mut self.marks);
    }

    /// Raises a name just above another, or above all ("tag raise"). `NoTag` just where one of them
    /// isn't listed, and then the table is as it was.
    pub fn raise(&mut self, name: &str, above: Option<&str>) -> Result<(), Fault>
        ensures names { OnOk result (self.new.names ≡ raised name.now (option_copied above.entry) self.old.names) }
        ensures ready { SameReady self.old self.new }
        ensures err { OnErr result (self.new ≡ self.old) }
        ensures answer { result ≡ (if is_listed name.now self.old.names
            && is_place (option_copied above.entry) self.old.names then Ok tt else Err Fault.NoTag) }
    {
        let from = match self.listed_place(name) {
            Some(from) => from,
            None => return Err(Fault::NoTag),
        };
        match above {
            None => names::shift_highest(&mut self.names, self.listed, from),
            Some(other) => match self.listed_place(other) {
                Some(to) => names::shift_above(&mut self.names, self.listed, from, to),
                None => return Err(Fault::NoTag),
            },
        }
        Ok(())
    }

    /// Lowers a name just below another, or below all ("tag lower"). `NoTag` just where one of them
    /// isn't listed, and then the table is as it was.
    pub fn lower(&mut self, name: &str, below: Option<&str>) -> Result<(), Fault>
        ensures names { OnOk result (self.new.names ≡ lowered name.now (option_copied below.entry) self.old.names) }
        ensures ready { SameReady self.old self.new }
        ensures err { OnErr result (self.new ≡ self.old) }
        ensures answer { result ≡ (if is_listed name.now self.old.names
            && is_place (option_copied below.entry) self.old.names then Ok tt else Err Fault.NoTag) }
    {
        let from = match self.listed_place(name) {
            Some(from) => from,
            None => return Err(Fault::NoTag),
        };
        match below {
            None => names::shift(&mut self.names, self.listed, from, 0),
            Some(other) => match self.listed_place(other) {
                Some(to) => names::shift_below(&mut self.names, self.listed, from, to),
                None => return Err(Fault::NoTag),
            },
        }
        Ok(())
    }

    // Where a name stands among those that are listed.
    fn listed_place(&self, name: &str) -> Option<usize>
        ensures found { is_some result ≡ is_listed name.now self.now.names }
        ensures index { IfSome result (λ i. IsAt name.now self.now.names i) }
    {
        match names::index_of(&self.names, name) {
            Some(place) => {
                if place < self.listed {
                    Some(place)
                } else {
                    None
                }
            }
            None => None,
        }
    }
}
