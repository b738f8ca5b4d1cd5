// The selected characters of a widget.
ghost use Rattle.std.specs.Prelude.{◌≡◌, ◌+◌, ◌==◌, ◌<◌, ◌≤◌, not, [], ◌∷◌, IfOk, IsOkUnless, OnOk, length};
ghost use Rattle.rt_plans.specs.Selected.{selected_stamps, room_in};
ghost use Rattle.rt_plans.specs.Selections.{with_stamp, with_stamps, unselected};
ghost use Rattle.rt_store.specs.Spans.{is_among};

use indexmap::IndexSet;
use rt_stamps::{Fault, Stamp};
use std::alloc::Global;

// Whether a stamp is another than a given one.
fn is_another(stamp: Stamp, other: Stamp) -> bool
    ensures { result ≡ not (is_among (stamp ∷ []) other) }
{
    other != stamp
}

/// The characters that a widget has selected (Tk text manual, the tag `sel`), by their stamps.
/// Contracts see a list of stamps.
#[derive(Drop)]
pub struct Selection {
    stamps: IndexSet<Stamp>,
}

impl Selection {
    /// Nothing is selected. It takes no memory.
    pub fn new(alloc: Global) -> Selection
        ensures { selected_stamps result ≡ [] }
    {
        Selection {
            stamps: IndexSet::new(alloc),
        }
    }

    /// The selection of some characters. `NoMemory` is its only fault.
    pub fn of(alloc: Global, stamps: &[Stamp]) -> Result<Selection, Fault>
        ensures ok { IfOk result (λ selection. selected_stamps selection ≡ with_stamps stamps.now []) }
        ensures err { IsOkUnless result Fault.NoMemory }
    {
        let mut selection = Selection::new(alloc);
        selection.reserve(stamps.len())?;
        selection.add(stamps);
        Ok(selection)
    }

    /// Whether nothing is selected.
    #[inline(always)]
    pub fn is_empty(&self) -> bool
        ensures { result ≡ (length (selected_stamps self.now) == 0) }
    {
        self.stamps.is_empty()
    }

    /// Whether the character of a stamp is selected.
    #[inline(always)]
    pub fn has(&self, stamp: Stamp) -> bool
        ensures { result ≡ is_among (selected_stamps self.now) stamp }
    {
        // Mostly nothing is selected, which needs no look-up.
        !self.is_empty() && self.stamps.contains(&stamp)
    }

    /// Makes room for so many stamps more. `NoMemory` is its only fault; the selection stays.
    pub fn reserve(&mut self, more: usize) -> Result<(), Fault>
        ensures same { selected_stamps self.new ≡ selected_stamps self.old }
        ensures room { OnOk result (more ≤ room_in self.new) }
        ensures err { IsOkUnless result Fault.NoMemory }
    {
        Ok(self.stamps.reserve(more)?)
    }

    // Selects a character, within the room that there is.
    fn add_one(&mut self, stamp: Stamp)
        requires { 0 < room_in self.old }
        ensures stamps { selected_stamps self.new ≡ with_stamp stamp (selected_stamps self.old) }
        ensures room { room_in self.old ≤ room_in self.new + 1 }
    {
        self.stamps.insert(stamp).unwrap();
    }

    /// Selects characters, within the room that there is.
    #[inline(always)]
    pub fn add(&mut self, stamps: &[Stamp])
        requires { length stamps.now ≤ room_in self.old }
        ensures { selected_stamps self.new ≡ with_stamps stamps.now (selected_stamps self.old) }
    {
        for stamp in stamps {
            self.add_one(*stamp);
        }
    }

    /// Takes out the characters of another selection. It takes no memory.
    pub fn remove(&mut self, other: &Selection)
        ensures { selected_stamps self.new ≡ unselected (selected_stamps other.now) (selected_stamps self.old) }
    {
        if !other.is_empty() {
            self.stamps.retain(|stamp| !other.has(*stamp));
        }
    }

    /// Takes out a character. It takes no memory.
    pub fn remove_one(&mut self, stamp: Stamp)
        ensures stamps { selected_stamps self.new ≡ unselected (stamp ∷ []) (selected_stamps self.old) }
        ensures room { room_in self.old ≤ room_in self.new }
    {
        // Mostly it isn't selected, and then no other one is looked at.
        if self.has(stamp) {
            self.stamps.retain(|other| is_another(stamp, *other));
        }
    }
}
