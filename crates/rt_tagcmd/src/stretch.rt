// The stretch of a text that a dump shows.
ghost use Rattle.std.specs.Prelude.{◌≡◌, ◌∷◌, [], ◌++◌, ◌↔◌, ◌≤◌, ◌<◌, IsOkUnless, IsTrue, OnOk, filter};
ghost use Rattle.rt_tagcmd.specs.Elements.{element_at};
ghost use Rattle.rt_tagcmd.specs.Stretches.{is_in_stretch};

use crate::Key;
use crate::placed::Placed;
use rt_stamps::Fault;
use std::alloc::Global;

/// The places from one up to before another.
#[derive(Clone, Copy)]
pub(crate) struct DumpStretch {
    pub(crate) from: usize,
    pub(crate) behind: usize,
}

impl DumpStretch {
    /// Whether a place is in it.
    pub(crate) fn has(&self, place: usize) -> bool
        ensures { result ≡ is_in_stretch self.now place }
    {
        self.from <= place && place < self.behind
    }

    /// Puts an element behind others, if its place is in the stretch. `NoMemory` is the only fault.
    pub(crate) fn push(
        &self,
        alloc: Global,
        elements: &mut Vec<Placed>,
        key: Key,
        value: &str,
        place: usize,
    ) -> Result<(), Fault>
        ensures ok { OnOk result (elements.new.items
            ≡ elements.old.items ++ filter (λ e. is_in_stretch self.now e.place) (element_at key value.now place ∷ [])) }
        ensures err { IsOkUnless result Fault.NoMemory }
    {
        if self.has(place) {
            let value = String::from_str(alloc, value)?;
            elements.push(Placed::new(key, value, place))?;
        }
        Ok(())
    }
}
