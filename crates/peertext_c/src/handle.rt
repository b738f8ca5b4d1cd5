// What C holds of a site: a handle.
ghost use Rattle.std.specs.Prelude.{◌≡◌, IsOkUnless, MatchOption, MatchResult, None, Option, Some, is_some};
ghost use Rattle.rt_stamps.specs.declared.fault.Fault.TheVariants.{NoMemory};
ghost use Rattle.peertext_c.specs.Codes.{DONE, NO_MEMORY};
ghost use Rattle.rt_script.specs.LineSite.{LineSiteValue, saying};
ghost use Rattle.peertext_c.specs.Owned.{slot_coded};

use crate::parts::Parts;
use crate::{DONE, NO_MEMORY};
use rt_script::LineSite;
use rt_stamps::Fault;
use std::alloc::Global;
use std::marker::Model;
use std::mem;

/// A box of a site behind its pointer, or none.
#[repr(C)]
pub struct Slot {
    at: *mut u8,
    alloc: Global,
    pub ghost value: { Option LineSiteValue } by { slot_coded },
}

impl Model for Slot {
    ghost use Rattle.peertext_c.specs.Owned.{slot_owns};

    ghost also_owns = { λ p. slot_owns p.alloc p.at p.value };
}

impl Slot {
    fn none(alloc: Global) -> Slot
        ensures { result.value ≡ None }
    {
        Slot {
            at: std::ptr::null_mut(),
            alloc,
        }
    }

    fn of_parts(parts: Parts<LineSite, Global>) -> Slot
        ensures { result.value ≡ Some parts.value }
    {
        let Parts { ptr, alloc } = parts;
        Slot {
            at: ptr as *mut u8,
            alloc,
        }
    }

    fn into_parts(self) -> Parts<LineSite, Global>
        ghost held: { LineSiteValue }
        requires { self.value ≡ Some held }
        ensures { result.value ≡ held }
    {
        let Slot { at, alloc } = self;
        Parts {
            ptr: at as *mut LineSite,
            alloc,
        }
    }

    fn forget(self)
        requires { self.value ≡ None }
    {
        let Slot { at: _, alloc: _ } = self;
    }
}

/// What C holds: a site, or none where all of it is zero.
#[repr(C)]
pub struct Handle {
    held: bool,
    pub slot: Slot,
    ghost tells: { held ≡ is_some slot.value },
}

impl Handle {
    /// One that holds no site.
    pub(crate) fn none(alloc: Global) -> Handle
        ensures { result.slot.value ≡ None }
    {
        Handle {
            held: false,
            slot: Slot::none(alloc),
        }
    }

    /// Takes out what it holds.
    pub(crate) fn take(&mut self, alloc: Global) -> Option<Box<LineSite>>
        ensures left { self.new.slot.value ≡ None }
        ensures taken { MatchOption result (self.old.slot.value ≡ None) (λ kept. self.old.slot.value ≡ Some kept.value) }
    {
        let Handle { held, slot } = mem::replace(self, Handle::none(alloc));
        if held {
            return Some(slot.into_parts().into_box());
        }
        slot.forget();
        None
    }

    /// Puts a site in where there is none.
    pub(crate) fn put(&mut self, kept: Box<LineSite>)
        requires { self.old.slot.value ≡ None }
        ensures { self.new.slot.value ≡ Some kept.value }
    {
        let one = Handle {
            held: true,
            slot: Slot::of_parts(Parts::of(kept)),
        };
        let Handle { held: _, slot } = mem::replace(self, one);
        slot.forget();
    }

    /// Puts a site in where there is none, which says some bytes if there was memory for them, and answers whether
    /// there was.
    pub(crate) fn say(&mut self, mut kept: Box<LineSite>, made: Result<Vec<u8>, Fault>) -> i32
        requires empty { self.old.slot.value ≡ None }
        requires fault { IsOkUnless made NoMemory }
        ensures { MatchResult made
            (λ bytes. (result ≡ DONE) × (self.new.slot.value ≡ Some (saying bytes.items kept.value)))
            (λ _. (result ≡ NO_MEMORY) × (self.new.slot.value ≡ Some kept.value)) }
    {
        match made {
            Ok(bytes) => {
                kept.say(bytes);
                self.put(kept);
                DONE
            }
            Err(_) => {
                self.put(kept);
                NO_MEMORY
            }
        }
    }
}
