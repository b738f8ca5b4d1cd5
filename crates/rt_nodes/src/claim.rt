//! The right to free a block.
ghost use Rattle.std.specs.Prelude.{ℕ};
ghost use denote.RawPtr.{Ptr};

use std::alloc::Allocator;
use std::marker::{Model, PhantomData};

/// The right to give the memory of a block back to the allocator that it came from. It takes no bytes.
pub struct Claim<E, A: Allocator> {
    pub(crate) on: PhantomData<(E, A)>,
    ghost at: { Ptr },
    ghost places: { ℕ },
    ghost heap: { A },
}

impl<E, A: Allocator> Model for Claim<E, A> {
    ghost use Rattle.core.specs.Allocator.{array_of};

    ghost also_owns = { λ c. A.dealloc_token c.heap (array_of E.row c.places) c.at };
}
