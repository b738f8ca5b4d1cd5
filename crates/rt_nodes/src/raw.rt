//! The memory of a block: places for so many entries, allocated at once. No other code takes or makes a raw pointer but
//! `Block::drop`, which passes the row's address on.
ghost use Rattle.std.specs.Prelude.{◌≡◌, ℕ, [], IfOk};
ghost use Rattle.std_alloc.specs.Vec.Ownership.{FitsInBlock};
ghost use Rattle.std_alloc.specs.Vec.{vec_capacity, vec_ptr};
ghost use Rattle.rt_nodes.specs.Claims.{IsClaimOn};

use crate::claim::Claim;
use std::alloc::{AllocError, Allocator};
use std::marker::PhantomData;
use std::mem::{align_of, size_of};
use std_alloc::vec::{Lodged, lodge};

// Memory for so many entries, laid out as a row without entries, and the claim on it.
pub(crate) fn allocate<E, A: Allocator>(
    heap: &A,
    places: usize,
) -> Result<(Vec<E, Lodged>, Claim<E, A>), AllocError>
    requires fits { FitsInBlock E.row places }
    ensures { IfOk result (λ p. (p.0.items ≡ []) × (vec_capacity p.0 ≡ places) × IsClaimOn p.1 p.0 heap.now) }
{
    match heap.allocate(places * size_of::<E>(), align_of::<E>()) {
        Ok(block) => {
            let row = unsafe { lodge(block as *mut E, 0, places) };
            Ok((row, Claim { on: PhantomData }))
        }
        Err(refused) => Err(refused),
    }
}

// Gives the memory of a row without entries back: `at` and `places` are the row's.
pub(crate) fn deallocate<E, A: Allocator>(
    heap: &A,
    at: *mut E,
    places: usize,
    row: Vec<E, Lodged>,
    claim: Claim<E, A>,
)
    requires empty { row.items ≡ [] }
    requires whole { (vec_ptr row ≡ at) × (vec_capacity row ≡ places) × IsClaimOn claim row heap.now }
{
    let _none = row.dislodge();
    let Claim { on: _ } = claim;
    unsafe {
        heap.deallocate(at as *mut u8, places * size_of::<E>(), align_of::<E>());
    }
}
