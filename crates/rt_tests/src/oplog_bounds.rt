// Files that are read in pieces, within bounds on their bytes and on their reads, and records that are taken one after another.
ghost use Rattle.std.specs.Prelude.{◌≡◌, ◌<◌};

use crate::checks::same;
use rt_ops::{Reading, Records, read_file_bounded};
use rt_samples::Pieces;
use rt_samples::files::DELETE_SECOND;
use rt_stamps::limits::MOST_READS;
use rt_stamps::std_ends::{Count, Reader};
use rt_stamps::{Bounds, Fault};
use std::alloc::Global;
use std::marker::Brand;
use std::process::Abort;
use std::sync::ledger::{Blank, Ledger};
use std::test::Fail;

fn read_in<A: Ledger, B: Ledger>(
    alloc: Global,
    pieces: Pieces,
    bounds: Bounds,
    reads: Blank,
    failures: Blank,
) -> Result<Reading, Fault>
    requires reads { (reads.name ≡ A.name) × (reads.parts ≡ A.parts) × (0 < A.parts) }
    requires failures { (failures.name ≡ B.name) × (failures.parts ≡ B.parts) × (0 < B.parts) }
{
    let mut reader = Reader::new(
        pieces,
        Count::<A>::begin(reads),
        Count::<B>::begin(failures),
    );
    read_file_bounded(alloc, &mut reader, bounds.bytes, bounds.reads)
}

/// How many operations were read, and the fault.
type Found = (usize, Option<(Fault, u64)>);

// What is read of a file in pieces of a size.
fn found(alloc: Global, bytes: &[u8], size: usize, bounds: Bounds) -> Found {
    let pieces = Pieces {
        bytes,
        size,
        until_failure: None,
    };
    match read_in::<Brand, Brand>(alloc, pieces, bounds, Blank::new(1), Blank::new(1)) {
        Ok(reading) => (reading.ops.len(), reading.fault),
        Err(fault) => (0, Some((fault, 0))),
    }
}

// Stops a test where something else is read of the first bytes of the file.
fn reads(rt: &impl Abort, alloc: Global, len: usize, size: usize, bounds: Bounds, wanted: Found) {
    let front = DELETE_SECOND.get(..len).expect(rt, "a front");
    let is_found = found(alloc, front, size, bounds) == wanted;
    let Bounds {
        bytes: most,
        reads: count,
    } = bounds;
    assert!(rt; is_found, "{len} bytes by {size} within {most}, {count}");
}

// Which first bytes of the file give what, by their number from one on and below another. Its records begin at 8 and 44.
const FRONTS: &[(usize, usize, Found)] = &[
    (0, 8, (0, Some((Fault::Truncated, 0)))),
    (8, 9, (0, None)),
    (9, 44, (0, Some((Fault::Truncated, 8)))),
    (44, 45, (1, None)),
    (45, 89, (1, Some((Fault::Truncated, 44)))),
    (89, 90, (2, None)),
];

// In pieces of each size, with ample bounds and with one of just as many bytes.
fn front_is_read(rt: &impl Abort, alloc: Global, len: usize, wanted: Found) {
    let tight = Bounds {
        bytes: len,
        reads: MOST_READS,
    };
    for size in 1..91 {
        reads(rt, alloc, len, size, Bounds::of_file(), wanted);
        reads(rt, alloc, len, size, tight, wanted);
    }
}

#[test]
fn fronts_of_a_file(rt: HostRuntime) {
    let alloc = rt.alloc();
    for (from, to, wanted) in FRONTS {
        for len in *from..*to {
            front_is_read(&rt, alloc, len, *wanted);
        }
    }
}

// What a bound on the bytes gives of fronts that have more, by the bound, from one on and below another.
const PASSED: &[(usize, usize, Found)] = &[
    (0, 8, (0, Some((Fault::ReadFault, 0)))),
    (8, 44, (0, Some((Fault::ReadFault, 8)))),
    (44, 89, (1, Some((Fault::ReadFault, 44)))),
];

// All longer fronts, in pieces of some sizes.
fn bound_is_passed(rt: &impl Abort, alloc: Global, most: usize, wanted: Found) {
    let bounds = Bounds {
        bytes: most,
        reads: MOST_READS,
    };
    for len in most.saturating_add(1)..90 {
        for size in [1, 2, 7, 4096] {
            reads(rt, alloc, len, size, bounds, wanted);
        }
    }
}

#[test]
fn a_bound_on_bytes(rt: HostRuntime) {
    let alloc = rt.alloc();
    for (from, to, wanted) in PASSED {
        for most in *from..*to {
            bound_is_passed(&rt, alloc, most, *wanted);
        }
    }
}

/// The size of pieces, and with how many reads the first eight bytes, the first record and the second have come.
type Allowed = (usize, usize, usize, usize);

// A field of `n` bytes comes in `n` by the size, rounded up: 8; 4 and 32; 4 and 41.
const READS: &[Allowed] = &[
    (1, 8, 44, 89),
    (2, 4, 22, 45),
    (3, 3, 16, 32),
    (4, 2, 11, 23),
    (5, 2, 10, 20),
    (7, 2, 8, 15),
    (8, 1, 6, 13),
    (32, 1, 3, 6),
    (41, 1, 3, 5),
    (4096, 1, 3, 5),
];

// What so many reads give. One more than the second record takes finds the end.
fn after(count: usize, row: &Allowed) -> Found {
    let (_, head, first, second) = *row;
    if count < head {
        (0, Some((Fault::ReadFault, 0)))
    } else if count < first {
        (0, Some((Fault::ReadFault, 8)))
    } else if count < second {
        (1, Some((Fault::ReadFault, 44)))
    } else if count == second {
        (2, Some((Fault::ReadFault, 89)))
    } else {
        (2, None)
    }
}

// The bound on bytes is that of the file itself.
fn reads_are_bounded(rt: &impl Abort, alloc: Global, row: &Allowed) {
    let (size, _, _, _) = *row;
    for count in 0..92 {
        let bounds = Bounds {
            bytes: 89,
            reads: count,
        };
        reads(rt, alloc, 89, size, bounds, after(count, row));
    }
}

#[test]
fn a_bound_on_reads(rt: HostRuntime) {
    for row in READS {
        reads_are_bounded(&rt, rt.alloc(), row);
    }
}

#[test]
fn records_are_taken(rt: HostRuntime) -> Result<(), Fail> {
    let mut records = Records::begin(DELETE_SECOND)?;
    for (offset, count) in [(8, 1), (44, 3)] {
        same(&rt, records.offset(), offset);
        let found = records.next(rt.alloc())?;
        same(&rt, found.map(|op| op.stamp().count), Some(count));
    }
    let last = records.next(rt.alloc())?;
    same(&rt, last.is_none(), true);
    same(&rt, records.offset(), 89);
    Ok(())
}
