// Files that are cut, can't be read to their end, or break a rule of their records, as they are shown.
use crate::checks::same;
use crate::files::{AB, FIRST_TAGGED, SECOND_GOES, Shown, in_pieces, joined, shown, shows};
use crate::samples::{AB_TWICE, WIDE_DELETES, WIDE_TAGS};
use crate::sites::{new_site, receive};
use rt_samples::Pieces;
use rt_samples::files::{DELETE_SECOND, INSERT_AB, TAG_FIRST};
use rt_stamps::Fault;
use rt_stamps::limits::MOST_CELLS;
use std::alloc::Global;
use std::process::Abort;

/// A file, from which length on and below which its fronts are shown so.
type Fronts = (&'static [u8], usize, usize, Shown);

const AB_BY_WIDE: &str = "insert 1.65536 prev 0 after 0.0 text ab tags\n";

const SECOND_OF_WIDE_GOES: &str = "
insert 1.65536 prev 0 after 0.0 text ab tags
delete 3.65536 prev 2 spans 65536:2-2
";

const FIRST_OF_WIDE_TAGGED: &str = "
insert 1.65536 prev 0 after 0.0 text ab tags
tag 3.65536 prev 2 on t spans 65536:1-1
";

// Two records behind the eight bytes, the first of which ends at 44, or at 48 in version 2.
const FRONTS: &[Fronts] = &[
    (DELETE_SECOND, 0, 8, ("", Some((Fault::Truncated, 0)))),
    (DELETE_SECOND, 8, 9, ("", None)),
    (DELETE_SECOND, 9, 44, ("", Some((Fault::Truncated, 8)))),
    (DELETE_SECOND, 44, 45, (AB, None)),
    (DELETE_SECOND, 45, 89, (AB, Some((Fault::Truncated, 44)))),
    (DELETE_SECOND, 89, 90, (SECOND_GOES, None)),
    (TAG_FIRST, 0, 8, ("", Some((Fault::Truncated, 0)))),
    (TAG_FIRST, 8, 9, ("", None)),
    (TAG_FIRST, 9, 44, ("", Some((Fault::Truncated, 8)))),
    (TAG_FIRST, 44, 45, (AB, None)),
    (TAG_FIRST, 45, 92, (AB, Some((Fault::Truncated, 44)))),
    (TAG_FIRST, 92, 93, (FIRST_TAGGED, None)),
    (WIDE_DELETES, 0, 8, ("", Some((Fault::Truncated, 0)))),
    (WIDE_DELETES, 8, 9, ("", None)),
    (WIDE_DELETES, 9, 48, ("", Some((Fault::Truncated, 8)))),
    (WIDE_DELETES, 48, 49, (AB_BY_WIDE, None)),
    (
        WIDE_DELETES,
        49,
        97,
        (AB_BY_WIDE, Some((Fault::Truncated, 48))),
    ),
    (WIDE_DELETES, 97, 98, (SECOND_OF_WIDE_GOES, None)),
    (WIDE_TAGS, 0, 8, ("", Some((Fault::Truncated, 0)))),
    (WIDE_TAGS, 8, 9, ("", None)),
    (WIDE_TAGS, 9, 48, ("", Some((Fault::Truncated, 8)))),
    (WIDE_TAGS, 48, 49, (AB_BY_WIDE, None)),
    (
        WIDE_TAGS,
        49,
        100,
        (AB_BY_WIDE, Some((Fault::Truncated, 48))),
    ),
    (WIDE_TAGS, 100, 101, (FIRST_OF_WIDE_TAGGED, None)),
];

// Each front of such a file, in pieces of each size.
fn fronts_are_shown(rt: &impl Abort, alloc: Global, row: &Fronts) {
    let (bytes, from, to, wanted) = row;
    for len in *from..*to {
        let front = bytes.get(..len).expect(rt, "a front");
        for size in 1..=bytes.len() {
            shows(rt, alloc, in_pieces(front, size), wanted);
        }
    }
}

// Files of which the read of a byte fails, from which number of it on and below which they are shown so.
const UNREAD: &[Fronts] = &[
    (b"", 0, 1, ("", Some((Fault::ReadFault, 0)))),
    (DELETE_SECOND, 0, 8, ("", Some((Fault::ReadFault, 0)))),
    (DELETE_SECOND, 8, 44, ("", Some((Fault::ReadFault, 8)))),
    (DELETE_SECOND, 44, 89, (AB, Some((Fault::ReadFault, 44)))),
    (WIDE_DELETES, 0, 8, ("", Some((Fault::ReadFault, 0)))),
    (WIDE_DELETES, 8, 48, ("", Some((Fault::ReadFault, 8)))),
    (
        WIDE_DELETES,
        48,
        97,
        (AB_BY_WIDE, Some((Fault::ReadFault, 48))),
    ),
];

fn reads_fail(rt: &impl Abort, alloc: Global, row: &Fronts) {
    let (bytes, from, to, wanted) = row;
    for number in *from..*to {
        let failing = Pieces {
            bytes: *bytes,
            size: 1,
            until_failure: Some(number),
        };
        shows(rt, alloc, failing, wanted);
    }
}

#[test]
fn fronts_in_pieces(rt: HostRuntime) {
    let alloc = rt.alloc();
    for row in FRONTS {
        fronts_are_shown(&rt, alloc, row);
    }
    for row in UNREAD {
        reads_fail(&rt, alloc, row);
    }
}

// The front of a record: site 1 took two spans away, after it had typed `ab`.
const DELETE_OF_TWO: &[u8] = &[
    0x00, 0x00, 0x00, 0x3b, 0x02, 0x00, 0x00, 0x00, 0x00, 0x00, 0x00, 0x00, 0x03, 0x00, 0x01, 0x00,
    0x00, 0x00, 0x00, 0x00, 0x00, 0x00, 0x02, 0x00, 0x00, 0x00, 0x02,
];

// The spans `1:1-1`, `1:2-2` and `1:3-3`.
const FIRST_OF_ONE: &[u8] = &[0, 1, 0, 0, 0, 0, 0, 0, 0, 1, 0, 0, 0, 0, 0, 0, 0, 1];

const SECOND_OF_ONE: &[u8] = &[0, 1, 0, 0, 0, 0, 0, 0, 0, 2, 0, 0, 0, 0, 0, 0, 0, 2];

const THIRD_OF_ONE: &[u8] = &[0, 1, 0, 0, 0, 0, 0, 0, 0, 3, 0, 0, 0, 0, 0, 0, 0, 3];

const FIRST_AND_THIRD: &str = "
insert 1.1 prev 0 after 0.0 text ab tags
delete 3.1 prev 2 spans 1:1-1 1:3-3
";

const BAD: Shown = (AB, Some((Fault::BadRecord, 44)));

// Parts of files, and what is shown of them: spans rise, with a count between two of one site, and so do records.
const ORDERED: &[(&[&[u8]], Shown)] = &[
    (
        &[INSERT_AB, DELETE_OF_TWO, SECOND_OF_ONE, FIRST_OF_ONE],
        BAD,
    ),
    (
        &[INSERT_AB, DELETE_OF_TWO, FIRST_OF_ONE, SECOND_OF_ONE],
        BAD,
    ),
    (&[INSERT_AB, DELETE_OF_TWO, FIRST_OF_ONE, FIRST_OF_ONE], BAD),
    (&[INSERT_AB, DELETE_OF_TWO, THIRD_OF_ONE, FIRST_OF_ONE], BAD),
    (
        &[INSERT_AB, DELETE_OF_TWO, FIRST_OF_ONE, THIRD_OF_ONE],
        (FIRST_AND_THIRD, None),
    ),
    (&[AB_TWICE], BAD),
];

#[test]
fn spans_and_records_rise(rt: HostRuntime) {
    let alloc = rt.alloc();
    for (parts, wanted) in ORDERED {
        let bytes = parts.concat(alloc).expect(&rt, "memory");
        shows(&rt, alloc, in_pieces(&bytes, 4096), wanted);
    }
}

// Where the record that begins at an offset ends, by its length field.
fn end_of_record(bytes: &[u8], offset: usize) -> usize {
    let mut length = 0;
    for byte in bytes.iter().skip(offset).take(4) {
        length = length % 65_536 * 256 + usize::from(*byte);
    }
    offset % 65_536 + 4 + length % 16_777_216
}

// Whether a file begins as one of a version.
fn is_headed(bytes: &[u8]) -> bool {
    bytes.starts_with(b"RGATEXT1".as_slice()) || bytes.starts_with(b"RGATEXT2".as_slice())
}

// Where the record begins that is at fault, behind so many that are whole.
fn begin_of_fault(bytes: &[u8], records: usize) -> usize {
    if !is_headed(bytes) {
        return 0;
    }
    let mut offset = 8;
    for _ in 0..records {
        offset = end_of_record(bytes, offset);
    }
    offset
}

// A damaged file is told where a record begins, or gives a log that is written as the same bytes, if it has one.
fn is_told(rt: &impl Abort, alloc: Global, changed: &[u8]) {
    let (lines, fault) = shown(alloc, in_pieces(changed, 4096), None);
    match fault {
        Some((_, offset)) => {
            let records = lines.iter().filter(|byte| **byte == b'\n').count();
            same(rt, offset, begin_of_fault(changed, records) as u64);
        }
        None => is_written(rt, alloc, changed),
    }
}

fn is_written(rt: &impl Abort, alloc: Global, bytes: &[u8]) {
    match joined(alloc, in_pieces(bytes, 4096), in_pieces(bytes, 4096)) {
        Ok(written) => same(rt, written.as_slice(), bytes),
        Err(why) => assert!(rt; matches!(why.fault, Fault::BadStamp | Fault::Conflict)),
    }
}

// A byte of a file is changed in each way.
fn byte_changes(rt: &impl Abort, alloc: Global, bytes: &[u8], place: usize) {
    let mut changed = Vec::from_slice(alloc, bytes).expect(rt, "memory");
    for change in 1..=255u8 {
        if let (Some(there), Some(byte)) = (changed.get_mut(place), bytes.get(place)) {
            *there = *byte ^ change;
        }
        is_told(rt, alloc, &changed);
    }
}

// Each byte of a file is changed so.
fn bytes_change(rt: &impl Abort, alloc: Global, bytes: &[u8]) {
    for place in 0..bytes.len() {
        byte_changes(rt, alloc, bytes, place);
    }
}

#[test]
fn single_changed_bytes(rt: HostRuntime) {
    bytes_change(&rt, rt.alloc(), DELETE_SECOND);
    bytes_change(&rt, rt.alloc(), TAG_FIRST);
}

#[test]
fn single_changed_bytes_of_version_two(rt: HostRuntime) {
    bytes_change(&rt, rt.alloc(), WIDE_DELETES);
}

#[test]
fn single_changed_bytes_of_a_tag_in_version_two(rt: HostRuntime) {
    bytes_change(&rt, rt.alloc(), WIDE_TAGS);
}

// The file of the log of a new site that received a file.
fn log_of(rt: &impl Abort, alloc: Global, number: u32, file: &[u8]) -> Vec<u8> {
    let mut site = new_site(rt, alloc, number, MOST_CELLS);
    let _received = receive(rt, &mut site, file);
    site.export().expect(rt, "memory")
}

// Two sites that receive a damaged file have the same log, and a third one has it that receives that.
fn is_taken(rt: &impl Abort, alloc: Global, changed: &[u8]) {
    let log = log_of(rt, alloc, 2, changed);
    let other = log_of(rt, alloc, 3, changed);
    same(rt, other.as_slice(), log.as_slice());
    let third = log_of(rt, alloc, 4, &log);
    same(rt, third.as_slice(), log.as_slice());
}

// A bit of each byte is changed, and 3 makes one version of the other.
const CHANGES: &[u8] = &[3, 1, 2, 4, 8, 16, 32, 64, 128];

// A byte of a file is changed in these ways.
fn bits_change(rt: &impl Abort, alloc: Global, bytes: &[u8], place: usize) {
    let mut changed = Vec::from_slice(alloc, bytes).expect(rt, "memory");
    for change in CHANGES {
        if let (Some(there), Some(byte)) = (changed.get_mut(place), bytes.get(place)) {
            *there = *byte ^ *change;
        }
        is_taken(rt, alloc, &changed);
    }
}

#[test]
fn damaged_files_are_received(rt: HostRuntime) {
    let alloc = rt.alloc();
    for place in 0..WIDE_DELETES.len() {
        let front = WIDE_DELETES.get(..place).expect(&rt, "a front");
        is_taken(&rt, alloc, front);
        bits_change(&rt, alloc, WIDE_DELETES, place);
    }
}
