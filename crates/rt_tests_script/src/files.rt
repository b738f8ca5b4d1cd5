// Files of operations, joined and shown.
ghost use Rattle.std.specs.Prelude.{◌≡◌, ◌<◌};

use crate::samples::{
    AB_AND_C, AB_OF_TWO, C_BY_WIDE, CLASHES, CLASHES_AND_CUT, DELETE_AND_INSERT, DELETE_AND_TAG,
    INSERT_ACCENTS, INSERT_BOTH, INSERT_BY_ROOT, INSERT_KNOWN, INSERT_PAST_LAST, INSERT_QUOTED,
    NOT_BEHIND, SIXTY_FIVE_IN_ONE, SIXTY_FIVE_TAGS, SIXTY_FOUR_TAGS, WIDE_DELETES, WIDE_TAGS,
};
use rt_samples::files::{
    AFTER_ITSELF, CUT, DELETE_FINAL, DELETE_SECOND, INSERT_AB, INSERT_B, INSERT_LAST, INSERT_Y,
    SHORT_LENGTH, TAG_FIRST,
};
use rt_samples::{Output, Pieces};
use rt_script::{JoinFault, join_files, show_file};
use rt_stamps::Fault;
use rt_stamps::std_ends::{Count, Reader, Writer};
use std::alloc::Global;
use std::marker::Brand;
use std::process::Abort;
use std::sync::ledger::{Blank, Ledger};

/// A file that is read in pieces of a size.
pub(crate) fn in_pieces(bytes: &[u8], size: usize) -> Pieces<'_> {
    Pieces {
        bytes,
        size,
        until_failure: None,
    }
}

fn join_in<A: Ledger, B: Ledger, C: Ledger, D: Ledger>(
    alloc: Global,
    one: Pieces,
    other: Pieces,
    reads: Blank,
    failed_reads: Blank,
    more_reads: Blank,
    more_failed_reads: Blank,
) -> Result<Vec<u8>, JoinFault>
    requires a { (reads.name ≡ A.name) × (reads.parts ≡ A.parts) × (0 < A.parts) }
    requires b { (failed_reads.name ≡ B.name) × (failed_reads.parts ≡ B.parts) × (0 < B.parts) }
    requires c { (more_reads.name ≡ C.name) × (more_reads.parts ≡ C.parts) × (0 < C.parts) }
    requires d { (more_failed_reads.name ≡ D.name) × (more_failed_reads.parts ≡ D.parts) × (0 < D.parts) }
{
    let mut one = Reader::new(
        one,
        Count::<A>::begin(reads),
        Count::<B>::begin(failed_reads),
    );
    let mut other = Reader::new(
        other,
        Count::<C>::begin(more_reads),
        Count::<D>::begin(more_failed_reads),
    );
    join_files(alloc, &mut one, &mut other)
}

/// The bytes of the join of two files.
pub(crate) fn joined(alloc: Global, one: Pieces, other: Pieces) -> Result<Vec<u8>, JoinFault> {
    join_in::<Brand, Brand, Brand, Brand>(
        alloc,
        one,
        other,
        Blank::new(1),
        Blank::new(1),
        Blank::new(1),
        Blank::new(1),
    )
}

/// The join of two files, or which of them has which fault at which offset.
type Join = Result<&'static [u8], (u8, Fault, u64)>;

// Whether that is what two files are joined to.
fn is_joined(alloc: Global, one: Pieces, other: Pieces, wanted: &Join) -> bool {
    match joined(alloc, one, other) {
        Ok(bytes) => match wanted {
            Ok(wanted) => bytes.as_slice() == *wanted,
            Err(_) => false,
        },
        Err(why) => match wanted {
            Ok(_) => false,
            Err(wanted) => (why.file, why.fault, why.offset) == *wanted,
        },
    }
}

fn show_in<A: Ledger, B: Ledger, C: Ledger, D: Ledger>(
    alloc: Global,
    source: Pieces,
    out: Output,
    reads: Blank,
    failed_reads: Blank,
    writes: Blank,
    failed_writes: Blank,
) -> (Vec<u8>, Option<(Fault, u64)>)
    requires a { (reads.name ≡ A.name) × (reads.parts ≡ A.parts) × (0 < A.parts) }
    requires b { (failed_reads.name ≡ B.name) × (failed_reads.parts ≡ B.parts) × (0 < B.parts) }
    requires c { (writes.name ≡ C.name) × (writes.parts ≡ C.parts) × (0 < C.parts) }
    requires d { (failed_writes.name ≡ D.name) × (failed_writes.parts ≡ D.parts) × (0 < D.parts) }
{
    let mut source = Reader::new(
        source,
        Count::<A>::begin(reads),
        Count::<B>::begin(failed_reads),
    );
    let mut out = Writer::new(
        out,
        Count::<C>::begin(writes),
        Count::<D>::begin(failed_writes),
    );
    let fault = show_file(alloc, &mut source, &mut out).err();
    let Output { bytes, .. } = out.into_inner();
    (bytes, fault)
}

/// What is shown of a file, where the write of a number fails.
pub(crate) fn shown(
    alloc: Global,
    source: Pieces,
    until_failure: Option<usize>,
) -> (Vec<u8>, Option<(Fault, u64)>) {
    let out = Output {
        bytes: Vec::new(alloc),
        most: usize::MAX,
        until_failure,
    };
    show_in::<Brand, Brand, Brand, Brand>(
        alloc,
        source,
        out,
        Blank::new(1),
        Blank::new(1),
        Blank::new(1),
        Blank::new(1),
    )
}

/// The lines of a file's operations, which may begin on a line of their own, and its fault.
pub(crate) type Shown = (&'static str, Option<(Fault, u64)>);

/// Stops a test where something else is shown of a file.
pub(crate) fn shows(rt: &impl Abort, alloc: Global, source: Pieces, wanted: &Shown) {
    let (len, size) = (source.bytes.len(), source.size);
    let (lines, fault) = *wanted;
    let (bytes, found) = shown(alloc, source, None);
    let is_shown = bytes.as_slice() == lines.trim_start().as_bytes() && found == fault;
    assert!(rt;
        is_shown,
        "{len} bytes by {size}: {lines}{fault:?}, not {found:?}"
    );
}

const SIZES: &[usize] = &[1, 2, 3, 5, 7, 100, 4096];

/// Two files, and what they are joined to.
type Joined = (&'static [u8], &'static [u8], Join);

const JOINED: &[Joined] = &[
    (b"RGATEXT1", b"RGATEXT1", Ok(b"RGATEXT1")),
    (b"RGATEXT1", INSERT_AB, Ok(INSERT_AB)),
    (INSERT_AB, b"RGATEXT1", Ok(INSERT_AB)),
    (INSERT_AB, INSERT_AB, Ok(INSERT_AB)),
    (DELETE_SECOND, DELETE_SECOND, Ok(DELETE_SECOND)),
    (INSERT_Y, INSERT_Y, Ok(INSERT_Y)),
    (INSERT_LAST, INSERT_LAST, Ok(INSERT_LAST)),
    (TAG_FIRST, TAG_FIRST, Ok(TAG_FIRST)),
    (INSERT_AB, DELETE_SECOND, Ok(DELETE_SECOND)),
    (DELETE_FINAL, DELETE_FINAL, Ok(DELETE_FINAL)),
    (INSERT_AB, INSERT_Y, Ok(INSERT_BOTH)),
    (INSERT_Y, INSERT_AB, Ok(INSERT_BOTH)),
    (INSERT_Y, DELETE_SECOND, Ok(DELETE_AND_INSERT)),
    (b"RGATEXT2", b"RGATEXT2", Ok(b"RGATEXT1")),
    (AB_OF_TWO, AB_OF_TWO, Ok(INSERT_AB)),
    (AB_OF_TWO, INSERT_AB, Ok(INSERT_AB)),
    (AB_OF_TWO, DELETE_SECOND, Ok(DELETE_SECOND)),
    (INSERT_AB, C_BY_WIDE, Ok(AB_AND_C)),
    (C_BY_WIDE, INSERT_AB, Ok(AB_AND_C)),
    (AB_OF_TWO, C_BY_WIDE, Ok(AB_AND_C)),
    (C_BY_WIDE, C_BY_WIDE, Ok(C_BY_WIDE)),
    (WIDE_DELETES, b"RGATEXT1", Ok(WIDE_DELETES)),
    (WIDE_TAGS, b"RGATEXT1", Ok(WIDE_TAGS)),
    (SIXTY_FOUR_TAGS, b"RGATEXT2", Ok(SIXTY_FOUR_TAGS)),
    (SIXTY_FIVE_TAGS, b"RGATEXT1", Ok(SIXTY_FIVE_TAGS)),
];

const REFUSED: &[Joined] = &[
    (INSERT_B, INSERT_AB, Err((0, Fault::Conflict, 0))),
    (INSERT_AB, INSERT_B, Err((0, Fault::Conflict, 0))),
    (DELETE_SECOND, TAG_FIRST, Err((0, Fault::Conflict, 0))),
    (AFTER_ITSELF, INSERT_AB, Err((1, Fault::BadStamp, 8))),
    (INSERT_AB, AFTER_ITSELF, Err((2, Fault::BadStamp, 8))),
    (INSERT_PAST_LAST, INSERT_AB, Err((1, Fault::BadStamp, 8))),
    (INSERT_KNOWN, INSERT_AB, Err((1, Fault::BadStamp, 8))),
    (INSERT_BY_ROOT, INSERT_AB, Err((1, Fault::BadStamp, 8))),
    (SHORT_LENGTH, AFTER_ITSELF, Err((1, Fault::BadRecord, 8))),
    (AFTER_ITSELF, SHORT_LENGTH, Err((1, Fault::BadStamp, 8))),
    (INSERT_B, SHORT_LENGTH, Err((2, Fault::BadRecord, 8))),
    (INSERT_B, AB_OF_TWO, Err((0, Fault::Conflict, 0))),
    (WIDE_DELETES, WIDE_TAGS, Err((0, Fault::Conflict, 0))),
    (SIXTY_FIVE_IN_ONE, AB_OF_TWO, Err((1, Fault::BadRecord, 8))),
    (AB_OF_TWO, SIXTY_FIVE_IN_ONE, Err((2, Fault::BadRecord, 8))),
    (b"", INSERT_AB, Err((1, Fault::Truncated, 0))),
    (INSERT_AB, b"", Err((2, Fault::Truncated, 0))),
    (b"XGATEXT1", INSERT_AB, Err((1, Fault::BadMagic, 0))),
    (INSERT_AB, b"RGATEXT9", Err((2, Fault::BadVersion, 0))),
    (CUT, INSERT_AB, Err((1, Fault::Truncated, 44))),
    (CLASHES, INSERT_AB, Err((1, Fault::Conflict, 44))),
    (INSERT_AB, CLASHES, Err((2, Fault::Conflict, 44))),
    (NOT_BEHIND, INSERT_AB, Err((1, Fault::BadStamp, 44))),
    (CLASHES_AND_CUT, INSERT_AB, Err((1, Fault::Conflict, 44))),
];

// Each file is read whole and in pieces.
fn all_join(rt: &impl Abort, alloc: Global, rows: &[Joined]) {
    for (row, (one, other, wanted)) in rows.iter().enumerate() {
        for size in SIZES {
            let is_one = is_joined(
                alloc,
                in_pieces(*one, *size),
                in_pieces(*other, 4096),
                wanted,
            );
            let is_other = is_joined(
                alloc,
                in_pieces(*one, 4096),
                in_pieces(*other, *size),
                wanted,
            );
            assert!(rt; is_one && is_other, "row {row} by {size}");
        }
    }
}

/// Two files, which read of the first fails, from which number on and below which the read of a byte of
/// the second fails, and what they are joined to.
type Unread = (
    &'static [u8],
    Option<usize>,
    &'static [u8],
    usize,
    usize,
    Join,
);

const UNREAD: &[Unread] = &[
    (
        INSERT_AB,
        Some(0),
        INSERT_AB,
        100,
        101,
        Err((1, Fault::ReadFault, 0)),
    ),
    (INSERT_AB, None, b"", 0, 1, Err((2, Fault::ReadFault, 0))),
    (AFTER_ITSELF, None, b"", 0, 1, Err((1, Fault::BadStamp, 8))),
    (
        INSERT_AB,
        None,
        DELETE_SECOND,
        0,
        8,
        Err((2, Fault::ReadFault, 0)),
    ),
    (
        INSERT_AB,
        None,
        DELETE_SECOND,
        8,
        44,
        Err((2, Fault::ReadFault, 8)),
    ),
    (
        INSERT_AB,
        None,
        DELETE_SECOND,
        44,
        89,
        Err((2, Fault::ReadFault, 44)),
    ),
    (
        INSERT_AB,
        None,
        DELETE_SECOND,
        89,
        90,
        Err((2, Fault::ReadFault, 89)),
    ),
    (INSERT_AB, None, DELETE_SECOND, 90, 100, Ok(DELETE_SECOND)),
];

fn is_unread(rt: &impl Abort, alloc: Global, row: &Unread) {
    let (one, until_failure, other, from, to, wanted) = row;
    for number in *from..*to {
        let first = Pieces {
            bytes: *one,
            size: 4096,
            until_failure: *until_failure,
        };
        let second = Pieces {
            bytes: *other,
            size: 1,
            until_failure: Some(number),
        };
        assert!(rt;
            is_joined(alloc, first, second, wanted),
            "{until_failure:?} {number}"
        );
    }
}

#[test]
fn files_are_joined(rt: HostRuntime) {
    let alloc = rt.alloc();
    all_join(&rt, alloc, JOINED);
    all_join(&rt, alloc, REFUSED);
    for row in UNREAD {
        is_unread(&rt, alloc, row);
    }
}

/// A file of one record, which inserts `ab`.
pub(crate) const AB: &str = "insert 1.1 prev 0 after 0.0 text ab tags\n";

/// The second one is taken away behind it.
pub(crate) const SECOND_GOES: &str = "
insert 1.1 prev 0 after 0.0 text ab tags
delete 3.1 prev 2 spans 1:2-2
";

/// The first one is tagged behind it.
pub(crate) const FIRST_TAGGED: &str = "
insert 1.1 prev 0 after 0.0 text ab tags
tag 3.1 prev 2 on t spans 1:1-1
";

const LAST: &str = "insert 281474976710655.9 prev 0 after 0.0 text z tags\n";

const UNSOUND: &str = "insert 1.1 prev 0 after 1.1 text a tags\n";

const Y: &str = "insert 3.2 prev 0 after 1.1 text Y tags\n";

const FINAL_GOES: &str = "delete 1.1 prev 0 spans 0:1-1\n";

const QUOTED: &str = "insert 5.2 prev 0 after 4.3 text \"é\\n\\\"\u{1f600}\" tags a \"x y\"\n";

const ACCENTS: &str = "insert 5.2 prev 0 after 0.0 text é# tags é\n";

const UNTAGGED: &str = r#"
delete 3.1 prev 2 spans 1:2-2
tag 9.1 prev 2 off "a b" spans 0:1-1 7:3-65536
"#;

const C: &str = "insert 3.65536 prev 0 after 2.1 text c tags\n";

const UNDER_SIXTY_FOUR: &str =
    "insert 1.1 prev 0 after 0.0 text z tags / 0 1 2 3 4 5 6 7 8 9 A B C D E F G H I J K L M N O P Q R S T U V W X Y Z _ a b c d e f g h i j k l m n o p q r s t u v w x y z\n";

const UNDER_SIXTY_FIVE: &str =
    "insert 1.1 prev 0 after 0.0 text z tags . / 0 1 2 3 4 5 6 7 8 9 A B C D E F G H I J K L M N O P Q R S T U V W X Y Z _ a b c d e f g h i j k l m n o p q r s t u v w x y z\n";

// Files, and what is shown of them.
const SHOWN: &[(&[u8], Shown)] = &[
    (b"RGATEXT1", ("", None)),
    (INSERT_AB, (AB, None)),
    (DELETE_SECOND, (SECOND_GOES, None)),
    (TAG_FIRST, (FIRST_TAGGED, None)),
    (INSERT_LAST, (LAST, None)),
    (INSERT_Y, (Y, None)),
    (AFTER_ITSELF, (UNSOUND, None)),
    (DELETE_FINAL, (FINAL_GOES, None)),
    (INSERT_QUOTED, (QUOTED, None)),
    (INSERT_ACCENTS, (ACCENTS, None)),
    (DELETE_AND_TAG, (UNTAGGED, None)),
    (CUT, (AB, Some((Fault::Truncated, 44)))),
    (SHORT_LENGTH, ("", Some((Fault::BadRecord, 8)))),
    (b"", ("", Some((Fault::Truncated, 0)))),
    (b"RGATEXT", ("", Some((Fault::Truncated, 0)))),
    (b"X", ("", Some((Fault::BadMagic, 0)))),
    (b"XGATEXT1", ("", Some((Fault::BadMagic, 0)))),
    (b"RGATEXX1", ("", Some((Fault::BadMagic, 0)))),
    (b"RGATEXT9", ("", Some((Fault::BadVersion, 0)))),
    (b"RGATEXT1\0\0\0\x13\x04", ("", Some((Fault::Truncated, 8)))),
    (b"RGATEXT0", ("", Some((Fault::BadVersion, 0)))),
    (b"RGATEXT3", ("", Some((Fault::BadVersion, 0)))),
    (b"RGATEXT2", ("", None)),
    (AB_OF_TWO, (AB, None)),
    (C_BY_WIDE, (C, None)),
    (SIXTY_FOUR_TAGS, (UNDER_SIXTY_FOUR, None)),
    (SIXTY_FIVE_TAGS, (UNDER_SIXTY_FIVE, None)),
    (SIXTY_FIVE_IN_ONE, ("", Some((Fault::BadRecord, 8)))),
    (b"RGATEXT2\0\0\0\x14", ("", Some((Fault::BadRecord, 8)))),
    (b"RGATEXT2\0\0\0\x15\x04", ("", Some((Fault::Truncated, 8)))),
    (
        b"RGATEXT2\x00\x20\x00\x01\x01",
        ("", Some((Fault::BadRecord, 8))),
    ),
    (
        b"RGATEXT1\x00\x20\x00\x01\x01",
        ("", Some((Fault::BadRecord, 8))),
    ),
];

// A file is shown with a write failing, each in turn: a front of its lines, and in the end all of them.
fn writes_fail(rt: &impl Abort, alloc: Global) {
    let lines = SECOND_GOES.trim_start().as_bytes();
    let mut is_whole = false;
    for number in 0..100 {
        let (bytes, fault) = shown(alloc, in_pieces(DELETE_SECOND, 4096), Some(number));
        let is_cut = fault == Some((Fault::WriteFault, 0)) && !is_whole;
        is_whole = fault.is_none() && bytes.len() == lines.len();
        assert!(rt;
            lines.starts_with(&bytes) && (is_cut || is_whole),
            "{number}"
        );
    }
    assert!(rt; is_whole);
}

#[test]
fn files_are_shown(rt: HostRuntime) {
    let alloc = rt.alloc();
    for (bytes, wanted) in SHOWN {
        for size in SIZES {
            shows(&rt, alloc, in_pieces(*bytes, *size), wanted);
        }
    }
    writes_fail(&rt, alloc);
}
