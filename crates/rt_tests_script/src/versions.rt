// Files of both versions at sites: of small and of great numbers, and of texts under few tags and under many.
use crate::checks::same;
use crate::exchange::{EXCHANGED, Files, Numbers, ends_with, exchange, session};
use crate::files::{in_pieces, joined};
use crate::samples::{
    AB_AND_C, AB_OF_TWO, C_BY_WIDE, SIXTY_FIVE_IN_ONE, SIXTY_FIVE_TAGS, SIXTY_FOUR_TAGS,
};
use crate::sites::Script;
use rt_samples::files::INSERT_AB;
use std::alloc::Global;
use std::process::Abort;

const SAMPLES: Files<'static> = &[
    ("in_one", INSERT_AB),
    ("in_two", AB_OF_TWO),
    ("wide", C_BY_WIDE),
    ("sixty_four", SIXTY_FOUR_TAGS),
    ("sixty_five", SIXTY_FIVE_TAGS),
    ("bad", SIXTY_FIVE_IN_ONE),
];

// An operation is the same in both versions.
const RECEIVES_BOTH: Script = r#"
receive in_one -> = 1 0
receive in_two -> = 0 1
.t get 1.0 end -> = "ab\n"
"#;

const RECEIVES_WIDE: Script = r#"
receive wide -> = 1 0
.t get 1.0 end -> = "abc\n"
receive wide -> = 0 1
"#;

// The operation of the great site comes early.
const RECEIVES_WIDE_FIRST: Script = r#"
receive wide -> = 0 0 1
receive in_two -> = 2 0
receive in_one -> = 0 1
.t get 1.0 end -> = "abc\n"
"#;

#[test]
fn files_of_both_versions(rt: HostRuntime) {
    let alloc = rt.alloc();
    ends_with(&rt, alloc, 2, SAMPLES, &[RECEIVES_BOTH], INSERT_AB);
    ends_with(
        &rt,
        alloc,
        2,
        SAMPLES,
        &[RECEIVES_BOTH, RECEIVES_WIDE],
        AB_AND_C,
    );
    ends_with(&rt, alloc, 2, SAMPLES, &[RECEIVES_WIDE_FIRST], AB_AND_C);
}

// Stops a test where two files, in either order, are joined to something else.
fn are_joined(rt: &impl Abort, alloc: Global, one: &[u8], other: &[u8], wanted: &[u8]) {
    is_join(rt, alloc, one, other, wanted);
    is_join(rt, alloc, other, one, wanted);
}

fn is_join(rt: &impl Abort, alloc: Global, one: &[u8], other: &[u8], wanted: &[u8]) {
    match joined(alloc, in_pieces(one, 4096), in_pieces(other, 4096)) {
        Ok(bytes) => same(rt, bytes.as_slice(), wanted),
        Err(why) => same(rt, Some(why.fault), None),
    }
}

// The file of a new site of a number, which put a text in.
fn put_in(rt: &impl Abort, alloc: Global, number: u32, line: &str) -> Vec<u8> {
    session(rt, alloc, number, &[], &[line])
}

// A third site receives what sites of great numbers put in at one place: the text of the greater number stands first.
const RECEIVES_GREAT: Script = r#"
receive lesser -> = 1 0
receive greater -> = 1 0
.t get 1.0 end -> = "gglll\n"
receive lesser -> = 0 1
"#;

const RECEIVES_GREATEST_FIRST: Script = r#"
receive greater -> = 1 0
receive lesser -> = 1 0
.t get 1.0 end -> = "gglll\n"
receive greater -> = 0 1
"#;

#[test]
fn sites_of_great_numbers(rt: HostRuntime) {
    let alloc = rt.alloc();
    let lesser = put_in(&rt, alloc, 70_000, ".t insert 1.0 lll -> =");
    let greater = put_in(&rt, alloc, 4_294_967_295, ".t insert 1.0 gg -> =");
    let files: Files = &[("lesser", &lesser), ("greater", &greater)];
    let log = session(&rt, alloc, 65_536, files, &[RECEIVES_GREAT]);
    ends_with(&rt, alloc, 1, files, &[RECEIVES_GREATEST_FIRST], &log);
    are_joined(&rt, alloc, &lesser, &greater, &log);
}

// The greatest number that version 1 has room for, the least above it and the greatest of all, with sites of small
// numbers and among themselves.
const NUMBERS: &[Numbers] = &[
    (1, 65_536, 2),
    (65_535, 65_536, 65_537),
    (65_536, 4_294_967_295, 1),
];

// All cases at these sites.
fn exchange_all(rt: &impl Abort, alloc: Global, numbers: Numbers) {
    for case in EXCHANGED {
        exchange(rt, alloc, numbers, case);
    }
}

#[test]
fn exchanges_of_great_numbers(rt: HostRuntime) {
    for numbers in NUMBERS {
        exchange_all(&rt, rt.alloc(), *numbers);
    }
}

const PUTS_SIXTY_FOUR: Script =
    ".t insert 1.0 z {/ 0 1 2 3 4 5 6 7 8 9 A B C D E F G H I J K L M N O P Q R S T U V W X Y Z _ a b c d e f g h i j k l m n o p q r s t u v w x y z} -> =";

const PUTS_SIXTY_FIVE: Script =
    ".t insert 1.0 z {. / 0 1 2 3 4 5 6 7 8 9 A B C D E F G H I J K L M N O P Q R S T U V W X Y Z _ a b c d e f g h i j k l m n o p q r s t u v w x y z} -> =";

const RECEIVES_SIXTY_FOUR: Script = r#"
receive sixty_four -> = 1 0
.t get 1.0 end -> = "z\n"
.t tag names 1.0 -> = / 0 1 2 3 4 5 6 7 8 9 A B C D E F G H I J K L M N O P Q R S T U V W X Y Z _ a b c d e f g h i j k l m n o p q r s t u v w x y z
"#;

// In version 1 they are one too many.
const RECEIVES_SIXTY_FIVE: Script = r#"
receive bad -> ! 33 BadRecord at 8 new 0 repeat 0
receive sixty_five -> = 1 0
.t get 1.0 end -> = "z\n"
.t tag names 1.0 -> = . / 0 1 2 3 4 5 6 7 8 9 A B C D E F G H I J K L M N O P Q R S T U V W X Y Z _ a b c d e f g h i j k l m n o p q r s t u v w x y z
"#;

#[test]
fn as_many_tags_as_version_one_lists(rt: HostRuntime) {
    let alloc = rt.alloc();
    ends_with(&rt, alloc, 1, &[], &[PUTS_SIXTY_FOUR], SIXTY_FOUR_TAGS);
    ends_with(
        &rt,
        alloc,
        2,
        SAMPLES,
        &[RECEIVES_SIXTY_FOUR],
        SIXTY_FOUR_TAGS,
    );
    ends_with(&rt, alloc, 1, &[], &[PUTS_SIXTY_FIVE], SIXTY_FIVE_TAGS);
    ends_with(
        &rt,
        alloc,
        2,
        SAMPLES,
        &[RECEIVES_SIXTY_FIVE],
        SIXTY_FIVE_TAGS,
    );
}

// Three hundred names that rise, each behind a space.
fn three_hundred(rt: &impl Abort, alloc: Global) -> String {
    let mut names = String::new(alloc);
    for number in 100..400u16 {
        let name = format!(in alloc; " t{number}").expect(rt, "memory");
        names.push_str(name.as_str()).expect(rt, "memory");
    }
    names
}

// An Insert lists 255 of them, and a Tag puts each other one on: 8 bytes, a record of 1,314 and 45 of 55.
const RECEIVES_MANY: Script = r#"
receive many -> = 46 0
.t get 1.0 end -> = "z\n"
"#;

#[test]
fn more_tags_than_an_insert_lists(rt: HostRuntime) {
    let alloc = rt.alloc();
    let names = three_hundred(&rt, alloc);
    let puts = format!(in alloc; ".t insert 1.0 z \"{names}\" -> =").expect(&rt, "memory");
    let says = format!(in alloc; ".t tag names 1.0 -> ={names}").expect(&rt, "memory");
    let log = session(&rt, alloc, 1, &[], &[puts.as_str(), says.as_str()]);
    same(&rt, log.starts_with(b"RGATEXT2".as_slice()), true);
    same(&rt, log.len(), 3_797);
    let files: Files = &[("many", &log)];
    ends_with(&rt, alloc, 2, files, &[RECEIVES_MANY, says.as_str()], &log);
}
