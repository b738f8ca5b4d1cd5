// Scripts of very many lines, which are made line by line.
use crate::sites::{Script, answered, new_site};
use rt_stamps::limits::MOST_CELLS;
use std::alloc::Global;
use std::process::Abort;

/// Rows of a script that are repeated, `#` in them standing for each number from the first on and below the second.
type Block = (u16, u16, Script);

// The left ones of a gap's hundred marks stay before text that is inserted there, and all come to stand where a removed
// range was, in their order.
const MARKS_IN_ONE_GAP: &[Block] = &[
    (0, 1, ".t insert 1.0 0123456789 -> ="),
    (0, 10, SET_TEN),
    (0, 1, NAMES),
    (0, 1, ".t insert 1.5 abc -> ="),
    (0, 10, STAND_IN_TURN),
    (0, 1, BEFORE_THREE),
    (0, 10, STAND_TOGETHER),
    (0, 1, AFTER_THREE),
];

// Every other one has left gravity.
const SET_TEN: Script = "
.t mark set m#0 1.5 -> =
.t mark gravity m#0 left -> =
.t mark set m#1 1.5 -> =
.t mark set m#2 1.5 -> =
.t mark gravity m#2 left -> =
.t mark set m#3 1.5 -> =
.t mark set m#4 1.5 -> =
.t mark gravity m#4 left -> =
.t mark set m#5 1.5 -> =
.t mark set m#6 1.5 -> =
.t mark gravity m#6 left -> =
.t mark set m#7 1.5 -> =
.t mark set m#8 1.5 -> =
.t mark gravity m#8 left -> =
.t mark set m#9 1.5 -> =
";

const NAMES: Script =
    ".t mark names -> = current insert m00 m01 m02 m03 m04 m05 m06 m07 m08 m09 m10 m11 m12 m13 m14 m15 m16 m17 m18 m19 m20 m21 m22 m23 m24 m25 m26 m27 m28 m29 m30 m31 m32 m33 m34 m35 m36 m37 m38 m39 m40 m41 m42 m43 m44 m45 m46 m47 m48 m49 m50 m51 m52 m53 m54 m55 m56 m57 m58 m59 m60 m61 m62 m63 m64 m65 m66 m67 m68 m69 m70 m71 m72 m73 m74 m75 m76 m77 m78 m79 m80 m81 m82 m83 m84 m85 m86 m87 m88 m89 m90 m91 m92 m93 m94 m95 m96 m97 m98 m99";

const STAND_IN_TURN: Script = "
.t index m#0 -> = 1.5
.t index m#1 -> = 1.8
.t index m#2 -> = 1.5
.t index m#3 -> = 1.8
.t index m#4 -> = 1.5
.t index m#5 -> = 1.8
.t index m#6 -> = 1.5
.t index m#7 -> = 1.8
.t index m#8 -> = 1.5
.t index m#9 -> = 1.8
";

const BEFORE_THREE: Script = "
.t mark next m98 -> = m01
.t delete 1.9 1.11 1.1 1.3 1.4 1.9 -> =
";

const STAND_TOGETHER: Script = "
.t index m#0 -> = 1.2
.t index m#1 -> = 1.2
.t index m#2 -> = 1.2
.t index m#3 -> = 1.2
.t index m#4 -> = 1.2
.t index m#5 -> = 1.2
.t index m#6 -> = 1.2
.t index m#7 -> = 1.2
.t index m#8 -> = 1.2
.t index m#9 -> = 1.2
";

const AFTER_THREE: Script = r#"
.t mark next m98 -> = m01
.t get 1.0 end -> = "0389\n"
"#;

// A thousand marks, ten characters apart: one insertion moves those that stand at its place or behind it.
const MARKS_IN_MANY_CHARACTERS: &[Block] = &[
    (0, 1000, ".t insert 1.0 0123456789 -> ="),
    (0, 1000, ".t mark set m# 1.#0 -> ="),
    (0, 1, ".t insert 1.5000 abc -> ="),
    (0, 1, ".t index m0 -> = 1.0"),
    (1, 500, ".t index m# -> = 1.#0"),
    (500, 1000, ".t index m# -> = 1.#3"),
];

// A text of 601 times `a` and a `b`, which is longer than a window of a search.
const SEVERAL_WINDOWS: &[Block] = &[
    (0, 24, ".t insert 1.0 aaaaaaaaaaaaaaaaaaaaaaaaa -> ="),
    (0, 1, WINDOWS),
    (0, 1, FIND_THREE_HUNDRED),
];

const WINDOWS: Script = "
.t insert end ab -> =
.t search aab 1.300 -> = 1.599
.t search -all -overlap aab 1.300 -> = 1.599
.t search -backwards aab 1.300 -> = 1.599
";

// Each second one of six hundred characters, the last first.
const FIND_THREE_HUNDRED: Script =
    ".t search -all -backwards aa 2.0 -> = 1.599 1.597 1.595 1.593 1.591 1.589 1.587 1.585 1.583 1.581 1.579 1.577 1.575 1.573 1.571 1.569 1.567 1.565 1.563 1.561 1.559 1.557 1.555 1.553 1.551 1.549 1.547 1.545 1.543 1.541 1.539 1.537 1.535 1.533 1.531 1.529 1.527 1.525 1.523 1.521 1.519 1.517 1.515 1.513 1.511 1.509 1.507 1.505 1.503 1.501 1.499 1.497 1.495 1.493 1.491 1.489 1.487 1.485 1.483 1.481 1.479 1.477 1.475 1.473 1.471 1.469 1.467 1.465 1.463 1.461 1.459 1.457 1.455 1.453 1.451 1.449 1.447 1.445 1.443 1.441 1.439 1.437 1.435 1.433 1.431 1.429 1.427 1.425 1.423 1.421 1.419 1.417 1.415 1.413 1.411 1.409 1.407 1.405 1.403 1.401 1.399 1.397 1.395 1.393 1.391 1.389 1.387 1.385 1.383 1.381 1.379 1.377 1.375 1.373 1.371 1.369 1.367 1.365 1.363 1.361 1.359 1.357 1.355 1.353 1.351 1.349 1.347 1.345 1.343 1.341 1.339 1.337 1.335 1.333 1.331 1.329 1.327 1.325 1.323 1.321 1.319 1.317 1.315 1.313 1.311 1.309 1.307 1.305 1.303 1.301 1.299 1.297 1.295 1.293 1.291 1.289 1.287 1.285 1.283 1.281 1.279 1.277 1.275 1.273 1.271 1.269 1.267 1.265 1.263 1.261 1.259 1.257 1.255 1.253 1.251 1.249 1.247 1.245 1.243 1.241 1.239 1.237 1.235 1.233 1.231 1.229 1.227 1.225 1.223 1.221 1.219 1.217 1.215 1.213 1.211 1.209 1.207 1.205 1.203 1.201 1.199 1.197 1.195 1.193 1.191 1.189 1.187 1.185 1.183 1.181 1.179 1.177 1.175 1.173 1.171 1.169 1.167 1.165 1.163 1.161 1.159 1.157 1.155 1.153 1.151 1.149 1.147 1.145 1.143 1.141 1.139 1.137 1.135 1.133 1.131 1.129 1.127 1.125 1.123 1.121 1.119 1.117 1.115 1.113 1.111 1.109 1.107 1.105 1.103 1.101 1.99 1.97 1.95 1.93 1.91 1.89 1.87 1.85 1.83 1.81 1.79 1.77 1.75 1.73 1.71 1.69 1.67 1.65 1.63 1.61 1.59 1.57 1.55 1.53 1.51 1.49 1.47 1.45 1.43 1.41 1.39 1.37 1.35 1.33 1.31 1.29 1.27 1.25 1.23 1.21 1.19 1.17 1.15 1.13 1.11 1.9 1.7 1.5 1.3 1.1";

// A tag on two of two thousand characters that were put in one by one, and then on 500 more that come between the two.
const TAG_AMONG_MANY_RUNS: &[Block] = &[
    (0, 2000, ".t insert 1.0 a -> ="),
    (0, 1, ".t tag add t 1.1000 1.1002 -> ="),
    (0, 500, ".t insert 1.1001 b -> ="),
    (0, 1, AROUND_MANY),
];

const AROUND_MANY: Script = "
.t tag ranges t -> = 1.1000 1.1502
.t tag nextrange t 1.1001 -> =
.t tag prevrange t 1.1001 -> = 1.1000 1.1502
.t delete 1.0 1.1000 -> =
.t tag ranges t -> = 1.0 1.502
";

// The rows of a block, one behind the other.
fn add_block(rt: &impl Abort, alloc: Global, rows: &mut String, block: &Block) {
    let (from, to, template) = block;
    for number in *from..*to {
        let number = format!(in alloc; "{number}").expect(rt, "memory");
        let made = template
            .replace(alloc, '#', number.as_str())
            .expect(rt, "memory");
        rows.push_str(made.as_str()).expect(rt, "memory");
        rows.push('\n').expect(rt, "memory");
    }
}

// Runs the rows of blocks on a new site.
fn run_blocks(rt: &impl Abort, alloc: Global, blocks: &[Block]) {
    let mut rows = String::new(alloc);
    for block in blocks {
        add_block(rt, alloc, &mut rows, block);
    }
    let state = new_site(rt, alloc, 1, MOST_CELLS);
    let _site = answered(rt, alloc, state, &[], &[rows.as_str()], 4096);
}

#[test]
fn scripts_of_many_lines(rt: HostRuntime) {
    let alloc = rt.alloc();
    run_blocks(&rt, alloc, MARKS_IN_ONE_GAP);
    run_blocks(&rt, alloc, MARKS_IN_MANY_CHARACTERS);
    run_blocks(&rt, alloc, SEVERAL_WINDOWS);
    run_blocks(&rt, alloc, TAG_AMONG_MANY_RUNS);
}
