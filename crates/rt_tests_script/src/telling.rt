// What a site tells of the operations that it receives and of its own, as changes that an editor makes to its own text.
use crate::checks::same;
use crate::sites::{Script, answered, new_site};
use rt_samples::files::CUT;
use rt_script::words::words;
use rt_script::{SiteState, ToldChange};
use rt_stamps::Fault;
use rt_stamps::limits::{MOST_BYTES, MOST_CELLS, MOST_SPANS};
use std::alloc::Global;
use std::process::Abort;

// The text is `bcd` then, the tag on `b` and `c`.
const EDITS: Script = "
.t configure -undo 1 -> =
.t insert 1.0 abcd -> =
.t tag add t 1.1 1.3 -> =
.t delete 1.0 1.1 -> =
.t insert 1.1 X t -> =
.t edit undo -> =
";

const TOLD_OF_EDITS: &str = "put abcd at 0; on t 1 to 3; gone 0 to 1; put X t at 1; gone 1 to 2; ";

// `bXcd`, of which `b` and `c` go, and then the tag.
const MORE: Script = "
.t edit redo -> =
.t delete 1.0 1.1 1.2 1.3 -> =
.t tag remove t 1.0 end -> =
";

const TOLD_OF_MORE: &str = "put X t at 1; gone 2 to 3; gone 0 to 1; off t 0 to 1; ";

// A run of places.
fn add_run(
    alloc: Global,
    told: &mut String,
    what: &str,
    from: usize,
    to: usize,
) -> Result<(), Fault> {
    let run = format!(in alloc; "{what} {from} to {to}; ")?;
    told.push_str(run.as_str())?;
    Ok(())
}

// A text, with its tags and its place.
fn add_text(
    alloc: Global,
    told: &mut String,
    text: &[char],
    tags: &[String],
    at: usize,
) -> Result<(), Fault> {
    told.push_str("put ")?;
    for character in text {
        told.push(*character)?;
    }
    for tag in tags {
        told.push(' ')?;
        told.push_str(tag.as_str())?;
    }
    let place = format!(in alloc; " at {at}; ")?;
    told.push_str(place.as_str())?;
    Ok(())
}

// What is told of one operation.
fn add_change(alloc: Global, told: &mut String, change: &ToldChange) -> Result<(), Fault> {
    match change {
        ToldChange::Inserted { at, text, tags } => {
            add_text(alloc, told, text.characters(), tags, *at)?;
        }
        ToldChange::Deleted { runs } => {
            for run in runs {
                add_run(alloc, told, "gone", run.from, run.to)?;
            }
        }
        ToldChange::Tagged { on, name, runs } => {
            let which = if *on { "on" } else { "off" };
            let what = format!(in alloc; "{which} {name}")?;
            for run in runs {
                add_run(alloc, told, what.as_str(), run.from, run.to)?;
            }
        }
    }
    Ok(())
}

// What is told of several.
fn spelled(alloc: Global, changes: &[ToldChange]) -> Result<String, Fault> {
    let mut told = String::new(alloc);
    for change in changes {
        add_change(alloc, &mut told, change)?;
    }
    Ok(told)
}

// Stops a test where a site tells something else of a file that has a fault, or none.
fn tells_until(
    rt: &impl Abort,
    alloc: Global,
    site: &mut SiteState,
    bytes: &[u8],
    fault: Option<(Fault, u64)>,
    wanted: &str,
) {
    if bytes.len() > MOST_BYTES {
        same(rt, bytes.len(), MOST_BYTES);
        return;
    }
    let told = site.receive_telling(bytes);
    same(rt, told.received.fault, fault);
    let changes = spelled(alloc, &told.changes).expect(rt, "memory");
    same(rt, changes.as_str(), wanted);
}

fn tells(rt: &impl Abort, alloc: Global, site: &mut SiteState, bytes: &[u8], wanted: &str) {
    tells_until(rt, alloc, site, bytes, None, wanted);
}

// What is past what another site knows.
fn lacking(rt: &impl Abort, from: &SiteState, to: &SiteState) -> Vec<u8> {
    let ends = to.ends().expect(rt, "memory");
    from.export_since(&ends).expect(rt, "memory")
}

// Changes are told in the order of the operations, those of held ones behind what they waited for; and of repeats none.
#[test]
fn changes_are_told(rt: HostRuntime) {
    let alloc = rt.alloc();
    let mut second = new_site(&rt, alloc, 2, MOST_CELLS);
    let mut third = new_site(&rt, alloc, 3, MOST_CELLS);
    let first = new_site(&rt, alloc, 1, MOST_CELLS);
    let first = answered(&rt, alloc, first, &[], &[EDITS], 4096);
    let edits = lacking(&rt, &first, &second);
    tells(&rt, alloc, &mut second, &edits, TOLD_OF_EDITS);
    let first = answered(&rt, alloc, first, &[], &[MORE], 4096);
    let more = lacking(&rt, &first, &second);
    tells(&rt, alloc, &mut third, &more, "");
    tells(&rt, alloc, &mut second, &more, TOLD_OF_MORE);
    tells(&rt, alloc, &mut second, &edits, "");
    let both = [TOLD_OF_EDITS, TOLD_OF_MORE]
        .concat(alloc)
        .expect(&rt, "memory");
    tells(&rt, alloc, &mut third, &edits, both.as_str());
}

// What was taken before a fault is told.
#[test]
fn changes_before_a_fault_are_told(rt: HostRuntime) {
    let alloc = rt.alloc();
    let mut site = new_site(&rt, alloc, 3, MOST_CELLS);
    let fault = Some((Fault::Truncated, 44));
    tells_until(&rt, alloc, &mut site, CUT, fault, "put ab at 0; ");
    tells_until(&rt, alloc, &mut site, CUT, fault, "");
}

// Commands of a site and what each changes: the site tells it by itself, and another one of the operations.
const OWN: Script = r#"
.t configure -undo 1 -> nothing
.t insert 1.0 abcd -> put abcd at 0;
.t insert 1.2 X -> put X at 2;
.t insert end YZ t -> put YZ t at 5;
.t insert 1.0 12 {} 34 t 5 {t u} -> put 12 at 0; put 34 t at 2; put 5 t u at 4;
.t get 1.0 end -> nothing
.t replace 1.0 1.2 90 u -> gone 0 to 2; put 90 u at 0;
.t delete 1.0 1.1 1.3 1.5 -> gone 3 to 5; gone 0 to 1;
.t delete 1.0 1.0 -> nothing
.t tag add v 1.0 1.2 1.4 1.6 -> on v 4 to 6; on v 0 to 2;
.t tag add v 1.1 1.5 -> on v 2 to 4;
.t tag add sel 1.0 1.2 -> nothing
.t tag remove v 1.1 1.3 -> off v 1 to 3;
.t tag delete v -> off v 3 to 6; off v 0 to 1;
.t edit undo -> put 9 u at 0; put 4 t at 3; put 5 t u at 4;
.t edit redo -> gone 3 to 5; gone 0 to 1;
.t mark set here 1.2 -> nothing
.t tag delete t u -> off t 7 to 9; off t 1 to 2; off u 0 to 1;
.t tag add v 1.6 end -> on v 6 to 10;
.t tag add w 1.8 end -> on w 8 to 10;
.t delete 1.2 end -> gone 2 to 9; off v 2 to 3; off w 2 to 3;
"#;

// As many tags as an Insert lists.
const LISTED: &str =
    "t000 t001 t002 t003 t004 t005 t006 t007 t008 t009 t010 t011 t012 t013 t014 t015 t016 t017 t018 t019 t020 t021 t022 t023 t024 t025 t026 t027 t028 t029 t030 t031 t032 t033 t034 t035 t036 t037 t038 t039 t040 t041 t042 t043 t044 t045 t046 t047 t048 t049 t050 t051 t052 t053 t054 t055 t056 t057 t058 t059 t060 t061 t062 t063 t064 t065 t066 t067 t068 t069 t070 t071 t072 t073 t074 t075 t076 t077 t078 t079 t080 t081 t082 t083 t084 t085 t086 t087 t088 t089 t090 t091 t092 t093 t094 t095 t096 t097 t098 t099 t100 t101 t102 t103 t104 t105 t106 t107 t108 t109 t110 t111 t112 t113 t114 t115 t116 t117 t118 t119 t120 t121 t122 t123 t124 t125 t126 t127 t128 t129 t130 t131 t132 t133 t134 t135 t136 t137 t138 t139 t140 t141 t142 t143 t144 t145 t146 t147 t148 t149 t150 t151 t152 t153 t154 t155 t156 t157 t158 t159 t160 t161 t162 t163 t164 t165 t166 t167 t168 t169 t170 t171 t172 t173 t174 t175 t176 t177 t178 t179 t180 t181 t182 t183 t184 t185 t186 t187 t188 t189 t190 t191 t192 t193 t194 t195 t196 t197 t198 t199 t200 t201 t202 t203 t204 t205 t206 t207 t208 t209 t210 t211 t212 t213 t214 t215 t216 t217 t218 t219 t220 t221 t222 t223 t224 t225 t226 t227 t228 t229 t230 t231 t232 t233 t234 t235 t236 t237 t238 t239 t240 t241 t242 t243 t244 t245 t246 t247 t248 t249 t250 t251 t252 t253 t254";

// What a site tells of a line that it is asked; none where it isn't known.
fn told_by_itself(
    rt: &impl Abort,
    alloc: Global,
    site: &mut SiteState,
    line: &str,
    fault: Option<Fault>,
) -> Option<String> {
    let words = words(alloc, line).expect(rt, line);
    let (path, rest) = words.split_first().expect(rt, line);
    let told = site.command_telling(path, rest);
    same(rt, told.reply.err(), fault);
    let changes = told.changes?;
    Some(spelled(alloc, &changes).expect(rt, "memory"))
}

// What a site tells of the operations of another one that it lacks.
fn told_by_other(rt: &impl Abort, alloc: Global, from: &SiteState, to: &mut SiteState) -> String {
    let bytes = lacking(rt, from, to);
    if bytes.len() > MOST_BYTES {
        same(rt, bytes.len(), MOST_BYTES);
        return String::new(alloc);
    }
    let told = to.receive_telling(&bytes);
    same(rt, told.received.fault, None);
    spelled(alloc, &told.changes).expect(rt, "memory")
}

// Stops a test where a site tells something else of a row's line than another one does of the operations that it makes.
fn tells_of_own(
    rt: &impl Abort,
    alloc: Global,
    sites: (&mut SiteState, &mut SiteState),
    row: &str,
) {
    let (site, other) = sites;
    let (line, wanted) = row.split_once(" -> ").expect(rt, row);
    let own = told_by_itself(rt, alloc, site, line, None).expect(rt, line);
    let told = told_by_other(rt, alloc, site, other);
    same(rt, own.as_str(), told.as_str());
    if told.is_empty() {
        same(rt, "nothing", wanted);
    } else {
        same(rt, told.as_str().trim_end(), wanted);
    }
}

#[test]
fn own_changes_are_told(rt: HostRuntime) {
    let alloc = rt.alloc();
    let mut first = new_site(&rt, alloc, 1, MOST_CELLS);
    let mut second = new_site(&rt, alloc, 2, MOST_CELLS);
    for row in OWN.lines() {
        if !row.is_empty() {
            tells_of_own(&rt, alloc, (&mut first, &mut second), row);
        }
    }
}

// A tag past those that an Insert lists is a Tag of its own: one for each part of a text, for each character that comes back,
// and for the last newline that loses it.
#[test]
fn more_tags_than_an_insert_lists(rt: HostRuntime) {
    let alloc = rt.alloc();
    let mut first = new_site(&rt, alloc, 1, MOST_CELLS);
    let mut second = new_site(&rt, alloc, 2, MOST_CELLS);
    let rows = format!(in alloc;
        ".t configure -undo 1 -> nothing
.t insert 1.0 x {{{LISTED} z}} -> put x {LISTED} at 0; on z 0 to 1;
.t insert 1.0 v {{{LISTED} z}} w {{{LISTED} z zz}} -> put v {LISTED} at 0; on z 0 to 1; put w {LISTED} at 1; on z 1 to 2; on zz 1 to 2;
.t delete 1.0 1.2 -> gone 0 to 2;
.t edit undo -> put v {LISTED} at 0; on z 0 to 1; put w {LISTED} at 1; on z 1 to 2; on zz 1 to 2;
.t tag add zz end-1c -> on zz 3 to 4;
.t replace 1.1 end q {{{LISTED} zz}} -> gone 1 to 3; off zz 1 to 2; put q {LISTED} at 1; on zz 1 to 2;"
    )
    .expect(&rt, "memory");
    for row in rows.lines() {
        tells_of_own(&rt, alloc, (&mut first, &mut second), row);
    }
}

// The newline at the end of what a widget shows is of another site, with a greater number. So its stamp lies behind those of
// the text that comes in, though its Tag comes first.
#[test]
fn a_newline_of_another_site(rt: HostRuntime) {
    let alloc = rt.alloc();
    let mut first = new_site(&rt, alloc, 1, MOST_CELLS);
    let mut second = new_site(&rt, alloc, 2, MOST_CELLS);
    runs(&rt, alloc, &mut second, ".t insert 1.0 \"ab\\ncd\"");
    runs(&rt, alloc, &mut second, ".t tag add z 1.0 end");
    let _ = told_by_other(&rt, alloc, &second, &mut first);
    runs(&rt, alloc, &mut first, ".t peer create .p -endline 2");
    let row = format!(in alloc;
        ".p replace 1.0 end q {{{LISTED} z}} r {{{LISTED} z}} -> gone 0 to 2; off z 0 to 1; put q {LISTED} at 0; on z 0 to 1; put r {LISTED} at 1; on z 1 to 2;"
    ).expect(&rt, "memory");
    tells_of_own(&rt, alloc, (&mut first, &mut second), row.as_str());
}

// A line that a site runs, of which nothing is told.
fn runs(rt: &impl Abort, alloc: Global, site: &mut SiteState, line: &str) {
    let words = words(alloc, line).expect(rt, line);
    let (path, rest) = words.split_first().expect(rt, line);
    same(rt, site.command(path, rest).err(), None);
}

// A tag on more spans than one operation names is put on by two. One names the last newline and all characters but the last;
// the other names that character.
#[test]
fn more_spans_than_a_tag_names(rt: HostRuntime) {
    let alloc = rt.alloc();
    let mut first = new_site(&rt, alloc, 1, MOST_CELLS);
    let mut second = new_site(&rt, alloc, 2, MOST_CELLS);
    for _ in 0..MOST_SPANS {
        runs(&rt, alloc, &mut first, ".t insert end xy");
        runs(&rt, alloc, &mut first, ".t delete end-2c");
    }
    let _ = told_by_other(&rt, alloc, &first, &mut second);
    let row = ".t tag add u 1.0 end -> on u 65536 to 65537; on u 0 to 65535; on u 65535 to 65536;";
    tells_of_own(&rt, alloc, (&mut first, &mut second), row);
}

// Stops a test where a site tells something else of a line, which may be refused.
fn tells_of_line(
    rt: &impl Abort,
    alloc: Global,
    site: &mut SiteState,
    line: &str,
    fault: Option<Fault>,
    wanted: &str,
) {
    let told = told_by_itself(rt, alloc, site, line, fault).expect(rt, line);
    same(rt, told.as_str(), wanted);
}

// What is held for an operation that a site makes again is told behind it; and what is refused changes nothing.
#[test]
fn held_ones_are_told_behind_own(rt: HostRuntime) {
    let alloc = rt.alloc();
    let mut first = new_site(&rt, alloc, 1, MOST_CELLS);
    let mut second = new_site(&rt, alloc, 2, MOST_CELLS);
    let mut again = new_site(&rt, alloc, 1, MOST_CELLS);
    let line = ".t insert 1.0 ab";
    tells_of_line(&rt, alloc, &mut first, line, None, "put ab at 0; ");
    let own = lacking(&rt, &first, &second);
    tells(&rt, alloc, &mut second, &own, "put ab at 0; ");
    let typed = ".t insert 1.1 X";
    tells_of_line(&rt, alloc, &mut second, typed, None, "put X at 1; ");
    let other = lacking(&rt, &second, &first);
    tells(&rt, alloc, &mut again, &other, "");
    tells_of_line(
        &rt,
        alloc,
        &mut again,
        ".x get 1.0",
        Some(Fault::NoWidget),
        "",
    );
    tells_of_line(
        &rt,
        alloc,
        &mut again,
        ".t frob",
        Some(Fault::BadCommand),
        "",
    );
    tells_of_line(
        &rt,
        alloc,
        &mut again,
        line,
        None,
        "put ab at 0; put X at 1; ",
    );
}
