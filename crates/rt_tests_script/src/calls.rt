// The calls by which a program that embeds a site makes widgets, and sets and asks what they show.
use crate::checks::same;
use crate::sites::{Script, answered, new_site};
use rt_requests::{Limit, NamedOption, Path, PeerRequest, Request, Settings, WidgetSettings};
use rt_script::{Reply, SiteState};
use rt_stamps::Fault;
use rt_stamps::limits::MOST_CELLS;
use std::alloc::Global;
use std::process::Abort;

const LINES: Script = r#".t insert 1.0 "a\nb\nc" -> ="#;

// What is left of it for the widgets once they were set by calls.
const SHOWN: Script = r#"
.p get 1.0 end -> = "b\n"
.t get 1.0 end -> = "a\nb\nc\n"
.t cget -undo -> = 1
"#;

// Limits, and whether edits are kept for undo.
fn settings(start: Limit, end: Limit, undo: Option<bool>) -> WidgetSettings {
    let shared = Settings {
        undo,
        auto_separators: None,
        max_undo: None,
    };
    WidgetSettings {
        shared,
        start_line: Some(start),
        end_line: Some(end),
    }
}

/// Stops a test where a call is refused, or replies with another word.
pub(crate) fn replies(rt: &impl Abort, alloc: Global, reply: Result<Reply, Fault>, wanted: &str) {
    let reply = reply.expect(rt, wanted);
    let word = reply.words.concat(alloc).expect(rt, "memory");
    same(rt, word.as_str(), wanted);
}

// What an option of a widget is set to, as a request.
fn option(option: NamedOption) -> Request<'static> {
    Request::Cget { option }
}

// Makes a widget that shows a text from its second line on, and asks for what it shows.
fn create(rt: &impl Abort, alloc: Global, site: &mut SiteState) {
    let path = Path::of(".p").expect(rt, "a path");
    let settings = settings(Limit::Line(2), Limit::Absent, None);
    let create = Request::Peer(PeerRequest::Create { path, settings });
    let names = Request::Peer(PeerRequest::Names);
    replies(rt, alloc, site.answer(".t", &create), ".p");
    replies(rt, alloc, site.answer(".p", &names), ".t");
    let start = option(NamedOption::StartLine);
    replies(rt, alloc, site.answer(".p", &start), "2");
    let end = option(NamedOption::EndLine);
    replies(rt, alloc, site.answer(".p", &end), "");
}

// Sets what the new widget shows, and looks at what is refused.
fn configure(rt: &impl Abort, site: &mut SiteState) {
    let shown = settings(Limit::Line(2), Limit::Line(3), Some(true));
    let second = Request::Configure { settings: shown };
    same(rt, site.answer(".p", &second).err(), None);
    same(rt, site.answer(".x", &second).err(), Some(Fault::NoWidget));
    let none = settings(Limit::Line(2), Limit::Line(2), Some(false));
    let empty = Request::Configure { settings: none };
    same(rt, site.answer(".p", &empty).err(), Some(Fault::BadView));
}

// Sets how many groups may be undone, and asks for it.
fn bound(rt: &impl Abort, alloc: Global, site: &mut SiteState) {
    let shared = Settings {
        undo: None,
        auto_separators: None,
        max_undo: Some(7),
    };
    let settings = WidgetSettings {
        shared,
        start_line: None,
        end_line: None,
    };
    let configure = Request::Configure { settings };
    same(rt, site.answer(".p", &configure).err(), None);
    let most = option(NamedOption::MaxUndo);
    replies(rt, alloc, site.answer(".t", &most), "7");
}

#[test]
fn calls_about_widgets(rt: HostRuntime) {
    let alloc = rt.alloc();
    let state = new_site(&rt, alloc, 1, MOST_CELLS);
    let mut site = answered(&rt, alloc, state, &[], &[LINES], 4096);
    create(&rt, alloc, &mut site);
    configure(&rt, &mut site);
    bound(&rt, alloc, &mut site);
    let _site = answered(&rt, alloc, site, &[], &[SHOWN], 4096);
}
