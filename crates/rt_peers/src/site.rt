// A site, and what is asked of its widgets.
ghost use Rattle.std.specs.Prelude.{◌≡◌, ◌<◌, ◌≤◌, Err, IfOk, IsOkUnless, None, length, true};
ghost use Rattle.rt_stamps.specs.declared.limits.TheConstants.{MOST_CELLS};
ghost use Rattle.rt_stamps.specs.Words.{as_words};
ghost use Rattle.rt_peers.specs.Peers.{HavePaths};
ghost use Rattle.rt_peers.specs.SiteStep.{AnswersInTurn, Gives, by_widget, step_at, widget_step};
ghost use Rattle.rt_peers.specs.SiteValue.{new_site, number_of_path};
ghost use Rattle.rt_peers.specs.Step.{step};
ghost use Rattle.rt_peers.specs.TakesNone.{IsRefusedAs, takes_none};

mod cursors;
mod exchange;
mod numbered;
mod peers;
mod telling;
mod undoing;

use crate::paths::number_of;
use crate::reply::Reply;
use crate::text::EditedText;
use rt_holding::Held;
use rt_requests::Request;
use rt_stamps::{Fault, Site};
use std::alloc::Global;
use std::marker::Model;

/// A site with its document, the widgets that show it, what it recorded of its edits, and the operations that it
/// holds as they came early.
pub struct SiteState {
    alloc: Global,
    paths: Vec<String>,
    text: EditedText,
    held: Held,
}

// Written out, so that where a site is let go is one step for the crates above, and not one for each
// field of each field.
impl Drop for SiteState {
    fn drop(self) {
        let SiteState {
            alloc: _,
            paths: _,
            text: _,
            held: _,
        } = self;
    }
}

impl Model for SiteState {
    ghost use Rattle.rt_stamps.specs.Words.{as_words};
    ghost use Rattle.rt_holding.specs.Grown.{AreTriedAt};
    ghost use Rattle.rt_peers.specs.Peers.{HavePaths};
    ghost use Rattle.rt_peers.specs.SiteValue.{SiteValue};

    ghost Value = { SiteValue };

    ghost view = { λ s. record { paths = as_words s.paths.items; text = s.text; held = s.held.held } };

    ghost invariant = { λ s. record {
      paths : HavePaths (as_words s.paths.items) s.text.view;
      tried : AreTriedAt s.text.view.doc.limit s.text.view.doc.log s.held;
    } };
}

impl SiteState {
    /// A new site with the widget `.t`, with at most `limit` cells, 1 to `MOST_CELLS`, the final newline
    /// and tombstones included. `NoMemory` is its only fault.
    pub fn new(alloc: Global, site: Site, limit: usize) -> Result<SiteState, Fault>
        requires { (1 ≤ limit) × (limit ≤ MOST_CELLS) }
        ensures ok { IfOk result (λ state. state ≡ new_site site.number limit) }
        ensures err { IsOkUnless result Fault.NoMemory }
    {
        let text = EditedText::new(alloc, site, limit)?;
        let mut paths = Vec::with_capacity(alloc, 1)?;
        paths.push(String::from_str(alloc, ".t")?)?;
        Ok(SiteState {
            alloc,
            paths,
            text,
            held: Held::new(alloc),
        })
    }

    /// The paths of its widgets, in the order in which they were made.
    pub fn paths(&self) -> &[String]
        ensures paths { as_words result.now ≡ self.now.paths }
        ensures each { HavePaths self.now.paths self.now.text.view }
    {
        &self.paths
    }

    // What is asked of what the widget of a number shows. Refused by the request's own faults, or for want of
    // memory; then the site is as it was. Where it made operations, held ones are tried then.
    fn ask_text(&mut self, number: usize, request: &Request<'_>) -> Result<Reply, Fault>
        requires { number < length self.old.paths }
        ensures answers { AnswersInTurn (by_widget number self.old (λ text. step text request.now)) self.old result self.new }
        ensures memory { takes_none request.now ≡ true → IsRefusedAs (by_widget number self.old (λ text. step text request.now)) result }
    {
        let before = self.text.log().len();
        let reply = self.text.ask(number, request);
        if before < self.text.log().len() {
            let site = self.text.site().number();
            self.held.settle(&mut self.text, site);
        }
        reply
    }

    // What is asked of the widget of a path, which is the one of a number.
    fn request(&mut self, path: &str, number: usize, request: &Request<'_>) -> Result<Reply, Fault>
        requires { number < length self.old.paths }
        ensures answers { AnswersInTurn (widget_step path.now number self.old request.now) self.old result self.new }
        ensures memory { takes_none request.now ≡ true → IsRefusedAs (widget_step path.now number self.old request.now) result }
    {
        match request {
            Request::Peer(request) => self.peers(path, number, request),
            _ => self.ask_text(number, request),
        }
    }

    /// What is asked of the widget of a path. Refused by the first of `NoWidget` and the request's own faults
    /// (docs/WIDGET.md, docs/PEERS.md, by command), or for want of memory in place of any but `NoWidget`; then the site is
    /// as it was. Requests that take no memory (`takes_none`) are refused by their own faults alone. Where the site made
    /// operations for it, those that it holds are tried then, and those that can be taken change text, marks and tags as
    /// received ones do; the reply speaks of the state before that.
    pub fn answer(&mut self, path: &str, request: &Request<'_>) -> Result<Reply, Fault>
        ensures answers { AnswersInTurn (step_at path.now self.old request.now) self.old result self.new }
        ensures none { number_of_path path.now self.old.paths ≡ None → result ≡ Err Fault.NoWidget }
        ensures memory { takes_none request.now ≡ true → IsRefusedAs (step_at path.now self.old request.now) result }
    {
        let Some(number) = number_of(&self.paths, path) else {
            return Err(Fault::NoWidget);
        };
        self.request(path, number, request)
    }

    /// `PATH COMMAND WORDS` (Tk text manual): what words ask of the widget of a path (`Request::of`). Refused by the first
    /// of `NoWidget`, the faults of the words and of the request, and want of memory in place of any but the first;
    /// then the site is as it was.
    pub fn command(&mut self, path: &str, words: &[String]) -> Result<Reply, Fault>
        ensures { Gives path.now (as_words words.now) self.old result self.new }
    {
        let Some(number) = number_of(&self.paths, path) else {
            return Err(Fault::NoWidget);
        };
        match Request::of(self.alloc, words) {
            Ok(request) => self.request(path, number, &request),
            Err(fault) => Err(fault),
        }
    }
}
