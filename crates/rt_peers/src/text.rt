// The text of a site, and what is asked of the widget that commands.
ghost use Rattle.std.specs.Prelude.{◌≡◌, ◌<◌, ◌≤◌, Err, IfOk, IsOkUnless, length, true};
ghost use Rattle.rt_stamps.specs.declared.limits.TheConstants.{MOST_CELLS};
ghost use Rattle.rt_stamps.specs.Outcomes.{Answers};
ghost use Rattle.rt_text.specs.Widgets.{view_as, widgets_of};
ghost use Rattle.rt_peers.specs.SiteStep.{by_leading};
ghost use Rattle.rt_peers.specs.SiteValue.{new_text};
ghost use Rattle.rt_peers.specs.Step.{step};
ghost use Rattle.rt_peers.specs.TakesNone.{IsRefusedAs, takes_none};

mod editing;
mod exchange;
mod marking;
mod noting;
mod options;
mod peers;
mod telling;
mod undoing;

use crate::commands;
use crate::reply::Reply;
use rt_recording::Recorder;
use rt_requests::Request;
use rt_stamps::{Fault, Site};
use rt_text::{View, ViewRef};
use rt_tree::TreeStore;
use std::alloc::Global;
use std::marker::Model;

/// A site's document as one of its widgets shows it, with what it recorded of its edits.
pub(crate) struct EditedText {
    alloc: Global,
    view: View<TreeStore>,
    recorder: Recorder,
}

// Written out, so that where a text is let go is one step for the site, and not one for each field of
// each field.
impl Drop for EditedText {
    fn drop(self) {
        let EditedText {
            alloc: _,
            view: _,
            recorder: _,
        } = self;
    }
}

impl Model for EditedText {
    ghost use Rattle.rt_recording.specs.Settled.{IsSettled};
    ghost use Rattle.rt_recording.specs.EditedValue.{EditedValue, edited};

    ghost Value = { EditedValue };

    ghost view = { λ s. edited s.view s.recorder };

    ghost invariant = { λ s. IsSettled s.view s.recorder };
}

impl EditedText {
    /// That of a new site with one widget, with at most `limit` cells, the final newline and tombstones included.
    pub(crate) fn new(alloc: Global, site: Site, limit: usize) -> Result<EditedText, Fault>
        requires { (1 ≤ limit) × (limit ≤ MOST_CELLS) }
        ensures ok { IfOk result (λ text. text ≡ new_text site.number limit) }
        ensures err { IsOkUnless result Fault.NoMemory }
    {
        let store = TreeStore::new(alloc)?;
        let view = View::new(alloc, store, site, limit)?;
        let recorder = Recorder::new(alloc)?;
        Ok(EditedText {
            alloc,
            view,
            recorder,
        })
    }

    /// The text as the widget of a number shows it, borrowed.
    pub(crate) fn widget(&self, number: usize) -> ViewRef<'_, TreeStore>
        requires { number < length (widgets_of self.now.view) }
        ensures { result ≡ view_as number self.now.view }
    {
        self.view.shown_by(number)
    }

    /// What is asked of the widget. Refused by the request's own faults, or for want of memory; then
    /// all is as it was. What is asked of its peers isn't the text's to answer.
    pub(crate) fn request(&mut self, request: &Request<'_>) -> Result<Reply, Fault>
        ensures answers { Answers (step self.old request.now) self.old result self.new }
        ensures memory { takes_none request.now ≡ true → IsRefusedAs (step self.old request.now) result }
    {
        match request {
            Request::Insert { index, texts } => self.insert(index, texts),
            Request::Delete { indices } => self.delete(indices),
            Request::Replace { from, to, texts } => self.replace(from, to, texts),
            Request::Get { indices } => commands::get(self.alloc, &self.view.shown(), indices),
            Request::Index { index } => commands::index(self.alloc, &self.view.shown(), index),
            Request::Compare {
                first,
                comparison,
                second,
            } => commands::compare(self.alloc, &self.view.shown(), first, *comparison, second),
            Request::Count { measures, from, to } => {
                commands::count(self.alloc, &self.view.shown(), measures, from, to)
            }
            Request::Search(request) => commands::search(self.alloc, &self.view.shown(), request),
            Request::Dump { kinds, from, to } => {
                commands::dump(self.alloc, &self.view.shown(), *kinds, from, to)
            }
            Request::Mark(request) => self.mark(request),
            Request::Tag(request) => self.tag(request),
            Request::Edit(request) => self.edit(*request),
            Request::Configure { settings } => self.set(settings),
            Request::Cget { option } => self.tell(*option),
            Request::Peer(_) => Err(Fault::BadCommand),
        }
    }
    /// What is asked of the widget of a number, as `request` of the one that commands.
    pub(crate) fn ask(&mut self, number: usize, request: &Request<'_>) -> Result<Reply, Fault>
        requires { number < length (widgets_of self.old.view) }
        ensures answers { Answers (by_leading number self.old (λ text. step text request.now)) self.old result self.new }
        ensures memory { takes_none request.now ≡ true → IsRefusedAs (by_leading number self.old (λ text. step text request.now)) result }
    {
        self.lead(number);
        let reply = self.request(request);
        self.lead(number);
        reply
    }
}
