// What is asked of the widget of a number, so that no path is looked for.
ghost use Rattle.std.specs.Prelude.{◌≡◌, ◌≤◌, Err, IfSome, IsSome, length, true};
ghost use Rattle.rt_requests.specs.declared.request.EditRequest.TheVariants.{Redo, Undo};
ghost use Rattle.rt_requests.specs.declared.request.Request.TheVariants.{Edit};
ghost use Rattle.rt_peers.specs.Numbered.{step_by, view_by};
ghost use Rattle.rt_peers.specs.SiteStep.{AnswersInTurn, log_of};
ghost use Rattle.rt_peers.specs.SiteValue.{number_of_path};
ghost use Rattle.rt_peers.specs.TakesNone.{IsRefusedAs, takes_none};
ghost use Rattle.rt_peers.specs.Telling.{AreToldOf};

use super::SiteState;
use crate::paths::number_of;
use crate::reply::Reply;
use crate::told::ToldAnswer;
use rt_requests::{EditRequest, Request};
use rt_stamps::Fault;
use rt_text::ViewRef;
use rt_tree::TreeStore;

impl SiteState {
    /// The number of the widget of a path: its place in `paths`, from 0, by which whoever asks a widget often asks it. It is
    /// that widget's until it or one before it is destroyed; then numbers are to be asked anew. None where there is no such
    /// widget. It takes no memory.
    pub fn number_of(&self, path: &str) -> Option<usize>
        ensures { result ≡ number_of_path path.now self.now.paths }
    {
        number_of(&self.paths, path)
    }

    /// What the widget of a number shows, borrowed, as `widget` lends that of a path. None where there is no such widget. It
    /// takes no memory.
    pub fn shown_by(&self, number: usize) -> Option<ViewRef<'_, TreeStore>>
        ensures { result ≡ view_by number self.now }
    {
        if number >= self.paths.len() {
            return None;
        }
        Some(self.text.widget(number))
    }

    /// What is asked of the widget of a number, as `answer` asks that of a path; of its peers a widget is asked by its path
    /// alone, here with `BadCommand`. Refused by the first of `NoWidget` and the request's own faults, or for want of memory in
    /// place of any but `NoWidget`; then the site is as it was. Requests that take no memory (`takes_none`) are refused by
    /// their own faults alone.
    pub fn ask(&mut self, number: usize, request: &Request<'_>) -> Result<Reply, Fault>
        ensures answers { AnswersInTurn (step_by number self.old request.now) self.old result self.new }
        ensures none { length self.old.paths ≤ number → result ≡ Err Fault.NoWidget }
        ensures memory { takes_none request.now ≡ true → IsRefusedAs (step_by number self.old request.now) result }
    {
        if number >= self.paths.len() {
            return Err(Fault::NoWidget);
        }
        self.ask_text(number, request)
    }

    /// What is asked of the widget of a number, as `ask` does it, and what changed in the visible text, as `answer_telling`
    /// tells it. The faults are those of `ask`; then nothing changed.
    pub fn ask_telling(&mut self, number: usize, request: &Request<'_>) -> ToldAnswer
        ensures answers { AnswersInTurn (step_by number self.old request.now) self.old result.reply self.new }
        ensures none { length self.old.paths ≤ number → result.reply ≡ Err Fault.NoWidget }
        ensures memory { takes_none request.now ≡ true → IsRefusedAs (step_by number self.old request.now) result.reply }
        ensures told { IfSome result.changes (λ changes. AreToldOf self.old.text self.new.text changes.items) }
        ensures known { log_of self.new ≡ log_of self.old → IsSome result.changes }
    {
        if number >= self.paths.len() {
            let changes = Some(Vec::new(self.alloc));
            return ToldAnswer {
                reply: Err(Fault::NoWidget),
                changes,
            };
        }
        self.ask_text_telling(number, request)
    }

    /// Undoes the last group of edits (Tk text manual, "edit undo"), and tells what changed in the visible text, as
    /// `answer_telling` does. The number is of the widget that is asked; all widgets share what is undone. Where
    /// `-undo` is off nothing is done. Refused by the first of `NoWidget`, `NothingToUndo`, `ClockSpent` and `TextFull`, or for
    /// want of memory in place of any but `NoWidget`; then nothing changed.
    pub fn undo(&mut self, number: usize) -> ToldAnswer
        ensures answers { AnswersInTurn (step_by number self.old (Edit Undo)) self.old result.reply self.new }
        ensures none { length self.old.paths ≤ number → result.reply ≡ Err Fault.NoWidget }
        ensures told { IfSome result.changes (λ changes. AreToldOf self.old.text self.new.text changes.items) }
        ensures known { log_of self.new ≡ log_of self.old → IsSome result.changes }
    {
        self.ask_telling(number, &Request::Edit(EditRequest::Undo))
    }

    /// Does the group of edits again that was undone last (Tk text manual, "edit redo"), and tells what changed in the
    /// visible text, as `undo` does. Where `-undo` is off nothing is done. Refused by the first of `NoWidget`, `NothingToRedo`,
    /// `ClockSpent` and `TextFull`, or for want of memory in place of any but `NoWidget`; then nothing changed.
    pub fn redo(&mut self, number: usize) -> ToldAnswer
        ensures answers { AnswersInTurn (step_by number self.old (Edit Redo)) self.old result.reply self.new }
        ensures none { length self.old.paths ≤ number → result.reply ≡ Err Fault.NoWidget }
        ensures told { IfSome result.changes (λ changes. AreToldOf self.old.text self.new.text changes.items) }
        ensures known { log_of self.new ≡ log_of self.old → IsSome result.changes }
    {
        self.ask_telling(number, &Request::Edit(EditRequest::Redo))
    }
}
