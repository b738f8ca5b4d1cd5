// What is asked of a site's widgets, with what it changes in the visible text.
ghost use Rattle.std.specs.Prelude.{◌≡◌, ◌<◌, Err, IfSome, IsSome, None, length, true};
ghost use Rattle.rt_stamps.specs.Words.{as_words};
ghost use Rattle.rt_rga.specs.Texts.{tagged_text};
ghost use Rattle.rt_changes.specs.Replays.{AreInText, replayed};
ghost use Rattle.rt_changes.specs.Telling.{all_changes_in};
ghost use Rattle.rt_peers.specs.SiteStep.{AnswersInTurn, Gives, by_widget, log_of, step_at, widget_step};
ghost use Rattle.rt_peers.specs.SiteValue.{number_of_path};
ghost use Rattle.rt_peers.specs.Step.{step};
ghost use Rattle.rt_peers.specs.TakesNone.{IsRefusedAs, takes_none};
ghost use Rattle.rt_peers.specs.Telling.{AreToldBetween, AreToldOf};

use super::SiteState;
use crate::paths::number_of;
use crate::told::ToldAnswer;
use rt_requests::Request;
use rt_stamps::Fault;

impl SiteState {
    // What is asked of what the widget of a number shows, as `ask_text` does it, with what changed.
    pub(super) fn ask_text_telling(&mut self, number: usize, request: &Request<'_>) -> ToldAnswer
        requires { number < length self.old.paths }
        ensures answers { AnswersInTurn (by_widget number self.old (λ text. step text request.now)) self.old result.reply self.new }
        ensures memory { takes_none request.now ≡ true → IsRefusedAs (by_widget number self.old (λ text. step text request.now)) result.reply }
        ensures told { IfSome result.changes (λ changes. AreToldOf self.old.text self.new.text changes.items) }
        ensures known { log_of self.new ≡ log_of self.old → IsSome result.changes }
    {
        let before = self.text.log().len();
        let ToldAnswer { reply, changes } = self.text.ask_telling(number, request);
        if self.text.log().len() <= before {
            return ToldAnswer { reply, changes };
        }
        let site = self.text.site().number();
        let changes = self.text.settle_telling(&mut self.held, site, changes);
        // For its clauses alone.
        let _ = self.text.log();
        ToldAnswer { reply, changes }
    }

    // What is asked of the widget of a path, which is the one of a number, with what changed.
    fn request_telling(&mut self, path: &str, number: usize, request: &Request<'_>) -> ToldAnswer
        requires { number < length self.old.paths }
        ensures answers { AnswersInTurn (widget_step path.now number self.old request.now) self.old result.reply self.new }
        ensures memory { takes_none request.now ≡ true → IsRefusedAs (widget_step path.now number self.old request.now) result.reply }
        ensures told { IfSome result.changes (λ changes. AreToldOf self.old.text self.new.text changes.items) }
        ensures known { log_of self.new ≡ log_of self.old → IsSome result.changes }
    {
        match request {
            Request::Peer(request) => {
                // For its clauses alone.
                let _ = self.log();
                let reply = self.peers(path, number, request);
                // For its clauses alone.
                let _ = self.log();
                let changes = Some(Vec::new(self.alloc));
                ToldAnswer { reply, changes }
            }
            _ => self.ask_text_telling(number, request),
        }
    }

    /// What is asked of the widget of a path, as `answer` does it, and what changed in the visible text: what each of
    /// the operations changed that the site made for it, and each held one that was taken, in an order in which they could be.
    /// Each change is of the text that those before it left, so all of them, done one after the other to what was
    /// shown, with its tags, give what is shown now. Only what changes is told. `None` only where operations
    /// were accepted and it isn't known what they changed, for want of memory to tell. The faults are those of `answer`; then
    /// nothing changed.
    pub fn answer_telling(&mut self, path: &str, request: &Request<'_>) -> ToldAnswer
        ensures answers { AnswersInTurn (step_at path.now self.old request.now) self.old result.reply self.new }
        ensures none { number_of_path path.now self.old.paths ≡ None → result.reply ≡ Err Fault.NoWidget }
        ensures memory { takes_none request.now ≡ true → IsRefusedAs (step_at path.now self.old request.now) result.reply }
        ensures told { IfSome result.changes (λ changes. AreToldBetween (log_of self.old) (log_of self.new) changes.items) }
        ensures replayed { IfSome result.changes (λ changes. replayed (all_changes_in changes.items) (tagged_text self.old.text.view.doc.cells)
            ≡ tagged_text self.new.text.view.doc.cells) }
        ensures within { IfSome result.changes (λ changes. AreInText (all_changes_in changes.items) (tagged_text self.old.text.view.doc.cells)) }
        ensures known { log_of self.new ≡ log_of self.old → IsSome result.changes }
    {
        let Some(number) = number_of(&self.paths, path) else {
            let changes = Some(Vec::new(self.alloc));
            return ToldAnswer {
                reply: Err(Fault::NoWidget),
                changes,
            };
        };
        self.request_telling(path, number, request)
    }

    /// `PATH COMMAND WORDS` (Tk text manual): what words ask of the widget of a path, as `command` does it, and what
    /// changed in the visible text, as `answer_telling` tells it. The faults are those of `command`: the first of
    /// `NoWidget`, those of the words and of the request, and `NoMemory` in place of any but the first; then nothing
    /// changed.
    pub fn command_telling(&mut self, path: &str, words: &[String]) -> ToldAnswer
        ensures gives { Gives path.now (as_words words.now) self.old result.reply self.new }
        ensures told { IfSome result.changes (λ changes. AreToldBetween (log_of self.old) (log_of self.new) changes.items) }
        ensures replayed { IfSome result.changes (λ changes. replayed (all_changes_in changes.items) (tagged_text self.old.text.view.doc.cells)
            ≡ tagged_text self.new.text.view.doc.cells) }
        ensures within { IfSome result.changes (λ changes. AreInText (all_changes_in changes.items) (tagged_text self.old.text.view.doc.cells)) }
        ensures known { log_of self.new ≡ log_of self.old → IsSome result.changes }
    {
        let Some(number) = number_of(&self.paths, path) else {
            let changes = Some(Vec::new(self.alloc));
            return ToldAnswer {
                reply: Err(Fault::NoWidget),
                changes,
            };
        };
        match Request::of(self.alloc, words) {
            Ok(request) => self.request_telling(path, number, &request),
            Err(fault) => {
                let changes = Some(Vec::new(self.alloc));
                ToldAnswer {
                    reply: Err(fault),
                    changes,
                }
            }
        }
    }
}
