// What is asked of the undo mechanism.
ghost use Rattle.std.specs.Prelude.{◌≡◌, true};
ghost use Rattle.rt_stamps.specs.Outcomes.{Answers};
ghost use Rattle.rt_undo.specs.Undo.{is_modified};
ghost use Rattle.rt_recording.specs.Reverts.{text_redone, text_undone};
ghost use Rattle.rt_peers.specs.Step.{can_redo, can_undo, edit_step};
ghost use Rattle.rt_peers.specs.TakesNone.{IsRefusedAs, edit_takes_none};
ghost use Rattle.rt_peers.specs.ViewStep.{changed_step};

use super::EditedText;
use crate::replies::{changed, no_words, truth};
use crate::reply::Reply;
use rt_requests::EditRequest;
use rt_stamps::Fault;
use rt_tree::TreeStore;

impl EditedText {
    /// Whether edits are recorded and there is a group to undo.
    pub(crate) fn can_undo(&self) -> bool
        ensures { result ≡ can_undo self.now }
    {
        self.recorder.is_undo_on() && self.recorder.can_undo()
    }

    /// Whether edits are recorded and there is a group to redo.
    pub(crate) fn can_redo(&self) -> bool
        ensures { result ≡ can_redo self.now }
    {
        self.recorder.is_undo_on() && self.recorder.can_redo()
    }

    /// The modified flag.
    pub(crate) fn is_modified(&self) -> bool
        ensures { result ≡ is_modified self.now.history }
    {
        self.recorder.modified()
    }

    // The last group of edits is undone.
    fn undo(&mut self) -> Result<Reply, Fault>
        ensures { Answers (changed_step (text_undone self.old)) self.old result self.new }
    {
        let copy = TreeStore::new(self.alloc)?;
        let undone = rt_recording::undo(&mut self.view, &mut self.recorder, copy);
        changed(self.alloc, undone)
    }

    // The group that was undone last is done again.
    fn redo(&mut self) -> Result<Reply, Fault>
        ensures { Answers (changed_step (text_redone self.old)) self.old result self.new }
    {
        let copy = TreeStore::new(self.alloc)?;
        let redone = rt_recording::redo(&mut self.view, &mut self.recorder, copy);
        changed(self.alloc, redone)
    }

    // What is asked of the undo mechanism.
    pub(super) fn edit(&mut self, request: EditRequest) -> Result<Reply, Fault>
        ensures answers { Answers (edit_step self.old request) self.old result self.new }
        ensures memory { edit_takes_none request ≡ true → IsRefusedAs (edit_step self.old request) result }
    {
        match request {
            EditRequest::Undo => self.undo(),
            EditRequest::Redo => self.redo(),
            EditRequest::Separator => {
                self.recorder.separate();
                Ok(no_words(self.alloc))
            }
            EditRequest::Reset => {
                self.recorder.reset();
                Ok(no_words(self.alloc))
            }
            EditRequest::CanUndo => truth(self.alloc, self.can_undo()),
            EditRequest::CanRedo => truth(self.alloc, self.can_redo()),
            EditRequest::Modified => truth(self.alloc, self.is_modified()),
            EditRequest::SetModified { modified } => {
                self.recorder.set_modified(modified)?;
                Ok(no_words(self.alloc))
            }
        }
    }
}
