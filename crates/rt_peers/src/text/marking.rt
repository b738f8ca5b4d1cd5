// What is asked of marks and tags.
ghost use Rattle.std.specs.Prelude.{◌≡◌, true};
ghost use Rattle.rt_stamps.specs.Outcomes.{Answers};
ghost use Rattle.rt_peers.specs.Step.{on_view};
ghost use Rattle.rt_peers.specs.TakesNone.{IsRefusedAs, mark_takes_none, tag_takes_none};
ghost use Rattle.rt_peers.specs.ViewStep.{mark_step, tag_step};

use super::EditedText;
use crate::commands;
use crate::reply::Reply;
use rt_requests::{MarkRequest, TagRequest};
use rt_stamps::Fault;

impl EditedText {
    // What is asked of marks.
    pub(super) fn mark(&mut self, request: &MarkRequest<'_>) -> Result<Reply, Fault>
        ensures answers { Answers (on_view self.old (mark_step self.old.view request.now)) self.old result self.new }
        ensures memory { mark_takes_none request.now ≡ true → IsRefusedAs (on_view self.old (mark_step self.old.view request.now)) result }
    {
        // For its clauses alone.
        let _ = self.view.doc().log();
        let reply = commands::mark(self.alloc, &mut self.view, request);
        // For its clauses alone.
        let _ = self.view.doc().log();
        reply
    }

    // What is asked of tags.
    pub(super) fn tag(&mut self, request: &TagRequest<'_>) -> Result<Reply, Fault>
        ensures answers { Answers (on_view self.old (tag_step self.old.view request.now)) self.old result self.new }
        ensures memory { tag_takes_none request.now ≡ true → IsRefusedAs (on_view self.old (tag_step self.old.view request.now)) result }
    {
        // For its clauses alone.
        let _ = self.view.doc().log();
        let reply = commands::tag(self.alloc, &mut self.view, request);
        // For its clauses alone.
        let _ = self.view.doc().log();
        reply
    }
}
