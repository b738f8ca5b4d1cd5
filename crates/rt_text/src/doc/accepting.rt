// Operations of other sites.
ghost use Rattle.std.specs.Prelude.{◌≡◌, IfErr, IfOk, OnErr, OnOk};
ghost use Rattle.rt_rga.specs.Answers.{New, has_gap};
ghost use Rattle.rt_rga.specs.Kept.{said};
ghost use Rattle.rt_rga.specs.Taken.{IsChange};
ghost use Rattle.rt_rga.specs.Texts.{tagged_text};
ghost use Rattle.rt_changes.specs.Replays.{replayed, told_by};
ghost use Rattle.rt_text.specs.Accepted.{answer_of, with_new};

use super::Doc;
use crate::following::{follow, prepare_lists};
use crate::preparing::list_tags;
use rt_oplog::Op;
use rt_rga::{Change, Offer};
use rt_stamps::{Fault, Span};
use rt_store::TextStore;

impl<S: TextStore> Doc<S> {
    /// What is answered to an operation of any site, where memory is left: new, a repeat, or refused by the first
    /// of `BadStamp`, `Conflict`, `NotYet`, `BadTarget`, `TextFull` that applies. It takes no memory.
    pub fn answer(&self, op: &Op) -> Result<Offer, Fault>
        ensures { said result ≡ answer_of self.now op.now }
    {
        self.replica.answer(op)
    }

    /// Whether some stamp of a span is that of no character of the log (`Replica::has_gap`).
    pub fn has_gap(&self, span: Span) -> bool
        ensures { result ≡ has_gap self.now.log span }
    {
        self.replica.has_gap(span)
    }

    /// Takes an operation that is new to it: the text changes, the site's marks move, and its tags are listed. It
    /// tells what changed in the text: replayed on the text before, that gives the text after. Where memory is wanting
    /// the operation is given back, and nothing changes.
    pub fn take(&mut self, op: Op) -> Result<Change, Op>
        requires { answer_of self.old op ≡ New }
        ensures taken { OnOk result (self.new ≡ with_new op self.old) }
        ensures change { IfOk result (IsChange op self.old.cells) }
        ensures replays { IfOk result (λ change. replayed (told_by op.body change) (tagged_text self.old.cells) ≡ tagged_text self.new.cells) }
        ensures unchanged { OnErr result (self.new ≡ self.old) }
        ensures back { IfErr result (λ back. back ≡ op) }
    {
        // For its clauses alone.
        let _ = self.kept();
        if prepare_lists(&mut self.tags, op.edit()).is_err() {
            return Err(op);
        }
        match self.replica.take(op) {
            Err(op) => Err(op),
            Ok(change) => {
                // For their clauses alone.
                let _ = self.replica.log();
                let _ = self.replica.store();
                follow(&mut self.marks, &change);
                list_tags(&mut self.tags, &change.lists);
                Ok(change)
            }
        }
    }
}
