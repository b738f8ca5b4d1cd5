// Operations of other sites.
ghost use Rattle.std.specs.Prelude.{◌≡◌, IfErr, IfOk, OnErr, OnOk};
ghost use Rattle.rt_rga.specs.Answers.{New, has_gap};
ghost use Rattle.rt_rga.specs.Kept.{said};
ghost use Rattle.rt_rga.specs.Taken.{IsChange};
ghost use Rattle.rt_rga.specs.Texts.{tagged_text};
ghost use Rattle.rt_changes.specs.Replays.{replayed, told_by};
ghost use Rattle.rt_text.specs.Accepted.{answer_of, view_with_new};

use super::View;
use crate::others::follow_each;
use rt_oplog::Op;
use rt_rga::{Change, Offer};
use rt_stamps::{Fault, Span};
use rt_store::TextStore;

impl<S: TextStore> View<S> {
    /// What is answered to an operation of any site, where memory is left: new, a repeat, or refused by the first
    /// of `BadStamp`, `Conflict`, `NotYet`, `BadTarget`, `TextFull` that applies. It takes no memory.
    pub fn answer(&self, op: &Op) -> Result<Offer, Fault>
        ensures { said result ≡ answer_of self.now.doc op.now }
    {
        self.doc.answer(op)
    }

    /// Whether some stamp of a span is that of no character of the log (`Replica::has_gap`).
    pub fn has_gap(&self, span: Span) -> bool
        ensures { result ≡ has_gap self.now.doc.log span }
    {
        self.doc.has_gap(span)
    }

    /// Takes an operation that is new to it: the text changes, the site's marks and those of each widget move, and
    /// its tags are listed; what is selected stays so. It tells what changed in the text. Where memory is wanting the
    /// operation is given back, and nothing changes.
    pub fn take(&mut self, op: Op) -> Result<Change, Op>
        requires { answer_of self.old.doc op ≡ New }
        ensures taken { OnOk result (self.new ≡ view_with_new op self.old) }
        ensures change { IfOk result (IsChange op self.old.doc.cells) }
        ensures replays { IfOk result (λ change. replayed (told_by op.body change) (tagged_text self.old.doc.cells) ≡ tagged_text self.new.doc.cells) }
        ensures unchanged { OnErr result (self.new ≡ self.old) }
        ensures back { IfErr result (λ back. back ≡ op) }
    {
        // For their clauses alone.
        let _ = self.doc.log();
        let _ = self.doc.kept();
        match self.doc.take(op) {
            Err(op) => Err(op),
            Ok(change) => {
                // For its clauses alone.
                let _ = self.doc.log();
                self.widget.follow(&change);
                follow_each(&mut self.others, &change);
                Ok(change)
            }
        }
    }
}
