// Operations of other sites, and those of the site itself for them.
ghost use Rattle.std.specs.Prelude.{◌≡◌, ◌<◌, ◌≤◌, IfErr, IfOk, OnErr, OnOk, length};
ghost use Rattle.std.specs.List.{AllByRecursion};
ghost use Rattle.rt_rga.specs.Answers.{New};
ghost use Rattle.rt_rga.specs.Cells.{cells_of};
ghost use Rattle.rt_rga.specs.Histories.{IsHistory, greatest_last_count};
ghost use Rattle.rt_rga.specs.Taken.{IsChange};
ghost use Rattle.rt_text.specs.Accepted.{answer_of};
ghost use Rattle.rt_recording.specs.Edits.{text_with_new};
ghost use Rattle.rt_text.specs.Widgets.{limits_of};
ghost use Rattle.rt_lines.specs.Ordered.{LimitsAreInOrder};

use super::EditedText;
use rt_holding::Taking;
use rt_oplog::{Op, OpLog};
use rt_rga::{Change, Offer};
use rt_stamps::{Fault, Site, Span};

impl Taking for EditedText {
    ghost log = { λ text. text.view.doc.log };

    ghost limit = { λ text. text.view.doc.limit };

    ghost after = { text_with_new };

    fn answer(&self, op: &Op) -> Result<Offer, Fault> {
        // For its clauses alone.
        let _ = self.log();
        self.view.answer(op)
    }

    fn known(&self, site: u32) -> u64 {
        self.log().known(site)
    }

    fn has_gap(&self, span: Span) -> bool {
        self.view.has_gap(span)
    }

    fn take(&mut self, op: Op) -> Result<(), Op> {
        match rt_recording::take(&mut self.view, &mut self.recorder, op) {
            Ok(_) => Ok(()),
            Err(op) => Err(op),
        }
    }
}

impl EditedText {
    /// The site that it is of.
    pub(crate) fn site(&self) -> Site
        ensures { result.number ≡ self.now.view.doc.site }
    {
        self.view.doc().site()
    }

    /// The log of the document, which is a history: the cells are its cells. Each widget's limits are none or newlines
    /// of it, gone or not, and that at the start stands before the end.
    pub(crate) fn log(&self) -> &OpLog
        ensures operations { result.now.operations ≡ self.now.view.doc.log }
        ensures history { IsHistory self.now.view.doc.log }
        ensures cells { self.now.view.doc.cells ≡ cells_of self.now.view.doc.log }
        ensures few { length self.now.view.doc.cells ≤ self.now.view.doc.limit }
        ensures count { self.now.view.doc.count ≡ greatest_last_count self.now.view.doc.log }
        ensures site { 0 < self.now.view.doc.site }
        ensures limits { AllByRecursion (LimitsAreInOrder self.now.view.doc.cells) (limits_of self.now.view) }
    {
        // For its clauses alone.
        let _ = self.view.widget();
        self.view.doc().log()
    }

    /// Takes an operation that is new, and tells what changed in the text; or gives it back for want of memory.
    pub(super) fn take_new(&mut self, op: Op) -> Result<Change, Op>
        requires { answer_of self.old.view.doc op ≡ New }
        ensures taken { OnOk result (self.new ≡ text_with_new op self.old) }
        ensures change { IfOk result (IsChange op self.old.view.doc.cells) }
        ensures same { OnErr result (self.new ≡ self.old) }
        ensures back { IfErr result (λ back. back ≡ op) }
    {
        rt_recording::take(&mut self.view, &mut self.recorder, op)
    }
}
