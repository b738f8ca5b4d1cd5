// Operations of other sites, and those of the site itself for them.
ghost use Rattle.std.specs.Prelude.{◌≡◌, ℕ, ◌<◌, ◌≤◌, IfOk, IsOkUnless, None, OnOk, length, reverse};
ghost use Rattle.std.specs.BTreeMap.{get};
ghost use Rattle.std.specs.List.{AllByRecursion};
ghost use Rattle.std.specs.Ordering.{nat_cmp};
ghost use Rattle.rt_stamps.specs.declared.limits.TheConstants.{MOST_BYTES};
ghost use Rattle.rt_ops.specs.File.{spelling};
ghost use Rattle.rt_ops.specs.Reading.{Reads, offsets_of};
ghost use Rattle.rt_rga.specs.Cells.{cells_of};
ghost use Rattle.rt_rga.specs.Histories.{IsHistory, greatest_last_count};
ghost use Rattle.rt_rga.specs.Texts.{tagged_text};
ghost use Rattle.rt_changes.specs.Replays.{AreInText, replayed};
ghost use Rattle.rt_changes.specs.Telling.{all_changes_in};
ghost use Rattle.rt_oplog.specs.Logs.{known_end};
ghost use Rattle.rt_text.specs.Widgets.{limits_of};
ghost use Rattle.rt_lines.specs.Ordered.{LimitsAreInOrder};
ghost use Rattle.rt_peers.specs.Exchange.{IsFileOf};
ghost use Rattle.rt_peers.specs.Lacking.{known_in, past_known};
ghost use Rattle.rt_peers.specs.SiteStep.{SiteReceives, log_of};
ghost use Rattle.rt_peers.specs.Telling.{AreToldBetween};

use super::SiteState;
use crate::sending::{ends_of, lacking};
use crate::told::ReceivedChanges;
use rt_files::export;
use rt_holding::{Received, receive};
use rt_oplog::OpLog;
use rt_stamps::Fault;
use std::collections::BTreeMap;

impl SiteState {
    /// Receives the bytes of a file of operations, at most `MOST_BYTES`: each of its records is read, and its operation
    /// offered before the next is read. One that is new changes the text, moves all marks, those of each widget too, and
    /// lists its tags; what is selected stays so, and where it changes the visible text it forces the modified flag. One
    /// that comes before what it was made upon is held, 65,536 at most, and tried after each one that is accepted. The
    /// first that is refused ends it, with its fault: `BadStamp`, `Conflict`, `BadTarget`, `TextFull`, `WaitingFull`; so
    /// does the first fault of the reading: `BadMagic`, `BadVersion`, `Truncated`, `BadRecord`. `NoMemory` has the offset of
    /// the record for which memory was wanting. All before it stays accepted or held.
    pub fn receive(&mut self, bytes: &[u8]) -> Received
        requires { length bytes.now ≤ MOST_BYTES }
        ensures { SiteReceives bytes.now self.old result self.new }
    {
        receive(self.alloc, &mut self.text, &mut self.held, bytes)
    }

    /// Receives the bytes of a file as `receive` does, and tells what changed in the visible text, operation by operation, in an
    /// order in which they could be taken, those among them that had been held. Each change is of the text that those before it left,
    /// so all of them, done one after the other to what was shown, with its tags, give what is shown now. Only what changes is
    /// told: each place that a change names is one that its operation changes. Telling takes memory too: where it is wanting
    /// for an operation of the file, this ends with `NoMemory`; a held one stays held, which no fault tells. All changes are
    /// kept until the file ends.
    pub fn receive_telling(&mut self, bytes: &[u8]) -> ReceivedChanges
        requires { length bytes.now ≤ MOST_BYTES }
        ensures receives { SiteReceives bytes.now self.old result.received self.new }
        ensures told { AreToldBetween (log_of self.old) (log_of self.new) result.changes.items }
        ensures replayed { replayed (all_changes_in result.changes.items) (tagged_text self.old.text.view.doc.cells)
            ≡ tagged_text self.new.text.view.doc.cells }
        ensures within { AreInText (all_changes_in result.changes.items) (tagged_text self.old.text.view.doc.cells) }
    {
        self.text.receive_telling(&mut self.held, bytes)
    }

    /// How many operations it holds that came early.
    pub fn held(&self) -> usize
        ensures { result ≡ length self.now.held }
    {
        self.held.len()
    }

    /// The log of the operations that the site accepted or made. The cells of its text are those of the
    /// log, which is a history. Each widget's limits are none or newlines of it, gone or not, and that at the start stands
    /// before the end.
    pub fn log(&self) -> &OpLog
        ensures operations { result.now.operations ≡ self.now.text.view.doc.log }
        ensures history { IsHistory self.now.text.view.doc.log }
        ensures cells { self.now.text.view.doc.cells ≡ cells_of self.now.text.view.doc.log }
        ensures few { length self.now.text.view.doc.cells ≤ self.now.text.view.doc.limit }
        ensures count { self.now.text.view.doc.count ≡ greatest_last_count self.now.text.view.doc.log }
        ensures site { 0 < self.now.text.view.doc.site }
        ensures limits { AllByRecursion (LimitsAreInOrder self.now.text.view.doc.cells) (limits_of self.now.text.view) }
    {
        self.text.log()
    }

    /// The file of the log: its operations in the order of their stamps, as which it is read. Want of memory.
    pub fn export(&self) -> Result<Vec<u8>, Fault>
        ensures ok { IfOk result (λ bytes. bytes.items ≡ spelling (reverse self.now.text.view.doc.log)) }
        ensures read_back { OnOk result (Reads (spelling (reverse self.now.text.view.doc.log)) (reverse self.now.text.view.doc.log)
            (offsets_of (reverse self.now.text.view.doc.log)) None) }
        ensures err { IsOkUnless result Fault.NoMemory }
    {
        export(self.alloc, self.log())
    }

    /// The last count that the site knows of each site of which it has operations, and of no other; it knows all of
    /// that site up to there. Want of memory.
    pub fn ends(&self) -> Result<BTreeMap<u32, u64>, Fault>
        ensures ok { IfOk result (λ ends. (site : ℕ) → known_in ends site ≡ known_end self.now.text.view.doc.log site) }
        ensures only { IfOk result (λ ends. (site : ℕ) → known_end self.now.text.view.doc.log site ≡ 0 → get nat_cmp ends site ≡ None) }
        ensures err { IsOkUnless result Fault.NoMemory }
    {
        ends_of(self.alloc, self.log())
    }

    /// The file of those operations whose last count is past what another site knows of their site: what that site's
    /// `ends` told, or an earlier answer of it. A site that isn't named there is one of which nothing is known. Want of
    /// memory.
    pub fn export_since(&self, ends: &BTreeMap<u32, u64>) -> Result<Vec<u8>, Fault>
        ensures ok { IfOk result (λ bytes. bytes.items ≡ spelling (reverse (past_known (known_in ends.now) self.now.text.view.doc.log))) }
        ensures read_back { OnOk result (IsFileOf (spelling (reverse (past_known (known_in ends.now) self.now.text.view.doc.log)))
            (past_known (known_in ends.now) self.now.text.view.doc.log)) }
        ensures err { IsOkUnless result Fault.NoMemory }
    {
        let lacking = lacking(self.alloc, self.log(), ends)?;
        export(self.alloc, &lacking)
    }
}
