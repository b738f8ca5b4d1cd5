// A text that tells what the operations change that it takes.
ghost use Rattle.std.specs.Prelude.{◌≡◌, ◌≤◌, ◌++◌, ◌∷◌, [], IfErr, IfSome, List, OnErr, OnOk, length, map};
ghost use Rattle.rt_stamps.specs.declared.limits.TheConstants.{MOST_BYTES};
ghost use Rattle.rt_ops.specs.Operations.{Operation};
ghost use Rattle.rt_rga.specs.Answers.{New};
ghost use Rattle.rt_rga.specs.Cells.{cells_of};
ghost use Rattle.rt_rga.specs.Texts.{tagged_text};
ghost use Rattle.rt_changes.specs.Replays.{AreInText, changes_of, replayed};
ghost use Rattle.rt_changes.specs.Telling.{all_changes_in, changes_in};
ghost use Rattle.rt_text.specs.Accepted.{answer_of};
ghost use Rattle.rt_recording.specs.Edits.{text_with_new};
ghost use Rattle.rt_holding.specs.Grown.{AreTriedAt, AreTriedBefore};
ghost use Rattle.rt_holding.specs.Receiving.{Receives};
ghost use Rattle.rt_holding.specs.Taken.{AreTried, site_holding};
ghost use Rattle.rt_peers.specs.SiteStep.{TextTries, text_limit, text_log};
ghost use Rattle.rt_peers.specs.Telling.{AreToldBetween, AreToldInTurn, HasToldMore, telling_with_new};

use super::EditedText;
use crate::told::ReceivedChanges;
use rt_changes::{ToTell, ToldChange};
use rt_holding::{Held, Received, Taking, receive};
use rt_oplog::Op;
use rt_rga::Offer;
use rt_stamps::{Fault, Span};
use std::alloc::Global;
use std::marker::Model;

/// What the operations changed that a text took.
#[derive(Drop)]
pub(crate) struct Told {
    changes: Vec<ToldChange>,
}

impl Model for Told {
    ghost use Rattle.std.specs.Prelude.{List, map};
    ghost use Rattle.rt_changes.specs.Replays.{VisibleChange};
    ghost use Rattle.rt_changes.specs.Telling.{changes_in};

    ghost Value = { List (List VisibleChange) };

    ghost view = { λ t. map changes_in t.changes.items };
}

impl Told {
    // Of a text that took none.
    fn nothing(alloc: Global) -> Told
        ensures { result ≡ [] }
    {
        Told {
            changes: Vec::new(alloc),
        }
    }

    // A text takes an operation that is new, and its changes are told behind the others; or the operation is given back for
    // want of memory.
    fn take(&mut self, alloc: Global, text: &mut EditedText, op: Op) -> Result<(), Op>
        requires { answer_of text.old.view.doc op ≡ New }
        ensures taken { OnOk result (text.new ≡ text_with_new op text.old) }
        ensures told { OnOk result (self.new ≡ self.old ++ changes_of op (cells_of (text_log text.old)) ∷ []) }
        ensures same { OnErr result (text.new ≡ text.old) }
        ensures untold { OnErr result (self.new ≡ self.old) }
        ensures back { IfErr result (λ back. back ≡ op) }
    {
        // For its clauses alone.
        let _ = text.log();
        let Ok(to_tell) = ToTell::of(alloc, &op) else {
            return Err(op);
        };
        if self.changes.reserve(1).is_err() {
            return Err(op);
        }
        match text.take_new(op) {
            Err(op) => Err(op),
            Ok(change) => {
                self.changes.push_reserved(to_tell.at(change));
                Ok(())
            }
        }
    }

    // All of it.
    fn changes(self) -> Vec<ToldChange>
        ensures { map changes_in result.items ≡ self }
    {
        let Told { changes } = self;
        changes
    }
}

/// A text that is lent, and where it tells what changes.
#[derive(Drop)]
pub(crate) struct TellingText<'a, 'b> {
    alloc: Global,
    text: &'a mut EditedText,
    told: &'b mut Told,
}

impl Taking for TellingText<'_, '_> {
    ghost log = { λ t. text_log t.text.now };

    ghost limit = { λ t. text_limit t.text.now };

    ghost after = { telling_with_new };

    fn answer(&self, op: &Op) -> Result<Offer, Fault> {
        self.text.answer(op)
    }

    fn known(&self, site: u32) -> u64 {
        self.text.known(site)
    }

    fn has_gap(&self, span: Span) -> bool {
        self.text.has_gap(span)
    }

    fn take(&mut self, op: Op) -> Result<(), Op> {
        self.told.take(self.alloc, self.text, op)
    }
}

// A text that is lent receives the bytes of a file, and stays the one that was lent.
fn receive_lent(
    alloc: Global,
    telling: &mut TellingText<'_, '_>,
    held: &mut Held,
    bytes: &[u8],
) -> Received
    requires bytes { length bytes.now ≤ MOST_BYTES }
    requires tried { AreTriedAt (text_limit telling.old.text.now) (text_log telling.old.text.now) held.old }
    ensures receives { Receives text_log text_limit text_with_new bytes.now
        (record { site = telling.old.text.now; held = held.old.held }) result
        (record { site = telling.new.text.now; held = held.new.held }) }
    ensures tried { AreTriedAt (text_limit telling.new.text.now) (text_log telling.new.text.now) held.new }
    ensures more { HasToldMore telling.old.text.now telling.new.text.now telling.old.told.now telling.new.told.now }
    ensures lent { telling.new.text.ghost_name ≡ telling.old.text.ghost_name }
    ensures lent_told { telling.new.told.ghost_name ≡ telling.old.told.ghost_name }
{
    receive(alloc, telling, held, bytes)
}

// A text receives the bytes of a file, and what changes is told behind what is told already.
fn receive_told(
    alloc: Global,
    text: &mut EditedText,
    told: &mut Told,
    held: &mut Held,
    bytes: &[u8],
) -> Received
    requires bytes { length bytes.now ≤ MOST_BYTES }
    requires tried { AreTriedAt (text_limit text.old) (text_log text.old) held.old }
    ensures receives { Receives text_log text_limit text_with_new bytes.now (record { site = text.old; held = held.old.held })
        result (record { site = text.new; held = held.new.held }) }
    ensures tried { AreTriedAt (text_limit text.new) (text_log text.new) held.new }
    ensures more { HasToldMore text.old text.new told.old told.new }
{
    let mut telling = TellingText { alloc, text, told };
    receive_lent(alloc, &mut telling, held, bytes)
}

// A text that is lent tries held operations, and stays the one that was lent.
fn settle_lent(telling: &mut TellingText<'_, '_>, held: &mut Held, made_by: u32) -> usize
    requires { AreTriedBefore (text_limit telling.old.text.now) made_by held.old (text_log telling.old.text.now) }
    ensures tried { AreTried text_log text_with_new (text_limit telling.old.text.now) (site_holding text_log telling.old.text.now held.old.held)
        telling.old.text.now telling.new.text.now held.new.held result }
    ensures log { AreTriedAt (text_limit telling.new.text.now) (text_log telling.new.text.now) held.new }
    ensures more { HasToldMore telling.old.text.now telling.new.text.now telling.old.told.now telling.new.told.now }
    ensures lent { telling.new.text.ghost_name ≡ telling.old.text.ghost_name }
    ensures lent_told { telling.new.told.ghost_name ≡ telling.old.told.ghost_name }
{
    held.settle(telling, made_by)
}

// A text tries held operations, and what changes is told behind what is told already.
fn settle_told(
    alloc: Global,
    text: &mut EditedText,
    told: &mut Told,
    held: &mut Held,
    made_by: u32,
) -> usize
    requires { AreTriedBefore (text_limit text.old) made_by held.old (text_log text.old) }
    ensures tried { AreTried text_log text_with_new (text_limit text.old) (site_holding text_log text.old held.old.held) text.old text.new
        held.new.held result }
    ensures log { AreTriedAt (text_limit text.new) (text_log text.new) held.new }
    ensures more { HasToldMore text.old text.new told.old told.new }
{
    let mut telling = TellingText { alloc, text, told };
    settle_lent(&mut telling, held, made_by)
}

impl EditedText {
    /// Receives the bytes of a file of operations, as `receive` of rt_holding does, and tells what they change in the visible text.
    pub(crate) fn receive_telling(&mut self, held: &mut Held, bytes: &[u8]) -> ReceivedChanges
        requires bytes { length bytes.now ≤ MOST_BYTES }
        requires tried { AreTriedAt (text_limit self.old) (text_log self.old) held.old }
        ensures receives { Receives text_log text_limit text_with_new bytes.now (record { site = self.old; held = held.old.held })
            result.received (record { site = self.new; held = held.new.held }) }
        ensures tried { AreTriedAt (text_limit self.new) (text_log self.new) held.new }
        ensures told { AreToldBetween (text_log self.old) (text_log self.new) result.changes.items }
        ensures replayed { replayed (all_changes_in result.changes.items) (tagged_text self.old.view.doc.cells)
            ≡ tagged_text self.new.view.doc.cells }
        ensures within { AreInText (all_changes_in result.changes.items) (tagged_text self.old.view.doc.cells) }
    {
        // For its clauses alone.
        let _ = self.log();
        let alloc = self.alloc;
        let mut told = Told::nothing(alloc);
        let received = receive_told(alloc, self, &mut told, held, bytes);
        // For its clauses alone.
        let _ = self.log();
        ReceivedChanges {
            received,
            changes: told.changes(),
        }
    }
    // Tries held operations, and tells what they change behind what is told already.
    fn settle_behind(
        &mut self,
        held: &mut Held,
        made_by: u32,
        changes: Vec<ToldChange>,
    ) -> Vec<ToldChange>
        requires { AreTriedBefore (text_limit self.old) made_by held.old (text_log self.old) }
        ensures tries { TextTries self.old held.old.held self.new held.new.held }
        ensures log { AreTriedAt (text_limit self.new) (text_log self.new) held.new }
        ensures told { (older : List Operation) → AreToldInTurn older (text_log self.old) (map changes_in changes.items)
            → AreToldInTurn older (text_log self.new) (map changes_in result.items) }
    {
        // For its clauses alone.
        let _ = self.log();
        let alloc = self.alloc;
        let mut told = Told { changes };
        settle_told(alloc, self, &mut told, held, made_by);
        // For its clauses alone.
        let _ = self.log();
        told.changes()
    }

    /// Tries held operations, as `Held::settle` does, behind those that a site made. Where it is known what these
    /// changed, what the held ones change is told behind that.
    pub(crate) fn settle_telling(
        &mut self,
        held: &mut Held,
        made_by: u32,
        changes: Option<Vec<ToldChange>>,
    ) -> Option<Vec<ToldChange>>
        requires { AreTriedBefore (text_limit self.old) made_by held.old (text_log self.old) }
        ensures tries { TextTries self.old held.old.held self.new held.new.held }
        ensures log { AreTriedAt (text_limit self.new) (text_log self.new) held.new }
        ensures told { (older : List Operation) → IfSome changes (λ own. AreToldInTurn older (text_log self.old) (map changes_in own.items))
            → IfSome result (λ all. AreToldInTurn older (text_log self.new) (map changes_in all.items)) }
    {
        match changes {
            Some(own) => Some(self.settle_behind(held, made_by, own)),
            None => {
                held.settle(self, made_by);
                None
            }
        }
    }
}
