// A text that tells what it changes when something is asked of it.
ghost use Rattle.std.specs.Prelude.{◌≡◌, ◌+◌, ◌<◌, ◌≤◌, IfSome, IsSome, drop, length, map, reverse, true};
ghost use Rattle.rt_stamps.specs.Outcomes.{Answers};
ghost use Rattle.rt_changes.specs.Telling.{changes_in};
ghost use Rattle.rt_text.specs.Widgets.{widgets_of};
ghost use Rattle.rt_peers.specs.SiteStep.{by_leading, text_log};
ghost use Rattle.rt_peers.specs.Step.{step};
ghost use Rattle.rt_rga.specs.Noted.{AreOfNewest};
ghost use Rattle.rt_peers.specs.TakesNone.{IsRefusedAs, takes_none};
ghost use Rattle.rt_peers.specs.Telling.{AreToldInTurn, each_change};

use super::EditedText;
use crate::told::ToldAnswer;
use rt_changes::{ToTell, ToldChange};
use rt_oplog::OpLog;
use rt_requests::Request;
use rt_rga::Change;
use std::alloc::Global;

// What the operations of a log changed from a place on, which are its newest. None for want of memory.
fn told_from(
    alloc: Global,
    log: &OpLog,
    from: usize,
    changes: Vec<Change>,
) -> Option<Vec<ToldChange>>
    requires many { from + length changes.items ≡ length log.now.operations }
    requires newest { AreOfNewest (reverse changes.items) log.now.operations }
    ensures { IfSome result (λ told. map changes_in told.items ≡ drop from (reverse (each_change log.now.operations))) }
{
    // For its clause alone.
    let _ = log.len();
    let mut told = Vec::new(alloc);
    let mut place = from;
    for change in changes {
        let Ok(op) = log.get(place).copied(alloc) else {
            return None;
        };
        let Ok(to_tell) = ToTell::of(alloc, &op) else {
            return None;
        };
        let Ok(()) = told.push(to_tell.at(change)) else {
            return None;
        };
        place += 1;
    }
    Some(told)
}

impl EditedText {
    // What the operations of the log changed from a place on, where that was noted of all of them, or there are none.
    // None too for want of memory.
    fn noted_from(&mut self, from: usize) -> Option<Vec<ToldChange>>
        requires { from ≤ length (text_log self.old) }
        ensures told { IfSome result (λ changes. map changes_in changes.items ≡ drop from (reverse (each_change (text_log self.old)))) }
        ensures known { from ≡ length (text_log self.old) → IsSome result }
        ensures same { self.new ≡ self.old }
    {
        let noted = self.view.noted();
        let log = self.log();
        let made = log.len() - from;
        if made == 0 {
            return Some(Vec::new(self.alloc));
        }
        match noted {
            Some(changes) if changes.len() == made => told_from(self.alloc, log, from, changes),
            _ => None,
        }
    }

    /// What is asked of the widget of a number, and what the operations changed that were made for it, where that is
    /// known.
    pub(crate) fn ask_telling(&mut self, number: usize, request: &Request<'_>) -> ToldAnswer
        requires { number < length (widgets_of self.old.view) }
        ensures answers { Answers (by_leading number self.old (λ text. step text request.now)) self.old result.reply self.new }
        ensures memory { takes_none request.now ≡ true → IsRefusedAs (by_leading number self.old (λ text. step text request.now)) result.reply }
        ensures told { IfSome result.changes (λ changes. AreToldInTurn (text_log self.old) (text_log self.new) (map changes_in changes.items)) }
        ensures known { text_log self.new ≡ text_log self.old → IsSome result.changes }
    {
        let before = self.log().len();
        self.view.note();
        let reply = self.ask(number, request);
        // For its clauses alone.
        let _ = self.log();
        let changes = self.noted_from(before);
        ToldAnswer { reply, changes }
    }
}
