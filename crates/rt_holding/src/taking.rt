// What takes operations.
ghost use Rattle.std.specs.Prelude.{◌≡◌, ℕ, List, IfErr, OnErr, OnOk};
ghost use Rattle.rt_ops.specs.Operations.{Operation};
ghost use Rattle.rt_oplog.specs.Logs.{known_end, with_operation};
ghost use Rattle.rt_rga.specs.Answers.{New, answer_within, has_gap};
ghost use Rattle.rt_rga.specs.Histories.{IsHistory};
ghost use Rattle.rt_rga.specs.Kept.{said};

use rt_oplog::Op;
use rt_rga::Offer;
use rt_stamps::{Fault, Span};

/// A site that takes operations: into its log, within a limit of cells. What else it has follows.
pub trait Taking {
    ghost log: { Self → List Operation };

    ghost limit: { Self → ℕ };

    // What an operation makes of the site that takes it.
    ghost after: { Operation → Self → Self };

    /// What is answered to an operation, where memory is left. The log is a history.
    fn answer(&self, op: &Op) -> Result<Offer, Fault>
        ensures answer { said result ≡ answer_within (limit self.now) op.now (log self.now) }
        ensures history { IsHistory (log self.now) };

    /// The greatest last count of a site's operations in the log, 0 if it has none.
    fn known(&self, site: u32) -> u64
        ensures known { result ≡ known_end (log self.now) site }
        ensures history { IsHistory (log self.now) };

    /// Whether some stamp of a span is that of no character that an operation of the log inserted. It looks stamps up,
    /// from the first on to the first that is none.
    fn has_gap(&self, span: Span) -> bool
        ensures gap { result ≡ has_gap (log self.now) span };

    /// Takes an operation that is new, or gives it back for want of memory.
    fn take(&mut self, op: Op) -> Result<(), Op>
        requires { answer_within (limit self.old) op (log self.old) ≡ New }
        ensures taken { OnOk result (self.new ≡ after op self.old) }
        ensures log { OnOk result (log self.new ≡ with_operation op (log self.old)) }
        ensures limit { limit self.new ≡ limit self.old }
        ensures same { OnErr result (self.new ≡ self.old) }
        ensures back { IfErr result (λ back. back ≡ op) };
}
