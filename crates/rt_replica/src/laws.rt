// Laws of replicas, each the contract of a function that changes nothing.
ghost use Rattle.std.specs.Prelude.{◌≡◌};
ghost use Rattle.rt_rga.specs.Texts.{tagged_text};
ghost use Rattle.rt_oplog.specs.Logs.{AreOf};

use crate::HoldingReplica;
use rt_store::TextStore;

/// Replicas that accepted the same operations hold equal cells, and so equal text with equal tags: over whichever stores, and
/// whatever their calls were, in whatever order, with repeats and refusals between.
pub fn agreement<S: TextStore, T: TextStore>(one: &HoldingReplica<S>, other: &HoldingReplica<T>)
    ensures cells { AreOf one.now.log other.now.log → one.now.cells ≡ other.now.cells }
    ensures text { AreOf one.now.log other.now.log → tagged_text one.now.cells ≡ tagged_text other.now.cells }
{
    // For their clauses alone.
    let _ = one.log();
    let _ = other.log();
}
