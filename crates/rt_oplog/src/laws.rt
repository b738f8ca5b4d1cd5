// Laws of logs and joins, each the contract of a function that does nothing.
ghost use Rattle.std.specs.Prelude.{◌≡◌, ◌↔◌, ℕ, true, List, reverse, Ok, Err};
ghost use Rattle.rt_stamps.specs.declared.fault.Fault.{Fault};
ghost use Rattle.rt_stamps.specs.declared.fault.Fault.TheVariants.{Conflict};
ghost use Rattle.rt_ops.specs.Operations.{Operation};
ghost use Rattle.rt_oplog.specs.Logs.{HasClashOf, HasOp, IsLog, IsUnion, holds, joined, joins, same_operation};
ghost use Rattle.rt_oplog.specs.Outcomes.{IsLogOf, IsFirstRefused};

/// The tests of operations say what they are named after: two operations are the same where they are equal, and a set
/// holds one where it has it. This is so of any list of operations, whether it is a log or not.
pub fn membership()
    ensures same { (a b : Operation) → (same_operation a b ≡ true) ↔ (a ≡ b) }
    ensures holds { (set : List Operation) (op : Operation) → (holds set op ≡ true) ↔ HasOp set op }
{}

/// The join of logs is the log that has just the operations of both; it is a Conflict exactly where two
/// of them clash. It is commutative, associative and idempotent, where a Conflict counts as a value.
pub fn joining()
    ensures union { (one other log : List Operation) → IsLog one → IsLog other → (joined one other ≡ Ok log) ↔ IsUnion one other log }
    ensures conflict { (one other : List Operation) → IsLog one → IsLog other → (joined one other ≡ Err Conflict) ↔ HasClashOf one other }
    ensures commutative { (one other : List Operation) → IsLog one → IsLog other → joined one other ≡ joined other one }
    ensures associative { (a b c : List Operation) → IsLog a → IsLog b → IsLog c → joins (joined a b) (Ok c) ≡ joins (Ok a) (joined b c) }
    ensures idempotent { (log : List Operation) → IsLog log → joined log log ≡ Ok log }
{}

/// Where the operations of a log are pushed from the oldest on, as its file has them, none is refused,
/// and what has just them is that log.
pub fn logs()
    ensures accepted { (log : List Operation) (place : ℕ) (fault : Fault) → IsLog log → IsFirstRefused (reverse log) place fault → ⊥ }
    ensures same { (log other : List Operation) → IsLog log → IsLogOf (reverse log) other → other ≡ log }
{}
