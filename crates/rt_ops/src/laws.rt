// Laws of operations and of their files, each the contract of a function that does nothing.
ghost use Rattle.std.specs.Prelude.{◌≡◌, ◌⊎◌, ℕ, ◌+◌, ◌<◌, ◌≤◌, List, length, take, true, Option, Some, None, Ok, slice_get};
ghost use Rattle.std.specs.List.{AllByRecursion, list_any};
ghost use Rattle.rt_stamps.specs.declared.fault.Fault.{Fault};
ghost use Rattle.rt_stamps.specs.declared.fault.Fault.TheVariants.{ReadFault};
ghost use Rattle.rt_stamps.specs.declared.limits.Bounds.{Bounds};
ghost use Rattle.rt_stamps.specs.declared.stamp.Span.{Span};
ghost use Rattle.rt_stamps.specs.declared.stamp.Stamp.{Stamp};
ghost use Rattle.rt_stamps.specs.Spans.{is_in_span};
ghost use Rattle.rt_stamps.specs.Streams.{Stream};
ghost use Rattle.rt_ops.specs.declared.version.Version.{Version};
ghost use Rattle.rt_ops.specs.declared.version.Version.TheVariants.{One, Two};
ghost use Rattle.rt_ops.specs.Operations.{Operation};
ghost use Rattle.rt_ops.specs.File.{HasRecord, AreInFile, file_of, fits, spelling, version_of};
ghost use Rattle.rt_ops.specs.Intake.{FailsAfter, IsStopped, PassesBytes, ReadsFile};
ghost use Rattle.rt_ops.specs.Reading.{AreFirstOf, IsBegun, IsEnd, Reads, head_of, offsets_from, offsets_of};
ghost use Rattle.rt_ops.specs.Records.{HasTaken, Left};
ghost use Rattle.rt_ops.specs.Rules.{are_spans};

/// A list of operations has one file in each version, and bytes are a file of at most one list, in one version. A file is
/// read as what it is a file of, and what is read without a fault is one. Bytes are read in one way.
pub fn files()
    ensures one { (version another : Version) (one other : List Operation) → AllByRecursion (HasRecord version) one
        → AllByRecursion (HasRecord another) other → file_of version one ≡ file_of another other → (version ≡ another) × (one ≡ other) }
    ensures written { (version : Version) (ops : List Operation) → AreInFile version ops
        → Reads (file_of version ops) ops (offsets_from version 8 ops) None }
    ensures read { (bytes : List ℕ) (ops : List Operation) (offsets : List ℕ) → Reads bytes ops offsets None
        → (version : Version) × AreInFile version ops × (bytes ≡ file_of version ops) }
    ensures once { (bytes : List ℕ) (one other : List Operation) (offsets places : List ℕ) (a b : Option (Fault × ℕ))
        → Reads bytes one offsets a → Reads bytes other places b → (one ≡ other) × (offsets ≡ places) × (a ≡ b) }
{}

/// The second version has room for what the first has room for. What has a record in the second has one in the version in
/// which it is written; so the spelling of operations is read as these. It is a file of the first version just where that has
/// room for each of them.
pub fn versions()
    ensures more { (op : Operation) → HasRecord One op → HasRecord Two op }
    ensures first { (op : Operation) → HasRecord Two op → fits One op ≡ true → HasRecord One op }
    ensures only { (op : Operation) → HasRecord One op → fits One op ≡ true }
    ensures chosen { (ops : List Operation) → AreInFile Two ops → AreInFile (version_of ops) ops }
    ensures spelled { (ops : List Operation) → AreInFile Two ops → Reads (spelling ops) ops (offsets_of ops) None }
{}

/// Each operation has one offset, which is where its record begins: as many bytes as the file of the
/// operations before it has.
pub fn offsets()
    ensures begins { (version : Version) (ops : List Operation) (place : ℕ) → place < length ops
        → slice_get (offsets_from version 8 ops) place ≡ Some (length (file_of version (take place ops))) }
    ensures count { (version : Version) (ops : List Operation) → length (offsets_from version 8 ops) ≡ length ops }
{}

/// What a file begins with is a front of what it is read as, and of two such lists one is a front of the other. What is
/// read is what it begins with, where its first eight bytes have no fault.
pub fn fronts()
    ensures read { (bytes : List ℕ) (ops all : List Operation) (offsets : List ℕ) (fault : Option (Fault × ℕ)) → IsBegun bytes ops
        → Reads bytes all offsets fault → AreFirstOf ops all }
    ensures two { (bytes : List ℕ) (one other : List Operation) → IsBegun bytes one → IsBegun bytes other
        → AreFirstOf one other ⊎ AreFirstOf other one }
    ensures begun { (bytes : List ℕ) (all : List Operation) (offsets : List ℕ) (fault : Option (Fault × ℕ)) (version : Version)
        → head_of (take 8 bytes) ≡ Ok version → Reads bytes all offsets fault → IsBegun bytes all }
{}

/// Records that are taken one after another are what the file begins with. They are all that is read just where the end, or
/// the first fault, comes behind them.
pub fn records()
    ensures begun { (left : Left) (ops : List Operation) → HasTaken left ops → IsBegun left.bytes ops }
    ensures one { (left : Left) (one other : List Operation) → HasTaken left one → HasTaken left other → one ≡ other }
    ensures ended { (left : Left) (ops : List Operation) (fault : Option (Fault × ℕ)) → HasTaken left ops → IsEnd left.version ops left.rest fault
        → Reads left.bytes ops (offsets_from left.version 8 ops) fault }
    ensures all { (left : Left) (ops : List Operation) (offsets : List ℕ) (fault : Option (Fault × ℕ)) → HasTaken left ops
        → Reads left.bytes ops offsets fault → IsEnd left.version ops left.rest fault }
{}

/// What is told of a reader, whose bytes may be known or not, are operations that a file can have, each
/// with the offset of its record. Known bytes are told as what they are read as. No more reads are made
/// than are allowed.
pub fn readings()
    ensures told { (bounds : Bounds) (old new : Stream) (ops : List Operation) (offsets : List ℕ) (fault : Option (Fault × ℕ))
        → ReadsFile bounds old new ops offsets fault → (version : Version) × AreInFile version ops × (offsets ≡ offsets_from version 8 ops) }
    ensures known { (bounds : Bounds) (old new : Stream) (bytes : List ℕ) (ops : List Operation) (offsets : List ℕ) (fault : Option (Fault × ℕ))
        → old.bytes ≡ Some bytes → ((at : ℕ) → fault ≡ Some (ReadFault, at) → ⊥) → ReadsFile bounds old new ops offsets fault
        → Reads bytes ops offsets fault }
    ensures reads { (bounds : Bounds) (old new : Stream) (ops : List Operation) (offsets : List ℕ) (fault : Option (Fault × ℕ))
        → ReadsFile bounds old new ops offsets fault → new.calls ≤ old.calls + bounds.reads }
{}

/// A file of as many bytes as are allowed is whole, where as many reads are allowed and one more, and none fails; a
/// longer one is not. Where more reads are allowed than bytes, as for a file, they are not used up.
pub fn bounds()
    ensures whole { (bounds : Bounds) (old new : Stream) (bytes : List ℕ) (ops : List Operation) (offsets : List ℕ) (fault : Option (Fault × ℕ))
        → old.bytes ≡ Some bytes → length bytes ≤ bounds.bytes → length bytes < bounds.reads → new.failures ≡ old.failures
        → ReadsFile bounds old new ops offsets fault → Reads bytes ops offsets fault }
    ensures within { (bounds : Bounds) (old new : Stream) (bytes : List ℕ) (ops : List Operation) (offsets : List ℕ) → old.bytes ≡ Some bytes
        → ReadsFile bounds old new ops offsets None → length bytes ≤ bounds.bytes }
    ensures enough { (bounds : Bounds) (old new : Stream) (bytes : List ℕ) → bounds.bytes < bounds.reads → IsStopped old new bounds bytes
        → FailsAfter old new bytes ⊎ PassesBytes old new bounds bytes }
{}

/// Stamps have at most one list of spans that keeps the rules of an operation: two lists that keep them
/// and have the same stamps are the same.
pub fn spans()
    ensures one_list { (one other : List Span) → are_spans one ≡ true → are_spans other ≡ true
        → ((stamp : Stamp) → list_any (λ span. is_in_span span stamp) one ≡ list_any (λ span. is_in_span span stamp) other) → one ≡ other }
{}
