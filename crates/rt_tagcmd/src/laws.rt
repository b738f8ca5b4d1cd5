// Laws of the definitions, each the contract of a function that does nothing.
ghost use Rattle.std.specs.Prelude.{◌≡◌, ◌<◌, ℕ, Bool, List, All, AllPairs, Any, Contains};
ghost use Rattle.rt_marks.specs.Marks.{AreAscending};
ghost use Rattle.rt_stamps.specs.Words.{Word};
ghost use Rattle.rt_tags.specs.Tags.{HaveNoRepeats, is_listed};
ghost use Rattle.rt_tagcmd.specs.MarkCommands.{by_bytes};
ghost use Rattle.rt_tagcmd.specs.TagRanges.{IsIn, IsMaximal, passing_ranges};
ghost use Rattle.rt_store.specs.Tagged.{Passes};
ghost use Rattle.rt_plans.specs.declared.range.Range.{Range};

/// The ranges whose characters pass a test are the maximal ones: each is maximal, each place that
/// passes is in one, a place that doesn't lies between one and the next, and each maximal range is
/// one of them.
pub fn tag_ranges<A>()
    ensures maximal { (test : A → Bool) (characters : List A) → All (IsMaximal test characters) (passing_ranges test characters) }
    ensures covering { (test : A → Bool) (characters : List A) (place : ℕ) → Passes test characters place
        → Any (IsIn place) (passing_ranges test characters) }
    ensures apart { (test : A → Bool) (characters : List A) → AllPairs (λ range later. range.to < later.from) (passing_ranges test characters) }
    ensures each { (test : A → Bool) (characters : List A) (range : Range) → IsMaximal test characters range
        → Contains (passing_ranges test characters) range }
{}

/// Names in order by their bytes are the same names, and of those that are there once each comes before
/// the ones with greater bytes.
pub fn names_by_bytes()
    ensures same { (names : List Word) (name : Word) → is_listed name (by_bytes names) ≡ is_listed name names }
    ensures ascending { (names : List Word) → HaveNoRepeats names → AreAscending (by_bytes names) }
{}
