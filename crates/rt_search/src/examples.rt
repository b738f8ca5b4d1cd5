// Worked examples of the definitions, each a clause that computes (Tk text manual, "search").
ghost use Rattle.std.specs.Prelude.{◌≡◌, ℕ, List, [], ◌∷◌, codes, None, Some};
ghost use Rattle.rt_search.specs.declared.search.Overlaps.TheVariants.{PassedOver, Taken};
ghost use Rattle.rt_search.specs.Examples.{backwards, forwards, strictly, strictly_backwards};
ghost use Rattle.rt_search.specs.Searches.{all_matches, first_match};

/// Without a stop a search goes on at the other end. Backwards the first place is the one before the start.
pub fn directions()
    ensures first { first_match forwards (codes "ab") (codes "abab\n") 0 None ≡ Some 0 }
    ensures behind { first_match forwards (codes "ab") (codes "abab\n") 1 None ≡ Some 2 }
    ensures around { first_match forwards (codes "ab") (codes "abab\n") 3 None ≡ Some 0 }
    ensures last { first_match backwards (codes "ab") (codes "abab\n") 4 None ≡ Some 2 }
    ensures before { first_match backwards (codes "ab") (codes "abab\n") 2 None ≡ Some 0 }
    ensures around_backwards { first_match backwards (codes "ab") (codes "abab\n") 0 None ≡ Some 2 }
    ensures stopped { first_match forwards (codes "ab") (codes "abab\n") 3 (Some 4) ≡ None }
    ensures nowhere { first_match forwards (codes "ba") (codes "ab\n") 0 None ≡ None }
{}

/// A match begins before the stop. With strict limits it ends there or before it too.
pub fn limits()
    ensures up_to_the_stop { first_match strictly (codes "ab") (codes "ab\n") 0 (Some 2) ≡ Some 0 }
    ensures over_the_stop { first_match strictly (codes "ab") (codes "ab\n") 0 (Some 1) ≡ None }
    ensures not_strict { first_match forwards (codes "ab") (codes "ab\n") 0 (Some 1) ≡ Some 0 }
    ensures up_to_the_start { first_match strictly_backwards (codes "ab") (codes "abab\n") 4 (Some 1) ≡ Some 2 }
    ensures over_the_start { first_match strictly_backwards (codes "ab") (codes "abab\n") 3 (Some 1) ≡ None }
    ensures not_strict_backwards { first_match backwards (codes "ab") (codes "abab\n") 3 (Some 1) ≡ Some 2 }
{}

/// A search for all passes over a match that overlaps one that it has taken, or takes it too.
pub fn overlaps()
    ensures passed_over { all_matches PassedOver forwards (codes "aa") (codes "aaaaa\n") 0 None ≡ 0 ∷ 2 ∷ [] }
    ensures taken { all_matches Taken forwards (codes "aa") (codes "aaaaa\n") 0 None ≡ 0 ∷ 1 ∷ 2 ∷ 3 ∷ [] }
    ensures falling { all_matches PassedOver backwards (codes "aa") (codes "aaaaa\n") 5 None ≡ 3 ∷ 1 ∷ [] }
    ensures around { all_matches PassedOver forwards (codes "aa") (codes "aaaaa\n") 1 None ≡ 1 ∷ 3 ∷ [] }
{}
